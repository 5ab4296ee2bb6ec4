//! Running a script, from its first byte to the exit status.
ghost use Rattle.std.specs.Prelude.{◌≡◌, ◌≢◌, ◌+◌, ◌++◌, ◌^◌, ◌<◌, ◌%◌, ◌==◌, ◌⊎◌, ℕ, List, length, Some, IfSome, IfOk, OnOk, IfErr};
ghost use Rattle.std.specs.Io.KnownBytes.{Keeps, Appends};
ghost use Rattle.std.specs.Str.Lines.{lines};
ghost use Rattle.aa_vec.specs.Closures.{CallableAtPairMut};
ghost use Rattle.aa_vec.specs.Choosing.{CallableAtMut};
ghost use Rattle.allocator_api2.specs.Machine.{calls_of, state_of};
ghost use Rattle.allocator_api2.specs.Run.{RunsTo};
ghost use Rattle.vecscript.specs.Faults.{IsFoundIn, IsFoundAmong, after, NamesNoLine, IsFaultOf, status_of, fault_text};
ghost use Rattle.vecscript.specs.Lines.{HasNoBad, IsFirstBad, command_lines};
ghost use Rattle.vecscript.specs.Print.{AppendsBeginning, line_of};
ghost use Rattle.vecscript.specs.Runs.{element_size, RunsLines, IsTranscript, script_calls};
ghost use Rattle.vecscript.specs.declared.script.Fault.{Fault};
ghost use Rattle.vecscript.specs.declared.script.Fault.TheVariants.{OutOfMemory, InputOutput};

use crate::lines;
use crate::lines::Rest;
use crate::print::{print_lists, print_replies};
use crate::reading::Reading;
use crate::writing::write_text;
use allocator_api2::collections::{Refused, TryReserveError};
use allocator_api2::runner::{Command, Reply, run};
use allocator_api2::vec::Vec;
use std::alloc::Global;
use std::fmt::InlineText;
use std::io::{ErrorKind, Read, Write};
use std::{fmt, io};

/// Why running a script failed.
#[derive(Debug, Drop)]
pub enum Fault {
    /// The line of this number, counted from 1, is not a command.
    BadLine(usize),
    /// An allocation failed outside the run of the commands.
    OutOfMemory,
    /// Reading or writing failed.
    InputOutput,
}

impl Fault {
    // Returns the exit status for this fault.
    fn status(&self) -> u8
        ensures { result ≡ status_of self.now }
    {
        match self {
            Fault::BadLine(_) => 1,
            Fault::OutOfMemory => 2,
            Fault::InputOutput => 3,
        }
    }

    // Returns the same fault of lines that follow `before` others.
    fn after(self, before: usize) -> Fault
        requires { (number : ℕ) → self ≡ Fault.BadLine number → before + number < 2 ^ 64 }
        ensures { result ≡ after before self }
    {
        match self {
            Fault::BadLine(number) => Fault::BadLine(before + number),
            fault => fault,
        }
    }
}

impl fmt::Display for Fault {
    ghost output = { λ fault. Some (fault_text fault) };

    fn fmt<W: fmt::Write>(&self, f: &mut fmt::Formatter<W>) -> fmt::Result {
        match self {
            Fault::BadLine(number) => write!(f, "bad line {number}"),
            Fault::OutOfMemory => write!(f, "out of memory"),
            Fault::InputOutput => write!(f, "input or output failed"),
        }
    }
}

impl From<TryReserveError> for Fault {
    ghost from_gives = { λ _ fault. fault ≡ OutOfMemory };

    fn from(_: TryReserveError) -> Fault {
        Fault::OutOfMemory
    }
}

impl<S: Drop> From<Refused<S>> for Fault {
    ghost from_gives = { λ _ fault. fault ≡ OutOfMemory };

    fn from(_: Refused<S>) -> Fault {
        Fault::OutOfMemory
    }
}

impl From<io::Error> for Fault {
    ghost from_gives = { IsFaultOf };

    fn from(error: io::Error) -> Fault {
        match error.kind() {
            ErrorKind::OutOfMemory => Fault::OutOfMemory,
            _ => Fault::InputOutput,
        }
    }
}

/// Reads a script, runs it, and prints the replies and the lists, or reports the fault.
///
/// Returns the exit status of the process:
///
/// - 0: the script ran.
/// - 1: a line is not a command. The fault names the first such line.
/// - 2: an allocation failed, for the text, the commands, the replies or what is printed.
/// - 3: reading or writing failed, for lack of memory or another reason.
///
/// With 1 and 2 nothing is written to `output`, and with 3 at most a beginning of what the script
/// prints. The line of the fault is written to `faults`, or a beginning of it if a write fails,
/// which does not change the status.
///
/// `retain` keeps the even numbers, and `dedup` compares by equality. Allocates with `alloc`.
pub fn script<R: Read, W: Write, E: Write>(
    alloc: Global,
    input: &mut R,
    output: &mut W,
    faults: &mut E,
) -> u8
    // The status is one of these four.
    ensures status { result < 4 }

    // If the bytes of the reader are known, these say what its lines are, and what is printed.
    ensures good { result ≡ 0 →
        IfSome (R.remaining input.old) (λ text. HasNoBad (command_lines (lines text))) }
    ensures printed { result ≡ 0 → IfSome (R.remaining input.old) (λ text. (transcript : List ℕ)
        × IsTranscript (script_calls ⟦<Global as Clone>⟧.is_clone
        ⟦<Global as Clone>⟧.is_infallible) alloc tt tt (lines text) transcript
        × Appends (W.contents output.old) (W.contents output.new) transcript) }
    ensures bad { result ≡ 1 →
        IfSome (R.remaining input.old)
        (λ text. (number : ℕ) × IsFirstBad (command_lines (lines text)) number) }

    // Nothing but a beginning of what the script prints is written, and nothing with 1 and 2.
    ensures bad_prints_nothing { result ≡ 1 →
        Keeps (W.contents output.old) (W.contents output.new) }
    ensures out_of_memory_prints_nothing { result ≡ 2 →
        Keeps (W.contents output.old) (W.contents output.new) }
    ensures part { Keeps (W.contents output.old) (W.contents output.new)
        ⊎ IfSome (R.remaining input.old) (λ text. (transcript : List ℕ)
        × IsTranscript (script_calls ⟦<Global as Clone>⟧.is_clone
        ⟦<Global as Clone>⟧.is_infallible) alloc tt tt (lines text) transcript
        × AppendsBeginning (W.contents output.old) (W.contents output.new) transcript) }

    // The line of a fault is written to `faults`, or a beginning of it, and nothing else.
    ensures reported { result ≢ 0 → (fault : Fault) × (result ≡ status_of fault)
        × IsFoundIn (R.remaining input.old) fault
        × AppendsBeginning (E.contents faults.old) (E.contents faults.new)
        (line_of (fault_text fault)) }
    ensures good_reports_nothing { result ≡ 0 →
        Keeps (E.contents faults.old) (E.contents faults.new) }
{
    let mut keep = |x: &mut u32|
        ensures { (result ≡ (x.old % 2 == 0)) × (x.new ≡ x.old) }
    { *x % 2 == 0 };
    let mut same = |x: &mut u32, y: &mut u32|
        ensures { (result ≡ (x.old == y.old)) × (x.new ≡ x.old) × (y.new ≡ y.old) }
    { *x == *y };
    match run_script(alloc, input, &mut keep, &mut same, output) {
        Ok(()) => 0,
        Err(fault) => {
            report(&fault, faults);
            fault.status()
        }
    }
}

/// Reads a script, runs it with these closures, and prints the replies and the lists.
///
/// The closures may be called for every element in every state. Allocates for the text, the
/// commands, the replies and what is printed.
///
/// # Errors
/// `Fault::BadLine` with the number of the first line that is not a command; `Fault::OutOfMemory`
/// if an allocation fails; `Fault::InputOutput` if a read or a write fails. Only with the last may
/// something be printed, which is a beginning of the text.
pub fn run_script<R, W, K, S>(
    alloc: Global,
    input: &mut R,
    keep: &mut K,
    same: &mut S,
    output: &mut W,
) -> Result<(), Fault>
where
    R: Read,
    W: Write,
    K: FnMut(&mut u32) -> bool,
    S: FnMut(&mut u32, &mut u32) -> bool,
    // The closures may be called for all elements.
    requires keep { (k : K) (x : ℕ) → CallableAtMut K.FnMut k x }
    requires same { (s : S) (x y : ℕ) → CallableAtPairMut S.FnMut s x y }

    // If the bytes of the reader are known, these say what its lines are, and what is printed.
    ensures good { OnOk result
        (IfSome (R.remaining input.old) (λ text. HasNoBad (command_lines (lines text)))) }
    ensures printed { OnOk result (IfSome (R.remaining input.old) (λ text. (transcript : List ℕ)
        × IsTranscript (calls_of ⟦<Global as Clone>⟧.is_clone
        ⟦<Global as Clone>⟧.is_infallible K.FnMut S.FnMut) alloc keep.old same.old
        (lines text) transcript
        × Appends (W.contents output.old) (W.contents output.new) transcript)) }
    ensures error { IfErr result (IsFoundIn (R.remaining input.old)) }

    // Nothing but a beginning of what the script prints is written, and nothing with 1 and 2.
    ensures nothing_printed { IfErr result (λ fault. status_of fault < 3 →
        Keeps (W.contents output.old) (W.contents output.new)) }
    ensures part { Keeps (W.contents output.old) (W.contents output.new)
        ⊎ IfSome (R.remaining input.old) (λ text. (transcript : List ℕ)
        × IsTranscript (calls_of ⟦<Global as Clone>⟧.is_clone
        ⟦<Global as Clone>⟧.is_infallible K.FnMut S.FnMut) alloc keep.old same.old
        (lines text) transcript
        × AppendsBeginning (W.contents output.old) (W.contents output.new) transcript) }
{
    let text = read_text(alloc, input)?;
    let transcript = transcript(alloc, text, keep, same)?;
    print_transcript(&transcript, output)
}

// Reads the input to its end, and returns its text.
fn read_text<R: Read>(alloc: Global, input: &mut R) -> Result<std::vec::Vec<u8>, Fault>
    ensures text { IfOk result (λ text. IfSome (R.remaining input.old)
        (λ bytes. text.items ≡ bytes)) }
    ensures error { IfErr result NamesNoLine }
{
    let mut text = std::vec::Vec::new(alloc);
    Reading { reader: input }.read_to_end(&mut text)?;
    Ok(text)
}

// Runs the commands of the lines on two empty lists, one piece at a time, and returns the text of
// the replies and the lists. The lists grow as the script says. All of the text is collected before
// any of it is printed. If a piece cannot be run, all lines are searched for a bad one, which does
// not allocate. A bad line takes precedence over a failed allocation.
fn transcript<K, S>(
    alloc: Global,
    text: std::vec::Vec<u8>,
    keep: &mut K,
    same: &mut S,
) -> Result<std::vec::Vec<u8>, Fault>
where
    K: FnMut(&mut u32) -> bool,
    S: FnMut(&mut u32, &mut u32) -> bool,
    // The closures may be called for all elements.
    requires keep { (k : K) (x : ℕ) → CallableAtMut K.FnMut k x }
    requires same { (s : S) (x y : ℕ) → CallableAtPairMut S.FnMut s x y }

    // If all of it ran, no line is bad, and this is the text.
    ensures good { OnOk result (HasNoBad (command_lines (lines text.items))) }
    ensures printed { IfOk result (λ transcript. IsTranscript (calls_of ⟦<Global as Clone>⟧.is_clone
        ⟦<Global as Clone>⟧.is_infallible K.FnMut S.FnMut)
        alloc keep.old same.old (lines text.items) transcript.items) }

    // Otherwise the fault is the first bad line, or an allocation failed and no line is bad.
    ensures error { IfErr result (λ fault. IsFoundIn (Some text.items) fault
        × (fault ≢ InputOutput)) }
    ensures good_if_out_of_memory { IfErr result (λ fault. fault ≡ OutOfMemory →
        HasNoBad (command_lines (lines text.items))) }
{
    let (growth, before, commands) = lines::chosen_growth(&text);
    let mut main = Vec::with_growth_in(growth, alloc);
    let mut side = Vec::with_growth_in(growth, alloc);
    let mut transcript = std::vec::Vec::new(alloc);
    let mut rest = Rest::of(commands);
    'pieces: while !rest.text.is_empty() {
        let Ok(()) = run_piece(
            alloc,
            &mut rest,
            &mut main,
            &mut side,
            keep,
            same,
            &mut transcript,
        ) else {
            return Err(lines::fault(commands).after(before));
        };
    }
    drop(text);
    match print_lists(&mut transcript, &main, &side) {
        Ok(()) => Ok(transcript),
        Err(_) => Err(Fault::OutOfMemory),
    }
}

// Runs the commands of a piece of the lines, and appends the text of the replies.
fn run_piece<K, S>(
    alloc: Global,
    rest: &mut Rest<'_>,
    main: &mut Vec<u32, Global>,
    side: &mut Vec<u32, Global>,
    keep: &mut K,
    same: &mut S,
    transcript: &mut std::vec::Vec<u8>,
) -> Result<(), Fault>
where
    K: FnMut(&mut u32) -> bool,
    S: FnMut(&mut u32, &mut u32) -> bool,
    requires keep { (k : K) (x : ℕ) → CallableAtMut K.FnMut k x }
    requires same { (s : S) (x y : ℕ) → CallableAtPairMut S.FnMut s x y }
    ensures ran { OnOk result ((piece : List (List ℕ))
        × (lines rest.old.text.now ≡ piece ++ lines rest.new.text.now)
        × RunsLines (calls_of ⟦<Global as Clone>⟧.is_clone
        ⟦<Global as Clone>⟧.is_infallible K.FnMut S.FnMut)
        (state_of main.old side.old keep.old same.old) piece
        transcript.old.items transcript.new.items (state_of main.new side.new keep.new same.new)) }
    ensures fewer { OnOk result (0 < length rest.old.text.now →
        length rest.new.text.now < length rest.old.text.now) }
{
    let commands = rest.next_commands(alloc)?;
    let replies = run_all(alloc, commands, main, side, keep, same)?;
    print_replies(transcript, replies.as_slice())?;
    Ok(())
}

// Runs the commands, and returns the replies.
fn run_all<K, S>(
    alloc: Global,
    commands: Vec<Command<u32>, Global>,
    main: &mut Vec<u32, Global>,
    side: &mut Vec<u32, Global>,
    keep: &mut K,
    same: &mut S,
) -> Result<Vec<Reply<u32>, Global>, Fault>
where
    K: FnMut(&mut u32) -> bool,
    S: FnMut(&mut u32, &mut u32) -> bool,
    requires keep { (k : K) (x : ℕ) → CallableAtMut K.FnMut k x }
    requires same { (s : S) (x y : ℕ) → CallableAtPairMut S.FnMut s x y }
    ensures ran { IfOk result
        (λ replies. RunsTo element_size (calls_of ⟦<Global as Clone>⟧.is_clone
        ⟦<Global as Clone>⟧.is_infallible K.FnMut S.FnMut)
        (state_of main.old side.old keep.old same.old) commands.items replies.items
        (state_of main.new side.new keep.new same.new)) }
    ensures error { IfErr result (λ fault. fault ≡ OutOfMemory) }
{
    let mut replies = Vec::with_capacity_in(commands.len(), alloc)?;
    run(main, side, commands, keep, same, &mut replies);
    Ok(replies)
}

// The line of a fault, with its line feed.
#[derive(Drop)]
struct FaultLine<'a> {
    fault: &'a Fault,
}

impl fmt::Display for FaultLine<'_> {
    ghost output = { λ line. Some (line_of (fault_text line.fault.now)) };

    fn fmt<W: fmt::Write>(&self, f: &mut fmt::Formatter<W>) -> fmt::Result {
        write!(f, "{}\n", self.fault)
    }
}

// Writes the line of the fault at once, or a beginning of it if a write fails.
fn report<E: Write>(fault: &Fault, faults: &mut E)
    ensures { AppendsBeginning (E.contents faults.old) (E.contents faults.new)
        (line_of (fault_text fault.now)) }
{
    let text = InlineText::<64>::of(FaultLine { fault });
    let line = text.as_str().as_bytes();
    // A text that was truncated to fit ends in dots, and no line of a fault does.
    if line.ends_with(b"...") {
        return;
    }
    let _ = write_text(line, faults);
}

// Writes the text and flushes the output.
fn print_transcript<W: Write>(text: &[u8], output: &mut W) -> Result<(), Fault>
    ensures printed { OnOk result (Appends (W.contents output.old)
        (W.contents output.new) text.now) }
    ensures error { IfErr result (λ fault. fault ≡ InputOutput) }
    ensures part { AppendsBeginning (W.contents output.old) (W.contents output.new) text.now }
{
    write_text(text, output)?;
    output.flush().map_err(|_| Fault::InputOutput)
}
