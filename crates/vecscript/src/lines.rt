//! Parsing the bytes of a script into commands.
ghost use Rattle.std.specs.Prelude.{◌≡◌, ◌≢◌, ℕ, ◌+◌, ◌++◌, ◌^◌, ◌<◌, ◌≤◌, ◌==◌, [], length, IfSome, IfNone, Option, MatchOption, codes, Bool, true, false, ◌⊎◌, IfOk, IfErr, OnOk, MatchBool, List, ◌∷◌, take, drop};
ghost use Rattle.std.specs.Iterator.{YieldsFirstRef, item_count};
ghost use Rattle.std.specs.List.{AllZip, position_or_len};
ghost use Rattle.std.specs.Str.{bytes_eq};
ghost use Rattle.std.specs.Str.Lines.{lines, strip_carriage_return};
ghost use Rattle.vecscript.specs.Faults.{IsFoundAmong, ReadsAs, ReadsAsOrOutOfMemory, Decides};
ghost use Rattle.vecscript.specs.Lines.{words_of, IsElement, IsNumber, AreNumberAndElement, AreNumbers, AreThreeNumbers, AreDrain, SaysKept, Denotes, Say, are_sparing, growth_in, command_lines, AreAfterBlank, Mean, IsBad, HasNoBad, IsFirstBad};
ghost use Rattle.vecscript.specs.Names.{SaysExtend, SaysSplice, SayAfter, SayAfterUncommon};

mod words;

use crate::script::Fault;
use allocator_api2::raw_vec::Growth;
use allocator_api2::runner::Command;
use allocator_api2::vec::Vec;
use std::alloc::Global;
use words::{Words, hint};

/// Returns the growth policy of the lists, the number of lines that choose it, and the text after
/// them.
///
/// If the first line with words is `sparing` alone, the lists grow sparingly, and the commands
/// follow it. Otherwise the lists grow by doubling, the number is 0, and the text is all of it.
/// Does not allocate.
pub fn chosen_growth(text: &[u8]) -> (Growth, usize, &[u8])
    ensures growth { result.0 ≡ growth_in (lines text.now) }
    ensures after { AreAfterBlank result.1 (lines result.2.now) (command_lines (lines text.now)) }
{
    let mut rest = Lines { rest: text };
    let mut count = 0;
    'blank: while let Some(line) = rest.next() {
        count += 1;
        match is_sparing(line) {
            None => {}
            Some(true) => return (Growth::Sparing, count, rest.rest),
            Some(false) => return (Growth::Doubling, 0, text),
        }
    }
    (Growth::Doubling, 0, text)
}

// Returns whether the words of the line are `sparing` alone, or `None` if it has no words.
fn is_sparing(line: &[u8]) -> Option<bool>
    ensures { MatchOption result (words_of line.now ≡ [])
        (λ b. (words_of line.now ≢ []) × (b ≡ are_sparing (words_of line.now))) }
{
    let mut words = Words { rest: line };
    match (words.next()?, words.next()) {
        (b"sparing", None) => Some(true),
        _ => Some(false),
    }
}

/// Returns why these lines could not be run: the first bad line, or else a failed allocation.
///
/// Does not allocate.
pub fn fault(text: &[u8]) -> Fault
    ensures found { IsFoundAmong (lines text.now) result × (result ≢ Fault.InputOutput) }
    ensures good_if_out_of_memory { result ≡ Fault.OutOfMemory → HasNoBad (lines text.now) }
{
    match first_bad(text) {
        Some(number) => Fault::BadLine(number),
        None => Fault::OutOfMemory,
    }
}

/// Returns the number of the first line that is not a command, counted from 1.
///
/// Returns `None` if each line is a command or has no words. Does not allocate.
pub fn first_bad(text: &[u8]) -> Option<usize>
    ensures { MatchOption result (HasNoBad (lines text.now)) (IsFirstBad (lines text.now)) }
{
    for (index, line) in (Lines { rest: text }).enumerate() {
        if !is_good(line) {
            return Some(index + 1);
        }
    }
    None
}

// Returns whether the line is a command or has no words.
#[tactic(auto, using(crate::proofs::Looks::good_if_said))]
#[inline(never)]
fn is_good(line: &[u8]) -> bool
    ensures { MatchBool result (¬ (IsBad line.now)) (IsBad line.now) }
{
    let mut words = Words { rest: line };
    let Some(name) = words.next() else {
        return true;
    };
    says_command(name, Line { number: 0, words })
}

// Returns whether a line that begins with this word says a command.
fn says_command(name: &[u8], line: Line<'_>) -> bool
    ensures { Decides result (Say (name.now ∷ words_of line.entry.words.rest.now)) }
{
    match name {
        _ if name == b"extend".as_slice() => is_extension(line),
        _ if name == b"splice".as_slice() => is_replacement(line),
        _ => is_command(name, line),
    }
}

// Returns whether the rest of the line has the arguments of the command of this name.
fn is_command(name: &[u8], line: Line<'_>) -> bool
    ensures { Decides result (SayAfter name.now (words_of line.entry.words.rest.now)) }
{
    match command(name, line) {
        Ok(_) => true,
        Err(_) => false,
    }
}

// Returns whether `extension` can parse the rest of the line.
fn is_extension(mut line: Line<'_>) -> bool
    ensures { Decides result (SaysExtend (words_of line.entry.words.rest.now)) }
{
    let Some(_) = line.words.hint() else {
        return false;
    };
    are_elements(line.words)
}

// Returns whether `replacement` can parse the rest of the line.
fn is_replacement(mut line: Line<'_>) -> bool
    ensures { Decides result (SaysSplice (words_of line.entry.words.rest.now)) }
{
    let Some(_) = line.words.number() else {
        return false;
    };
    let Some(_) = line.words.number() else {
        return false;
    };
    let Some(_) = line.words.hint() else {
        return false;
    };
    are_elements(line.words)
}

// Returns whether all words are elements.
fn are_elements(mut words: Words<'_>) -> bool
    ensures { Decides result (AllZip (Denotes (2 ^ 32)) (words_of words.entry.rest.now)) }
{
    'each: while !words.is_empty() {
        let Some(_) = words.element() else {
            return false;
        };
    }
    true
}

// The number of bytes of a script that are run at a time, with the rest of the last line. The
// first-level cache can hold their commands.
const PIECE: usize = 4096;

// The number of bytes of the shortest line of a command: `pop` and a line feed. The vector for the
// commands of a piece gets capacity for as many such lines as begin in it.
const SHORT_LINE: usize = 4;

// The greatest number of elements, or of capacity, that a command may request before the lines
// after it are checked.
const MANY: usize = 1024;

// The least number of digits of a number above `MANY`.
const MANY_DIGITS: usize = 4;

// Returns whether the command requests many elements, or much capacity, by a number. A command with
// its elements in its line does not.
fn requests_many(command: &Command<u32>) -> bool {
    match command {
        Command::Reserve(n) | Command::ReserveExact(n) | Command::Resize(n, _) => *n > MANY,
        Command::ExtendFromWithin(from, to) => to.saturating_sub(*from) > MANY,
        Command::Extend { hint: Some(n), .. } | Command::Splice { hint: Some(n), .. } => *n > MANY,
        _ => false,
    }
}

/// The remaining lines of a script, which are to be run.
#[derive(Drop)]
pub struct Rest<'a> {
    /// The text of the lines.
    pub text: &'a [u8],
    // Whether all of them were checked.
    is_seen: bool,
}

impl<'a> Rest<'a> {
    /// Returns all lines of the text, as the remaining ones.
    pub fn of(text: &'a [u8]) -> Rest<'a>
        ensures { result.text.now ≡ text.now }
    {
        Rest {
            text,
            is_seen: false,
        }
    }

    /// Removes a piece of the lines from the front, and returns their commands, in order.
    ///
    /// If a command requests many elements or much capacity, the lines after the piece are checked
    /// first. So little is done if one of them is bad. They are checked once for the script.
    ///
    /// Allocates for the commands.
    ///
    /// # Errors
    /// Any fault says that the piece cannot be run.
    pub fn next_commands(&mut self, alloc: Global) -> Result<Vec<Command<u32>, Global>, Fault>
        ensures parsed { IfOk result (λ commands. (piece : List (List ℕ))
            × (lines self.old.text.now ≡ piece ++ lines self.new.text.now)
            × HasNoBad piece × Mean piece commands.items) }
        ensures fewer { OnOk result (0 < length self.old.text.now →
            length self.new.text.now < length self.old.text.now) }
    {
        let (piece, others) = first_lines(self.text);
        let mut may_request_many = false;
        let read = commands(alloc, piece, &mut may_request_many)?;
        if may_request_many && !self.is_seen && read.as_slice().iter().any(requests_many) {
            if let Some(number) = first_bad(others) {
                return Err(Fault::BadLine(number));
            }
            self.is_seen = true;
        }
        self.text = others;
        Ok(read)
    }
}

// Returns the commands of the lines, in order. A line without words is not a command, but is
// counted. Sets the flag if one of the commands may request many elements or much capacity.
//
// Allocates for the commands. Returns `Fault::BadLine` for the first line that is not a command,
// and `Fault::OutOfMemory` if an allocation fails.
fn commands(
    alloc: Global,
    text: &[u8],
    may_request_many: &mut bool,
) -> Result<Vec<Command<u32>, Global>, Fault>
    ensures items { IfOk result (λ commands. Mean (lines text.now) commands.items) }
    ensures good { OnOk result (HasNoBad (lines text.now)) }
    ensures error { IfErr result
        (λ fault. IsFoundAmong (lines text.now) fault × (fault ≢ Fault.InputOutput)) }
{
    let mut commands = Vec::with_capacity_in(text.len().min(PIECE) / SHORT_LINE + 1, alloc)?;
    for (index, line) in (Lines { rest: text }).enumerate() {
        if let Some(command) = command_of_line(alloc, index + 1, line, may_request_many)? {
            commands.push(command)?;
        }
    }
    Ok(commands)
}

// Splits a text between two lines: after the first line that ends past the length of a piece, or at
// the end of the text.
fn first_lines(text: &[u8]) -> (&[u8], &[u8])
    ensures lines { lines text.now ≡ lines result.0.now ++ lines result.1.now }
    ensures fewer { 0 < length text.now → length result.1.now < length text.now }
{
    let least = text.len().min(PIECE);
    let (_, rest) = text.split_at(least);
    let end = least + line_length(rest);
    if end < text.len() {
        text.split_at(end + 1)
    } else {
        text.split_at(end)
    }
}

// The lines of a text, as `str::lines` returns them: one carriage return before a line feed is
// removed too.
#[derive(Drop)]
struct Lines<'a> {
    rest: &'a [u8],
}

impl<'a> Iterator for Lines<'a> {
    type Item = &'a [u8];

    ghost next_gives = { YieldsFirstRef (λ text. lines text.rest.now) };

    ghost remaining = { item_count (λ text. lines text.rest.now) };

    fn next(&mut self) -> Option<&'a [u8]> {
        if self.rest.is_empty() {
            return None;
        }
        let (line, end) = self.rest.split_at(line_length(self.rest));
        match end {
            [] => {
                self.rest = end;
                Some(line)
            }
            [_line_feed, rest @ ..] => {
                self.rest = rest;
                Some(without_carriage_return(line))
            }
        }
    }
}

// Returns the number of bytes before the first line feed of the text.
fn line_length(text: &[u8]) -> usize
    ensures length { result ≡ position_or_len (λ b. b == 10) text.now }
    ensures bound { result ≤ length text.now }
{
    text.iter().take_while(|byte| **byte != b'\n').count()
}

// Returns the line without the carriage return that ends it, if there is one: one and no more.
fn without_carriage_return(line: &[u8]) -> &[u8]
    ensures { result.now ≡ strip_carriage_return line.now }
{
    line.strip_suffix(b"\r").unwrap_or(line)
}

// Returns the command that the line says, or `None` if it has no words. Most lines are pushes, and
// are recognized by their bytes.
#[inline(always)]
fn command_of_line(
    alloc: Global,
    number: usize,
    line: &[u8],
    may_request_many: &mut bool,
) -> Result<Option<Command<u32>>, Fault>
    ensures parsed { IfOk result
        (λ command. MatchOption command (words_of line.now ≡ []) (Say (words_of line.now))) }
    ensures error { IfErr result
        (λ fault. (fault ≡ Fault.OutOfMemory) ⊎ ((fault ≡ Fault.BadLine number) × IsBad line.now)) }
{
    let mut words = Words { rest: line };
    let Some(name) = words.next() else {
        return Ok(None);
    };
    match pushed(name, number, words.rest) {
        Some(command) => Ok(Some(command?)),
        None => other_command(alloc, name, Line { number, words }, may_request_many),
    }
}

// Returns the push that a line with this first word and this rest says, or `None` if the word is
// not `push`.
#[inline(always)]
fn pushed(name: &[u8], number: usize, rest: &[u8]) -> Option<Result<Command<u32>, Fault>>
    ensures { MatchOption result (bytes_eq name.now (codes "push") ≡ false)
        (λ r. (name.now ≡ codes "push")
        × ReadsAs number (Say (codes "push" ∷ words_of rest.now)) r) }
{
    let words = Words { rest };
    match name {
        b"push" => Some(Line { number, words }.element().map(|x| Command::Push(x))),
        _ => None,
    }
}

// Returns the command of a line that begins with another word.
#[tactic(auto, using(crate::proofs::Looks::alone))]
#[inline(always)]
fn other_command(
    alloc: Global,
    name: &[u8],
    line: Line<'_>,
    may_request_many: &mut bool,
) -> Result<Option<Command<u32>>, Fault>
    ensures { ReadsAsOrOutOfMemory line.entry.number (λ command. MatchOption command ⊥
        (Say (name.now ∷ words_of line.entry.words.rest.now))) result }
{
    if line.words.rest.is_empty() {
        if let Some(command) = wordless(name) {
            return Ok(Some(command));
        }
    }
    longer_command(alloc, name, line, may_request_many)
}

// Returns the command that the name says alone, if it says one. These are tried first if the line
// ends with the name, since they are the fastest to parse.
#[inline(always)]
fn wordless(name: &[u8]) -> Option<Command<u32>>
    ensures { IfSome result (Say (name.now ∷ [])) }
{
    match name {
        b"pop" => Some(Command::Pop),
        b"clear" => Some(Command::Clear),
        b"dedup" => Some(Command::Dedup),
        b"append" => Some(Command::Append),
        b"retain" => Some(Command::Retain),
        _ => None,
    }
}

// Returns the command of a longer line. The other commands do not need its stack frame, and none of
// them requests many elements. Nor does this one if its words are too short for so many digits.
#[inline(always)]
fn longer_command(
    alloc: Global,
    name: &[u8],
    line: Line<'_>,
    may_request_many: &mut bool,
) -> Result<Option<Command<u32>>, Fault>
    ensures { ReadsAsOrOutOfMemory line.entry.number (λ command. MatchOption command ⊥
        (Say (name.now ∷ words_of line.entry.words.rest.now))) result }
{
    if line.words.rest.len() > MANY_DIGITS {
        *may_request_many = true;
    }
    Ok(Some(named_command(alloc, name, line)?))
}

// Returns the command of a line that begins with this word. Not inlined, so that the code of the
// callers is short.
#[inline(never)]
fn named_command(alloc: Global, name: &[u8], mut line: Line<'_>) -> Result<Command<u32>, Fault>
    ensures { ReadsAsOrOutOfMemory line.entry.number
        (Say (name.now ∷ words_of line.entry.words.rest.now)) result }
{
    match name {
        _ if name == b"extend".as_slice() => extension(alloc, line),
        _ if name == b"splice".as_slice() => replacement(alloc, line),
        _ => command(name, line),
    }
}

// Returns the command of this name, if the rest of the line has its arguments. A name is compared
// as bytes, by its length first.
#[inline(always)]
fn command(name: &[u8], mut line: Line<'_>) -> Result<Command<u32>, Fault>
    ensures { ReadsAs line.entry.number
        (SayAfter name.now (words_of line.entry.words.rest.now)) result }
{
    if let Some(command) = pushed(name, line.number, line.words.rest) {
        return command;
    }
    match name {
        _ if name == b"within".as_slice() => line.element().map(|x| Command::Within(x)),
        _ if name == b"pop".as_slice() => line.end().map(|()| Command::Pop),
        _ if name == b"insert".as_slice() => line
            .number_and_element()
            .map(|(index, x)| Command::Insert(index, x)),
        _ if name == b"remove".as_slice() => line.number().map(|n| Command::Remove(n)),
        _ if name == b"swap_remove".as_slice() => line.number().map(|n| Command::SwapRemove(n)),
        _ if name == b"truncate".as_slice() => line.number().map(|n| Command::Truncate(n)),
        _ if name == b"clear".as_slice() => line.end().map(|()| Command::Clear),
        _ if name == b"reserve".as_slice() => line.number().map(|n| Command::Reserve(n)),
        _ if name == b"reserve_exact".as_slice() => line.number().map(|n| Command::ReserveExact(n)),
        _ => uncommon_command(name, line),
    }
}

// Returns the command of one of the names that `command` does not handle itself.
#[inline(always)]
fn uncommon_command(name: &[u8], mut line: Line<'_>) -> Result<Command<u32>, Fault>
    ensures { ReadsAs line.entry.number
        (SayAfterUncommon name.now (words_of line.entry.words.rest.now)) result }
{
    match name {
        _ if name == b"shrink_to".as_slice() => line.number().map(|n| Command::ShrinkTo(n)),
        _ if name == b"split_off".as_slice() => line.number().map(|n| Command::SplitOff(n)),
        _ if name == b"append".as_slice() => line.end().map(|()| Command::Append),
        _ if name == b"extend_from_within".as_slice() => line
            .numbers()
            .map(|(from, to)| Command::ExtendFromWithin(from, to)),
        _ if name == b"resize".as_slice() => line
            .number_and_element()
            .map(|(len, x)| Command::Resize(len, x)),
        _ if name == b"retain".as_slice() => line.end().map(|()| Command::Retain),
        _ if name == b"dedup".as_slice() => line.end().map(|()| Command::Dedup),
        _ if name == b"drain".as_slice() => {
            line.drain().map(|(start, end, front, back, keep)| Command::Drain {
                start,
                end,
                front,
                back,
                keep,
            })
        }
        _ if name == b"extract".as_slice() => {
            line.three_numbers().map(|(start, end, take)| Command::ExtractIf { start, end, take })
        }
        _ => Err(line.bad()),
    }
}

// Returns the `Extend` of a line whose rest is the hint and then the elements. Allocates for the
// elements.
fn extension(alloc: Global, mut line: Line<'_>) -> Result<Command<u32>, Fault>
    ensures { ReadsAsOrOutOfMemory line.entry.number
        (SaysExtend (words_of line.entry.words.rest.now)) result }
{
    let Some(hint) = line.words.next().and_then(hint) else {
        return Err(line.bad());
    };
    let items = elements(alloc, line)?;
    Ok(Command::Extend { items, hint })
}

// Returns the `Splice` of a line whose rest is the range, the hint and then the elements. Allocates
// for the elements.
fn replacement(alloc: Global, mut line: Line<'_>) -> Result<Command<u32>, Fault>
    ensures { ReadsAsOrOutOfMemory line.entry.number
        (SaysSplice (words_of line.entry.words.rest.now)) result }
{
    let start = line.words.number();
    let end = line.words.number();
    let hint = line.words.next().and_then(hint);
    let (Some(start), Some(end), Some(hint)) = (start, end, hint) else {
        return Err(line.bad());
    };
    let items = elements(alloc, line)?;
    Ok(Command::Splice {
        start,
        end,
        items,
        hint,
    })
}

// Returns the elements that the words of the rest of the line denote, all of them. Allocates for
// them.
fn elements(alloc: Global, line: Line<'_>) -> Result<Vec<u32>, Fault>
    ensures { ReadsAsOrOutOfMemory line.entry.number
        (λ v. AllZip (Denotes (2 ^ 32)) (words_of line.entry.words.rest.now) v.items) result }
{
    let Line { number, mut words } = line;
    let mut items = Vec::new_in(alloc);
    'each: while !words.is_empty() {
        match words.element() {
            Some(x) => items.push(x)?,
            None => return Err(Fault::BadLine(number)),
        }
    }
    Ok(items)
}

// The rest of a line after its first word, and the number of the line.
#[derive(Drop)]
struct Line<'a> {
    number: usize,
    words: Words<'a>,
}

impl Line<'_> {
    // Returns the fault that this line is bad.
    fn bad(&self) -> Fault
        ensures { result ≡ Fault.BadLine self.now.number }
    {
        Fault::BadLine(self.number)
    }

    // Parses no word: fails if there is one.
    fn end(&mut self) -> Result<(), Fault>
        ensures empty { OnOk result (words_of self.old.words.rest.now ≡ []) }
        ensures error { IfErr result (λ fault. (fault ≡ Fault.BadLine self.old.number)
            × (words_of self.old.words.rest.now ≢ [])) }
    {
        if self.words.is_empty() {
            Ok(())
        } else {
            Err(self.bad())
        }
    }

    // Parses one word, an element, and returns it.
    #[inline]
    fn element(&mut self) -> Result<u32, Fault>
        ensures { ReadsAs self.old.number
            (IsElement (words_of self.old.words.rest.now)) result }
    {
        match (self.words.element(), self.words.is_empty()) {
            (Some(x), true) => Ok(x),
            _ => Err(self.bad()),
        }
    }

    // Parses one word, a number, and returns it.
    fn number(&mut self) -> Result<usize, Fault>
        ensures { ReadsAs self.old.number (IsNumber (words_of self.old.words.rest.now)) result }
    {
        match (self.words.number(), self.words.is_empty()) {
            (Some(n), true) => Ok(n),
            _ => Err(self.bad()),
        }
    }

    // Parses two words, numbers, and returns them.
    fn numbers(&mut self) -> Result<(usize, usize), Fault>
        ensures { ReadsAs self.old.number
            (AreNumbers (words_of self.old.words.rest.now)) result }
    {
        let first = self.words.number();
        let second = self.words.number();
        match (first, second, self.words.is_empty()) {
            (Some(m), Some(n), true) => Ok((m, n)),
            _ => Err(self.bad()),
        }
    }

    // Parses three words, numbers, and returns them.
    fn three_numbers(&mut self) -> Result<(usize, usize, usize), Fault>
        ensures { ReadsAs self.old.number
            (AreThreeNumbers (words_of self.old.words.rest.now)) result }
    {
        let first = self.words.number();
        let second = self.words.number();
        let third = self.words.number();
        match (first, second, third, self.words.is_empty()) {
            (Some(l), Some(m), Some(n), true) => Ok((l, m, n)),
            _ => Err(self.bad()),
        }
    }

    // Parses two words, a number and an element, and returns them.
    fn number_and_element(&mut self) -> Result<(usize, u32), Fault>
        ensures { ReadsAs self.old.number
            (AreNumberAndElement (words_of self.old.words.rest.now)) result }
    {
        let number = self.words.number();
        let element = self.words.element();
        match (number, element, self.words.is_empty()) {
            (Some(n), Some(x), true) => Ok((n, x)),
            _ => Err(self.bad()),
        }
    }

    // Parses five words, four numbers and whether the others are kept, and returns them.
    fn drain(&mut self) -> Result<(usize, usize, usize, usize, bool), Fault>
        ensures { ReadsAs self.old.number (AreDrain (words_of self.old.words.rest.now)) result }
    {
        let start = self.words.number();
        let end = self.words.number();
        let front = self.words.number();
        let back = self.words.number();
        let keep = self.words.next().and_then(says_keep);
        match (start, end, front, back, keep, self.words.is_empty()) {
            (Some(start), Some(end), Some(front), Some(back), Some(keep), true) => {
                Ok((start, end, front, back, keep))
            }
            _ => Err(self.bad()),
        }
    }
}

// Returns whether the remaining elements of a range are kept, or `None` if the word says neither.
fn says_keep(word: &[u8]) -> Option<bool>
    ensures some { IfSome result (SaysKept word.now) }
    ensures none { IfNone result ((b : Bool) → ¬ (SaysKept word.now b)) }
{
    match word {
        b"keep" => Some(true),
        b"drop" => Some(false),
        _ => None,
    }
}
