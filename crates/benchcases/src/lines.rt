//! Parses lines into tasks.
ghost use Rattle.std.specs.Prelude.{◌≡◌, ◌≢◌, ◌<◌, ◌^◌, IfSome, IfNone, slice_index};
ghost use Rattle.std.specs.Option.{SomeIff};
ghost use Rattle.std.specs.Str.Parse.{IsNumeral, digits_value};
ghost use Rattle.benchcases.specs.Cases.{name_of};

use crate::case::Case;

/// What to do with a case.
#[derive(Clone, Copy, PartialEq, Drop)]
pub enum Mode {
    /// Run it so many times, and report the time of the fastest run.
    Time(u32),
    /// Run it once, and report no time.
    Check,
    /// Prepare it, but do not run it.
    Setup,
}

/// The task of a line.
#[derive(Clone, Copy, PartialEq, Drop)]
pub struct Task<'a> {
    pub mode: Mode,
    /// The name of the case.
    pub name: &'a str,
    pub case: Case,
    pub count: u32,
}

/// Returns the task of a line, or `None` if the line is not a task.
///
/// A task is `CASE COUNT [REPEAT]`, `check CASE COUNT` or `setup CASE COUNT`, with numbers above
/// 0.
pub fn task_of(line: &str) -> Option<Task<'_>>
    ensures above_0 { IfSome result (λ task. 0 < task.count) }
    ensures name { IfSome result (λ task. task.name.now ≡ name_of task.case) }
{
    let mut words = line.split_ascii_whitespace();
    let (mode, name) = match words.next()? {
        "check" => (Some(Mode::Check), words.next()?),
        "setup" => (Some(Mode::Setup), words.next()?),
        name => (None, name),
    };
    let case = Case::from_name(name)?;
    let count = positive(words.next()?)?;
    let mode = match (mode, words.next()) {
        (None, None) => Mode::Time(1),
        (None, Some(repeat)) => Mode::Time(positive(repeat)?),
        (Some(mode), None) => mode,
        (Some(_), Some(_)) => return None,
    };
    match words.next() {
        None => Some(Task {
            mode,
            name,
            case,
            count,
        }),
        Some(_) => None,
    }
}

// Returns the number above 0 that the word writes in decimal digits, if it fits in a `u32`.
fn positive(word: &str) -> Option<u32>
    ensures { SomeIff result
        (IsNumeral 10 word.now × (0 < digits_value 10 word.now)
        × (digits_value 10 word.now < 2 ^ 32))
        (digits_value 10 word.now) }
{
    match digits(word)?.parse() {
        Ok(0) => None,
        Ok(number) => Some(number),
        Err(_) => None,
    }
}

// Returns the word, if it begins with a digit, so that `parse` does not see a sign.
fn digits(word: &str) -> Option<&str>
    ensures text { IfSome result (λ text. text.now ≡ word.now) }
    ensures no_sign { IfSome result (λ _. slice_index word.now 0 ≢ 43) }
    ensures none { IfNone result (¬ (IsNumeral 10 word.now)) }
{
    match word.as_bytes() {
        [b'0'..=b'9', ..] => Some(word),
        _ => None,
    }
}
