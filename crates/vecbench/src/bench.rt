//! Runs the tasks of the input.
ghost use Rattle.std.specs.Prelude.{◌≡◌, Some};
ghost use Rattle.vecbench.specs.Faults.{IsFaultOf, status_of, fault_text};

use crate::{ours, standard};
use benchcases::lines::{Mode, Task, task_of};
use std::alloc::Global;
use std::io::ErrorKind;
use std::rt::Clock;
use std::time::{Duration, Instant};
use std::{fmt, io};

/// An error that ends the program.
#[derive(Drop)]
pub enum Fault {
    /// The line of this number, counted from 1, is not a task.
    BadLine(u64),
    /// An allocation failed.
    OutOfMemory,
    /// Reading, writing or the clock failed.
    InputOutput,
}

impl Fault {
    /// Returns the exit status of the process.
    pub fn status(&self) -> u8
        ensures { result ≡ status_of self.now }
    {
        match self {
            Fault::BadLine(_) => 1,
            Fault::OutOfMemory => 2,
            Fault::InputOutput => 3,
        }
    }
}

impl fmt::Display for Fault {
    ghost output = { λ fault. Some (fault_text fault) };

    fn fmt<W: fmt::Write>(&self, f: &mut fmt::Formatter<W>) -> fmt::Result {
        match self {
            Fault::BadLine(number) => write!(f, "bad line {number}"),
            Fault::OutOfMemory => write!(f, "out of memory"),
            Fault::InputOutput => write!(f, "input or output failed"),
        }
    }
}

impl From<io::Error> for Fault {
    ghost from_gives = { IsFaultOf };

    fn from(error: io::Error) -> Fault {
        match error.kind() {
            ErrorKind::OutOfMemory => Fault::OutOfMemory,
            _ => Fault::InputOutput,
        }
    }
}

/// The vectors that the cases run on.
pub trait Lists: Sized + Drop {
    /// Returns the vectors as the case expects them, or `None` if an allocation fails.
    fn try_new(alloc: Global, task: Task<'_>) -> Option<Self>;

    /// Runs the case, and returns whether every allocation succeeded.
    fn run(&mut self, task: Task<'_>) -> bool;

    /// Returns the checksum of the elements of the vectors.
    fn checksum(&self) -> u64;
}

/// A measurement: the time of the fastest run, if the case was run, and the checksum.
#[derive(Clone, Copy, Drop)]
struct Measure {
    time: Option<Duration>,
    checksum: u64,
}

/// Runs the task of each line and prints its result.
///
/// # Errors
/// The first line that is not a task, a failed allocation, or a failure to read or write or of the
/// clock.
pub fn bench<R: Input + Print + Clock + Alloc<A = Global>>(rt: &R) -> Result<(), Fault> {
    let alloc = rt.alloc();
    let mut number: u64 = 0;
    for line in rt.lines(rt.alloc()) {
        let line = line?;
        number = number.wrapping_add(1);
        if line.as_str().trim_ascii().is_empty() {
            continue;
        }
        let Some(task) = task_of(line.as_str()) else {
            return Err(Fault::BadLine(number));
        };
        run_task(rt, alloc, task)?;
    }
    Ok(())
}

// Runs a task over both vectors and prints its line.
fn run_task<R: Print + Clock>(rt: &R, alloc: Global, task: Task<'_>) -> Result<(), Fault> {
    let first: Measure = measure_best::<ours::Vectors, R>(rt, alloc, task)?;
    let second: Measure = measure_best::<standard::Vectors, R>(rt, alloc, task)?;
    let (name, count) = (task.name, task.count);
    let (a, b) = (first.checksum, second.checksum);
    match (first.time, second.time) {
        (Some(ours), Some(standard)) => {
            let x = PerElement { time: ours, count };
            let y = PerElement {
                time: standard,
                count,
            };
            println!(rt; "{name} {count} {x} {y} {a} {b}")?;
        }
        _ => println!(rt; "{name} {count} {a} {b}")?,
    }
    Ok(())
}

// Prepares the vectors and runs the case on them, as often as the task says.
fn measure_best<L: Lists, R: Clock>(
    clock: &R,
    alloc: Global,
    task: Task<'_>,
) -> Result<Measure, Fault> {
    match task.mode {
        Mode::Time(repeat) => {
            let mut best = measure_once::<L, R>(clock, alloc, task)?;
            for _ in 1..repeat {
                let next = measure_once::<L, R>(clock, alloc, task)?;
                if next.time < best.time {
                    best = next;
                }
            }
            Ok(best)
        }
        Mode::Check => {
            let measure = measure_once::<L, R>(clock, alloc, task)?;
            Ok(Measure {
                time: None,
                checksum: measure.checksum,
            })
        }
        Mode::Setup => match L::try_new(alloc, task) {
            Some(lists) => Ok(Measure {
                time: None,
                checksum: lists.checksum(),
            }),
            None => Err(Fault::OutOfMemory),
        },
    }
}

// Prepares the vectors and runs the case on them once.
fn measure_once<L: Lists, R: Clock>(
    clock: &R,
    alloc: Global,
    task: Task<'_>,
) -> Result<Measure, Fault> {
    let Some(mut lists) = L::try_new(alloc, task) else {
        return Err(Fault::OutOfMemory);
    };
    let start = Instant::now(clock)?;
    let done = lists.run(task);
    let time = start.elapsed(clock)?;
    if !done {
        return Err(Fault::OutOfMemory);
    }
    Ok(Measure {
        time: Some(time),
        checksum: lists.checksum(),
    })
}

// A time for each of `count` elements, which is printed in nanoseconds with three decimals.
#[derive(Clone, Copy, Drop)]
struct PerElement {
    time: Duration,
    count: u32,
}

impl fmt::Display for PerElement {
    fn fmt<W: fmt::Write>(&self, f: &mut fmt::Formatter<W>) -> fmt::Result {
        let all = self.time.as_nanos().saturating_mul(1000) / u128::from(self.count.max(1));
        let whole = all / 1000;
        let (tenth, hundredth, thousandth) = (all / 100 % 10, all / 10 % 10, all % 10);
        write!(f, "{whole}.{tenth}{hundredth}{thousandth}")
    }
}
