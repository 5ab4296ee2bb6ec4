//! The steps of a test run. A run that found a fault is made again with fewer of them.

use crate::below::spread;
use crate::config::Config;
use crate::edge::{EDGES, name_of as edge_name_of};
use crate::fault::{Broken, Fault};
use crate::grown::name_of as growth_name_of;
use crate::random::Random;
use crate::reach::Report;
use crate::zoo::name_of;
use allocator_api2::vec::Vec;
use std::alloc::{AllocError, Global};
use std::fmt;

/// A step of each part of a test run, by its number from 0.
///
/// What it does depends on the seed and on this number, and on no other step.
#[derive(Clone, Copy, PartialEq, Eq, Debug)]
pub enum Step {
    /// A call of the library's collections.
    Call(u64),
    /// Requests that come to a claim.
    Edge(u64),
    /// A call of a vector that grows and shrinks by the allocator's own calls.
    Resize(u64),
}

impl Step {
    // Returns the random numbers of this step.
    fn random(self, config: Config) -> Random {
        let number = match self {
            Step::Call(number) => number.wrapping_mul(3),
            Step::Edge(number) => number.wrapping_mul(3).wrapping_add(1),
            Step::Resize(number) => number.wrapping_mul(3).wrapping_add(2),
        };
        Random::new(spread(config.seed.wrapping_add(spread(number))))
    }
}

/// The configuration of a run, with the script if steps are left out.
#[derive(Clone, Copy)]
pub(crate) struct Plan<'s> {
    pub config: Config,
    script: Option<&'s Script>,
}

impl<'s> Plan<'s> {
    /// Creates a plan of all steps.
    pub(crate) fn all(config: Config) -> Plan<'s> {
        Plan {
            config,
            script: None,
        }
    }

    /// Creates the plan of a script.
    pub(crate) fn of(script: &'s Script) -> Plan<'s> {
        Plan {
            config: script.config,
            script: Some(script),
        }
    }

    /// Returns the random numbers of a step, or `None` if it is left out.
    pub(crate) fn random(&self, step: Step) -> Option<Random> {
        match self.script {
            Some(script) if !script.has(step) => None,
            _ => Some(step.random(self.config)),
        }
    }

    /// Returns the result of a run, with the seed and the number of steps if it is a fault.
    pub(crate) fn signed(&self, outcome: Result<Report, Fault>) -> Result<Report, Fault> {
        match outcome {
            Ok(report) => Ok(report),
            Err(fault) => Err(Fault {
                seed: self.config.seed,
                steps: self.config.steps,
                ..fault
            }),
        }
    }
}

/// An allocator that can be tested again.
pub trait Replay {
    /// Makes the allocator anew, and tests it by the steps of `script`, by `replay` or its like.
    fn replay(&self, script: &Script) -> Result<Report, Fault>;
}

// Whether a step is made: yes, no, or not in the run that is tried now.
#[derive(Clone, Copy, PartialEq, Eq)]
enum Made {
    Yes,
    No,
    Tried,
}

/// The steps of each part of a test run, of which some are left out.
#[derive(Drop)]
pub struct Script {
    config: Config,
    steps: Vec<Made, Global>,
}

// The maximum number of times that all steps are tried.
const ROUNDS: u32 = 100;

impl Script {
    /// Creates the script of all steps that `stress` makes with `config`.
    ///
    /// # Errors
    /// `AllocError` if an allocation fails.
    pub fn new(books: Global, config: Config) -> Result<Script, AllocError> {
        let mut steps = Vec::new_in(books);
        let count = config.steps.saturating_mul(2).saturating_add(EDGES);
        for _ in 0..count {
            if steps.push(Made::Yes).is_err() {
                return Err(AllocError);
            }
        }
        Ok(Script { config, steps })
    }

    /// Returns the configuration.
    pub fn config(&self) -> Config {
        self.config
    }

    /// Returns the number of steps that are not left out.
    pub fn len(&self) -> usize {
        let mut count = 0usize;
        for made in self.steps.as_slice() {
            if *made == Made::Yes {
                count = count.saturating_add(1);
            }
        }
        count
    }

    /// Returns whether all steps are left out.
    pub fn is_empty(&self) -> bool {
        self.len() == 0
    }

    /// Returns whether a step is not left out.
    pub fn has(&self, step: Step) -> bool {
        let index = match step {
            Step::Call(number) => number,
            Step::Edge(number) => self.config.steps.saturating_add(number),
            Step::Resize(number) => self
                .config
                .steps
                .saturating_add(EDGES)
                .saturating_add(number),
        };
        self.steps.as_slice().get(index as usize) == Some(&Made::Yes)
    }

    /// Leaves out steps for as long as the others show a fault of the kind `broken`.
    ///
    /// First half of the steps are left out at once, then a quarter, and at last single ones. No
    /// other single step could then be left out.
    pub fn minimise<R: Replay>(&mut self, broken: Broken, subject: &R) {
        let mut size = self.steps.len() / 2;
        for _ in 0..ROUNDS {
            let is_smaller = self.leave_out(size.max(1), broken, subject);
            if size <= 1 && !is_smaller {
                break;
            }
            size = size / 2;
        }
    }

    // Tries to leave out so many steps at once, all in turn. Returns whether any was left out.
    fn leave_out<R: Replay>(&mut self, size: usize, broken: Broken, subject: &R) -> bool {
        let mut is_smaller = false;
        let mut from = 0usize;
        for _ in 0..self.steps.len() {
            let until = from.saturating_add(size);
            if self.turn(from, until, Made::Yes, Made::Tried) {
                let is_shown = match subject.replay(self) {
                    Ok(_) => false,
                    Err(fault) => fault.broken == broken,
                };
                let made = if is_shown { Made::No } else { Made::Yes };
                self.turn(from, until, Made::Tried, made);
                is_smaller = is_smaller || is_shown;
            }
            from = until;
        }
        is_smaller
    }

    // Changes the steps between two numbers that are `old`. Returns whether there was any.
    fn turn(&mut self, from: usize, until: usize, old: Made, new: Made) -> bool {
        let mut is_changed = false;
        for index in from..until.min(self.steps.len()) {
            if let Some(made) = self.steps.as_mut_slice().get_mut(index)
                && *made == old
            {
                *made = new;
                is_changed = true;
            }
        }
        is_changed
    }
}

// Writes one step.
fn write_step<W: fmt::Write>(f: &mut fmt::Formatter<W>, config: Config, step: Step) -> fmt::Result {
    match step {
        Step::Call(number) => {
            let (collection, call) = name_of(&mut step.random(config));
            writeln!(f, "call {number}: {collection}, {call}")
        }
        Step::Edge(number) => {
            let (claim, parts) = edge_name_of(number);
            writeln!(f, "edge {number}: {claim} in {parts} parts")
        }
        Step::Resize(number) => {
            let (vector, call) = growth_name_of(&mut step.random(config));
            writeln!(f, "resize {number}: {vector}, {call}")
        }
    }
}

impl fmt::Display for Script {
    fn fmt<W: fmt::Write>(&self, f: &mut fmt::Formatter<W>) -> fmt::Result {
        let config = self.config;
        writeln!(
            f,
            "{} of {} steps, seed {}",
            self.len(),
            self.steps.len(),
            config.seed
        )?;
        for number in 0..config.steps {
            if self.has(Step::Call(number)) {
                write_step(f, config, Step::Call(number))?;
            }
        }
        for number in 0..EDGES {
            if self.has(Step::Edge(number)) {
                write_step(f, config, Step::Edge(number))?;
            }
        }
        for number in 0..config.steps {
            if self.has(Step::Resize(number)) {
                write_step(f, config, Step::Resize(number))?;
            }
        }
        Ok(())
    }
}
