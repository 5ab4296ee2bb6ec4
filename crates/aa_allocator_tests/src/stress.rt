//! The test run: random calls of vectors, boxes, boxed slices and texts over an allocator.
//!
//! A mark is written into each place and checked. The blocks that are returned to the inner
//! allocator are checked too.

use crate::below::{Below, Ledgers, Mismatch};
use crate::config::Config;
use crate::edge::{EDGES, Edges};
use crate::fault::{Broken, Fault};
use crate::grown::{Done, Growing};
use crate::reach::Report;
use crate::referee::{Breach, Referee, Refereed};
use crate::script::{Plan, Script, Step};
use crate::sets::Spot;
use crate::zoo::Zoo;
use aa_watched::watched::Watched;
use allocator_api2::vec::Vec;
use std::alloc::{AllocError, Allocator, Global};

/// Tests an allocator with random calls, drops it, and checks that no block of the inner allocator
/// leaks.
///
/// Returns the counts of the run. The same `Config` makes the same steps. The test suite allocates
/// its own data with `books`.
///
/// # Errors
/// The first fault that was found.
pub fn stress<B: Allocator, A: Allocator>(
    books: Global,
    below: &Below<B>,
    heap: A,
    config: Config,
) -> Result<Report, Fault> {
    stress_over(books, ledgers_of(below), heap, Plan::all(config))
}

/// Tests an allocator as `stress` does, by the steps of a script.
///
/// # Errors
/// The first fault that was found.
pub fn replay<B: Allocator, A: Allocator>(
    books: Global,
    below: &Below<B>,
    heap: A,
    script: &Script,
) -> Result<Report, Fault> {
    stress_over(books, ledgers_of(below), heap, Plan::of(script))
}

/// Tests an allocator over two inner ones with random calls, drops it, and checks that no block of
/// either leaks.
///
/// It also checks that each block is deallocated to the inner allocator that allocated it. Only
/// layouts are compared, so two blocks of one layout that are exchanged are not found. If `second`
/// is only called once `first` fails, `first` must fail at times, as a `Budget` does.
///
/// # Errors
/// The first fault that was found.
pub fn stress_over_two<B: Allocator, C: Allocator, A: Allocator>(
    books: Global,
    first: &Below<B>,
    second: &Below<C>,
    heap: A,
    config: Config,
) -> Result<Report, Fault> {
    stress_over(
        books,
        ledgers_of_two(first, second),
        heap,
        Plan::all(config),
    )
}

/// Tests an allocator over two inner ones as `stress_over_two` does, by the steps of a script.
///
/// # Errors
/// The first fault that was found.
pub fn replay_over_two<B: Allocator, C: Allocator, A: Allocator>(
    books: Global,
    first: &Below<B>,
    second: &Below<C>,
    heap: A,
    script: &Script,
) -> Result<Report, Fault> {
    stress_over(books, ledgers_of_two(first, second), heap, Plan::of(script))
}

// Returns the counts of one inner allocator.
fn ledgers_of<B: Allocator>(below: &Below<B>) -> Ledgers<'_> {
    Ledgers {
        first: below.watch(),
        second: None,
    }
}

// Returns the counts of two inner allocators.
fn ledgers_of_two<'a, B: Allocator, C: Allocator>(
    first: &'a Below<B>,
    second: &'a Below<C>,
) -> Ledgers<'a> {
    Ledgers {
        first: first.watch(),
        second: Some(second.watch()),
    }
}

// Tests an allocator, drops it, and checks that all blocks were deallocated.
fn stress_over<A: Allocator>(
    books: Global,
    below: Ledgers<'_>,
    heap: A,
    plan: Plan<'_>,
) -> Result<Report, Fault> {
    let result = stress_one(books, below, &heap, plan);
    drop(heap);
    plan.signed(and_all_freed(result, below))
}

/// Tests an allocator and then a clone of it with random calls, drops both, and checks that no
/// block of the inner allocator leaks.
///
/// Returns the sums of the counts of both runs, and the larger `kept`. If the clone fails, only the
/// allocator itself is tested.
///
/// # Errors
/// The first fault that was found, with `of_clone` set if the clone has it.
pub fn stress_with_clone<B: Allocator, A: Allocator + Clone>(
    books: Global,
    below: &Below<B>,
    heap: A,
    config: Config,
) -> Result<Report, Fault> {
    stress_both(books, ledgers_of(below), heap, Plan::all(config))
}

/// Tests an allocator and a clone of it as `stress_with_clone` does, by the steps of a script.
///
/// # Errors
/// The first fault that was found, with `of_clone` set if the clone has it.
pub fn replay_with_clone<B: Allocator, A: Allocator + Clone>(
    books: Global,
    below: &Below<B>,
    heap: A,
    script: &Script,
) -> Result<Report, Fault> {
    stress_both(books, ledgers_of(below), heap, Plan::of(script))
}

// Tests an allocator and its clone, drops both, and checks that all blocks were deallocated.
fn stress_both<A: Allocator + Clone>(
    books: Global,
    below: Ledgers<'_>,
    heap: A,
    plan: Plan<'_>,
) -> Result<Report, Fault> {
    let result = match stress_one(books, below, &heap, plan) {
        Ok(first) => and_clone(first, heap.clone(), books, below, plan),
        Err(fault) => Err(fault),
    };
    drop(heap);
    plan.signed(and_all_freed(result, below))
}

// Tests a clone too, if there is one, and adds its counts.
fn and_clone<A: Allocator>(
    first: Report,
    twin: Result<A, AllocError>,
    books: Global,
    below: Ledgers<'_>,
    plan: Plan<'_>,
) -> Result<Report, Fault> {
    match twin {
        Ok(twin) => Ok(first.and(stress_clone(books, below, twin, plan)?)),
        Err(_) => Ok(first),
    }
}

// Returns the report, if all blocks of the inner allocators were deallocated.
fn and_all_freed(outcome: Result<Report, Fault>, below: Ledgers<'_>) -> Result<Report, Fault> {
    let report = outcome?;
    check_all_freed(below)?;
    Ok(report)
}

// Tests a clone, and marks its faults as those of a clone.
fn stress_clone<A: Allocator>(
    books: Global,
    below: Ledgers<'_>,
    twin: A,
    plan: Plan<'_>,
) -> Result<Report, Fault> {
    match stress_one(books, below, &twin, plan) {
        Ok(report) => Ok(report),
        Err(fault) => Err(Fault {
            of_clone: true,
            ..fault
        }),
    }
}

// The size in bytes of the request that is made at the beginning and after each part.
const PROBE: usize = 4_096;

// Returns whether that request succeeds.
fn probe<H: Allocator>(heap: H) -> bool {
    Vec::<u8, H>::with_capacity_in(PROBE, heap).is_ok()
}

// Tests one handle: three times the same steps.
fn stress_one<A: Allocator>(
    books: Global,
    below: Ledgers<'_>,
    heap: &A,
    plan: Plan<'_>,
) -> Result<Report, Fault> {
    let refereed = Watched::with_watch(heap, Referee::new(plan.config, below));
    let granted = probe(&refereed);
    let first = part(books, below, &refereed, heap, plan, granted)?;
    let second = part(books, below, &refereed, heap, plan, granted)?;
    let third = part(books, below, &refereed, heap, plan, granted)?;
    let referee = refereed.watch();
    if grows(first, second) && grows(second, third) {
        return Err(Fault {
            step: referee.step(),
            ..fault_below(Broken::NeverPassesOn, below)
        });
    }
    Ok(Report {
        config: plan.config,
        steps: referee.step(),
        requests: referee.requests(),
        injected_failures: referee.injected_failures(),
        failures: referee.failures(),
        frees: referee.frees(),
        kept: third.bytes,
        reach: referee.reach(),
    })
}

// The state after a part.
#[derive(Clone, Copy)]
struct PartResult {
    // The number of bytes of the inner allocator that are allocated.
    bytes: u64,
    // The hash of its requests and their results.
    results: u64,
}

// Returns whether the second of two parts leaves more bytes allocated, though it had the same
// requests with the same results. If these differ, as over an inner allocator that fails at times,
// an allocator may keep more for good reason.
fn grows(first: PartResult, second: PartResult) -> bool {
    first.results == second.results && first.bytes < second.bytes
}

// Returns whether the probe succeeds within `tries` tries, or the inner allocator failed it.
fn is_granted_again<A: Allocator>(refereed: &Refereed<A>, tries: u64) -> bool {
    let failed = refereed.watch().failed_below();
    for _ in 0..tries {
        if probe(refereed) || refereed.watch().failed_below() > failed {
            return true;
        }
    }
    false
}

// Runs one part: the library's calls, the same request again and again, the claims at their edges,
// then `grow` and `shrink`.
fn part<A: Allocator>(
    books: Global,
    below: Ledgers<'_>,
    refereed: &Refereed<A>,
    heap: &A,
    plan: Plan<'_>,
    granted: bool,
) -> Result<PartResult, Fault> {
    let referee = refereed.watch();
    referee.next_part();
    walk(books, refereed, referee, plan)?;
    check_claims(referee)?;
    for _ in 0..plan.config.steps {
        if granted && !is_granted_again(refereed, plan.config.steps) {
            return Err(Fault {
                count: PROBE,
                ..fault_above(Broken::NeverReuses, referee)
            });
        }
    }
    reach_claims(books, refereed, referee, plan)?;
    grow_and_shrink(heap, referee, plan)?;
    if let Some(broken) = mismatch(below) {
        return Err(Fault {
            step: referee.step(),
            ..fault_below(broken, below)
        });
    }
    Ok(PartResult {
        bytes: below.bytes(),
        results: referee.results(),
    })
}

// Makes random steps of all collections over an allocator.
fn walk<H: Allocator + Copy>(
    books: Global,
    heap: H,
    referee: &Referee,
    plan: Plan<'_>,
) -> Result<(), Fault> {
    let mut zoo = Zoo::new(books, heap);
    steps(&mut zoo, referee, plan)
}

// Makes random steps, before each of which a request may be chosen that is to fail.
fn steps<H: Allocator + Copy>(
    zoo: &mut Zoo<H>,
    referee: &Referee,
    plan: Plan<'_>,
) -> Result<(), Fault> {
    for number in 0..plan.config.steps {
        let Some(mut random) = plan.random(Step::Call(number)) else {
            continue;
        };
        referee.next_step();
        referee.inject_failures(random.draw() % 4, random.draw() % 2);
        if let Err(spot) = zoo.step(&mut random) {
            return Err(fault_at(spot, broken_at(spot), referee));
        }
        check_step(referee)?;
    }
    referee.inject_failures(0, 0);
    match zoo.check() {
        Ok(()) => Ok(()),
        Err(spot) => Err(fault_at(spot, broken_at(spot), referee)),
    }
}

// Comes to each claim exactly, and to one more and one fewer.
fn reach_claims<H: Allocator + Copy>(
    books: Global,
    heap: H,
    referee: &Referee,
    plan: Plan<'_>,
) -> Result<(), Fault> {
    let mut edges = Edges::new(books, heap);
    for number in 0..EDGES {
        let Some(mut random) = plan.random(Step::Edge(number)) else {
            continue;
        };
        referee.next_step();
        if let Err(spot) = edges.step(number, plan.config, &mut random) {
            return Err(fault_at(spot, broken_at(spot), referee));
        }
        check_step(referee)?;
        check_claims(referee)?;
    }
    Ok(())
}

// The largest limit in bytes that a vector is grown to.
const LIMIT: usize = 16_777_216;

// Makes random steps of vectors that call `grow` and `shrink`. All places are checked after each
// step, so a wrong mark in the vector that was called is due to that call.
fn grow_and_shrink<H: Allocator + Copy>(
    heap: H,
    referee: &Referee,
    plan: Plan<'_>,
) -> Result<(), Fault> {
    let mut growing = Growing::new(heap);
    let limit = plan.config.bytes;
    for number in 0..plan.config.steps {
        let Some(mut random) = plan.random(Step::Resize(number)) else {
            continue;
        };
        referee.next_step();
        let done = if number == 1 && limit <= LIMIT {
            growing.exceed(limit)
        } else {
            growing.step(&mut random)
        };
        referee.check_held(growing.held(), growing.blocks());
        if let Err(spot) = growing.check_last() {
            return Err(fault_at(spot, lost_by(done, spot), referee));
        }
        if let Err(spot) = growing.check() {
            return Err(fault_at(spot, broken_at(spot), referee));
        }
        check_step(referee)?;
        referee.add_result(growing.capacity());
    }
    Ok(())
}

// Checks after a step that the limits were kept, and that no block went to the wrong one of two
// inner allocators.
fn check_step(referee: &Referee) -> Result<(), Fault> {
    if let Some(breach) = referee.passed() {
        return Err(fault_of(breach, Broken::PastLimit, referee));
    }
    if referee.below().crossed().is_some() {
        return Err(Fault {
            step: referee.step(),
            ..fault_below(Broken::FreedToOther, referee.below())
        });
    }
    Ok(())
}

// Checks that each request succeeded that had to.
fn check_claims(referee: &Referee) -> Result<(), Fault> {
    if referee.granted() == 0 && referee.failures() > 0 {
        return Err(fault_above(Broken::GrantsNothing, referee));
    }
    match referee.denied() {
        Some(breach) => Err(fault_of(breach, Broken::FailsUnexpectedly, referee)),
        None => Ok(()),
    }
}

// Checks that all blocks of the inner allocator were deallocated.
fn check_all_freed(below: Ledgers<'_>) -> Result<(), Fault> {
    if let Some(broken) = mismatch(below) {
        return Err(fault_below(broken, below));
    }
    if below.blocks() > 0 {
        return Err(fault_below(Broken::LeaksAtDrop, below));
    }
    Ok(())
}

// Returns how the deallocated blocks of the inner allocator differ from the allocated ones.
fn mismatch(below: Ledgers<'_>) -> Option<Broken> {
    if below.crossed().is_some() {
        return Some(Broken::FreedToOther);
    }
    match below.mismatch() {
        None => None,
        Some(Mismatch::TooMany) => Some(Broken::PassedOnTwice),
        Some(Mismatch::Sizes) => Some(Broken::OtherSize),
        Some(Mismatch::Alignments) => Some(Broken::OtherAlignment),
    }
}

// Returns the kind of fault that a wrong mark shows by its place in a block.
fn broken_at(spot: Spot) -> Broken {
    if spot.place == 0 && !spot.begins {
        Broken::AllocatedTwice
    } else {
        Broken::Overlaps
    }
}

// Returns the kind of fault that a wrong mark shows in a vector that was just called.
fn lost_by(done: Done, spot: Spot) -> Broken {
    match done {
        Done::Made => broken_at(spot),
        Done::Grown => Broken::GrowLoses,
        Done::Shrunk => Broken::ShrinkLoses,
    }
}

// Returns a fault of the allocator, with the counts of its requests.
fn fault_above(broken: Broken, referee: &Referee) -> Fault {
    Fault {
        step: referee.step(),
        requests: referee.granted().saturating_add(referee.failures()),
        failures: referee.failures(),
        bytes: referee.bytes() as u64,
        ..Fault::new(broken)
    }
}

// Returns the fault of a wrong mark.
fn fault_at(spot: Spot, broken: Broken, referee: &Referee) -> Fault {
    Fault {
        element: spot.element,
        count: spot.count,
        place: spot.place,
        ..fault_above(broken, referee)
    }
}

// Returns the fault of a claim that does not hold.
fn fault_of(breach: Breach, broken: Broken, referee: &Referee) -> Fault {
    Fault {
        step: breach.step,
        count: breach.size,
        bytes: breach.bytes as u64,
        blocks: breach.blocks as u64,
        ..fault_above(broken, referee)
    }
}

// Returns a fault that shows at the inner allocators.
fn fault_below(broken: Broken, below: Ledgers<'_>) -> Fault {
    Fault {
        count: below.crossed().map_or(0, |it| it.size),
        bytes: below.bytes(),
        blocks: below.blocks(),
        ..Fault::new(broken)
    }
}
