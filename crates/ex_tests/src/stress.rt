//! The allocator test suite, on the toolchain's allocator and on those of `aa_watched` and
//! `aa_allocators`.
use aa_allocator_tests::below::{Below, count_below};
use aa_allocator_tests::config::Config;
use aa_allocator_tests::fault::{Broken, Fault};
use aa_allocator_tests::random::Random;
use aa_allocator_tests::reach::Report;
use aa_allocator_tests::script::{Replay, Script, Step};
use aa_allocator_tests::stress::{
    replay, replay_over_two, replay_with_clone, stress, stress_over_two, stress_with_clone,
};
use aa_allocators::pool::Pool;
use aa_allocators::recycler::Recycler;
use aa_watched::budget::Budget;
use aa_watched::counting::Counting;
use aa_watched::watched::{Watch, Watched};
use std::alloc::{Allocator, Global};
use std::cell::Cell;

// Returns the report of a run over an allocator and its clone, if there was no fault.
fn report_of<B: Allocator, A: Allocator + Clone>(
    books: Global,
    below: &Below<B>,
    heap: A,
    config: Config,
) -> Option<Report> {
    stress_with_clone(books, below, heap, config).ok()
}

// Returns the bytes that were kept, if there was no fault and no part of the run was left out.
fn kept_of(report: Option<Report>, config: Config) -> Option<u64> {
    match report {
        Some(report)
            if report.steps > config.steps.saturating_mul(12)
                && report.requests > report.steps
                && report.injected_failures > 0 => { Some(report.kept) }
        _ => None,
    }
}

// What those claim who grant so many bytes, or all.
fn claims(guaranteed_size: usize, guaranteed_bytes: usize, bytes: usize) -> Config {
    Config {
        guaranteed_size,
        guaranteed_bytes,
        bytes,
        ..Config::new(7, 40)
    }
}

#[test]
fn the_global_allocator_is_right(rt: HostRuntime) {
    let below = count_below(rt.alloc());
    let config = claims(usize::MAX, 8_000_000, usize::MAX);
    assert!(rt; kept_of(report_of(rt.alloc(), &below, rt.alloc(), config), config) == Some(0));
    assert!(rt; kept_of(report_of(rt.alloc(), &below, &below, config), config) == Some(0));
}

#[test]
fn a_budget_keeps_its_limit(rt: HostRuntime) {
    let below = count_below(rt.alloc());
    for bytes in [1_000_000usize, 5_000] {
        let config = claims(bytes, bytes, bytes);
        let heap = Budget::new(&below, bytes);
        let report = report_of(rt.alloc(), &below, heap, config);
        assert!(rt; kept_of(report, config) == Some(0), "{bytes}");
    }
}

// A budget is filled exactly, by blocks of each number that is claimed.
#[test]
fn a_run_comes_to_each_claim(rt: HostRuntime) {
    let below = count_below(rt.alloc());
    let config = Config {
        blocks: usize::MAX,
        ..claims(3_000, 5_000, 5_000)
    };
    let report = stress(rt.alloc(), &below, Budget::new(&below, 5_000), config);
    let Ok(report) = report else {
        assert!(rt; false);
        return;
    };
    let reach = report.reach;
    assert!(rt; reach.bytes == 5_000 && reach.size == 5_000);
    assert!(rt; reach.guaranteed_size == 3_000 && reach.guaranteed_bytes == 5_000);
}

// Returns the report of a run over a counting allocator, if there was no fault.
fn counted(books: Global) -> Option<Report> {
    let below = count_below(books);
    stress(books, &below, Counting::new(&below), Config::new(7, 60)).ok()
}

#[test]
fn a_stress_run_is_the_same_each_time(rt: HostRuntime) {
    let one = counted(rt.alloc());
    assert!(rt; one.is_some() && one == counted(rt.alloc()));
}

// An allocator of 5,000 bytes and of 8 more.
#[derive(Drop)]
struct EightMore {
    granted: Cell<usize>,
}

impl Watch for EightMore {
    fn should_fail(&self, size: usize, _align: usize) -> bool {
        5_008usize.saturating_sub(self.granted.get()) < size
    }

    fn on_allocate(&self, size: usize, _align: usize) {
        self.granted.set(self.granted.get().saturating_add(size));
    }

    fn on_failure(&self, _size: usize, _align: usize) {}

    fn on_deallocate(&self, size: usize, _align: usize) {
        self.granted.set(self.granted.get().saturating_sub(size));
    }
}

// Tests it by a script.
#[derive(Drop)]
struct OfEightMore {
    books: Global,
}

impl Replay for OfEightMore {
    fn replay(&self, script: &Script) -> Result<Report, Fault> {
        let below = count_below(self.books);
        let granted = Cell::new(0);
        let heap = Watched::with_watch(&below, EightMore { granted });
        replay(self.books, &below, heap, script)
    }
}

// The fault of a limit that is eight bytes too large, in one step.
#[test]
fn a_fault_is_shown_by_one_step(rt: HostRuntime) {
    let config = Config {
        guaranteed_bytes: 0,
        ..claims(16, 16, 5_000)
    };
    let subject = OfEightMore { books: rt.alloc() };
    let Ok(mut script) = Script::new(rt.alloc(), config) else {
        assert!(rt; false);
        return;
    };
    assert!(rt; script.has(Step::Call(0)) && script.len() == 104 && script.config().seed == 7);
    let before = subject.replay(&script).err();
    assert!(rt; before.is_some_and(|it| it.broken == Broken::PastLimit && it.seed == 7));
    script.minimise(Broken::PastLimit, &subject);
    let after = subject.replay(&script).err();
    assert!(rt; after.is_some_and(|it| it.broken == Broken::PastLimit && it.step == 1));
    assert!(rt; script.len() == 1 && !script.is_empty());
}

// Two inner allocators, of which the second is used by nobody.
#[test]
fn one_of_two_is_enough(rt: HostRuntime) {
    let (first, second) = (count_below(rt.alloc()), count_below(rt.alloc()));
    let heap = Counting::new(&first);
    let report = stress_over_two(rt.alloc(), &first, &second, heap, Config::new(7, 40));
    assert!(rt; report.is_ok() && first.watch().stray().is_none());
}

// A script of all steps has the report of the run itself, over two allocators and with a clone.
#[test]
fn a_run_is_replayed(rt: HostRuntime) {
    let config = Config::new(7, 40);
    let (first, second) = (count_below(rt.alloc()), count_below(rt.alloc()));
    let Ok(script) = Script::new(rt.alloc(), config) else {
        assert!(rt; false);
        return;
    };
    let run = stress_over_two(rt.alloc(), &first, &second, Counting::new(&first), config).ok();
    let again = replay_over_two(rt.alloc(), &first, &second, Counting::new(&first), &script).ok();
    assert!(rt; run.is_some() && run == again);
    let run = stress_with_clone(rt.alloc(), &first, Counting::new(&first), config).ok();
    let again = replay_with_clone(rt.alloc(), &first, Counting::new(&first), &script).ok();
    assert!(rt; run.is_some() && run == again);
}

#[test]
fn a_pool_is_right(rt: HostRuntime) {
    for size in [8usize, 24, 4_100] {
        let (below, config) = (
            count_below(rt.alloc()),
            claims(1_048_576, 8_000_000, usize::MAX),
        );
        let heap = Pool::new(&below, size);
        let report = report_of(rt.alloc(), &below, heap, config);
        assert!(rt; kept_of(report, config).is_some(), "{size}");
    }
}

#[test]
fn a_recycler_is_right(rt: HostRuntime) {
    let (below, config) = (
        count_below(rt.alloc()),
        claims(1_048_576, 8_000_000, usize::MAX),
    );
    let heap = Recycler::new(&below);
    assert!(rt; kept_of(report_of(rt.alloc(), &below, heap, config), config).is_some());
}

// Fails one request in so many, at random.
#[derive(Drop)]
struct Share {
    draws: Cell<u64>,
    one_in: u64,
}

impl Watch for Share {
    fn should_fail(&self, _size: usize, _align: usize) -> bool {
        let draw = Random::new(self.draws.get()).draw();
        self.draws.set(draw);
        draw.checked_rem(self.one_in) == Some(0)
    }

    fn on_allocate(&self, _size: usize, _align: usize) {}

    fn on_failure(&self, _size: usize, _align: usize) {}

    fn on_deallocate(&self, _size: usize, _align: usize) {}
}

// An allocator that fails one request in so many.
fn failing<B: Allocator>(inner: B, seed: u64, one_in: u64) -> Watched<B, Share> {
    let draws = Cell::new(seed);
    Watched::with_watch(inner, Share { draws, one_in })
}

// The fault of a recycler, a pool or a counting allocator, over an inner one that fails at times.
fn fault_over(books: Global, which: u32, seed: u64, one_in: u64) -> Option<Fault> {
    let below = count_below(failing(books, seed, one_in));
    let config = Config::new(seed, 40);
    match which {
        0 => stress(books, &below, Recycler::new(&below), config).err(),
        1 => stress(books, &below, Pool::new(&below, 24), config).err(),
        _ => stress(books, &below, Counting::new(&below), config).err(),
    }
}

// The same of a recycler, if the failures are of an allocator between it and the counting one.
fn fault_between(books: Global, seed: u64, one_in: u64) -> Option<Fault> {
    let below = count_below(books);
    let heap = Recycler::new(failing(&below, seed, one_in));
    let config = Config {
        guaranteed_bytes: 0,
        ..Config::new(seed, 40)
    };
    stress(books, &below, heap, config).err()
}

// That an inner allocator fails at times is no fault of the allocator under test.
#[test]
fn an_inner_allocator_may_fail(rt: HostRuntime) {
    for seed in 20u64..25 {
        for one_in in [2u64, 10] {
            for which in 0u32..3 {
                let fault = fault_over(rt.alloc(), which, seed, one_in);
                assert!(rt; fault.is_none(), "{seed} {one_in} {which}");
            }
            let fault = fault_between(rt.alloc(), seed, one_in);
            assert!(rt; fault.is_none(), "{seed} {one_in}");
        }
    }
}
