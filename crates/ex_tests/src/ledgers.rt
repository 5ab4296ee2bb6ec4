//! A budget's ledger, by itself and as a purse shares it; and a counter.
use aa_watched::budget::Purse;
use aa_watched::counting::{Counter, Counts};
use aa_watched::ledger::Ledger;
use aa_watched::watched::Watch;

// The ledger of 48 bytes after 40 were allocated, 9 more failed, and 16 were deallocated.
fn used() -> (bool, bool, Ledger) {
    let mut ledger = Ledger::new(48);
    let granted = ledger.allocate(40);
    let failed = !ledger.allocate(9);
    ledger.deallocate(16);
    (granted, failed, ledger)
}

// The limit of a ledger, and the bytes that are allocated, remain, and ever were allocated.
fn numbers(ledger: Ledger) -> (usize, usize, usize, usize) {
    (
        ledger.limit(),
        ledger.allocated(),
        ledger.remaining(),
        ledger.most(),
    )
}

#[test]
fn a_ledger_counts_under_its_limit(rt: HostRuntime) {
    let (granted, failed, ledger) = used();
    assert!(rt; granted && failed && numbers(ledger) == (48, 24, 24, 40));
    assert!(rt; ledger.allows(24) && !ledger.allows(25));
}

// Whether a purse does to its ledger what the calls say.
fn purse_is_used(purse: &Purse) -> bool {
    let first = !purse.should_fail(40, 8);
    purse.on_allocate(40, 8);
    let second = purse.should_fail(9, 8);
    purse.on_failure(9, 8);
    purse.on_deallocate(16, 8);
    first && second
}

#[test]
fn a_purse_keeps_a_ledger(rt: HostRuntime) {
    let purse = Purse::new(48);
    assert!(rt; purse_is_used(&purse) && numbers(purse.ledger()) == (48, 24, 24, 40));
}

// The counts after 40 bytes were allocated, 9 more failed, and the 40 were deallocated.
fn counted(counter: &Counter) -> Counts {
    counter.should_fail(40, 8);
    counter.on_allocate(40, 8);
    counter.should_fail(9, 8);
    counter.on_failure(9, 8);
    counter.on_deallocate(40, 8);
    counter.counts()
}

#[test]
fn a_counter_counts_calls(rt: HostRuntime) {
    let counts = counted(&Counter::default());
    assert!(rt; (counts.requests, counts.granted, counts.frees) == (2, 1, 1));
    assert!(rt; (counts.bytes, counts.outstanding, counts.most) == (40, 0, 40));
}
