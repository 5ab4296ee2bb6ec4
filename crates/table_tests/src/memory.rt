//! The hash table, with keys that have memory of their own.
use aa_table::table::Table;
use allocator_api2::boxed::BoxedText;
use std::alloc::Global;
use std::cell::Cell;
use std::hash::{BuildHasherDefault, FoldHasher};
use test_allocators::Faulty;
use test_allocators::counted::Counted;
use test_allocators::ends::{End, end_by, end_of, is_all_freed};

type Key<'a> = BoxedText<&'a Faulty<Global>>;

type Small<'a> = Table<Key<'a>, Counted<'a>, BuildHasherDefault<FoldHasher>, &'a Faulty<Global>>;

// A call on a table, or what becomes of it.
#[derive(Clone, Copy)]
enum Call {
    Insert,
    // Of a key that is there.
    TryInsert,
    Remove,
    RemoveEntry,
    Get,
    Clear,
    // Of all entries.
    Drain,
    // Of none.
    Retain,
    Reserve(usize),
    ShrinkToFit,
    Drop,
    // With an entry taken from each end.
    IntoIter,
    // With one taken.
    IntoKeys,
    IntoValues,
}

// A text in memory of its own; none if that allocation fails.
fn key<'a>(heap: &'a Faulty<Global>, text: &str) -> Option<Key<'a>> {
    BoxedText::from_text(heap, text).ok()
}

// Sets the value of a text, and drops the old one. Returns how this ends.
fn put<'a>(table: &mut Small<'a>, key: Option<Key<'a>>, drops: &'a Cell<u32>) -> End {
    let Some(key) = key else {
        return End::TooLong;
    };
    match table.insert(key, Counted { value: 0, drops }) {
        Ok(_old) => End::Done,
        Err(refused) => end_by(refused.error),
    }
}

// Tries to insert a text with a value.
fn try_put<'a>(table: &mut Small<'a>, key: Option<Key<'a>>, drops: &'a Cell<u32>) {
    let Some(key) = key else {
        return;
    };
    let _is_new = table.try_insert(key, Counted { value: 0, drops }).is_ok();
}

// Looks a text up, or takes it out.
fn look_up<'a>(table: &mut Small<'a>, key: Option<Key<'a>>, call: Call) {
    let Some(key) = key else {
        return;
    };
    match call {
        Call::Remove => drop(table.remove(&key)),
        Call::RemoveEntry => drop(table.remove_entry(&key)),
        _ => {
            let _value = table.get(&key).is_some();
        }
    }
}

// Four texts with values.
fn four<'a>(heap: &'a Faulty<Global>, drops: &'a Cell<u32>) -> Small<'a> {
    let mut table: Small<'a> = Table::new_in(heap);
    for text in ["plum", "pear", "fig", "quince"] {
        let _end = put(&mut table, key(heap, text), drops);
    }
    table
}

fn called<'a>(
    call: Call,
    table: &mut Small<'a>,
    heap: &'a Faulty<Global>,
    drops: &'a Cell<u32>,
) -> End {
    match call {
        Call::Insert => return put(table, key(heap, "fig"), drops),
        Call::Reserve(count) => return end_of(table.reserve(count)),
        Call::ShrinkToFit => return end_of(table.shrink_to_fit()),
        Call::Clear => table.clear(),
        Call::Drain => drop(table.drain()),
        Call::Retain => table.retain(|_, _| false),
        Call::TryInsert => try_put(table, key(heap, "fig"), drops),
        _ => look_up(table, key(heap, "fig"), call),
    }
    End::Done
}

// Takes an entry from each end, and drops it: how many blocks are free then, and values dropped.
fn taken_from_ends(table: Small<'_>, heap: &Faulty<Global>, drops: &Cell<u32>) -> (u64, u64, u32) {
    let mut entries = table.into_iter();
    drop(entries.next());
    drop(entries.next_back());
    counts(heap, drops)
}

// The same of the keys alone, one of which is taken.
fn taken_from_keys(table: Small<'_>, heap: &Faulty<Global>, drops: &Cell<u32>) -> (u64, u64, u32) {
    let mut keys = table.into_keys();
    drop(keys.next());
    counts(heap, drops)
}

// The same of the values.
fn taken_from_values(
    table: Small<'_>,
    heap: &Faulty<Global>,
    drops: &Cell<u32>,
) -> (u64, u64, u32) {
    let mut values = table.into_values();
    drop(values.next());
    counts(heap, drops)
}

// Returns the numbers of all requests so far, of all freed blocks, and of all values that were
// dropped.
fn counts(heap: &Faulty<Global>, drops: &Cell<u32>) -> (u64, u64, u32) {
    (heap.requests(), heap.frees(), drops.get())
}

// Those once a call is over, before the table is dropped.
fn seen<'a>(
    call: Call,
    table: Small<'a>,
    heap: &'a Faulty<Global>,
    drops: &'a Cell<u32>,
) -> (u64, u64, u32) {
    let mut table = table;
    match call {
        Call::Drop => drop(table),
        Call::IntoIter => return taken_from_ends(table, heap, drops),
        Call::IntoKeys => return taken_from_keys(table, heap, drops),
        Call::IntoValues => return taken_from_values(table, heap, drops),
        _ => {
            let _end = called(call, &mut table, heap, drops);
        }
    }
    counts(heap, drops)
}

// A call on four texts with values, its requests, the blocks that it frees, and the values that it
// drops. A text that it takes is one request. A table has three blocks.
fn rows() -> [(Call, u64, u64, u32); 15] {
    [
        (Call::Insert, 1, 1, 1),
        (Call::TryInsert, 1, 1, 1),
        (Call::Remove, 1, 2, 1),
        (Call::RemoveEntry, 1, 2, 1),
        (Call::Get, 1, 1, 0),
        (Call::Clear, 0, 4, 4),
        (Call::Drain, 0, 4, 4),
        (Call::Retain, 0, 4, 4),
        (Call::Reserve(10), 0, 0, 0),
        (Call::Reserve(11), 3, 3, 0),
        (Call::ShrinkToFit, 0, 0, 0),
        (Call::Drop, 0, 7, 4),
        (Call::IntoIter, 0, 2, 2),
        (Call::IntoKeys, 0, 1, 1),
        (Call::IntoValues, 0, 1, 1),
    ]
}

// Returns whether a row holds, each value is dropped once then, and all memory is freed.
fn is_so(alloc: Global, (call, requests, frees, dropped): (Call, u64, u64, u32)) -> bool {
    let heap = Faulty::new(alloc);
    let drops = Cell::new(0);
    let came = seen(call, four(&heap, &drops), &heap, &drops);
    let made = if matches!(call, Call::Insert | Call::TryInsert) {
        5
    } else {
        4
    };
    came == (requests.saturating_add(7), frees, dropped)
        && drops.get() == made
        && is_all_freed(&heap)
}

#[test]
fn entries_of_a_table_are_dropped_once(rt: HostRuntime) {
    for row in rows() {
        assert!(rt; is_so(rt.alloc(), row), "{}, {}, {}", row.1, row.2, row.3);
    }
}

// Puts an entry into a new table, whose blocks fail, and returns how this ends.
fn first_entry<'a>(heap: &'a Faulty<Global>, drops: &'a Cell<u32>) -> End {
    let mut table: Small<'a> = Table::new_in(heap);
    let key = key(heap, "plum");
    heap.fail_requests(0, 1);
    put(&mut table, key, drops)
}

fn made(heap: &Faulty<Global>, capacity: usize) -> End {
    let table: Result<Small<'_>, _> = Table::with_capacity_in(capacity, heap);
    end_of(table)
}

#[test]
fn a_new_table_fails_with_its_kind(rt: HostRuntime) {
    let heap = Faulty::new(rt.alloc());
    let drops = Cell::new(0);
    assert!(rt; first_entry(&heap, &drops) == End::NoMemory(14) && drops.get() == 1);
    for (capacity, end, requests) in [
        (0, End::Done, 2),
        (2_000_000_001, End::TooLong, 2),
        (usize::MAX, End::TooLong, 2),
        (9, End::NoMemory(14), 3),
    ] {
        heap.fail_requests(0, 1);
        assert!(rt;
            made(&heap, capacity) == end && heap.requests() == requests,
            "{capacity}"
        );
    }
    assert!(rt; is_all_freed(&heap));
}
