//! Each call once, and what it requests.
use aa_heap::heap::Heap;
use aa_heap::peek::PeekMut;
use allocator_api2::vec::Vec;
use std::alloc::{AllocError, Global};
use std::default::{Emptied, MadeWith};
use std::fmt::Debug;
use std::iter::Extend;
use std::rc::Rc;
use test_allocators::Faulty;

// A heap over an allocator that may fail.
type Small<'a> = Heap<u64, &'a Faulty<Global>>;

// A heap whose items can be counted by what they share.
type Shares<'a> = Heap<Rc<u32>, &'a Faulty<Global>>;

// Returns a heap of these numbers.
fn heap_of<'a>(heap: &'a Faulty<Global>, numbers: &[u64]) -> Small<'a> {
    let mut queue: Small<'_> = Heap::new_in(heap);
    for number in numbers {
        let _ = queue.push(*number);
    }
    queue
}

// Returns whether the heap has these numbers, which ascend.
fn has(queue: Small<'_>, numbers: &[u64]) -> bool {
    queue.into_sorted_vec().as_slice() == numbers
}

#[test]
fn items_come_in_heap_order(rt: HostRuntime) {
    let heap = Faulty::new(rt.alloc());
    let queue = heap_of(&heap, &[1, 2, 3, 4, 5]);
    assert!(rt; queue.as_slice() == [5, 4, 2, 1, 3].as_slice());
    assert!(rt; queue.iter().copied().sum::<u64>() == 15 && queue.peek() == Some(&5));
    assert!(rt; queue.len() == 5 && queue.capacity() == 8 && !queue.is_empty());
    assert!(rt; queue.allocator().requests() == 2);
    assert!(rt; queue.into_vec().as_slice() == [5, 4, 2, 1, 3].as_slice());
}

#[test]
fn a_vector_is_put_in_heap_order(rt: HostRuntime) {
    let heap = Faulty::new(rt.alloc());
    let numbers = heap_of(&heap, &[6, 5, 4]).into_sorted_vec();
    let queue = Heap::from_vec(numbers);
    assert!(rt; queue.as_slice() == [6, 5, 4].as_slice());
    let again: Small<'_> = queue.into_vec().into();
    assert!(rt; again.into_iter().next() == Some(6) && heap.requests() == 1);
}

// Joins a heap with one that has more items, and with one that has fewer.
fn joined<'a>(heap: &'a Faulty<Global>) -> Option<Small<'a>> {
    let mut queue = heap_of(heap, &[2, 1]);
    let mut more = heap_of(heap, &[7, 8, 9]);
    let mut fewer = heap_of(heap, &[5]);
    queue.append(&mut more).ok()?;
    queue.append(&mut fewer).ok()?;
    match more.is_empty() && fewer.is_empty() {
        true => Some(queue),
        false => None,
    }
}

#[test]
fn heaps_are_joined(rt: HostRuntime) {
    let heap = Faulty::new(rt.alloc());
    match joined(&heap) {
        Some(queue) => assert!(rt; has(queue, &[1, 2, 5, 7, 8, 9])),
        None => assert!(rt; false),
    }
    // Blocks for four items each, and one for eight.
    assert!(rt; heap.requests() == 4 && heap.outstanding() == 0);
}

// Collects numbers and adds others, in each way.
fn collected<'a>(heap: &'a Faulty<Global>) -> Result<Small<'a>, AllocError> {
    let mut queue: Small<'_> = (0..2).collect(heap)?;
    Extend::extend(&mut queue, 2..3)?;
    Extend::extend(&mut queue, &[3u64])?;
    match queue.extend([4, 5]) {
        Ok(()) => Ok(queue),
        Err(_) => Err(AllocError),
    }
}

#[test]
fn items_are_collected(rt: HostRuntime) {
    let heap = Faulty::new(rt.alloc());
    match collected(&heap) {
        Ok(queue) => {
            assert!(rt; (&queue).into_iter().count() == 6 && queue.peek() == Some(&5));
            assert!(rt; has(queue, &[0, 1, 2, 3, 4, 5]));
        }
        Err(_) => assert!(rt; false),
    }
}

// Reserves and shrinks. Returns the capacities on the way.
fn capacities(queue: &mut Small<'_>) -> [usize; 6] {
    let start = queue.capacity();
    let _ = queue.reserve(5);
    let doubled = queue.capacity();
    let _ = queue.reserve_exact(9);
    let exact = queue.capacity();
    let _ = queue.try_reserve(9);
    let _ = queue.try_reserve_exact(9);
    let same = queue.capacity();
    let _ = queue.shrink_to(7);
    let less = queue.capacity();
    let _ = queue.shrink_to_fit();
    [start, doubled, exact, same, less, queue.capacity()]
}

#[test]
fn capacity_is_reserved_and_shrunk(rt: HostRuntime) {
    let heap = Faulty::new(rt.alloc());
    let mut queue = heap_of(&heap, &[1, 2, 3]);
    assert!(rt; capacities(&mut queue) == [4, 8, 12, 12, 7, 3]);
    queue.clear();
    assert!(rt; queue.is_empty() && queue.capacity() == 3 && heap.requests() == 5);
}

#[tactic(auto, using(allocator_api2::proofs::Callers::callers))]
fn keep_odd(queue: &mut Small<'_>) {
    queue.retain(|item| *item % 2 == 1);
}

fn prints<T: Debug>(alloc: Global, value: &T, text: &str) -> Result<bool, AllocError> {
    Ok(format!(in alloc; "{value:?}")?.as_str() == text)
}

#[test]
fn a_heap_prints_its_items(rt: HostRuntime) {
    let heap = Faulty::new(rt.alloc());
    let mut queue = heap_of(&heap, &[1, 2, 3, 4, 5, 6]);
    keep_odd(&mut queue);
    assert!(rt; prints(rt.alloc(), &queue, "[5, 1, 3]") == Ok(true));
    assert!(rt; queue.capacity() == 8);
}

#[test]
fn a_heap_is_drained(rt: HostRuntime) {
    let heap = Faulty::new(rt.alloc());
    let mut queue = heap_of(&heap, &[1, 2, 3, 4, 5]);
    let mut items = queue.drain();
    assert!(rt; (items.len(), items.next(), items.next()) == (5, Some(3), Some(1)));
    drop(items);
    assert!(rt; queue.is_empty() && queue.capacity() == 8);
    assert!(rt; queue.push(7).is_ok() && queue.drain().next() == Some(7));
}

// Copies of a heap, and empty ones over its allocator.
fn copied(alloc: Global) -> Option<usize> {
    let mut queue: Heap<u64> = Heap::made_with(alloc);
    queue.push(1).ok()?;
    queue.push(3).ok()?;
    let copy = queue.clone().ok()?;
    let other = Clone::clone(&copy).ok()?;
    let empty = Emptied::emptied(&other).ok()?;
    drop::<Heap<u64>>(empty);
    match other.into_sorted_vec().as_slice() == [1, 3].as_slice() {
        true => Some(copy.capacity()),
        false => None,
    }
}

#[test]
fn a_heap_is_copied(rt: HostRuntime) {
    assert!(rt; copied(rt.alloc()) == Some(2));
}

// Changes the greatest item to 3, and returns the one that comes first then.
fn lowered(queue: &mut Small<'_>) -> Option<u64> {
    if let Some(mut top) = queue.peek_mut() {
        *top = 3;
    }
    queue.peek().copied()
}

// Takes the greatest item out if it is odd.
fn take_odd(queue: &mut Small<'_>) -> Option<u64> {
    match queue.peek_mut() {
        Some(top) if *top % 2 == 1 => Some(PeekMut::pop(top)),
        _ => None,
    }
}

#[test]
fn the_greatest_is_changed_or_taken(rt: HostRuntime) {
    let heap = Faulty::new(rt.alloc());
    let mut queue = heap_of(&heap, &[2, 7, 5]);
    assert!(rt; lowered(&mut queue) == Some(5) && queue.len() == 3);
    assert!(rt; take_odd(&mut queue) == Some(5) && take_odd(&mut queue) == Some(3));
    assert!(rt; take_odd(&mut queue).is_none() && heap.requests() == 1 && has(queue, &[2]));
    assert!(rt; heap_of(&heap, &[]).peek_mut().is_none());
}

// Returns a heap of two items that share `origin`.
fn two_shares<'a>(heap: &'a Faulty<Global>, origin: &Rc<u32>) -> Option<Shares<'a>> {
    let mut queue = Heap::with_capacity_in(2, heap).ok()?;
    queue.push(origin.clone().ok()?).ok()?;
    queue.push(origin.clone().ok()?).ok()?;
    Some(queue)
}

// Looks at the first item, and then takes it out and drops it. Returns how many share `origin` after
// each.
fn shares_left(heap: &Faulty<Global>, origin: &Rc<u32>) -> Option<(usize, usize)> {
    let mut queue = two_shares(heap, origin)?;
    drop(queue.peek_mut()?);
    let before = Rc::strong_count(origin);
    drop(PeekMut::pop(queue.peek_mut()?));
    Some((before, Rc::strong_count(origin)))
}

#[test]
fn the_greatest_is_dropped_once(rt: HostRuntime) {
    let heap = Faulty::new(rt.alloc());
    let Ok(origin) = Rc::new(rt.alloc(), 7) else {
        assert!(rt; false);
        return;
    };
    assert!(rt; shares_left(&heap, &origin) == Some((3, 2)) && Rc::strong_count(&origin) == 1);
    assert!(rt; heap.requests() == 1 && heap.outstanding() == 0);
}
