//! Callers of a heap with contracts of their own, which its contracts prove.
ghost use Rattle.std.specs.Prelude.{◌≡◌, ◌+◌, ◌<◌, ◌≤◌, All, IfSome, OnOk, IsOk};
ghost use Rattle.std.specs.List.Sorted.{IsSorted};
ghost use Rattle.std.specs.Ordering.{nat_cmp};
ghost use Rattle.allocator_api2.specs.Vector.{len, HasRoom};

use aa_heap::heap::Heap;
use allocator_api2::collections::Refused;
use allocator_api2::vec::Vec;
use std::alloc::Allocator;

// Removes the greatest item of a heap that has one.
pub(crate) fn taken<A: Allocator>(queue: &mut Heap<u32, A>) -> u32
    requires { 0 < len queue.old }
    ensures fewer { len queue.new + 1 ≡ len queue.old }
    ensures capacity { queue.new.capacity ≡ queue.old.capacity }
{
    match queue.pop() {
        Some(greatest) => greatest,
        None => unreachable(),
    }
}

// Removes the greatest item, and leaves only items that are no greater.
pub(crate) fn taken_above<A: Allocator>(queue: &mut Heap<u32, A>) -> Option<u32>
    ensures { IfSome result (λ x. All (λ y. y ≤ x) queue.new.items) }
{
    queue.pop()
}

// Returns the numbers in ascending order.
pub(crate) fn sorted<A: Allocator>(numbers: Vec<u32, A>) -> Vec<u32, A>
    ensures count { len result ≡ len numbers }
    ensures ascending { IsSorted nat_cmp result.items }
{
    Heap::from_vec(numbers).into_sorted_vec()
}

// Adds an item below 100 to items below 100.
pub(crate) fn bounded<A: Allocator>(queue: &mut Heap<u32, A>, x: u32) -> Result<(), Refused<u32>>
    requires all { All (λ y. y < 100) queue.old.items }
    requires one { x < 100 }
    ensures below { All (λ y. y < 100) queue.new.items }
    ensures fits { HasRoom queue.old 1 → IsOk result }
    ensures one_more { OnOk result (len queue.new ≡ len queue.old + 1) }
{
    queue.push(x)
}
