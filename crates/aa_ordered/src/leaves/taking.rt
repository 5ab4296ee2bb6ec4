//! The items of an arena, by value.
ghost use Rattle.std.specs.Prelude.{◌≡◌, ◌+◌, ◌<◌, ◌≤◌, ◌^◌, ◌*◌, [], ◌∷◌, ◌++◌, length, sum_by, Some, IfNone, IfSome};
ghost use Rattle.std.specs.Iterator.{UpTo, YieldsFirst, YieldsLast, item_count};
ghost use Rattle.std.specs.Iterator.SizeHint.{IsWithinCount};
ghost use Rattle.std.specs.List.{All};
ghost use Rattle.aa_ordered.specs.Leaves.{items};
ghost use Rattle.aa_ordered.specs.Taking.{rest_of, AreParts, EndsWith, StartsWith};

use super::{Head, LEAF, Leaves};
use allocator_api2::raw_vec::RawVec;
use allocator_api2::vec::{IntoIter, Vec};
use std::alloc::Allocator;
use std::iter::FusedIterator;
use std::marker::Model;
use std::mem;

/// Where the remaining items of a list are: their first place, and their number.
#[derive(Clone, Copy, Drop)]
pub(crate) struct Part {
    at: usize,
    len: usize,
}

// A part with no items.
const NONE: Part = Part { at: 0, len: 0 };

/// A double-ended iterator by value over the items of all lists of an arena.
///
/// Returned by `Leaves::into_items`. When dropped, it drops the remaining items in order and
/// deallocates the memory. A contract sees it as the list of the remaining items.
pub struct IntoItems<T, A: Allocator> {
    block: RawVec<T, A>,
    // the remaining items of a first list, lists, the remaining items of a last list, and the
    // number of all these items
    front: Part,
    heads: IntoIter<Head, A>,
    back: Part,
    left: usize,
}

impl<T, A: Allocator> Model for IntoItems<T, A> {
    ghost use Rattle.std.specs.Prelude.{List};
    ghost use Rattle.aa_ordered.specs.Taking.{rest_of, IsRest};

    ghost Value = { List T };

    ghost view = { λ it. rest_of it.block.places it.front it.heads.items it.back };

    ghost invariant = { λ it. IsRest it.block.places it.front it.heads.items it.back it.left };
}

impl<T: Drop, A: Allocator> Leaves<T, A> {
    /// Consumes the arena and returns a double-ended iterator over the items of all lists.
    pub fn into_items(self) -> IntoItems<T, A>
        ensures { result ≡ items self }
    {
        let Leaves {
            block,
            heads,
            used,
            resizes: _,
        } = self;
        let mut heads = heads;
        heads.truncate(used);
        block.prove_capacity_bounds();
        let left = count_items(heads.as_slice());
        IntoItems {
            block,
            front: NONE,
            heads: heads.into_iter(),
            back: NONE,
            left,
        }
    }
}

impl<T: Drop, A: Allocator> Iterator for IntoItems<T, A> {
    type Item = T;

    ghost next_gives = { YieldsFirst (λ rest. rest) };

    ghost remaining = { item_count (λ rest. rest) };

    /// Returns the next item, or `None` if none remains.
    fn next(&mut self) -> Option<T> {
        let item = take_first(
            &mut self.block,
            &mut self.front,
            &mut self.heads,
            &mut self.back,
        )?;
        self.left -= 1;
        Some(item)
    }

    /// Returns the exact number of remaining items, as both bounds.
    fn size_hint(&self) -> (usize, Option<usize>)
        ensures lower { IsWithinCount result.0 (item_count (λ rest. rest) self.now) }
        ensures upper { IfSome result.1 (UpTo (item_count (λ rest. rest) self.now)) }
        ensures exact { result ≡ (length self.now, Some (length self.now)) }
    {
        (self.left, Some(self.left))
    }
}

impl<T: Drop, A: Allocator> DoubleEndedIterator for IntoItems<T, A> {
    ghost next_back_gives = { YieldsLast (λ rest. rest) };

    /// Returns the last remaining item, or `None` if none remains.
    fn next_back(&mut self) -> Option<T> {
        let item = take_last(
            &mut self.block,
            &mut self.front,
            &mut self.heads,
            &mut self.back,
        )?;
        self.left -= 1;
        Some(item)
    }
}

impl<T: Drop, A: Allocator> ExactSizeIterator for IntoItems<T, A> {
    fn len(&self) -> usize {
        self.left
    }
}

impl<T: Drop, A: Allocator> FusedIterator for IntoItems<T, A> {}

impl<T: Drop, A: Allocator> Drop for IntoItems<T, A> {
    /// Drops the remaining items and frees the memory.
    #[tactic(auto, using(allocator_api2::proofs::Blocks::emptied))]
    fn drop(self) {
        let IntoItems {
            mut block,
            mut front,
            mut heads,
            mut back,
            left,
        } = self;
        'each: for _ in 0..left {
            match take_first(&mut block, &mut front, &mut heads, &mut back) {
                Some(item) => drop(item),
                None => {}
            }
        }
        block.forget_from(0);
        drop(heads);
    }
}

// Takes the first of the remaining items, if there is one.
#[inline(always)]
#[tactic(auto, using(crate::proofs::Taking::at_front))]
fn take_first<T, A: Allocator>(
    block: &mut RawVec<T, A>,
    front: &mut Part,
    heads: &mut IntoIter<Head, A>,
    back: &mut Part,
) -> Option<T>
    requires { AreParts block.old.places front.old heads.old.items back.old }
    ensures parts { AreParts block.new.places front.new heads.new.items back.new }
    ensures some { IfSome result (λ x. rest_of block.old.places front.old heads.old.items back.old
        ≡ x ∷ rest_of block.new.places front.new heads.new.items back.new) }
    ensures none { IfNone result
        (rest_of block.old.places front.old heads.old.items back.old ≡ []) }
    ensures ended { IfNone result
        (rest_of block.new.places front.new heads.new.items back.new ≡ []) }
{
    let part = open_first(block, *front, heads, back);
    if part.len == 0 {
        *front = part;
        return None;
    }
    block.prove_capacity_bounds();
    *front = Part {
        at: part.at + 1,
        len: part.len - 1,
    };
    Some(block.take(part.at))
}

// Takes the last of the remaining items, if there is one.
#[inline(always)]
#[tactic(auto, using(crate::proofs::Taking::at_back))]
fn take_last<T, A: Allocator>(
    block: &mut RawVec<T, A>,
    front: &mut Part,
    heads: &mut IntoIter<Head, A>,
    back: &mut Part,
) -> Option<T>
    requires { AreParts block.old.places front.old heads.old.items back.old }
    ensures parts { AreParts block.new.places front.new heads.new.items back.new }
    ensures some { IfSome result (λ x. rest_of block.old.places front.old heads.old.items back.old
        ≡ rest_of block.new.places front.new heads.new.items back.new ++ x ∷ []) }
    ensures none { IfNone result
        (rest_of block.old.places front.old heads.old.items back.old ≡ []) }
    ensures ended { IfNone result
        (rest_of block.new.places front.new heads.new.items back.new ≡ []) }
{
    let part = open_last(block, front, heads, *back);
    if part.len == 0 {
        *back = part;
        return None;
    }
    block.prove_capacity_bounds();
    let last = part.len - 1;
    *back = Part {
        at: part.at,
        len: last,
    };
    Some(block.take(part.at + last))
}

// Returns the number of the items of these lists.
#[tactic(auto, using(std::proofs::lemmas::List::Sums::sum_by_more))]
fn count_items(heads: &[Head]) -> usize
    requires small { All (λ h. h.len ≤ 64) heads.now }
    requires count { length heads.now * 64 < 2 ^ 64 }
    ensures { result ≡ sum_by (λ h. h.len) heads.now }
{
    let mut count = 0;
    'each: for i in 0..heads.len() {
        count += heads[i].len;
    }
    count
}

// Returns the part with the first of the remaining items, or an empty one if none remains.
fn open_first<T, A: Allocator>(
    block: &RawVec<T, A>,
    front: Part,
    heads: &mut IntoIter<Head, A>,
    back: &mut Part,
) -> Part
    requires { AreParts block.now.places front heads.old.items back.old }
    ensures parts { AreParts block.now.places result heads.new.items back.new }
    ensures same { rest_of block.now.places result heads.new.items back.new
        ≡ rest_of block.now.places front heads.old.items back.old }
    ensures none { result.len ≡ 0
        → rest_of block.now.places result heads.new.items back.new ≡ [] }
{
    if front.len != 0 {
        return front;
    }
    match first_list(heads) {
        Some(head) => {
            block.prove_capacity_bounds();
            Part {
                at: head.leaf * LEAF,
                len: head.len,
            }
        }
        None => mem::replace(back, NONE),
    }
}

// Returns the part with the last of the remaining items, or an empty one if none remains.
fn open_last<T, A: Allocator>(
    block: &RawVec<T, A>,
    front: &mut Part,
    heads: &mut IntoIter<Head, A>,
    back: Part,
) -> Part
    requires { AreParts block.now.places front.old heads.old.items back }
    ensures parts { AreParts block.now.places front.new heads.new.items result }
    ensures same { rest_of block.now.places front.new heads.new.items result
        ≡ rest_of block.now.places front.old heads.old.items back }
    ensures none { result.len ≡ 0
        → rest_of block.now.places front.new heads.new.items result ≡ [] }
{
    if back.len != 0 {
        return back;
    }
    match last_list(heads) {
        Some(head) => {
            block.prove_capacity_bounds();
            Part {
                at: head.leaf * LEAF,
                len: head.len,
            }
        }
        None => mem::replace(front, NONE),
    }
}

// Removes the first list that is not empty, with the empty ones before it, and returns its head.
fn first_list<A: Allocator>(heads: &mut IntoIter<Head, A>) -> Option<Head>
    ensures some { IfSome result (λ h. StartsWith heads.old.items h heads.new.items) }
    ensures none { IfNone result (All (λ h. h.len ≡ 0) heads.old.items) }
    ensures all { IfNone result (heads.new.items ≡ []) }
{
    'each: loop {
        let head = heads.next()?;
        if head.len != 0 {
            return Some(head);
        }
    }
}

// Removes the last list that is not empty, with the empty ones after it, and returns its head.
fn last_list<A: Allocator>(heads: &mut IntoIter<Head, A>) -> Option<Head>
    ensures some { IfSome result (λ h. EndsWith heads.old.items h heads.new.items) }
    ensures none { IfNone result (All (λ h. h.len ≡ 0) heads.old.items) }
    ensures all { IfNone result (heads.new.items ≡ []) }
{
    'each: loop {
        let head = heads.next_back()?;
        if head.len != 0 {
            return Some(head);
        }
    }
}
