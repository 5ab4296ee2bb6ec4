//! `Few`: up to `N` items in an array.
ghost use Rattle.std.specs.Prelude.{◌≡◌, ◌+◌, ◌-◌, ◌<◌, ◌≤◌, [], ◌∷◌, ◌++◌, length, slice_get, slice_index_or, slice_set, insert, remove, swap_remove, take, Some};
ghost use Rattle.std.specs.Borrow.{sem};
ghost use Rattle.std.specs.Fn.{CalledAtMut, CalledAtPairMut};
ghost use Rattle.allocator_api2.specs.Choosing.{CallableAtMut, IsCallableAlong, IsCallableInOrder};
ghost use Rattle.allocator_api2.specs.Closures.{CallableAtPairMut};
ghost use Rattle.allocator_api2.specs.Vector.{HasRoom, SameBlock, Writes};
ghost use Rattle.aa_inline.specs.Retaining.{Distinguishes, Sifts};

use allocator_api2::vec::Vec;
use std::alloc::Allocator;
use std::default::MadeWith;
use std::marker::Model;
use std::{array, mem};

/// Up to `N` items in an array.
///
/// They are at the first places. Every other place holds a blank, which `T::made_with` makes.
/// Contracts see a list.
#[derive(Drop)]
pub struct Few<T, const N: usize> {
    places: [T; N],
    len: usize,
}

impl<T, const N: usize> Model for Few<T, N> {
    ghost use Rattle.std.specs.Prelude.{◌≤◌, List};
    ghost use Rattle.aa_inline.specs.FewInner.{in_front};

    ghost Value = { List T };

    ghost view = { λ f. in_front N f.len f.places };

    ghost invariant = { λ f. f.len ≤ N };
}

#[tactic(auto, using(crate::proofs::Fews::in_places))]
impl<T, const N: usize> Few<T, N> {
    ghost use Rattle.aa_inline.specs.FewLends.{lends_all, lends_one};

    /// Returns the number of items.
    pub fn len(&self) -> usize
        ensures count { result ≡ length self.now }
        ensures within { result ≤ N }
    {
        self.len
    }

    /// Returns the items as a slice.
    pub fn as_slice(&self) -> &[T]
        ensures { result.now ≡ self.now }
    {
        &self.places[..self.len]
    }

    /// Returns the items as a mutable slice.
    pub fn as_mut_slice(&mut self) -> &mut [T]
        ensures* writes_back { sem 𝓛 (lends_all T.row N.row self.entry result) }
        ensures value { result.now ≡ self.old }
    {
        &mut self.places[..self.len]
    }

    /// Returns the array of the items, which must be `N`.
    pub fn into_places(self) -> [T; N]
        requires full { length self ≡ N }
        ensures { result ≡ self }
    {
        // This line proves how long the array is.
        let _all: &[T] = &self.places;
        let Few { places, len: _ } = self;
        places
    }

    /// Returns a mutable reference to the item at `index`, which must be below the length.
    pub fn item_mut(&mut self, index: usize) -> &mut T
        requires { index < length self.old }
        ensures* writes_back { sem 𝓛 (lends_one T.row N.row self.entry index result) }
        ensures value { slice_get self.old index ≡ Some result.now }
    {
        // These two lines prove that the place is in the array.
        let _len = self.len();
        prove!(index < N);
        &mut self.places[index]
    }

    /// Appends `item`. The length must be below `N`.
    pub fn push(&mut self, item: T)
    where
        T: Drop,
        requires { length self.old < N }
        ensures { self.new ≡ self.old ++ item ∷ [] }
    {
        self.places[self.len] = item;
        self.len += 1;
    }

    /// Replaces the item at `index` by `item` and returns the old one.
    pub fn replace(&mut self, index: usize, item: T) -> T
        requires { index < length self.old }
        ensures old { slice_get self.old index ≡ Some result }
        ensures replaced { self.new ≡ slice_set self.old index item }
    {
        exchange(&mut self.places, index, item)
    }

    /// Inserts `item` at `index`, and shifts the items from there on up by one.
    #[tactic(auto, using(crate::proofs::Fews::carried))]
    pub fn insert(&mut self, index: usize, item: T)
    where
        T: Drop,
        requires within { index ≤ length self.old }
        requires room { length self.old < N }
        ensures { self.new ≡ insert self.old index item }
    {
        let len = self.len();
        let mut carried = item;
        'each: for i in index..len {
            carried = self.replace(i, carried);
        }
        self.push(carried);
    }
}

#[tactic(auto, using(crate::proofs::Fews::in_places))]
impl<T, const N: usize> Few<T, N> {
    /// Returns an empty list: all places hold blanks made with `alloc`.
    pub fn new<A: Copy>(alloc: A) -> Self
    where
        T: MadeWith<A>,
        ensures { result ≡ [] }
    {
        Few {
            places: array::from_fn(|_| T::made_with(alloc)),
            len: 0,
        }
    }

    /// Removes the last item and returns it. The list must not be empty. `blank` replaces the item.
    pub fn pop(&mut self, blank: T) -> T
        requires { 0 < length self.old }
        ensures { self.old ≡ self.new ++ result ∷ [] }
    {
        self.len -= 1;
        mem::replace(&mut self.places[self.len], blank)
    }

    /// Removes the item at `index` and returns it. The items after it shift down by one; `blank`
    /// replaces the last one.
    #[tactic(auto, using(crate::proofs::Fews::carried))]
    pub fn remove(&mut self, index: usize, blank: T) -> T
        requires { index < length self.old }
        ensures value { slice_get self.old index ≡ Some result }
        ensures items { self.new ≡ remove self.old index }
    {
        let mut carried = self.pop(blank);
        let mut i = self.len();
        'each: while i > index {
            i -= 1;
            carried = self.replace(i, carried);
        }
        carried
    }

    /// Removes the item at `index` and returns it. The last item replaces it, and `blank` the last
    /// one.
    pub fn swap_remove(&mut self, index: usize, blank: T) -> T
        requires { index < length self.old }
        ensures value { slice_get self.old index ≡ Some result }
        ensures items { self.new ≡ swap_remove self.old index result }
    {
        let last = self.pop(blank);
        if index == self.len() {
            return last;
        }
        self.replace(index, last)
    }

    /// Keeps the first `len` items, and drops the others, in order. Makes blanks with `alloc`.
    #[tactic(auto, using(crate::proofs::Fews::in_places, crate::proofs::Fews::cut))]
    pub fn truncate<A: Copy>(&mut self, len: usize, alloc: A)
    where
        T: MadeWith<A> + Drop,
        ensures { self.new ≡ take len self.old }
    {
        if len >= self.len() {
            return;
        }
        'each: for i in len..self.len() {
            drop(self.replace(i, T::made_with(alloc)));
        }
        self.len = len;
    }

    /// Keeps only the items for which `keep` returns `true`, in order, and drops the others.
    ///
    /// Each item is moved out for its call, and kept or dropped as `keep` leaves it. Makes blanks
    /// with `alloc`.
    #[tactic(auto, using(crate::proofs::Fews::in_places, crate::proofs::Sifting::sifted))]
    pub fn retain_by<A: Copy, F: FnMut(&mut T) -> bool>(&mut self, keep: &mut F, alloc: A)
    where
        T: MadeWith<A> + Drop,
        requires { IsCallableInOrder (CalledAtMut F.FnMut)
            (CallableAtMut F.FnMut) keep.old self.old }
        ensures { Sifts (CalledAtMut F.FnMut) keep.old self.old keep.new self.new }
    {
        let mut kept = 0;
        'each: for i in 0..self.len() {
            let mut item = self.replace(i, T::made_with(alloc));
            if call_on(keep, &mut item) {
                drop(self.replace(kept, item));
                kept += 1;
            }
        }
        self.len = kept;
    }

    /// Removes each item for which `same` returns `true` beside the last item kept before it, and
    /// drops it.
    ///
    /// Each item but the first is moved out for its call. Makes blanks with `alloc`.
    #[tactic(auto, using(crate::proofs::Fews::in_places, crate::proofs::Distinguishing::distinguished))]
    pub fn dedup_within<A: Copy, F: FnMut(&mut T, &mut T) -> bool>(
        &mut self,
        same: &mut F,
        alloc: A,
    )
    where
        T: MadeWith<A> + Drop,
        requires { IsCallableAlong (CalledAtPairMut F.FnMut) (CallableAtPairMut F.FnMut)
            same.old self.old }
        ensures { Distinguishes (CalledAtPairMut F.FnMut) same.old self.old same.new self.new }
    {
        let len = self.len();
        if len < 2 {
            return;
        }
        let mut kept = 1;
        'each: for i in 1..len {
            let mut item = self.replace(i, T::made_with(alloc));
            if !call_on_pair(same, &mut item, self.item_mut(kept - 1)) {
                drop(self.replace(kept, item));
                kept += 1;
            }
        }
        self.cut(kept);
    }

    // Keeps the first `len` items, of which there are so many. The others are blanks.
    #[tactic(auto, using(crate::proofs::Fews::in_places, crate::proofs::Fews::cut))]
    fn cut(&mut self, len: usize)
        requires { len ≤ length self.old }
        ensures { self.new ≡ take len self.old }
    {
        self.len = len;
    }

    /// Moves all items, in order, to the end of a vector, in which they must fit. Leaves this list
    /// empty.
    pub fn pour<A: Allocator + Copy>(&mut self, into: &mut Vec<T, A>)
    where
        T: MadeWith<A>,
        requires { HasRoom into.old (length self.old) }
        ensures emptied { self.new ≡ [] }
        ensures items { into.new.items ≡ into.old.items ++ self.old }
        ensures block { SameBlock into.old into.new }
        ensures written { Writes into.old (length self.old) (length self.old) into.new }
    {
        pour_first(&mut self.places, self.len, into);
        self.len = 0;
    }
}

// Calls `f` at `item`.
#[inline(always)]
pub fn call_on<T, R, F: FnMut(&mut T) -> R>(f: &mut F, item: &mut T) -> R
    requires { CallableAtMut F.FnMut f.old item.old }
    ensures { CalledAtMut F.FnMut f.old item.old result f.new item.new }
{
    f(item)
}

// Calls `same` at `item` and `last`, with one lifetime for both.
#[inline(always)]
fn call_on_pair<'a, T, F: FnMut(&mut T, &mut T) -> bool>(
    same: &mut F,
    item: &'a mut T,
    last: &'a mut T,
) -> bool
    requires { CallableAtPairMut F.FnMut same.old item.old last.old }
    ensures { CalledAtPairMut F.FnMut same.old item.old last.old result
        same.new item.new last.new }
{
    same(item, last)
}

// Replaces the value at `i` by `item` and returns the old one.
fn exchange<T, const N: usize>(places: &mut [T; N], i: usize, item: T) -> T
    requires { i < length places.old }
    ensures value { result ≡ slice_index_or places.old i result }
    ensures after { places.new ≡ slice_set places.old i item }
{
    mem::replace(&mut places[i], item)
}

// Moves the first `len` values of `places` to the end of a vector, in which they must fit. Leaves
// blanks.
fn pour_first<T: MadeWith<A>, A: Allocator + Copy, const N: usize>(
    places: &mut [T; N],
    len: usize,
    into: &mut Vec<T, A>,
)
    // The values are there, and fit in the vector.
    requires within { len ≤ length places.old }
    requires room { HasRoom into.old len }

    // The vector has them now, in the same block.
    ensures same { length places.new ≡ length places.old }
    ensures items { into.new.items ≡ into.old.items ++ take len places.old }
    ensures block { SameBlock into.old into.new }
    ensures written { Writes into.old len len into.new }
{
    let alloc = *into.allocator();
    'each: for i in 0..len {
        push_within(into, mem::replace(&mut places[i], T::made_with(alloc)));
    }
}

// Appends `item` to a vector, in which it must fit.
pub fn push_within<T, A: Allocator>(into: &mut Vec<T, A>, item: T)
    requires { HasRoom into.old 1 }
    ensures items { into.new.items ≡ into.old.items ++ item ∷ [] }
    ensures block { SameBlock into.old into.new }
    ensures written { Writes into.old 1 1 into.new }
{
    match into.push_within_capacity(item) {
        Ok(()) => {}
        Err(_) => unreachable!(),
    }
}

// Inserts `item` at `index` of a vector, in which it must fit.
pub fn insert_within<T: Drop, A: Allocator>(into: &mut Vec<T, A>, index: usize, item: T)
    requires within { index ≤ length into.old.items }
    requires room { HasRoom into.old 1 }
    ensures items { into.new.items ≡ insert into.old.items index item }
    ensures block { SameBlock into.old into.new }
    ensures written { into.new.written ≡ into.old.written + (length into.old.items - index + 1) }
{
    match into.insert(index, item) {
        Ok(()) => {}
        Err(_) => unreachable!(),
    }
}
