//! Clones of elements, appended to a vector.
ghost use Rattle.std.specs.Prelude.{◌≡◌, ◌+◌, ◌-◌, ◌<◌, ◌≤◌, [], ◌++◌, false, length, take, drop, slice_range, replicate, All, IsTrue, IfErr, OnOk, OnErr, IsOk};
ghost use Rattle.std.specs.Mem.{type_size};
ghost use Rattle.aa_vec.specs.Vector.{len, HasRoom, LacksRoom, Becomes, with_items, with_room};
ghost use Rattle.aa_vec.specs.Ranges.{IsRangeOf};
ghost use Rattle.aa_vec.specs.Copies.{ClonesAreEqual, AppendsClones, AppendsResults, AppendsCopies, RolledBack, MayCallTimes, AppendFails, AssignFails};

use crate::vec::Vec;
use aa_raw::collections::{TryReserveError, TryReserveErrorKind};
use core::mem::replace_with;
use std::alloc::Allocator;
use std_alloc::part::SliceRange;

impl<T: Clone, A: Allocator> Vec<T, A> {
    /// Appends a clone of each element of `other`.
    ///
    /// Allocates as `try_reserve` does, once for all of them and before the first clone.
    ///
    /// # Errors
    /// Returns the same errors as `try_reserve`; nothing is changed then. If a clone fails, returns
    /// `AllocError` with the requested length. The clones made so far are dropped then, and the new
    /// capacity is kept.
    #[tactic(auto, using(crate::proofs::Becoming::became))]
    pub fn extend_from_slice(&mut self, other: &[T]) -> Result<(), TryReserveError>
        ensures fits { HasRoom self.old (length other.now)
            → All T.is_infallible other.now → IsOk result }
        ensures extended { let roomy = with_room (type_size T.row) self.old
            (len self.old) (length other.now) in
            OnOk result (AppendsClones T.is_clone roomy other.now self.new) }
        ensures copied { let n = length other.now in
            let roomy = with_room (type_size T.row) self.old (len self.old) n in
            ClonesAreEqual T.is_clone
            → OnOk result (Becomes roomy (self.old.items ++ other.now) n n self.new) }
        ensures failed { IfErr result (λ e. AppendFails (¬ (All T.is_infallible other.now))
            (type_size T.row) self.old (length other.now) e self.new) }
    {
        let len = self.len();
        let count = other.len();
        if let Err(error) = self.try_reserve(count) {
            return Err(error);
        }
        self.prove_capacity_bounds();
        if self.push_clones(other) {
            return Ok(());
        }
        Err(TryReserveErrorKind::AllocError {
            capacity: len + count,
        }
        .into())
    }

    /// Appends a clone of each element of the range.
    ///
    /// The range is within the length. Allocates as `try_reserve` does, once and before the first
    /// clone.
    ///
    /// # Errors
    /// Returns the same errors as `extend_from_slice`, and leaves the same.
    #[tactic(auto, using(crate::proofs::CopiesLemmas::cloned, crate::proofs::Becoming::became))]
    pub fn extend_from_within<R: SliceRange>(&mut self, range: R) -> Result<(), TryReserveError>
        requires range { IsRangeOf R.SliceRange range (len self.old) }
        ensures fits { let end = R.end range (len self.old) in
            HasRoom self.old (end - R.start range)
            → All T.is_infallible (slice_range self.old.items (R.start range) end) → IsOk result }
        ensures extended { let end = R.end range (len self.old) in
            let own = slice_range self.old.items (R.start range) end in
            let roomy = with_room (type_size T.row) self.old
            (len self.old) (end - R.start range) in
            OnOk result (AppendsClones T.is_clone roomy own self.new) }
        ensures copied { let end = R.end range (len self.old) in
            let own = slice_range self.old.items (R.start range) end in
            let n = end - R.start range in
            let roomy = with_room (type_size T.row) self.old (len self.old) n in
            ClonesAreEqual T.is_clone → OnOk result (Becomes roomy
            (self.old.items ++ own) n n self.new) }
        ensures failed { let end = R.end range (len self.old) in
            let own = slice_range self.old.items (R.start range) end in
            IfErr result (λ e. AppendFails (¬ (All T.is_infallible own))
            (type_size T.row) self.old (end - R.start range) e self.new) }
    {
        let len = self.len();
        let (start, end) = self.bounds_of(range);
        let count = end - start;
        if let Err(error) = self.try_reserve(count) {
            return Err(error);
        }
        self.prove_capacity_bounds();
        if self.push_own(start, count) {
            return Ok(());
        }
        Err(TryReserveErrorKind::AllocError {
            capacity: len + count,
        }
        .into())
    }

    /// Truncates the vector to `new_len` elements, or appends clones of `value` up to that length.
    ///
    /// The last new element is `value` itself. Truncates as `truncate` does. Otherwise allocates as
    /// `try_reserve` does, once and before the first clone.
    ///
    /// # Errors
    /// Returns the same errors as `extend_from_slice`, and only if `new_len` is above the length.
    #[tactic(auto, using(crate::proofs::CopiesLemmas::cloned, crate::proofs::Becoming::became))]
    pub fn resize(&mut self, new_len: usize, value: T) -> Result<(), TryReserveError>
        // The call succeeds if the new elements fit, and always if it truncates.
        ensures fits { HasRoom self.old (new_len - len self.old)
            → (len self.old + 1 < new_len → T.is_infallible value) → IsOk result }
        ensures truncated { new_len ≤ len self.old
            → Becomes self.old (take new_len self.old.items) 0 0 self.new }
        ensures shrink_succeeds { new_len ≤ len self.old → IsOk result }

        // Success fills the new places.
        ensures filled { let more = new_len - len self.old in
            let roomy = with_room (type_size T.row) self.old (len self.old) more in
            OnOk result (len self.old < new_len
            → AppendsCopies T.is_clone roomy more value self.new) }
        ensures copied { let more = new_len - len self.old in
            let roomy = with_room (type_size T.row) self.old (len self.old) more in
            ClonesAreEqual T.is_clone → OnOk result
            (Becomes roomy (take new_len self.old.items ++ replicate more value)
            more more self.new) }

        // An error means that the allocation or a clone failed.
        ensures only_longer { OnErr result (len self.old < new_len) }
        ensures failed { IfErr result
            (λ e. AppendFails ((len self.old + 1 < new_len) × (¬ (T.is_infallible value)))
            (type_size T.row) self.old (new_len - len self.old) e self.new) }
    {
        let len = self.len();
        if new_len <= len {
            self.truncate(new_len);
            return Ok(());
        }
        if let Err(error) = self.try_reserve(new_len - len) {
            return Err(error);
        }
        if self.fill(new_len - len, value) {
            return Ok(());
        }
        Err(TryReserveErrorKind::AllocError { capacity: new_len }.into())
    }

    /// Replaces all elements by clones of the elements of `other`.
    ///
    /// The old elements are dropped first. Allocates as `try_reserve` does, once and before the
    /// first clone.
    ///
    /// # Errors
    /// Returns `CapacityOverflow`, or `AllocError` with the requested capacity; the vector is empty
    /// then. If a clone fails, returns `AllocError` with the length of `other`. The vector has
    /// clones of a prefix of `other` then.
    ///
    /// Corresponds to allocator-api2's `Clone::clone_from`.
    #[tactic(auto, using(crate::proofs::CopiesLemmas::cloned, crate::proofs::Becoming::became))]
    pub fn assign_from(&mut self, other: &Self) -> Result<(), TryReserveError>
        ensures fits { len other.now ≤ self.old.capacity
            → All T.is_infallible other.now.items → IsOk result }
        ensures assigned { let roomy = with_room (type_size T.row)
            (with_items self.old []) 0 (len other.now) in
            OnOk result (AppendsClones T.is_clone roomy other.now.items self.new) }
        ensures copied { let n = len other.now in
            let roomy = with_room (type_size T.row) (with_items self.old []) 0 n in
            ClonesAreEqual T.is_clone → OnOk result (Becomes roomy other.now.items n n self.new) }
        ensures prefix { ClonesAreEqual T.is_clone
            → OnErr result (self.new.items ≡ take (len self.new) other.now.items) }
        ensures failed { IfErr result (λ e. AssignFails T.is_clone
            (¬ (All T.is_infallible other.now.items))
            (type_size T.row) self.old other.now.items e self.new) }
    {
        self.clear();
        let source = other.as_slice();
        let count = source.len();
        if let Err(error) = self.try_reserve(count) {
            return Err(error);
        }
        if self.push_prefix(source) == count {
            return Ok(());
        }
        Err(TryReserveErrorKind::AllocError { capacity: count }.into())
    }

    // Appends clones of the elements of `source`, up to the first clone that fails. Returns their
    // number.
    pub(crate) fn push_prefix(&mut self, source: &[T]) -> usize
        requires room { HasRoom self.old (length source.now) }
        ensures within { result ≤ length source.now }
        ensures pushed { AppendsClones T.is_clone self.old (take result source.now) self.new }
        ensures clone_failed { result < length source.now → ¬ (All T.is_infallible source.now) }
    {
        replace_with(self, source, with_prefix)
    }

    // Appends a clone of each element of `source`, or nothing if a clone fails. Returns whether it
    // appended them.
    #[tactic(auto, using(crate::proofs::Becoming::became))]
    pub(crate) fn push_clones(&mut self, source: &[T]) -> bool
        requires room { HasRoom self.old (length source.now) }
        ensures pushed { IsTrue result → AppendsClones T.is_clone self.old source.now self.new }
        ensures clone_failed { result ≡ false → ¬ (All T.is_infallible source.now) }
        ensures rolled_back { result ≡ false → RolledBack self.old (length source.now) self.new }
    {
        let len = self.len();
        if self.push_prefix(source) == source.len() {
            return true;
        }
        self.truncate(len);
        false
    }

    // Like `push_clones`, for `count` of the vector's own elements, from the index `from` on.
    #[tactic(auto, using(crate::proofs::CopiesLemmas::copied, crate::proofs::Becoming::became))]
    fn push_own(&mut self, from: usize, count: usize) -> bool
        requires range { from + count ≤ len self.old }
        requires room { HasRoom self.old count }
        ensures pushed { IsTrue result
            → AppendsClones T.is_clone self.old (take count (drop from self.old.items)) self.new }
        ensures clone_failed { result ≡ false
            → ¬ (All T.is_infallible (take count (drop from self.old.items))) }
        ensures rolled_back { result ≡ false → RolledBack self.old count self.new }
    {
        let len = self.len();
        if replace_with(self, (from, count), with_own) == count {
            return true;
        }
        self.truncate(len);
        false
    }

    // Like `push_clones`, for `count` clones of one value.
    #[tactic(auto, using(crate::proofs::CopiesLemmas::copied, crate::proofs::Becoming::became))]
    fn push_same(&mut self, value: &T, count: usize) -> bool
        requires room { HasRoom self.old count }
        ensures pushed { IsTrue result
            → AppendsClones T.is_clone self.old (replicate count value.now) self.new }
        ensures clone_failed { result ≡ false → ¬ (T.is_infallible value.now) }
        ensures rolled_back { result ≡ false → RolledBack self.old count self.new }
    {
        let len = self.len();
        if replace_with(self, (value, count), with_same) == count {
            return true;
        }
        self.truncate(len);
        false
    }

    // Appends `count` elements, clones of `value` and last `value` itself, or nothing if a clone
    // fails. Returns whether it appended them.
    pub(crate) fn fill(&mut self, count: usize, value: T) -> bool
        requires some { 0 < count }
        requires room { HasRoom self.old count }
        ensures filled { IsTrue result → AppendsCopies T.is_clone self.old count value self.new }
        ensures clone_failed { result ≡ false → (1 < count) × (¬ (T.is_infallible value)) }
        ensures rolled_back { result ≡ false → RolledBack self.old count self.new }
    {
        if !self.push_same(&value, count - 1) {
            return false;
        }
        self.put_next(value);
        true
    }
}

impl<T, A: Allocator> Vec<T, A> {
    /// Truncates the vector to `new_len` elements, or appends results of `f` up to that length.
    ///
    /// `f` is called once for each new place, in order. Truncates as `truncate` does. Otherwise
    /// allocates as `try_reserve` does, once and before the first call of `f`.
    ///
    /// # Errors
    /// Returns the same errors as `try_reserve`. The vector is unchanged and `f` is not called.
    #[tactic(auto, using(crate::proofs::Turns::turns, crate::proofs::Becoming::became))]
    pub fn resize_with<F: FnMut() -> T>(
        &mut self,
        new_len: usize,
        mut f: F,
    ) -> Result<(), TryReserveError>
    where
        T: Drop,
        requires callable { MayCallTimes (λ g. F.pre g) F.step (new_len - len self.old) f }

        // The call succeeds if the new elements fit, and always if it truncates.
        ensures fits { HasRoom self.old (new_len - len self.old) → IsOk result }
        ensures truncated { new_len ≤ len self.old
            → Becomes self.old (take new_len self.old.items) 0 0 self.new }
        ensures shrink_succeeds { new_len ≤ len self.old → IsOk result }

        // Success fills the new places.
        ensures filled { let more = new_len - len self.old in
            let roomy = with_room (type_size T.row) self.old (len self.old) more in
            OnOk result (len self.old < new_len
            → (last : F) × AppendsResults F.step roomy more f last self.new) }

        // An error changes nothing.
        ensures error { IfErr result
            (LacksRoom (type_size T.row) self.old (new_len - len self.old)) }
        ensures unchanged { OnErr result (self.new ≡ self.old) }
    {
        self.resize_by(new_len, &mut f)
    }

    /// Like `resize_with`, but takes the closure by `&mut`, so that contracts describe its final
    /// state.
    ///
    /// `f` is called once for each new place, in order. It is not called if the vector is truncated
    /// or the allocation fails.
    ///
    /// # Errors
    /// Returns the same errors as `try_reserve`. The vector is unchanged and `f` is not called.
    ///
    /// Not in allocator-api2.
    #[tactic(auto, using(crate::proofs::Turns::turns, crate::proofs::Becoming::became))]
    pub fn resize_by<F: FnMut() -> T>(
        &mut self,
        new_len: usize,
        f: &mut F,
    ) -> Result<(), TryReserveError>
    where
        T: Drop,
        requires callable { MayCallTimes (λ g. F.pre g) F.step (new_len - len self.old) f.old }

        // The call succeeds if the new elements fit, and always if it truncates.
        ensures fits { HasRoom self.old (new_len - len self.old) → IsOk result }
        ensures truncated { new_len ≤ len self.old
            → Becomes self.old (take new_len self.old.items) 0 0 self.new }
        ensures shrink_succeeds { new_len ≤ len self.old → IsOk result }
        ensures not_called_if_truncated { new_len ≤ len self.old → f.new ≡ f.old }

        // Success fills the new places.
        ensures filled { let more = new_len - len self.old in
            let roomy = with_room (type_size T.row) self.old (len self.old) more in
            OnOk result (len self.old < new_len
            → AppendsResults F.step roomy more f.old f.new self.new) }

        // An error changes nothing.
        ensures error { IfErr result
            (LacksRoom (type_size T.row) self.old (new_len - len self.old)) }
        ensures unchanged { OnErr result (self.new ≡ self.old) }
        ensures not_called { OnErr result (f.new ≡ f.old) }
    {
        let len = self.len();
        if len < new_len {
            self.try_reserve(new_len - len)?;
            self.push_results(new_len - len, f);
            return Ok(());
        }
        self.truncate(new_len);
        Ok(())
    }

    // Appends `count` results of `f`, called once for each.
    fn push_results<F: FnMut() -> T>(&mut self, count: usize, f: &mut F)
        requires room { HasRoom self.old count }
        requires callable { MayCallTimes (λ g. F.pre g) F.step count f.old }
        ensures { AppendsResults F.step self.old count f.old f.new self.new }
    {
        let _f = replace_with(self, (f, count), with_results);
    }
}

// The loops own the vector that they fill: nothing that is stored in its places can then change its
// fields, which are kept in registers. Each appends clones, up to the first that fails, and returns
// their number.

// Appends clones of the elements of `source`.
#[tactic(auto, using(crate::proofs::CopiesLemmas::copied))]
fn with_prefix<T: Clone, A: Allocator>(mut list: Vec<T, A>, source: &[T]) -> (Vec<T, A>, usize)
    requires room { HasRoom list (length source.now) }
    ensures within { result.1 ≤ length source.now }
    ensures pushed { AppendsClones T.is_clone list (take result.1 source.now) result.0 }
    ensures clone_failed { result.1 < length source.now → ¬ (All T.is_infallible source.now) }
{
    let count = source.len();
    'each: for pushed in 0..count {
        match source[pushed].clone() {
            Ok(copy) => list.put_next(copy),
            Err(_) => return (list, pushed),
        }
    }
    (list, count)
}

// Appends clones of `own.1` of the vector's own elements, from the index `own.0` on.
#[tactic(auto, using(crate::proofs::CopiesLemmas::copied))]
fn with_own<T: Clone, A: Allocator>(mut list: Vec<T, A>, own: (usize, usize)) -> (Vec<T, A>, usize)
    requires range { own.0 + own.1 ≤ len list }
    requires room { HasRoom list own.1 }
    ensures within { result.1 ≤ own.1 }
    ensures pushed { AppendsClones T.is_clone list (take result.1
        (drop own.0 list.items)) result.0 }
    ensures clone_failed { result.1 < own.1
        → ¬ (All T.is_infallible (take own.1 (drop own.0 list.items))) }
{
    let (from, count) = own;
    'each: for pushed in 0..count {
        match list.as_slice()[from + pushed].clone() {
            Ok(copy) => list.put_next(copy),
            Err(_) => return (list, pushed),
        }
    }
    (list, count)
}

// Appends `same.1` clones of the value `same.0`.
#[tactic(auto, using(crate::proofs::CopiesLemmas::copied))]
fn with_same<T: Clone, A: Allocator>(mut list: Vec<T, A>, same: (&T, usize)) -> (Vec<T, A>, usize)
    requires room { HasRoom list same.1 }
    ensures within { result.1 ≤ same.entry.1 }
    ensures pushed { AppendsClones T.is_clone list
        (take result.1 (replicate same.entry.1 same.entry.0.now)) result.0 }
    ensures clone_failed { result.1 < same.entry.1 → ¬ (T.is_infallible same.entry.0.now) }
{
    let (value, count) = same;
    'each: for pushed in 0..count {
        match value.clone() {
            Ok(copy) => list.put_next(copy),
            Err(_) => return (list, pushed),
        }
    }
    (list, count)
}

// Appends `calls.1` results of the closure `calls.0`, and returns the closure.
#[tactic(auto, using(crate::proofs::Turns::turns))]
fn with_results<'a, T, A: Allocator, F: FnMut() -> T>(
    mut list: Vec<T, A>,
    calls: (&'a mut F, usize),
) -> (Vec<T, A>, &'a mut F)
    requires room { HasRoom list calls.1 }
    requires callable { MayCallTimes (λ g. F.pre g) F.step calls.1 calls.0.now }
    ensures same_reference { result.1.ghost_name ≡ calls.entry.0.ghost_name }
    ensures added { AppendsResults F.step list calls.entry.1 calls.entry.0.now result.1.now result.0 }
{
    let (f, count) = calls;
    'each: for _filled in 0..count {
        let value = result_of(f);
        list.put_next(value);
    }
    (list, f)
}

// Calls a closure that makes values, and returns its result.
fn result_of<T, F: FnMut() -> T>(f: &mut F) -> T
    requires { F.pre f.old }
    ensures { F.step f.old result f.new }
{
    f()
}
