//! A small vector cut down or filled up to a length.
ghost use Rattle.std.specs.Prelude.{◌≡◌, ◌+◌, ◌-◌, ◌<◌, ◌≤◌, ◌++◌, false, length, replicate, take, IfErr, IsOk, IsTrue, OnErr, OnOk};
ghost use Rattle.std.specs.Mem.{type_size};
ghost use Rattle.allocator_api2.specs.Clones.{ClonesAreEqual};
ghost use Rattle.allocator_api2.specs.Copies.{MayCallTimes};
ghost use Rattle.aa_inline.specs.Extending.{AppendFails, AppendsClones, AppendsCopies, AppendsPart, AppendsResults, RolledBack};
ghost use Rattle.aa_inline.specs.Inlined.{with_items, with_written, with_room, HasRoom, LacksRoom};

use crate::inline::InlineVec;
use allocator_api2::collections::{TryReserveError, TryReserveErrorKind};
use std::alloc::Allocator;
use std::default::MadeWith;

impl<T: MadeWith<A> + Drop + Clone, A: Allocator + Copy, const N: usize> InlineVec<T, A, N> {
    /// Truncates the vector to `new_len` items, or appends clones of `value` up to that length.
    ///
    /// The last new item is `value` itself. Truncates as `truncate` does. Else allocates as
    /// `reserve` does, once and before the first clone.
    ///
    /// # Errors
    /// `CapacityOverflow` or `AllocError`, as `reserve` returns them; the vector is unchanged then.
    /// `AllocError` with `new_len` if a clone fails. The clones made so far are dropped then, and
    /// the new capacity is kept.
    #[tactic(auto, using(crate::proofs::Filling::filled), unfolding(crate::specs::Inlined::with_room))]
    pub fn resize(&mut self, new_len: usize, value: T) -> Result<(), TryReserveError>
        // The call succeeds if the new items fit and no clone fails, and always if it truncates.
        ensures fits { HasRoom N self.old (new_len - length self.old.items)
            → (length self.old.items + 1 < new_len → T.is_infallible value) → IsOk result }
        ensures truncated { new_len ≤ length self.old.items
            → self.new ≡ with_items self.old (take new_len self.old.items) }
        ensures shrink_succeeds { new_len ≤ length self.old.items → IsOk result }

        // Success fills the new places.
        ensures filled { let more = new_len - length self.old.items in
            let roomy = with_room (type_size T.row) N self.old more in
            OnOk result (length self.old.items < new_len
            → AppendsCopies T.is_clone roomy more value self.new) }
        ensures copied { let more = new_len - length self.old.items in
            let roomy = with_room (type_size T.row) N self.old more in
            let xs = take new_len self.old.items ++ replicate more value in
            ClonesAreEqual T.is_clone → OnOk result (length self.old.items < new_len
            → self.new ≡ with_written roomy xs more) }

        // An error means that the allocation or a clone failed.
        ensures only_longer { OnErr result (length self.old.items < new_len) }
        ensures failed { let more = new_len - length self.old.items in
            let failure = (length self.old.items + 1 < new_len) × ¬ (T.is_infallible value) in
            IfErr result (λ e. AppendFails failure (type_size T.row) N self.old more e self.new) }
    {
        let len = self.len();
        if new_len <= len {
            self.truncate(new_len);
            return Ok(());
        }
        if let Err(error) = self.reserve(new_len - len) {
            return Err(error);
        }
        if self.fill(new_len - len, value) {
            return Ok(());
        }
        Err(TryReserveErrorKind::AllocError { capacity: new_len }.into())
    }

    // Appends `count` items, which must fit: clones of `value` and last `value` itself, or nothing
    // if a clone fails. Returns whether it appended them.
    #[tactic(auto, using(crate::proofs::Filling::filled))]
    fn fill(&mut self, count: usize, value: T) -> bool
        requires some { 0 < count }
        requires room { HasRoom N self.old count }
        ensures filled { IsTrue result → AppendsCopies T.is_clone self.old count value self.new }
        ensures clone_failed { result ≡ false → (1 < count) × (¬ (T.is_infallible value)) }
        ensures rolled_back { result ≡ false → RolledBack self.old count self.new }
    {
        let len = self.len();
        if self.push_same(&value, count - 1) {
            self.put_last(value);
            return true;
        }
        self.truncate(len);
        false
    }

    // Appends `count` clones of `value`, which must fit, up to the first that fails. Returns
    // whether all were made.
    fn push_same(&mut self, value: &T, count: usize) -> bool
        requires { HasRoom N self.old count }
        ensures added { IsTrue result
            → AppendsClones T.is_clone self.old (replicate count value.now) self.new }
        ensures part { result ≡ false → AppendsPart self.old count self.new }
        ensures failed { result ≡ false → (0 < count) × ¬ (T.is_infallible value.now) }
    {
        'each: for _done in 0..count {
            match value.clone() {
                Ok(copy) => self.put_last(copy),
                Err(_) => return false,
            }
        }
        true
    }
}

impl<T: MadeWith<A> + Drop, A: Allocator + Copy, const N: usize> InlineVec<T, A, N> {
    /// Truncates the vector to `new_len` items, or appends results of `f` up to that length.
    ///
    /// `f` is called once for each new item, in order. Truncates as `truncate` does. Else allocates
    /// as `reserve` does, once and before the first call of `f`.
    ///
    /// # Errors
    /// `CapacityOverflow` or `AllocError`, as `reserve` returns them. The vector is unchanged, and
    /// `f` is not called.
    #[tactic(auto, using(crate::proofs::Results::resulting))]
    pub fn resize_with<F: FnMut() -> T>(
        &mut self,
        new_len: usize,
        mut f: F,
    ) -> Result<(), TryReserveError>
        requires { MayCallTimes (λ g. F.pre g) F.step (new_len - length self.old.items) f }

        // The call succeeds if the new items fit, and always if it truncates.
        ensures fits { HasRoom N self.old (new_len - length self.old.items) → IsOk result }
        ensures truncated { new_len ≤ length self.old.items
            → self.new ≡ with_items self.old (take new_len self.old.items) }
        ensures shrink_succeeds { new_len ≤ length self.old.items → IsOk result }

        // Success fills the new places.
        ensures filled { let more = new_len - length self.old.items in
            let roomy = with_room (type_size T.row) N self.old more in
            OnOk result (length self.old.items < new_len
            → (last : F) × AppendsResults F.step roomy more f last self.new) }

        // An error changes nothing.
        ensures error { IfErr result
            (LacksRoom (type_size T.row) N self.old (new_len - length self.old.items)) }
        ensures unchanged { OnErr result (self.new ≡ self.old) }
    {
        let len = self.len();
        if len < new_len {
            self.reserve(new_len - len)?;
            self.push_results(new_len - len, &mut f);
            return Ok(());
        }
        self.truncate(new_len);
        Ok(())
    }

    // Appends `count` results of `f`, which must fit; `f` is called once for each.
    #[tactic(auto, using(crate::proofs::Results::resulting))]
    fn push_results<F: FnMut() -> T>(&mut self, count: usize, f: &mut F)
        requires room { HasRoom N self.old count }
        requires callable { MayCallTimes (λ g. F.pre g) F.step count f.old }
        ensures { AppendsResults F.step self.old count f.old f.new self.new }
    {
        'call: for _done in 0..count {
            self.put_last(result_of(f));
        }
    }
}

// Calls `f` and returns its result.
#[inline(always)]
fn result_of<T, F: FnMut() -> T>(f: &mut F) -> T
    requires { F.pre f.old }
    ensures { F.step f.old result f.new }
{
    f()
}
