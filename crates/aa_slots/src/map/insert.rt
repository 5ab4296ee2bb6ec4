//! Insertion of a value that is made with its key.
ghost use Rattle.std.specs.Prelude.{◌≡◌, ◌≢◌, ◌+◌, ◌<◌, ◌^◌, is_some, nat_lt, if◌then◌else◌, true, IfErr, IfOk, IfSome, IsOk, OnErr, OnOk};
ghost use Rattle.allocator_api2.specs.Errors.{IsErrorFor};
ghost use Rattle.aa_slots.specs.Slotted.{count, find, grown, HasRoom, Puts};
ghost use Rattle.aa_slots.specs.declared.key.Key.{Key};
ghost use Rattle.aa_slots.specs.declared.key.KeyData.{KeyData};

use super::KEYS;
use crate::map::{Key, KeyData, SlotMap};
use crate::slots::{next_index, put};
use allocator_api2::collections::{TryReserveError, TryReserveErrorKind};
use std::alloc::Allocator;

#[tactic(auto, using(crate::proofs::Finds::finds))]
impl<T: Drop, A: Allocator + Clone, K> SlotMap<T, A, K> {
    /// Inserts the value that `f` returns for its key, and returns the key, which was not issued
    /// before.
    ///
    /// Allocates as `insert` does, before `f` is called.
    ///
    /// # Errors
    /// The errors of `insert`. The map is unchanged, and `f` is not called.
    pub fn insert_with_key<F: FnOnce(Key<K>) -> T + Drop>(
        &mut self,
        f: F,
    ) -> Result<Key<K>, TryReserveError>
        requires callable { (k : Key K) → k.parts.serial ≡ self.old.issued → F.pre f k }

        // If the map is not full, and keys remain to be issued, it succeeds.
        ensures fits { HasRoom self.old 1 → self.old.issued < 2 ^ 63 → IsOk result }

        // On success, the key is new and finds what `f` returned for it; the other keys find what
        // they found.
        ensures found { IfOk result (λ k. is_some (find self.new k.parts) ≡ true) }
        ensures called { IfOk result (λ k. IfSome (find self.new k.parts) (F.post f k)) }
        ensures put { IfOk result (λ k. IfSome (find self.new k.parts)
            (λ x. Puts self.old.slots k.parts x self.new.slots)) }
        ensures fresh { IfOk result (λ k. k.parts.serial ≡ self.old.issued) }
        ensures issued { OnOk result (self.new.issued ≡ self.old.issued + 1) }
        ensures others { IfOk result
            (λ k. (j : KeyData) → j ≢ k.parts → find self.new j ≡ find self.old j) }

        // There is one value more. The blocks grow only if the map was full, and the policy is as
        // before.
        ensures count { OnOk result (count self.new.slots ≡ count self.old.slots + 1) }
        ensures growth { self.new.growth ≡ self.old.growth }
        ensures capacity { OnOk result (self.new.capacity ≡
            (if nat_lt (count self.old.slots) self.old.capacity then self.old.capacity
            else grown self.old.growth self.old.capacity)) }
        ensures resizes { OnOk result (self.new.resizes ≡
            (if nat_lt (count self.old.slots) self.old.capacity then self.old.resizes
            else self.old.resizes + 1)) }

        // An error has the requested capacity, and leaves the map unchanged.
        ensures error { IfErr result (λ e. IsErrorFor e (grown self.old.growth self.old.capacity)) }
        ensures unchanged { OnErr result (self.new ≡ self.old) }
    {
        let serial = self.issued;
        if serial >= KEYS {
            return Err(TryReserveErrorKind::CapacityOverflow.into());
        }
        self.make_room()?;
        let index = match &mut self.slots {
            Some(slots) => {
                let index = next_index(slots, &self.free);
                let value = f(Key::from(KeyData { index, serial }));
                put(slots, &mut self.values, &mut self.free, serial, value)
            }
            None => unreachable!(),
        };
        self.issued = serial + 1;
        Ok(Key::from(KeyData { index, serial }))
    }
}
