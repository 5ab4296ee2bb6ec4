//! Mutable references to many values of a block at once.
ghost use Rattle.std.specs.Prelude.{◌≡◌, List, Option, Some, None, get_or, slice_set};
ghost use Rattle.std.specs.Borrow.{sem};
ghost use base.Fml.{GName, ftrue};
ghost use Rattle.aa_raw.specs.Places.{IsFilled};
ghost use Rattle.aa_raw.specs.Entries.{entries_owned};

use crate::raw_vec::RawVec;
use std::alloc::Allocator;
use std::marker::{Model, PhantomData};

/// The borrowed entries of a block of pairs, each of which can be taken once.
///
/// Returned by `RawVec::entries_mut`. A contract sees it as its places: those with an entry that was
/// not taken are filled.
pub struct EntriesMut<'a, K, V> {
    ptr: *mut (K, V),
    mark: PhantomData<&'a mut (K, V)>,
    // the name of the borrow of the values, and that of the borrowed block
    ghost name: { GName },
    ghost tie: { GName },
    ghost places: { List (Option (K × V)) },
}

impl<'a, K, V> Model for EntriesMut<'a, K, V> {
    ghost also_owns = { λ e. entries_owned K.row V.row 'a e.ptr e.name e.places };

    ghost also_shares = { λ _ _ _. ftrue };
}

impl<K, V> Drop for EntriesMut<'_, K, V> {
    /// Ends the borrow of the entries that were not taken. Does nothing at run time.
    fn drop(self) {
        let EntriesMut { ptr: _, mark: _ } = self;
    }
}

impl<'a, K, V> EntriesMut<'a, K, V> {
    ghost use Rattle.aa_raw.specs.EntriesMut.{borrow_name, places_left};

    /// Takes the entry in the filled place `index`: returns references to its key and its value.
    #[inline(always)]
    pub fn take(&mut self, index: usize) -> (&'a K, &'a mut V)
        requires { IsFilled (places_left self.old) index }
        ensures value { get_or (places_left self.old) index None
            ≡ Some (result.0.now, result.1.now) }
        ensures places { places_left self.new ≡ slice_set (places_left self.old) index None }
        ensures same { borrow_name self.new ≡ borrow_name self.old }
    {
        let entry = unsafe { self.ptr.add(index) };
        unsafe { (&(*entry).0, &mut (*entry).1) }
    }
}

impl<K, V, A: Allocator> RawVec<(K, V), A> {
    ghost use Rattle.aa_raw.specs.EntriesLends.{lends_entries};
    ghost use Rattle.aa_raw.specs.EntriesMut.{borrow_name, places_left};

    /// Borrows all entries of the block at once: the keys shared, and the values mutably.
    ///
    /// Does not allocate. Not in allocator-api2.
    #[inline(always)]
    pub fn entries_mut(&mut self) -> EntriesMut<'_, K, V>
        ensures* writes_back { sem 𝓛
            (lends_entries K.row V.row A.row A.Allocator self.entry (borrow_name result)) }
        ensures places { places_left result ≡ self.old.places }
    {
        EntriesMut {
            ptr: self.row.ptr,
            mark: PhantomData,
        }
    }
}
