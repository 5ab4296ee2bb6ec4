//! A cell that notes how many bytes are allocated under a limit, so that no call can exceed it.
ghost use Rattle.std.specs.Prelude.{◌≡◌, ℕ};
ghost use base.Fml.{fex, fsep};
ghost use Rattle.aa_watched.specs.Cells.{IsWithin, noted_within, seen_by_one};

use std::marker::{Move, Owns};

/// A cell of the bytes that are allocated under a limit, and of the most that ever were.
pub(crate) struct Noted {
    limit: usize,
    allocated: usize,
    most: usize,
}

/// The numbers in a `Noted`.
#[derive(Clone, Copy)]
pub(crate) struct Numbers {
    pub(crate) limit: usize,
    pub(crate) allocated: usize,
    pub(crate) most: usize,
}

// The model of a cell is its limit.
impl Owns for Noted {
    ghost Value = { ℕ };

    ghost shr_at = { λ limit. seen_by_one Fields (λ i.
        noted_within limit i.limit i.allocated i.most) };
}

impl Move for Noted {
    ghost own_val = { λ limit vs. fex Inside (λ i. fsep (Fields.own_val i vs)
        (noted_within limit i.limit i.allocated i.most)) };
}

impl Noted {
    // Creates a cell of a limit, with nothing allocated.
    pub(crate) fn new(limit: usize) -> Noted
        ensures { result ≡ limit }
    {
        Noted {
            limit,
            allocated: 0,
            most: 0,
        }
    }

    // Returns the numbers in the cell.
    pub(crate) fn get(&self) -> Numbers
        ensures limit { result.limit ≡ self.now }
        ensures within { IsWithin self.now result.allocated result.most }
    {
        let this = self as *const Noted as *mut Noted;
        unsafe {
            Numbers {
                limit: (*this).limit,
                allocated: (*this).allocated,
                most: (*this).most,
            }
        }
    }

    // Replaces the numbers, except for the limit.
    pub(crate) fn set(&self, allocated: usize, most: usize)
        requires { IsWithin self.now allocated most }
    {
        let this = self as *const Noted as *mut Noted;
        unsafe {
            (*this).allocated = allocated;
            (*this).most = most;
        }
    }
}

impl Drop for Noted {
    fn drop(self) {
        let Noted {
            limit: _,
            allocated: _,
            most: _,
        } = self;
    }
}
