//! A binary search tree of boxes.
ghost use Rattle.std.specs.Prelude.{◌≡◌, ◌≢◌, ℕ, IfOk, true};
ghost use Rattle.ex_trees.specs.Searches.{finds};

use aa_boxed::boxed::Box;
use std::alloc::{AllocError, Allocator};

/// A search tree: empty, or a key between the trees of the lesser and the greater keys.
#[derive(Drop)]
pub enum Search<A: Allocator> {
    Leaf,
    Fork(Box<Search<A>, A>, u64, Box<Search<A>, A>),
}

/// Returns `true` if the tree has the key.
#[tactic(auto, using(crate::proofs::Found::found))]
pub fn holds<A: Allocator>(tree: &Search<A>, key: u64) -> bool
    ensures { result ≡ finds tree.now key }
{
    match tree {
        Search::Leaf => false,
        Search::Fork(below, here, above) => {
            if key == *here {
                true
            } else if key < *here {
                holds(&**below, key)
            } else {
                holds(&**above, key)
            }
        }
    }
}

/// Returns the tree with `key` in it.
///
/// Does not allocate if the root has the key.
///
/// # Errors
/// `AllocError` if a clone of the allocator or an allocation fails. The tree is dropped.
#[tactic(auto, using(crate::proofs::Found::found))]
pub fn insert<A: Allocator + Clone>(
    tree: Search<A>,
    key: u64,
    alloc: &A,
) -> Result<Search<A>, AllocError>
    ensures there { IfOk result (λ t. finds t key ≡ true) }
    ensures others { IfOk result (λ t. (other : ℕ) → other ≢ key → finds t other
        ≡ finds tree other) }
{
    match tree {
        Search::Leaf => {
            let below = Box::new_in(Search::Leaf, alloc.clone()?)?;
            let above = Box::new_in(Search::Leaf, alloc.clone()?)?;
            Ok(Search::Fork(below, key, above))
        }
        Search::Fork(below, here, above) => {
            if key == here {
                return Ok(Search::Fork(below, here, above));
            }
            if key < here {
                let less = insert(Box::into_inner(below), key, alloc)?;
                return Ok(Search::Fork(Box::new_in(less, alloc.clone()?)?, here, above));
            }
            let more = insert(Box::into_inner(above), key, alloc)?;
            Ok(Search::Fork(below, here, Box::new_in(more, alloc.clone()?)?))
        }
    }
}
