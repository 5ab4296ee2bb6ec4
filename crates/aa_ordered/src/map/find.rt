//! Finding a key among the leaves of a map.
ghost use Rattle.std.specs.Prelude.{◌≡◌, ◌≤◌, [], length, IfErr, IfOk};
ghost use Rattle.aa_ordered.specs.Balance.{joined, lengths, position, IsAt, IsBalanced, IsSpot};
ghost use Rattle.aa_ordered.specs.Entries.{IsFound, IsGap, IsOrdered};
ghost use Rattle.aa_ordered.specs.Places.{HasPlace};

use super::spots::Spot;
use crate::leaves::Leaves;
use crate::lookup::Lookup;
use crate::seek::seek;
use std::alloc::Allocator;
use std::cmp::{Ord, Ordering};

/// Returns the index of the list that a key belongs to.
///
/// This is the last list whose first key is no greater than `key`, or the first list. Returns 0 if
/// there are no lists.
fn list_for<K: Ord, V, A: Allocator, Q: Lookup<K>>(leaves: &Leaves<(K, V), A>, key: Q) -> usize
    requires balanced { IsBalanced (lengths leaves.now.lists) }
    requires ordered { IsOrdered K.cmp (joined leaves.now.lists) }
    ensures place { HasPlace (Q.order key) leaves.now.lists result }
    ensures within { length leaves.now.lists ≤ result → leaves.now.lists ≡ [] }
{
    let mut low = 0;
    let mut high = leaves.len().max(1);
    while high - low > 1 {
        let middle = low + (high - low) / 2;
        match key.compare(&leaves.list(middle)[0].0) {
            Ordering::Less => high = middle,
            Ordering::Equal => low = middle,
            Ordering::Greater => low = middle,
        }
    }
    low
}

/// Returns `Ok` with the spot of a key, or `Err` with the spot at which to insert it.
#[inline(always)]
pub(crate) fn find<K: Ord, V, A: Allocator, Q: Lookup<K>>(
    leaves: &Leaves<(K, V), A>,
    key: Q,
) -> Result<Spot, Spot>
    requires balanced { IsBalanced (lengths leaves.now.lists) }
    requires ordered { IsOrdered K.cmp (joined leaves.now.lists) }
    ensures item { IfOk result (λ s. IsAt leaves.now.lists s.list s.at) }
    ensures found { IfOk result (λ s. IsFound (Q.order key) (joined leaves.now.lists)
        (position leaves.now.lists s.list s.at)) }
    ensures spot { IfErr result (λ s. IsSpot leaves.now.lists s.list s.at) }
    ensures absent { IfErr result (λ s. IsGap (Q.order key) (joined leaves.now.lists)
        (position leaves.now.lists s.list s.at)) }
{
    let list = list_for(leaves, key);
    if list >= leaves.len() {
        return Err(Spot { list, at: 0 });
    }
    match seek(leaves.list(list), key) {
        Ok(at) => Ok(Spot { list, at }),
        Err(at) => Err(Spot { list, at }),
    }
}
