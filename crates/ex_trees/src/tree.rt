//! A tree whose nodes hold their children in vectors.
ghost use Rattle.std.specs.Prelude.{◌≡◌, ◌^◌, ◌+◌, ◌-◌, ◌*◌, ◌<◌, ◌∷◌, ◌++◌, [], OnOk, IfErr, IfNone, IfSome, MatchOption, min};
ghost use Rattle.ex_trees.specs.Trees.{total, height, nodes, with_values};
ghost use Rattle.ex_trees.specs.declared.tree.Tree.{out-Tree};

use aa_raw::collections::Refused;
use aa_vec::vec::Vec;
use std::alloc::Allocator;

/// A tree: a value, and its children.
#[derive(Drop)]
pub struct Tree<A: Allocator> {
    pub below: Vec<Tree<A>, A>,
    pub value: u64,
}

/// Returns a tree without children.
///
/// Does not allocate.
pub fn leaf<A: Allocator>(value: u64, alloc: A) -> Tree<A>
    ensures value { (out-Tree A result).value ≡ value }
    ensures below { (out-Tree A result).below.items ≡ [] }
    ensures total { total result ≡ value }
{
    Tree {
        below: Vec::new_in(alloc),
        value,
    }
}

/// Appends a child.
///
/// Allocates only if the vector of children is full.
///
/// # Errors
/// The errors of `Vec::push`. The tree is unchanged, and `child` is returned in the error.
#[tactic(auto, using(crate::proofs::Totals::totals))]
pub fn push_child<A: Allocator>(tree: &mut Tree<A>, child: Tree<A>) -> Result<(), Refused<Tree<A>>>
    ensures pushed { OnOk result
        ((out-Tree A tree.new).below.items ≡ (out-Tree A tree.old).below.items ++ child ∷ []) }
    ensures value { (out-Tree A tree.new).value ≡ (out-Tree A tree.old).value }
    ensures total { OnOk result (total tree.new ≡ total tree.old + total child) }
    ensures failed { IfErr result (λ r. (r.source ≡ child) × (tree.new ≡ tree.old)) }
{
    tree.below.push(child)
}

/// Returns the sum of all values.
#[tactic(auto, using(crate::proofs::Totals::total_out))]
pub fn add_up<A: Allocator>(tree: &Tree<A>) -> u64
    requires { total tree.now < 2 ^ 64 }
    ensures { result ≡ total tree.now }
{
    let mut sum = tree.value;
    for child in tree.below.as_slice() {
        sum += add_up(child);
    }
    sum
}

/// Returns the number of levels of a tree, at most `u64::MAX`.
#[tactic(auto, using(crate::proofs::Totals::height_out))]
pub fn levels<A: Allocator>(tree: &Tree<A>) -> u64
    ensures { result ≡ min (height tree.now) (2 ^ 64 - 1) }
{
    let mut most = 0;
    for child in tree.below.as_slice() {
        most = levels(child).max(most);
    }
    most.saturating_add(1)
}

/// Removes the last child and returns it, or `None` if there are no children.
#[tactic(auto, using(crate::proofs::Totals::totals))]
pub fn pop_child<A: Allocator>(tree: &mut Tree<A>) -> Option<Tree<A>>
    ensures cases { MatchOption result ((out-Tree A tree.old).below.items ≡ [])
        (λ c. (out-Tree A tree.old).below.items ≡ (out-Tree A tree.new).below.items ++ c ∷ []) }
    ensures value { (out-Tree A tree.new).value ≡ (out-Tree A tree.old).value }
    ensures total { IfSome result (λ c. total tree.old ≡ total tree.new + total c) }
    ensures none { IfNone result (tree.new ≡ tree.old) }
{
    tree.below.pop()
}

/// Sets each value to 0, visiting the children by index.
#[tactic(auto, using(crate::proofs::Nodes::changed))]
pub fn clear<A: Allocator>(tree: &mut Tree<A>)
    ensures { nodes tree.new ≡ with_values (λ _. 0) (nodes tree.old) }
{
    tree.value = 0;
    for i in 0..tree.below.len() {
        clear(&mut tree.below[i]);
    }
}

/// Doubles each value, visiting the children as a slice.
///
/// A value saturates at `u64::MAX`.
#[tactic(auto, using(crate::proofs::Nodes::changed))]
pub fn double<A: Allocator>(tree: &mut Tree<A>)
    ensures { nodes tree.new ≡ with_values (λ n. min (n * 2) (2 ^ 64 - 1)) (nodes tree.old) }
{
    tree.value = tree.value.saturating_mul(2);
    for child in tree.below.as_mut_slice() {
        double(child);
    }
}
