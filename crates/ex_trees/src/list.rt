//! A singly linked list of boxes.
ghost use Rattle.std.specs.Prelude.{◌≡◌, ◌^◌, ◌<◌, ◌-◌, ◌∷◌, ◌++◌, [], IfOk, IfErr, OnOk, MatchOption, sum, length, take, drop, reverse};
ghost use Rattle.ex_trees.specs.Linked.{values, values_of};

use aa_boxed::boxed::{Box, UninitBox};
use std::alloc::{AllocError, Allocator};

/// A node of the list: a value, and the nodes after it.
pub struct Node<A: Allocator> {
    pub next: Option<Box<Node<A>, A>>,
    pub value: u32,
}

// A derived drop would recurse once for each node. This one is a loop, so that a list of any length
// needs no deep stack.
impl<A: Allocator> Drop for Node<A> {
    fn drop(mut self) {
        loop {
            let Node { next, value: _ } = self;
            match next {
                None => return,
                Some(node) => self = Box::into_inner(node),
            }
        }
    }
}

impl<A: Allocator> Node<A> {
    /// Consumes the node and returns its value and the nodes after it.
    pub fn into_parts(self) -> (u32, Option<Box<Node<A>, A>>)
        ensures { values self ≡ result.0 ∷ values_of result.1 }
    {
        let Node { next, value } = self;
        (value, next)
    }
}

/// Returns the list `head` with `value` before the others.
///
/// Allocates one node.
///
/// # Errors
/// `AllocError` if the allocation fails. The list is then dropped; `push` keeps it.
pub fn push_front<A: Allocator>(
    head: Option<Box<Node<A>, A>>,
    value: u32,
    alloc: A,
) -> Result<Box<Node<A>, A>, AllocError>
    ensures { IfOk result (λ b. values b.value ≡ value ∷ values_of head) }
{
    Box::new_in(Node { next: head, value }, alloc)
}

/// Removes the first node, and returns its value and the list of the others.
pub fn pop_front<A: Allocator>(head: Box<Node<A>, A>) -> (u32, Option<Box<Node<A>, A>>)
    ensures { values head.value ≡ result.0 ∷ values_of result.1 }
{
    Box::into_inner(head).into_parts()
}

/// Inserts `value` before the others.
///
/// Allocates one node.
///
/// # Errors
/// `AllocError` if the allocation fails. The list is unchanged.
pub fn push<A: Allocator>(
    head: &mut Option<Box<Node<A>, A>>,
    value: u32,
    alloc: A,
) -> Result<(), AllocError>
    ensures pushed { OnOk result (values_of head.new ≡ value ∷ values_of head.old) }
    ensures unchanged { IfErr result (λ _. head.new ≡ head.old) }
{
    let uninit = Box::new_uninit_in(alloc)?;
    let next = head.take();
    *head = Some(UninitBox::write(uninit, Node { next, value }));
    Ok(())
}

/// Removes the first value and returns it, or `None` if the list is empty.
pub fn pop<A: Allocator>(head: &mut Option<Box<Node<A>, A>>) -> Option<u32>
    ensures cases { MatchOption result (values_of head.old ≡ [])
        (λ x. values_of head.old ≡ x ∷ values_of head.new) }
    ensures remaining { values_of head.new ≡ drop 1 (values_of head.old) }
{
    match head.take() {
        None => None,
        Some(node) => {
            let (value, rest) = pop_front(node);
            *head = rest;
            Some(value)
        }
    }
}

/// Returns a list of these numbers, in order.
///
/// Allocates a node for each number.
///
/// # Errors
/// `AllocError` if a clone of the allocator or an allocation fails. The nodes made so far are
/// dropped, in a loop.
pub fn list_of<A: Allocator + Clone>(
    numbers: &[u32],
    alloc: &A,
) -> Result<Option<Box<Node<A>, A>>, AllocError>
    ensures { IfOk result (λ head. values_of head ≡ numbers.now) }
{
    let mut turned: Option<Box<Node<A>, A>> = None;
    'each: for number in numbers {
        push(&mut turned, *number, alloc.clone()?)?;
    }
    Ok(into_reversed(turned))
}

/// Removes all values, and drops the nodes in a loop.
pub fn clear<A: Allocator>(head: &mut Option<Box<Node<A>, A>>)
    ensures { head.new ≡ None }
{
    *head = None;
}

/// Returns the sum of the values, by recursion.
pub fn total<A: Allocator>(node: &Node<A>) -> u64
    requires { sum (values node.now) < 2 ^ 64 }
    ensures { result ≡ sum (values node.now) }
{
    match &node.next {
        None => node.value as u64,
        Some(next) => node.value as u64 + total(&**next),
    }
}

/// Returns the sum of the values, by a loop.
pub fn total_by_loop<A: Allocator>(head: &Option<Box<Node<A>, A>>) -> u64
    requires { sum (values_of head.now) < 2 ^ 64 }
    ensures { result ≡ sum (values_of head.now) }
{
    let mut sum = 0;
    let mut rest = head;
    'down: while let Some(node) = rest {
        sum += node.value as u64;
        rest = &node.next;
    }
    sum
}

/// Returns the list with its values in reverse order.
///
/// Does not allocate.
pub fn into_reversed<A: Allocator>(head: Option<Box<Node<A>, A>>) -> Option<Box<Node<A>, A>>
    ensures { values_of result ≡ reverse (values_of head) }
{
    let mut rest = head;
    let mut done: Option<Box<Node<A>, A>> = None;
    'turn: while let Some(mut node) = rest {
        rest = node.next.take();
        node.next = done;
        done = Some(node);
    }
    done
}

/// Sets the first value to `value`.
pub fn set_first<A: Allocator>(head: &mut Box<Node<A>, A>, value: u32)
    ensures { values head.new.value ≡ value ∷ drop 1 (values head.old.value) }
{
    head.value = value;
}

/// Sets the last value to `value`.
pub fn set_last<A: Allocator>(node: &mut Node<A>, value: u32)
    ensures { values node.new
        ≡ take (length (values node.old) - 1) (values node.old) ++ value ∷ [] }
{
    match &mut node.next {
        None => node.value = value,
        Some(next) => set_last(&mut **next, value),
    }
}

/// Returns a new list with the same values.
///
/// Allocates each node but the first.
///
/// # Errors
/// `AllocError` if a clone of the allocator or an allocation fails.
pub fn try_clone<A: Allocator + Clone>(node: &Node<A>, alloc: &A) -> Result<Node<A>, AllocError>
    ensures { IfOk result (λ n. values n ≡ values node.now) }
{
    let next = match &node.next {
        None => None,
        Some(next) => Some(Box::new_in(try_clone(&**next, alloc)?, alloc.clone()?)?),
    };
    Ok(Node {
        next,
        value: node.value,
    })
}
