//! Search trees of boxes, over this library's box.

use allocator_api2::boxed::Box;
use std::alloc::Global;

/// A node of a tree that is not balanced: a key between the lesser keys and the others.
#[derive(Drop)]
pub struct Node {
    key: u64,
    lesser: Option<Box<Node>>,
    others: Option<Box<Node>>,
}

/// Inserts a key into the tree, and returns whether the allocation succeeded.
pub fn insert(tree: &mut Option<Box<Node>>, alloc: Global, key: u64) -> bool {
    match tree {
        Some(node) => insert_below(&mut **node, alloc, key),
        None => put_leaf(tree, alloc, key),
    }
}

fn insert_below(node: &mut Node, alloc: Global, key: u64) -> bool {
    if key < node.key {
        match &mut node.lesser {
            Some(next) => insert_below(&mut **next, alloc, key),
            None => put_leaf(&mut node.lesser, alloc, key),
        }
    } else {
        match &mut node.others {
            Some(next) => insert_below(&mut **next, alloc, key),
            None => put_leaf(&mut node.others, alloc, key),
        }
    }
}

fn put_leaf(place: &mut Option<Box<Node>>, alloc: Global, key: u64) -> bool {
    let leaf = Node {
        key,
        lesser: None,
        others: None,
    };
    match Box::new(alloc, leaf) {
        Ok(node) => {
            *place = Some(node);
            true
        }
        Err(_) => false,
    }
}

/// Returns whether the tree has the key.
pub fn has(tree: &Option<Box<Node>>, key: u64) -> bool {
    let mut rest = tree;
    while let Some(node) = rest {
        if key == node.key {
            return true;
        }
        if key < node.key {
            rest = &node.lesser;
        } else {
            rest = &node.others;
        }
    }
    false
}

/// Returns the checksum of the keys in their order, continuing from `sum`.
pub fn checksum(tree: &Option<Box<Node>>, sum: u64) -> u64 {
    match tree {
        Some(node) => checksum_of(&**node, sum),
        None => sum,
    }
}

fn checksum_of(node: &Node, sum: u64) -> u64 {
    let lesser = match &node.lesser {
        Some(next) => checksum_of(&**next, sum),
        None => sum,
    };
    let here = lesser.wrapping_mul(31).wrapping_add(node.key);
    match &node.others {
        Some(next) => checksum_of(&**next, here),
        None => here,
    }
}
