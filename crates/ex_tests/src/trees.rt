//! Lists and trees that are built, changed and dropped.
use aa_boxed::boxed::Box;
use aa_vec::vec::Vec;
use ex_trees::derived::{Link, Sealed, Wood};
use ex_trees::list::{Node, into_reversed, list_of, pop, push, total_by_loop};
use ex_trees::search::{Search, holds, insert};
use ex_trees::tree::{Tree, add_up, clear, double, leaf, levels, push_child};
use std::alloc::{AllocError, Allocator, Global};
use std::fmt::Debug;
use std::test::Fail;
use test_allocators::Faulty;

type List<'a> = Option<Box<Node<&'a Faulty<Global>>, &'a Faulty<Global>>>;

// A list of the numbers from `count - 1` down to 0.
fn numbers<'a>(heap: &'a Faulty<Global>, count: u32) -> Result<List<'a>, AllocError> {
    let mut head: List<'a> = None;
    for value in 0..count {
        push(&mut head, value, heap)?;
    }
    Ok(head)
}

// Makes a list of 100,000 nodes, which is dropped by itself or by `clear`. Returns whether it was
// made.
fn is_made(heap: &Faulty<Global>, by_itself: bool) -> bool {
    let Ok(mut head) = numbers(heap, 100_000) else {
        return false;
    };
    if !by_itself {
        ex_trees::list::clear(&mut head);
    }
    true
}

// A recursive drop, with one call for each node, has no stack for so many.
#[test]
fn long_lists_are_dropped(rt: HostRuntime) {
    let heap = Faulty::new(rt.alloc());
    // How it is dropped, which request fails, and how many blocks were freed then.
    for (by_itself, failed, frees) in [
        (true, 100_000, 100_000),
        (false, 100_000, 200_000),
        (true, 49_999, 249_999),
    ] {
        heap.fail_requests(failed, 1);
        assert!(rt; is_made(&heap, by_itself) == (failed == 100_000));
        assert!(rt; heap.frees() == frees && heap.outstanding() == 0);
    }
}

// Whether these values come from the front, one after another.
fn yields_values(head: &mut List<'_>, values: &[u32]) -> bool {
    let mut all = true;
    for value in values {
        all = pop(head) == Some(*value) && all;
    }
    all
}

#[test]
fn a_list_is_reversed_and_traversed(rt: HostRuntime) -> Result<(), Fail> {
    let heap = Faulty::new(rt.alloc());
    let mut round = into_reversed(numbers(&heap, 4)?);
    assert!(rt; yields_values(&mut round, &[0, 1, 2, 3]) && pop(&mut round) == None);
    Ok(())
}

// Returns whether a list of these numbers is made, and returns them.
fn is_listed(heap: &Faulty<Global>, values: &[u32]) -> bool {
    match list_of(values, &heap) {
        Ok(mut head) => yields_values(&mut head, values) && pop(&mut head) == None,
        Err(_) => false,
    }
}

#[test]
fn a_list_of_numbers_is_made_whole_or_not(rt: HostRuntime) {
    let heap = Faulty::new(rt.alloc());
    for (failed, listed) in [(2, false), (3, true)] {
        heap.fail_requests(failed, 1);
        assert!(rt; is_listed(&heap, &[7, 8, 9]) == listed && heap.outstanding() == 0);
    }
}

#[test]
fn a_list_and_a_tree_add_up(rt: HostRuntime) -> Result<(), Fail> {
    let mut head: Option<Box<Node<Global>, Global>> = None;
    push(&mut head, 9, rt.alloc())?;
    assert!(rt; total_by_loop(&head) == 9);
    assert!(rt; add_up(&leaf(7, rt.alloc())) == 7);
    Ok(())
}

type Small<'a> = Tree<&'a Faulty<Global>>;

// Puts a leaf below a tree, and returns the value in the error, if this fails.
fn grown<'a>(tree: &mut Small<'a>, value: u64, heap: &'a Faulty<Global>) -> Option<u64> {
    match push_child(tree, leaf(value, heap)) {
        Ok(()) => None,
        Err(refused) => Some(refused.source.value),
    }
}

// Puts a leaf below the first child.
fn grown_below<'a>(tree: &mut Small<'a>, value: u64, heap: &'a Faulty<Global>) -> Option<u64> {
    for child in tree.below.as_mut_slice() {
        return grown(child, value, heap);
    }
    None
}

// The sum of the values, or `u64::MAX`.
fn sum(tree: &Small<'_>) -> u64 {
    let mut all = tree.value;
    for child in tree.below.as_slice() {
        all = sum(child).saturating_add(all);
    }
    all
}

// Whether a tree has so many levels, and this sum.
fn comes_to(tree: &Small<'_>, height: u64, all: u64) -> bool {
    levels(tree) == height && sum(tree) == all
}

#[test]
fn a_tree_of_three_levels_is_changed_in_place(rt: HostRuntime) {
    let heap = Faulty::new(rt.alloc());
    let mut tree = leaf(1, &heap);
    assert!(rt; grown(&mut tree, 2, &heap) == None);
    for (failed, back, height, sum) in [(1, Some(5), 2, 3), (0, None, 3, 8)] {
        heap.fail_requests(0, failed);
        assert!(rt; grown_below(&mut tree, 5, &heap) == back && comes_to(&tree, height, sum));
    }
    double(&mut tree);
    assert!(rt; comes_to(&tree, 3, 16));
    clear(&mut tree);
    assert!(rt; comes_to(&tree, 3, 0));
    drop(tree);
    assert!(rt; heap.outstanding() == 0);
}

#[test]
fn a_search_tree_has_what_was_put_in(rt: HostRuntime) -> Result<(), AllocError> {
    let alloc = rt.alloc();
    let mut tree: Search<Global> = Search::Leaf;
    for key in [5, 2, 8, 2, 9] {
        tree = insert(tree, key, &alloc)?;
    }
    for key in 0..11 {
        assert!(rt; holds(&tree, key) == matches!(key, 2 | 5 | 8 | 9));
    }
    Ok(())
}

// Whether the first is less than the second, and unlike it.
fn is_below<T: Ord>(less: &T, more: &T) -> bool {
    less < more && less != more
}

// Whether a value is printed so, and equals itself and its clone.
fn is_itself<T: PartialEq + Debug + Clone + Drop>(
    alloc: Global,
    x: &T,
    text: &str,
) -> Result<bool, AllocError> {
    Ok(x == x && x.clone()? == *x && format!(in alloc; "{x:?}")?.as_str() == text)
}

fn link(value: u32, next: Option<Box<Link<Global>, Global>>) -> Link<Global> {
    Link { value, next }
}

#[test]
fn lists_are_compared_and_printed(rt: HostRuntime) -> Result<(), Fail> {
    let short = link(1, None);
    let low = link(1, Some(Box::new(rt.alloc(), link(2, None))?));
    let high = link(1, Some(Box::new(rt.alloc(), link(3, None))?));
    assert!(rt; is_below(&short, &low) && is_below(&low, &high));
    let text = "Link { value: 1, next: Some(Link { value: 2, next: None }) }";
    assert!(rt; is_itself(rt.alloc(), &low, text)?);
    Ok(())
}

fn wood(value: u32, alloc: Global) -> Wood<Global> {
    Wood {
        value,
        below: Vec::new_in(alloc),
    }
}

#[test]
fn trees_are_compared_and_printed(rt: HostRuntime) -> Result<(), Fail> {
    let mut tree = wood(1, rt.alloc());
    tree.below.push(wood(2, rt.alloc()))?;
    assert!(rt; is_below(&wood(1, rt.alloc()), &tree));
    let text = "Wood { value: 1, below: [Wood { value: 2, below: [] }] }";
    assert!(rt; is_itself(rt.alloc(), &tree, text)?);
    Ok(())
}

// A tree of boxed slices: a value over such trees.
fn sealed(value: u32, below: Vec<Sealed<Global>>) -> Result<Sealed<Global>, Fail> {
    Ok(Sealed {
        value,
        below: below.into_boxed_slice()?,
    })
}

#[test]
fn sealed_trees_are_compared_and_printed(rt: HostRuntime) -> Result<(), Fail> {
    let mut items = Vec::new(rt.alloc());
    items.push(sealed(2, Vec::new(rt.alloc()))?)?;
    let text = "Sealed { value: 1, below: [Sealed { value: 2, below: [] }] }";
    assert!(rt; is_itself(rt.alloc(), &sealed(1, items)?, text)?);
    Ok(())
}
