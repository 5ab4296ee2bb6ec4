//! Lists and trees.
use aa_boxed::boxed::Box;
use aa_vec::vec::Vec;
use ex_trees::derived::{Link, Sealed, Wood};
use ex_trees::forms::{BoxedVec, Boxes, Json, Rest, first_left, none_below};
use ex_trees::list::{Node, into_reversed, pop, push, try_clone};
use ex_trees::search::{Search, insert};
use ex_trees::tree::{Tree, leaf, pop_child, push_child};
use std::alloc::{AllocError, Allocator, Global};
use std::clone::Clone;
use test_allocators::Faulty;
use test_allocators::ends::{End, end_by, is_all_freed};

type Heap<'a> = &'a Faulty<Global>;

// A box of a value.
fn boxed<T: Drop, A: Allocator>(x: T, alloc: A) -> Result<Box<T, A>, AllocError> {
    Box::new_in(x, alloc)
}

// A vector of one value, or of none if that allocation fails.
fn only<T: Drop, A: Allocator>(x: T, alloc: A) -> Vec<T, A> {
    let mut v = Vec::new_in(alloc);
    let _pushed = v.push(x);
    v
}

// A value of each kind within one another: a block for each of five, and one more as that of the
// boxed slice is cut.
fn json<'a>(heap: Heap<'a>) -> Result<Json<Heap<'a>>, AllocError> {
    let text = Json::Text(only(7, heap));
    let fields = Json::Fields(only((1, text), heap));
    let inner = Json::Boxed(boxed(fields, heap)?);
    match only(inner, heap).into_boxed_slice() {
        Ok(fixed) => Ok(Json::Array(only(Json::Fixed(fixed), heap))),
        Err(_) => Err(AllocError),
    }
}

// Boxes below boxes: two blocks.
fn boxes<'a>(heap: Heap<'a>) -> Result<Boxes<Heap<'a>>, AllocError> {
    Ok(Boxes {
        below: only(boxed(none_below(heap), heap)?, heap),
    })
}

// A vector in a box, twice: three blocks.
fn after<'a>(heap: Heap<'a>) -> Result<BoxedVec<Heap<'a>>, AllocError> {
    let inner = BoxedVec {
        below: boxed(Vec::new_in(heap), heap)?,
    };
    Ok(BoxedVec {
        below: boxed(only(inner, heap), heap)?,
    })
}

// What is left of two, one of which holds another, once the first was taken: two blocks.
fn rest<'a>(heap: Heap<'a>) -> Rest<Heap<'a>> {
    let none = || Rest {
        left: Vec::new_in(heap).into_iter(),
    };
    let one = Rest {
        left: only(none(), heap).into_iter(),
    };
    let mut all = only(none(), heap);
    let _pushed = all.push(one);
    let mut rest = Rest {
        left: all.into_iter(),
    };
    drop(first_left(&mut rest));
    rest
}

// How many requests it takes to make one of each form, which are dropped.
fn forms_made(heap: Heap<'_>) -> [u64; 4] {
    let mut requests = [0u64; 4];
    let _json = json(heap);
    requests[0] = heap.requests();
    let _boxes = boxes(heap);
    requests[1] = heap.requests();
    let _after = after(heap);
    requests[2] = heap.requests();
    let _rest = rest(heap);
    requests[3] = heap.requests();
    requests
}

#[test]
fn values_that_hold_themselves_free_their_memory(rt: HostRuntime) {
    let heap = Faulty::new(rt.alloc());
    assert!(rt; forms_made(&heap) == [6, 8, 11, 13] && is_all_freed(&heap));
}

// Whether a value is cloned by one request, and fails to be if that fails.
fn is_cloned_by_one<T: Clone + Drop>(x: &T, heap: Heap<'_>) -> bool {
    heap.fail_requests(0, 1);
    let failed = x.clone().is_err();
    let before = heap.requests();
    failed && x.clone().is_ok() && heap.requests().wrapping_sub(before) == 1
}

// A value over those in a boxed slice.
fn sealed<A: Allocator>(value: u32, below: Vec<Sealed<A>, A>) -> Result<Sealed<A>, AllocError> {
    match below.into_boxed_slice() {
        Ok(below) => Ok(Sealed { value, below }),
        Err(_) => Err(AllocError),
    }
}

// The same of a value of each type with one below it.
fn are_cloned_by_one<'a>(heap: Heap<'a>) -> Result<bool, AllocError> {
    let next = boxed(
        Link {
            value: 2,
            next: None,
        },
        heap,
    )?;
    let link = Link {
        value: 1,
        next: Some(next),
    };
    let wood: Wood<Heap<'a>> = Wood {
        value: 1,
        below: only(
            Wood {
                value: 2,
                below: Vec::new_in(heap),
            },
            heap,
        ),
    };
    let sealed = sealed(1, only(sealed(2, Vec::new_in(heap))?, heap))?;
    Ok(
        is_cloned_by_one(&link, heap)
            && is_cloned_by_one(&wood, heap)
            && is_cloned_by_one(&sealed, heap),
    )
}

#[test]
fn what_is_derived_clones_once(rt: HostRuntime) {
    let heap = Faulty::new(rt.alloc());
    assert!(rt; are_cloned_by_one(&heap) == Ok(true) && is_all_freed(&heap));
}

// Puts keys into a search tree, and returns whether this succeeds.
fn searched(heap: Heap<'_>) -> bool {
    let mut tree = Search::Leaf;
    for key in [5, 2, 8, 5] {
        match insert(tree, key, &heap) {
            Ok(grown) => tree = grown,
            Err(_) => return false,
        }
    }
    true
}

// A leaf's place has a box, and each box on the way there is made anew. A key that is there needs
// none.
#[test]
fn a_search_tree_that_fails_frees_its_memory(rt: HostRuntime) {
    for failed in 0..9 {
        let heap = Faulty::new(rt.alloc());
        heap.fail_requests(failed, 1);
        assert!(rt;
            searched(&heap) == (failed == 8) && is_all_freed(&heap),
            "{failed}"
        );
        assert!(rt; heap.requests() == failed.saturating_add(1).min(8));
    }
}

// Reverses a list of three, copies it, and takes all. Returns the requests and the freed blocks
// after each.
fn list_used<'a>(heap: Heap<'a>) -> [(u64, u64); 3] {
    let mut head: Option<Box<Node<Heap<'a>>, Heap<'a>>> = None;
    for value in 0..3 {
        let _pushed = push(&mut head, value, heap);
    }
    let mut head = into_reversed(head);
    let turned = (heap.requests(), heap.frees());
    if let Some(first) = &head {
        drop(try_clone(&**first, &heap));
    }
    let after = (heap.requests(), heap.frees());
    for _ in 0..3 {
        let _value = pop(&mut head);
    }
    [turned, after, (heap.requests(), heap.frees())]
}

// The copy of the first node has no box.
#[test]
fn nodes_of_a_list_are_freed_one_by_one(rt: HostRuntime) {
    let heap = Faulty::new(rt.alloc());
    assert!(rt; list_used(&heap) == [(3, 0), (5, 2), (5, 5)]);
}

// Puts a leaf below a tree: how that ends.
fn grown<'a>(tree: &mut Tree<Heap<'a>>, heap: Heap<'a>) -> End {
    match push_child(tree, leaf(0, heap)) {
        Ok(()) => End::Done,
        Err(refused) => end_by(refused.error),
    }
}

// Puts four leaves below a tree, one more when the allocation fails, and takes one out.
fn tree_used(heap: Heap<'_>) -> End {
    let mut tree = leaf(1, heap);
    for _ in 0..4 {
        let _end = grown(&mut tree, heap);
    }
    heap.fail_requests(0, 1);
    let end = grown(&mut tree, heap);
    drop(pop_child(&mut tree));
    end
}

#[test]
fn a_tree_allocates_as_its_vectors_grow(rt: HostRuntime) {
    let heap = Faulty::new(rt.alloc());
    assert!(rt; tree_used(&heap) == End::NoMemory(8) && heap.requests() == 2);
    assert!(rt; is_all_freed(&heap));
}
