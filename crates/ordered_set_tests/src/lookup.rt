//! Look-ups by a borrowed form of the element: of a text by a `&str`.
use aa_ordered_set::set::OrderedSet;
use allocator_api2::boxed::{BoxedSlice, BoxedText};
use std::alloc::Global;

type Names = OrderedSet<BoxedText<Global>>;

// Adds names, and returns whether each is new.
fn add(names: &mut Names, heap: Global, all: &[&str]) -> bool {
    let mut new = true;
    for name in all {
        let Ok(name) = BoxedText::from_text(heap, name) else {
            return false;
        };
        new = matches!(names.insert(name), Ok(true)) && new;
    }
    new
}

// Removes a name, and returns its length.
fn removed(names: &mut Names, name: &str) -> Option<usize> {
    Some(names.take(name)?.as_str().len())
}

// Returns whether there is such a name, and it is the one that is looked for.
fn finds_itself(names: &Names, name: &str) -> bool {
    match names.get(name) {
        Some(found) => found.as_str() == name,
        None => false,
    }
}

#[test]
fn elements_are_looked_up_by_what_they_say(rt: HostRuntime) {
    let heap = rt.alloc();
    let mut names = Names::new_in(heap);
    assert!(rt; add(&mut names, heap, &["Grace", "Ada", "Barbara"]));
    assert!(rt; names.contains("Ada") && !names.contains("ada") && names.get("Adah").is_none());
    assert!(rt; finds_itself(&names, "Ada") && !finds_itself(&names, "Eve"));
    assert!(rt; removed(&mut names, "Grace") == Some(5) && removed(&mut names, "Grace").is_none());
    assert!(rt; names.remove("Ada") && !names.remove("Ada") && names.len() == 1);
}

// Returns whether a set of one boxed slice has it, and no other.
fn has_itself(heap: Global, numbers: &[u32], others: &[u32]) -> bool {
    let mut lists: OrderedSet<BoxedSlice<u32, Global>> = OrderedSet::new_in(heap);
    let Ok(list) = BoxedSlice::from_slice(heap, numbers) else {
        return false;
    };
    lists.insert(list).is_ok() && lists.contains(numbers) && !lists.contains(others)
}

#[test]
fn boxed_slices_are_looked_up_by_slices(rt: HostRuntime) {
    assert!(rt; has_itself(rt.alloc(), &[3, 1], &[3, 1, 0]));
}
