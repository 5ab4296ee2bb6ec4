//! The standard traits.
use aa_ordered_set::set::OrderedSet;
use std::alloc::{AllocError, Global};
use std::default::{Emptied, MadeWith};
use std::hash::{DefaultHasher, Hash, Hasher};
use std::iter::Extend;
use std::test::Fail;

// A set over the global allocator.
type Plain = OrderedSet<u32, Global>;

// A set of these values.
fn made(alloc: Global, values: &[u32]) -> Result<Plain, AllocError> {
    values.iter().copied().collect(alloc)
}

#[test]
fn sets_are_collected_and_cloned(rt: HostRuntime) -> Result<(), Fail> {
    let heap = rt.alloc();
    let mut set = made(heap, &[3, 1, 2, 1])?;
    assert!(rt; set.len() == 3 && set == set.clone()?);
    assert!(rt; Plain::emptied(&set)? == Plain::made_with(heap));
    set.extend([3, 4])?;
    Extend::extend(&mut set, [9, 7])?;
    Extend::extend(&mut set, &[4, 5])?;
    assert!(rt; set == made(heap, &[9, 7, 5, 4, 3, 2, 1])?);
    let all = OrderedSet::from_iter_in(set, heap)?;
    assert!(rt; all.len() == 7 && all.contains(&4));
    Ok(())
}

#[test]
fn sets_are_ordered_as_lists(rt: HostRuntime) -> Result<(), Fail> {
    let heap = rt.alloc();
    let (less, more) = (made(heap, &[1, 2, 9])?, made(heap, &[1, 3])?);
    assert!(rt; less != more && less < more && less.max(more) == made(heap, &[3, 1])?);
    Ok(())
}

// Whether a set is printed so.
fn prints(alloc: Global, set: &Plain, text: &str) -> Result<bool, AllocError> {
    let printed = format!(in alloc; "{set:?}")?;
    Ok(printed.as_str() == text)
}

// Whether the elements from 2 on are printed so.
fn prints_range(alloc: Global, set: &Plain, text: &str) -> Result<bool, AllocError> {
    let range = set.range(2..);
    let printed = format!(in alloc; "{range:?}")?;
    Ok(printed.as_str() == text)
}

#[test]
fn a_set_is_formatted(rt: HostRuntime) -> Result<(), Fail> {
    let heap = rt.alloc();
    let set = made(heap, &[3, 1, 2])?;
    assert!(rt; prints(heap, &set, "{1, 2, 3}")? && prints_range(heap, &set, "[2, 3]")?);
    Ok(())
}

fn hash_of<T: Hash>(value: &T) -> u64 {
    let mut hasher = DefaultHasher::new();
    value.hash(&mut hasher);
    hasher.finish()
}

#[test]
fn sets_hash_as_their_elements(rt: HostRuntime) -> Result<(), Fail> {
    let set = made(rt.alloc(), &[3, 0])?;
    let (elements, others): (&[u32], &[u32]) = (&[0, 3], &[0, 4]);
    assert!(rt; hash_of(&set) == hash_of(&elements) && hash_of(&set) != hash_of(&others));
    Ok(())
}

// A set of texts, which need not own memory.
#[test]
fn texts_are_in_order(rt: HostRuntime) {
    let mut set: OrderedSet<&str, Global> = OrderedSet::new_in(rt.alloc());
    for text in ["pear", "apple", "fig", "apple"] {
        assert!(rt; set.insert(text).is_ok());
    }
    assert!(rt; set.len() == 3 && set.first() == Some(&"apple") && set.last() == Some(&"pear"));
}
