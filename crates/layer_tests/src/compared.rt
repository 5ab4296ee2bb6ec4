//! What no clause says of comparing, printing and writing vectors: each once, and by callers that
//! know a bound alone.
use crate::lists::{has_items, list};
use aa_boxed::slices::{compare, partial_compare};
use aa_raw::collections::TryReserveError;
use aa_vec::vec::{Vec, same};
use std::alloc::{AllocError, Global};
use std::cmp::Ordering;
use std::hash::{DefaultHasher, Hash, Hasher};
use std::io::Write;
use std::test::Fail;

fn hash_of<T: Hash>(x: &T) -> u64 {
    let mut hasher = DefaultHasher::new();
    x.hash(&mut hasher);
    hasher.finish()
}

fn order_of<T: Ord>(x: &T, y: &T) -> Ordering {
    x.cmp(y)
}

// Whether one vector is before another in each way of comparing.
fn is_before(short: &Vec<u32>, long: &Vec<u32>) -> bool {
    *short != *long
        && short.partial_cmp(long) == Some(Ordering::Less)
        && order_of(long, short) == Ordering::Greater
        && !same(short.as_slice(), long.as_slice())
        && compare(short.as_slice(), long.as_slice()) == Ordering::Less
}

#[test]
fn vectors_compare_as_their_slices(rt: HostRuntime) {
    let short = list(rt.alloc(), &[1, 2], 2);
    assert!(rt; is_before(&short, &list(rt.alloc(), &[1, 2, 0], 3)));
}

// How a slice of 1,100 zeros compares with one whose byte at `index` is 1.
fn order_with_one_at(index: usize) -> Option<Ordering> {
    let zeros = [0u8; 1100];
    let mut other = [0u8; 1100];
    if let Some(byte) = other.get_mut(index) {
        *byte = 1;
    }
    partial_compare(&zeros, &other)
}

#[test]
fn bytes_compare_wherever_they_differ(rt: HostRuntime) {
    for index in [0, 1, 31, 32, 511, 512, 1055, 1099] {
        assert!(rt; order_with_one_at(index) == Some(Ordering::Less));
    }
    assert!(rt; order_with_one_at(1100) == Some(Ordering::Equal));
    assert!(rt; partial_compare(&[f32::NAN], &[0.0]) == None);
    assert!(rt; partial_compare(&[0u8; 40], &[0u8; 39]) == Some(Ordering::Greater));
}

// What a vector prints, and whether its hash is that of a slice.
fn seen(alloc: Global, items: &[u32]) -> (Result<String, AllocError>, bool) {
    let v = list(alloc, items, 2);
    (format!(in alloc; "{v:?}"), hash_of(&v) == hash_of(&items))
}

#[test]
fn vectors_hash_and_print_as_their_slices(rt: HostRuntime) -> Result<(), Fail> {
    let (text, is_same) = seen(rt.alloc(), &[1, 2]);
    assert!(rt; is_same);
    assert!(rt; text?.as_str() == "[1, 2]");
    Ok(())
}

// Whether the two bytes of the text were made.
fn is_made(outcome: Result<Vec<u8>, TryReserveError>) -> bool {
    match outcome {
        Ok(v) => has_items(&v, &[0xc3, 0xa9], 2),
        Err(_) => false,
    }
}

#[test]
fn a_text_is_its_bytes(rt: HostRuntime) {
    assert!(rt; is_made(Vec::from_text(rt.alloc(), "é")));
    assert!(rt; is_made(Vec::from_text_in("é", rt.alloc())));
}

#[test]
fn bytes_are_written(rt: HostRuntime) {
    let mut v = list(rt.alloc(), &[], 0);
    assert!(rt; matches!(v.write(b"ab"), Ok(2)));
    assert!(rt; v.write_all(b"abcd").is_ok() && v.flush().is_ok());
    assert!(rt; has_items(&v, b"ababcd", 8));
}
