//! Boxed slices and boxed texts.
use crate::boxed::{has, slice_of, text_of};
use crate::printed::are_printed;
use aa_boxed::boxed::{BoxedSlice, BoxedText};
use std::alloc::Global;
use std::mem::size_of;
use std::test::Fail;

const _: () = prove!(size_of::<BoxedSlice<u64, Global>>() == 24);

// Whether a slice has these elements, and fives once it is filled with them; and the capacity and
// the length of its block.
#[tactic(auto, using(aa_raw::proofs::Beyond::emptied))]
fn looked_at(mut list: BoxedSlice<u32>) -> (bool, bool, usize, usize) {
    let made = has(&list, &[1, 2, 3]);
    list.as_mut_slice().fill(5);
    let filled = has(&list, &[5, 5, 5]);
    let _alloc: &Global = list.allocator();
    let (mut block, len) = list.into_block();
    block.drop_run(0, len);
    (made, filled, block.capacity(), len)
}

#[test]
fn a_slice_is_made_of_another(rt: HostRuntime) -> Result<(), Fail> {
    let list = slice_of(rt.alloc(), &[1, 2, 3])?;
    assert!(rt; looked_at(list) == (true, true, 3, 3));
    Ok(())
}

#[test]
fn a_slice_is_made_of_items(rt: HostRuntime) -> Result<(), Fail> {
    let list: BoxedSlice<u32> = BoxedSlice::from_iter(rt.alloc(), 0..9)?;
    assert!(rt; has(&list, &[0, 1, 2, 3, 4, 5, 6, 7, 8]));
    Ok(())
}

// Whether a text and a slice are printed so.
fn both_are_printed(alloc: Global, text: &str, items: &[u32], printed: &str) -> bool {
    let (Ok(text), Ok(list)) = (text_of(alloc, text), slice_of(alloc, items)) else {
        return false;
    };
    matches!(are_printed(alloc, &text, &list, printed), Ok(true))
}

// Whether a text is printed for programmers so.
fn is_printed(alloc: Global, text: &str, printed: &str) -> bool {
    match text_of(alloc, text) {
        Ok(text) => matches!(are_printed(alloc, &"is", &text, printed), Ok(true)),
        Err(_) => false,
    }
}

#[test]
fn a_slice_and_a_text_are_printed(rt: HostRuntime) {
    assert!(rt; both_are_printed(rt.alloc(), "héllo", &[1, 5, 3], "héllo [1, 5, 3]"));
    assert!(rt; is_printed(rt.alloc(), "héllo", "is \"héllo\""));
}

// Returns whether these bytes become this text, with the same bytes, or are returned.
fn is_text(alloc: Global, bytes: &[u8], text: Option<&str>) -> bool {
    let Ok(list) = BoxedSlice::from_slice(alloc, bytes) else {
        return false;
    };
    match BoxedText::from_bytes(list) {
        Ok(made) => {
            let _alloc: &Global = made.allocator();
            text == Some(made.as_str()) && has(&made.into_bytes(), bytes)
        }
        Err(back) => text.is_none() && has(&back, bytes),
    }
}

#[test]
fn bytes_in_utf8_become_a_text(rt: HostRuntime) {
    assert!(rt; is_text(rt.alloc(), b"\x68\xc3\xa9\x6c\x6c\x6f", Some("héllo")));
    assert!(rt; is_text(rt.alloc(), &[0x68, 0xc3], None));
}
