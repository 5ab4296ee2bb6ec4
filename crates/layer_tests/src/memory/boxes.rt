//! Boxes, boxed slices and boxed texts.
use crate::memory::is_all_freed;
use aa_boxed::boxed::{Box, BoxedSlice, BoxedText, UninitBox};
use aa_vec::vec::{SliceIntoVec, Vec};
use std::alloc::Global;
use std::cell::Cell;
use test_allocators::Faulty;
use test_allocators::counted::Counted;

type Room<'a> = UninitBox<Counted<'a>, &'a Faulty<Global>>;

// How uninitialized memory for a value, or the box of a value, ends.
#[derive(Clone, Copy)]
enum End {
    Unwritten,
    Dropped,
    Overwritten,
    TakenOut,
    MadeASlice,
}

// Ends the memory for a value. Returns how many blocks were freed, and how many values were
// dropped, while what it became exists.
fn ended<'a>(end: End, room: Room<'a>, heap: &Faulty<Global>, drops: &'a Cell<u32>) -> (u64, u32) {
    if matches!(end, End::Unwritten) {
        drop(room);
        return (heap.frees(), drops.get());
    }
    let mut b = UninitBox::write(room, Counted { value: 1, drops });
    match end {
        End::Overwritten => {
            *b = Counted { value: 2, drops };
            (heap.frees(), drops.get())
        }
        End::TakenOut => {
            let _value = Box::into_inner(b);
            (heap.frees(), drops.get())
        }
        End::MadeASlice => {
            let _list = Box::into_boxed_slice(b);
            (heap.frees(), drops.get())
        }
        _ => {
            drop(b);
            (heap.frees(), drops.get())
        }
    }
}

// Returns the result of an end, how many values are dropped then, and whether there was one request
// for memory that was freed.
fn seen(alloc: Global, end: End) -> Option<(u64, u32, u32, bool)> {
    let heap = Faulty::new(alloc);
    let drops = Cell::new(0);
    let (frees, dropped) = match Box::new_uninit_in(&heap) {
        Ok(room) => ended(end, room, &heap, &drops),
        Err(_) => return None,
    };
    let once = heap.requests() == 1 && is_all_freed(&heap);
    Some((frees, dropped, drops.get(), once))
}

#[test]
fn a_box_frees_its_memory_and_drops_its_value(rt: HostRuntime) {
    // An end, how many blocks it frees and values it drops, and how many are dropped at last.
    for (end, frees, dropped, all) in [
        (End::Unwritten, 1, 0, 0),
        (End::Dropped, 1, 1, 1),
        (End::Overwritten, 0, 1, 2),
        (End::TakenOut, 1, 0, 1),
        (End::MadeASlice, 0, 0, 1),
    ] {
        assert!(rt; seen(rt.alloc(), end) == Some((frees, dropped, all, true)));
    }
}

// Makes a text of bytes, bytes of it, a slice of their block, and a vector of that: its length. No
// text is made of what is not in UTF-8.
fn text_and_back(list: BoxedSlice<u8, &Faulty<Global>>) -> usize {
    let mut bytes = match BoxedText::from_bytes(list) {
        Ok(text) if text.as_str().is_empty() => return 0,
        Ok(text) => text.into_bytes(),
        Err(bytes) => bytes,
    };
    bytes.as_mut_slice().reverse();
    let (block, len) = bytes.into_block();
    let v: Vec<u8, _> = BoxedSlice::from_block(block, len).into_vec();
    v.len()
}

// That of so many bytes; 0 if they are not copied.
fn copied_and_back(heap: &Faulty<Global>, bytes: &[u8]) -> usize {
    match BoxedSlice::from_slice(heap, bytes) {
        Ok(list) => text_and_back(list),
        Err(_) => 0,
    }
}

#[test]
fn a_text_and_a_slice_keep_their_block(rt: HostRuntime) {
    let heap = Faulty::new(rt.alloc());
    assert!(rt; copied_and_back(&heap, &[0x68, 0xc3, 0xa9]) == 3 && heap.requests() == 1);
    assert!(rt; copied_and_back(&heap, &[0x68, 0xc3]) == 2 && heap.requests() == 2);
    assert!(rt; copied_and_back(&heap, &[]) == 0 && heap.requests() == 2);
    assert!(rt; is_all_freed(&heap));
}
