//! The guide's callers, and what a vector has as a slice.
use allocator_api2::boxed::Box;
use allocator_api2::vec::Vec;
use guide::laws::{cut_and_join, spare, without_spare};
use guide::ranges::rotate_left;
use guide::slices;

#[test]
fn four_numbers_are_turned(rt: HostRuntime) {
    let mut v = Vec::from_array_in([1u32, 2, 3, 4], rt.alloc()).expect(&rt, "room");
    rotate_left(&mut v, 1).expect(&rt, "room");
    assert!(rt; v.as_slice() == [2, 3, 4, 1].as_slice());
}

#[test]
fn a_vector_is_cut_and_joined_and_boxed(rt: HostRuntime) {
    let mut v = Vec::from_array_in([1u32, 2, 4], rt.alloc()).expect(&rt, "room");
    assert!(rt; cut_and_join(&mut v, 1).is_ok() && v.as_slice() == [1, 2, 4].as_slice());
    let _last = v.pop();
    assert!(rt; spare(&v) == 1);
    let Ok(v) = without_spare(v) else {
        assert!(rt; false);
        return;
    };
    assert!(rt; spare(&v) == 0 && v.as_slice() == [1, 2].as_slice());
}

#[test]
fn callers_read_a_slice(rt: HostRuntime) {
    let alloc = rt.alloc();
    let v = Vec::from_array_in([1u32, 2, 4, 8], alloc).expect(&rt, "room");
    let rows = Vec::from_array_in([v], alloc).expect(&rt, "room");
    let v = &rows[0];
    assert!(rt; slices::place_for(v, 3) == Err(2));
    assert!(rt; slices::add_up(v) == 15 && slices::add_rows(&rows) == 15);
    assert!(rt; slices::count_parts(v, 3) == 2 && slices::ends(v) == Some((1, 8)));
    assert!(rt; slices::second_and_third(v) == [2, 4].as_slice());
    assert!(rt;
        slices::reversed(v, alloc).expect(&rt, "room").as_slice() == [8, 4, 2, 1].as_slice()
    );
    assert!(rt;
        slices::even_below(5, alloc).expect(&rt, "room").as_slice() == [0, 2, 4].as_slice()
    );
    assert!(rt;
        slices::add_neighbours(v, alloc)
            .expect(&rt, "room")
            .as_slice()
            == [3, 6, 12].as_slice()
    );
}

#[test]
fn callers_change_a_slice(rt: HostRuntime) {
    let mut v = Vec::from_array_in([2u32, 4, 8], rt.alloc()).expect(&rt, "room");
    slices::insert_by_search(&mut v, 6).expect(&rt, "room");
    slices::halve_each(&mut v);
    slices::halve_all(&mut v);
    assert!(rt; v.as_slice() == [0, 1, 1, 2].as_slice());
    assert!(rt; slices::remove_key(&mut v, 1) && v.as_slice() == [0, 1, 2].as_slice());
    slices::exchange(&mut v, 0, 1);
    assert!(rt; v.as_slice() == [1, 0, 2].as_slice());
    slices::set_all(&mut v, 7);
    assert!(rt; v.as_slice() == [7, 7, 7].as_slice());
}

// Whether the first two numbers were replaced by 7 and 8.
fn replaces_two(v: &mut Vec<u32>) -> bool {
    v.len() >= 2 && v.splice(..2, [7, 8]).finish().is_ok()
}

#[test]
fn a_vector_and_a_box_are_slices(rt: HostRuntime) {
    let alloc = rt.alloc();
    let mut v = Vec::from_array_in([3u32, 1, 2], alloc).expect(&rt, "room");
    v.sort_unstable();
    for x in &mut v {
        *x ^= 8;
    }
    assert!(rt; &v[1..3] == [10, 11].as_slice() && v.contains(&9));
    let back: Vec<u32> = v.iter().rev().copied().collect(alloc).expect(&rt, "room");
    assert!(rt; back.as_slice() == [11, 10, 9].as_slice());
    v.drain(1..);
    v.extend([1, 2, 3]).expect(&rt, "room");
    assert!(rt; replaces_two(&mut v) && v.as_slice() == [7, 8, 2, 3].as_slice());
    let b = Box::new_in([4u32, 5, 6], alloc).expect(&rt, "room");
    assert!(rt; b.iter().copied().max() == Some(6));
}
