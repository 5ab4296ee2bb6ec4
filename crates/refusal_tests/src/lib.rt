//! Tests of the whole library, and not part of it: every allocation request fails in turn. They
//! check what is freed, and run commands.
//!
//! The table has each public call that allocates or clones, the number of its requests in a worked
//! case, and the module with its test. The test fails each request in turn and checks the error,
//! what is left, and what is freed. `clones` and `conversions` fail the clone of an allocator.
//! `overflows` and `run_commands` request lengths past `usize::MAX` and bytes past `isize::MAX`.
//!
//! | Call | Requests | Tested in |
//! |---|---|---|
//! | `RawVec::with_capacity_in` | 1 | `copies` |
//! | `RawVec::reserve`, `reserve_exact`, `reserve_for_push` | 1 | `boxes` |
//! | `RawVec::try_reserve`, `try_reserve_exact`, `shrink_to_fit` | 1 | `boxes` |
//! | `IntoIter::clone`, by the trait too | 1, and 3 of the elements | `changes`, `clones` |
//! | `Box::new_in`, `try_new_in`, `try_default` | 1 | `boxes` |
//! | `Box::new_uninit_in`, `try_new_uninit_in` | 1 | `boxes` |
//! | `Box::clone` | 1, and 4 of the value | `changes` |
//! | `BoxedSlice::from_array_in` | 1 | `copies` |
//! | `BoxedSlice::from_slice` | 1 | `copies` |
//! | `BoxedSlice::from_iter_in` | 2; 4 for nine items | `changes`, `layer_tests` |
//! | `BoxedSlice::from_iter_in_by` | 4 | `layer_tests` |
//! | `BoxedSlice::clone`, by the trait too | 1, and 3 of the elements | `changes`, `clones` |
//! | `BoxedSlice::try_into_array`, `Box::slice` | 1 | `conversions` |
//! | `into_vec` of an array in a box | 1 | `conversions` |
//! | `BoxedText::from_text` | 1 | `copies` |
//! | `append_texts`, `append_texts_by` | 1 | `copies`, `layer_tests` |
//! | `Vec::with_capacity_in` | 1 | `copies` |
//! | `Vec::push` | 1 | `changes` |
//! | `Vec::insert` | 1 | `changes` |
//! | `Vec::try_reserve`, `reserve`, `try_reserve_exact`, `reserve_exact` | 1 | `changes` |
//! | `Vec::shrink_to`, `shrink_to_fit` | 1 | `changes` |
//! | `Vec::append` | 1 | `changes` |
//! | `Vec::split_off` | 1 | `changes`, `clones` |
//! | `Vec::extend_from_slice` | 1, and 3 of the elements | `changes` |
//! | `Vec::extend_from_within` | 1, and 2 of the elements | `changes` |
//! | `Vec::resize` | 1, and 1 of the elements | `changes` |
//! | `Vec::assign_from` | 1, and 3 of the elements | `changes` |
//! | `Vec::extend`, `extend_by`, `extend_hinted`, `extend_hinted_by` | 1 | `changes`, `items` |
//! | `Splice::finish` | 1 | `changes`, `items` |
//! | `Splice::finish_hinted` | 2 | `changes` |
//! | `Vec::extend_copied`, `extend_copied_by` | 1 | `copies` |
//! | `Vec::extend_from_slice_copied`, `extend_from_within_copied` | 1 | `copies` |
//! | `Vec::resize_with`, `resize_by` | 1 | `copies` |
//! | `Vec::write`, `write_all` | 1 | `copies` |
//! | `Vec::clone`, by the trait too | 1, and 3 of the elements | `changes`, `clones` |
//! | `Vec::clone_copied` | 1 | `copies`, `clones` |
//! | `Vec::from_slice_in` | 1, and 3 of the elements | `changes` |
//! | `SliceExt::to_vec_in`, `to_vec_in2` | 1, and 3 of the elements | `changes` |
//! | `Vec::from_elem_in` | 1, and 4 for each clone but the last | `changes` |
//! | `Vec::from_iter_in`, `from_iter_in_by` | 1 | `changes`, `items` |
//! | `Vec::from_slice_copied_in`, `from_text_in`, `Repeat::repeat_in` | 1 | `copies` |
//! | `Vec::from_array_in`, `vec_of!` | 1 | `copies` |
//! | `Vec::into_boxed_slice` | 1 | `conversions` |
//! | `Vec::into_flattened` | 1 | `conversions` |
//! | `GapBuffer::with_capacity_in` | 1 | `copies` |
//! | `GapBuffer::insert`, `reserve`, `edit_all` | 1 | `layer_tests` |
//! | `run`: `Push`, `Insert`, `Reserve`, `ReserveExact`, `ShrinkTo` | 1 | `run_commands` |
//! | `run`: `SplitOff`, `Append`, `Resize`, `Drain` | 1 | `run_commands` |
//! | `run`: `ExtendFromWithin`, `ExtractIf` | 1 | `run_commands` |
//! | `run`: `Extend`, `Splice` | 1; more if the hint is too low | `run_commands` |
//!
//! `run_commands` runs every command on lists of 0 to 100 numbers, with each request failing in
//! turn. A command fails for lack of memory if and only if a request does. The lists that a failed
//! command leaves are compared. What else it leaves and replies is in the contract of `run`, and
//! `tests/scripts` compares it with the original.
//!
//! `changes` counts what the calls take from their iterator, and `items` checks what they request
//! if its `size_hint` is exact.
//!
//! The calls of the same names on the global allocator pass on to these. No test fails a request
//! that it would grant, except for lengths and bytes past the limits.
#![tactic(auto)]

#[cfg(test)]
mod boxes;
#[cfg(test)]
mod changes;
#[cfg(test)]
mod clones;
#[cfg(test)]
mod conversions;
#[cfg(test)]
mod copies;
#[cfg(test)]
mod items;
#[cfg(test)]
mod overflows;
#[cfg(test)]
mod run_commands;
#[cfg(test)]
mod seen;
