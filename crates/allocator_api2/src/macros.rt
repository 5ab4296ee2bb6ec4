//! The macro that creates vectors.

/// Creates a vector that allocates with `alloc`.
///
/// - `vec_of![in alloc]` returns an empty vector, and does not allocate.
/// - `vec_of![in alloc; x; n]` returns the result of `Vec::from_elem_in(x, n, alloc)`.
/// - `vec_of![in alloc; a, b]` returns the result of `Vec::from_array_in([a, b], alloc)`.
///
/// Corresponds to allocator-api2's `vec!` with `in`. The forms that allocate with the global
/// allocator are not provided.
#[macro_export]
macro_rules! vec_of {
    (in $alloc:expr $(;)?) => {
        $crate::vec::Vec::new_in($alloc)
    };
    (in $alloc:expr; $elem:expr; $n:expr) => {
        $crate::vec::Vec::from_elem_in($elem, $n, $alloc)
    };
    (in $alloc:expr; $($x:expr),+ $(,)?) => {
        $crate::vec::Vec::from_array_in([$($x),+], $alloc)
    };
    ($($rest:tt)*) => {
        compile_error!("`vec_of!` takes an allocator first: write `vec_of![in alloc; 1, 2]?`")
    };
}
