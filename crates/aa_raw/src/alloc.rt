//! The toolchain's allocator interface. Corresponds to `allocator_api2::alloc`.
pub use std::alloc::{AllocError, Allocator, Global, Layout};
