//! What the tests of every crate stand on: an allocator that refuses a request, streams that take and
//! give little at a time and fail when they are told to, and the texts, rows and lists that the tests
//! go over.
#![tactic(auto)]

pub mod amounts;
pub mod flaws;
pub mod long;
pub mod operations;
pub mod places;
mod refusing;
pub mod rows;
pub mod shown;
mod streams;

pub use crate::refusing::Refusing;
pub use crate::streams::{Flush, Trouble, WeakReader, WeakWriter, Weakness};
