//! Places: their marks, which encoder suits which, and a text put into one.
pub mod enclosed;
pub mod enclosing;
pub mod marks;
pub mod suiting;
