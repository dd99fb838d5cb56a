//! Where in a text something may change, and how much longer the text becomes: searches and counts
//! of bytes, 32 at a time.
//!
//! A search answers the first place from a place on, by one statement for all. A length is counted,
//! or bounded, without going from change to change.
#![tactic(auto)]

mod block;
pub mod byte_block;
pub mod find;
mod flags;
mod lanes;
pub mod length;
mod lookup;
pub mod openings;
pub mod scan;
