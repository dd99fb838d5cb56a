//! The definitions that the contracts of all the crates speak of.
//!
//! What an operation makes of a text, and where it changes it, is said here in the terms of the
//! public standards and of no code; `docs/DEFINITIONS.md` says each in words. The facts about the
//! definitions that several crates cite are proved beside them.
#![tactic(auto)]

mod classes;
mod elements;
mod quotes;
mod table_fault;

pub use crate::classes::Class;
pub use crate::elements::Element;
pub use crate::quotes::Quotes;
pub use crate::table_fault::TableFault;
