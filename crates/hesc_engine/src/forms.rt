//! The forms of an operation, for any rule: a text that borrows where nothing changes, appended to
//! a string or a vector, or written.
//!
//! A form that appends finds out what room is enough, reserves once, and then runs into room that
//! is known to suffice, so a refusal leaves the output as it was.
pub mod cow;
pub mod made;
pub mod measure;
pub mod parts;
pub mod string;
pub mod vec;
pub mod writer;

pub use crate::forms::cow::to_cow;
pub use crate::forms::parts::{Parts, append_parts, append_parts_to_vec};
pub use crate::forms::string::{append_to_string, onto_string};
pub use crate::forms::vec::{append_to_vec, onto_vec};
pub use crate::forms::writer::{kept_to_writer, to_writer};
