//! How long an encoding is, or how long at most, counted 32 bytes at a time.
pub(crate) mod added;
pub mod bodies;
pub mod html;
pub mod longest;
pub mod strings;

pub use crate::length::bodies::body_bound;
pub use crate::length::html::encoded_length;
pub use crate::length::longest::{longest_body, longest_escaped};
pub use crate::length::strings::string_bound;
