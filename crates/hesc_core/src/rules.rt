//! The rules of the operations.
pub mod bodies;
pub(crate) mod classes;
pub mod escape;
pub mod references;
pub mod unescape;

pub use crate::rules::bodies::{DecodeBody, EncodeBody, body_escape_at, body_unescape_at};
pub use crate::rules::classes::string_class;
pub use crate::rules::escape::{Escape, escape_at};
pub use crate::rules::references::names::Names;
pub use crate::rules::references::{References, reference_at};
pub use crate::rules::unescape::{Unescape, unescape_at};
