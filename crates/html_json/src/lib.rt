//! JSON in a page's script of the type `application/json`.
//!
//! [`encode_json`] writes each `<` as `\u003C`. In JSON a `<` stands in strings alone, so that the value
//! stays the same; and no text ends the script or begins a comment in it, JSON or not. The [`laws`] say so.
#![tactic(auto)]

pub mod encode;
pub mod forms;
pub mod laws;
mod strings;

pub use crate::encode::{EncodeJson, json_length, put_json};
pub use crate::forms::{
    append_json, append_json_to_vec, encode_json, encode_json_to_string, encode_json_to_vec,
    encode_json_to_writer,
};
pub use crate::strings::put_json_string;
