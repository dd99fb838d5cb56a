//! The encoders, each in four forms: a text that borrows where nothing changes, appended to a
//! string or a vector, or written.
#![tactic(auto)]

mod appends;
pub mod bodies;
pub mod html;
pub mod strings;

pub use crate::bodies::{
    encode_script, encode_script_to_string, encode_script_to_vec, encode_script_to_writer,
    encode_style, encode_style_to_string, encode_style_to_vec, encode_style_to_writer,
};
pub use crate::html::{
    encode_double_quoted_attribute, encode_double_quoted_attribute_to_string,
    encode_double_quoted_attribute_to_vec, encode_double_quoted_attribute_to_writer,
    encode_quoted_attribute, encode_quoted_attribute_to_string, encode_quoted_attribute_to_vec,
    encode_quoted_attribute_to_writer, encode_safe, encode_safe_to_string, encode_safe_to_vec,
    encode_safe_to_writer, encode_single_quoted_attribute,
    encode_single_quoted_attribute_to_string, encode_single_quoted_attribute_to_vec,
    encode_single_quoted_attribute_to_writer, encode_text, encode_text_minimal,
    encode_text_minimal_to_string, encode_text_minimal_to_vec, encode_text_minimal_to_writer,
    encode_text_to_string, encode_text_to_vec, encode_text_to_writer, encode_unquoted_attribute,
    encode_unquoted_attribute_to_string, encode_unquoted_attribute_to_vec,
    encode_unquoted_attribute_to_writer,
};
pub use crate::strings::{
    encode_script_double_quoted_text, encode_script_double_quoted_text_to_string,
    encode_script_double_quoted_text_to_vec, encode_script_double_quoted_text_to_writer,
    encode_script_quoted_text, encode_script_quoted_text_to_string,
    encode_script_quoted_text_to_vec, encode_script_quoted_text_to_writer,
    encode_script_single_quoted_text, encode_script_single_quoted_text_to_string,
    encode_script_single_quoted_text_to_vec, encode_script_single_quoted_text_to_writer,
    encode_style_double_quoted_text, encode_style_double_quoted_text_to_string,
    encode_style_double_quoted_text_to_vec, encode_style_double_quoted_text_to_writer,
    encode_style_quoted_text, encode_style_quoted_text_to_string, encode_style_quoted_text_to_vec,
    encode_style_quoted_text_to_writer, encode_style_single_quoted_text,
    encode_style_single_quoted_text_to_string, encode_style_single_quoted_text_to_vec,
    encode_style_single_quoted_text_to_writer,
};
