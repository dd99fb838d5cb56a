//! The decoders, each in four forms: a text that borrows where nothing changes, appended to a
//! string or a vector, or written.
#![tactic(auto)]

mod appends;
pub mod bodies;
pub mod references;
pub mod strings;

pub use crate::bodies::{
    decode_script, decode_script_to_string, decode_script_to_vec, decode_script_to_writer,
    decode_style, decode_style_to_string, decode_style_to_vec, decode_style_to_writer,
};
pub use crate::references::{
    decode_html_entities, decode_html_entities_to_string, decode_html_entities_to_vec,
    decode_html_entities_to_writer, decode_html_entities_with, decode_html_entities_with_to_string,
    decode_html_entities_with_to_vec, decode_html_entities_with_to_writer,
};
pub use crate::strings::{
    decode_script_double_quoted_text, decode_script_double_quoted_text_to_string,
    decode_script_double_quoted_text_to_vec, decode_script_double_quoted_text_to_writer,
    decode_script_quoted_text, decode_script_quoted_text_to_string,
    decode_script_quoted_text_to_vec, decode_script_quoted_text_to_writer,
    decode_script_single_quoted_text, decode_script_single_quoted_text_to_string,
    decode_script_single_quoted_text_to_vec, decode_script_single_quoted_text_to_writer,
    decode_style_double_quoted_text, decode_style_double_quoted_text_to_string,
    decode_style_double_quoted_text_to_vec, decode_style_double_quoted_text_to_writer,
    decode_style_quoted_text, decode_style_quoted_text_to_string, decode_style_quoted_text_to_vec,
    decode_style_quoted_text_to_writer, decode_style_single_quoted_text,
    decode_style_single_quoted_text_to_string, decode_style_single_quoted_text_to_vec,
    decode_style_single_quoted_text_to_writer,
};
