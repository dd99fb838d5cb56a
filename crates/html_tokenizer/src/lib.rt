//! The tokenizer of a page's markup, and where a text may stand in it.
//!
//! A [`Reader`] reads markup as the HTML Standard's tokenizer does, in a profile that takes no slot
//! where it cannot tell, and refuses what a browser may read in two ways. It reads at once stretches of
//! bytes that leave its state as it is, and names; text, tags and values go by in the order of their
//! states, and all else byte by byte. It says at which place of the page a slot stands, and whether in
//! a URL. One function for each state or group of states, and one definition for each of them.
#![tactic(auto)]

mod attributes;
mod code;
mod comments;
mod consume;
mod doctypes;
mod elements;
mod flags;
pub mod laws;
mod reader;
mod slot_place;
mod states;
mod tags;
mod values;

pub use crate::attributes::declarations::{is_style_byte, is_style_value};
pub use crate::attributes::lists::is_list_mark;
pub use crate::code::scripts::is_json_space;
pub use crate::elements::{Content, OpenElement};
pub use crate::reader::{Reader, Standing};
pub use crate::slot_place::SlotPlace;
pub use crate::states::{Code, ListPart, StylePart};
