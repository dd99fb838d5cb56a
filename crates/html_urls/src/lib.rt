//! Texts in URLs: no text chooses where a link goes.
//!
//! [`encode_component`] percent-encodes a text so that it stays in its part of a URL: in one segment
//! of a path, in the value of one pair of a query, in the fragment. The [`laws`] say so of the URL
//! Standard's parser, each with the condition that it needs of the URL's front. A text that is a whole
//! URL is asked [`is_link`] first, and where the page runs what the URL leads to, [`is_own_path`]; one with
//! which a URL begins, [`is_base`] or [`is_own_base`].
#![tactic(auto)]

pub mod address;
pub mod append;
pub mod base;
pub mod component;
pub mod forms;
pub mod image;
pub mod laws;
pub mod length;
pub mod link;
pub mod open_part;
pub mod own_path;
pub mod parts;
pub mod place;
pub mod segment;
pub mod slots;

pub use crate::address::put_component_at;
pub use crate::append::append_url;
pub use crate::base::{BehindBase, behind_base, goes_as, is_base, is_own_base, open_behind};
pub use crate::component::{ADDRESS, COMPONENT, Component, put_component};
pub use crate::forms::{
    append_component, append_component_to_vec, encode_component, encode_component_to_string,
    encode_component_to_vec, encode_component_to_writer,
};
pub use crate::image::is_image_front;
pub use crate::length::{component_length, component_length_at};
pub use crate::link::is_link;
pub use crate::open_part::{
    OpenPart, after_markup, after_text, ends_scheme, is_unfixed, may_be_dots, open_of, slot_at,
};
pub use crate::own_path::is_own_path;
pub use crate::parts::{UrlFault, UrlPart, UrlSlot, UrlTextFault};
pub use crate::place::UrlPlace;
pub use crate::segment::may_be_segment;
pub use crate::slots::{is_plain, may_fill, slots_of};
