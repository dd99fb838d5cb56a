//! Templates with sections: lists, conditions and what stands where these do not.
//!
//! A [`View`] is made of nodes: markup, slots and sections. A section's body stands in a page as often as
//! the data has it, or something else stands in its place. Each such unrolling is a template of
//! `html_template`, whichever sections stand, so that the structure of a page depends on the form of its
//! data alone and never on what a text says: the [`laws`].
#![tactic(auto)]

mod append;
mod attributes;
mod checked;
mod data;
mod faults;
mod follow;
mod heads;
mod history;
pub mod laws;
mod names;
mod node;
mod placed;
mod put_json;
mod retrace;
mod source;
mod spelled;
mod unroll;
mod view;
mod way;
mod ways;
mod words;

pub use crate::data::Value;
pub use crate::faults::{DataFault, Position, Refused, TagFault, ValueFault, ViewFault};
pub use crate::names::Name;
pub use crate::node::{Asked, Node, Opening, Times};
pub use crate::placed::{Named, Opened, Placed, PlacedNode};
pub use crate::view::View;
pub use html_template::{Fragment, FragmentBuf};
