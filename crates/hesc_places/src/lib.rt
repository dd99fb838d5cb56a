//! The places of an HTML page where a text may stand, how each is read, and which encoder suits it.
//!
//! A place begins after its opening mark. Its grammar, which comes from a public standard, says
//! where it ends and what it holds. The law of places ties the two sides: what a suiting encoder
//! wrote ends exactly at the closing mark, whatever follows, and is read as the text. [`enclose`]
//! writes a text for a place, marks and all, or says why it cannot. A form has such places, one for
//! each attribute and one for a script's string: [`build_form`] writes it, and [`read_form`] reads it
//! back. A page is a form of two attributes: [`build_page`] and [`read_page`].
#![tactic(auto)]

pub mod grammar;
pub mod laws;
mod markup;
mod place;

pub use crate::markup::form_builder::{append_form, build_form};
pub use crate::markup::form_reader::{Form, read_form};
pub use crate::markup::page_builder::{append_page, build_page};
pub use crate::markup::page_reader::{Page, read_page};
pub use crate::markup::types::{Attribute, FormFault, Quoting};
pub use crate::place::enclosing::{PlaceFault, append_enclosed, enclose};
pub use crate::place::suiting::suits;
pub use hesc_grammars::{End, Place, Reading, end_of_place, read_place};
