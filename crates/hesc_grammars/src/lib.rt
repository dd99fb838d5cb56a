//! How the places of an HTML page are read.
//!
//! A [`Place`] begins after its opening mark. Its grammar, which comes from a public standard, says
//! where it ends and what it holds: one [`Step`] at each position, for which [`step_of`] has a
//! function for each kind of place. [`read_place`] reads a place so, step by step, but bytes that are
//! read as they stand by stretches. With the encoders and decoders it shares the searches for bytes,
//! and no more.
#![tactic(auto)]

mod bodies;
mod hex;
mod html;
mod place;
mod reading;
pub mod references;
pub mod script_strings;
mod step;
mod stretches;
mod style_strings;

pub use crate::place::{End, Place};
pub use crate::reading::{Reading, end_of_place, read_place};
pub use crate::step::{Mode, Step, first_mode, step_of};
