//! One step of a place's grammar, passed on from the crate of grammars.
pub use hesc_grammars::{Mode, Step, first_mode, references, script_strings, step_of};
