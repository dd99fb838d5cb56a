//! The commands of the program, and the words of its command line that name them.
#![tactic(auto)]

mod commands;
mod form_words;
mod names;

pub use crate::commands::{Command, command_of};
pub use crate::form_words::{FormWords, attributes_of};
pub use crate::names::quoting_letter;
