//! The commands for views, `render` and `check`, as a library over any allocator, files and streams.
//!
//! A run goes by steps: the words name a command and its files, the files are read, the view is made of
//! them, and for a page the data is read. What is written is made in memory, and only then written.
//! `serve` is the whole program round a run.
#![tactic(auto)]

mod check;
mod faults;
mod lines;
mod names;
mod place;
mod program;
mod render;
mod sources;
mod steps;
mod words;

pub use crate::check::append_nodes;
pub use crate::faults::{Fault, Refusal, Standing};
pub use crate::lines::line_of;
pub use crate::names::partial_name;
pub use crate::place::{Spot, Texts, spot_of};
pub use crate::program::serve;
pub use crate::render::page_of;
pub use crate::sources::{HostFiles, Sources};
pub use crate::steps::run;
pub use crate::words::{Call, Command, are_for_views, call_of};
