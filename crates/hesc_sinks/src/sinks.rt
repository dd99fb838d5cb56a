//! The sinks: a count, an array on the stack, a string, a vector, the room of a vector, a writer.
pub mod counter;
pub mod filled;
pub mod log;
pub mod output;
pub mod room;
pub mod stack;
pub mod store;
mod stores;
pub mod writer;

pub use crate::sinks::counter::{CountOverflow, Counter};
pub use crate::sinks::output::{Output, OutputSink, StringSink, VecSink};
pub use crate::sinks::stack::{StackFull, StackSink};
pub use crate::sinks::writer::WriterSink;
