//! What takes a text, part by part: an output, an array on the stack, a count or a writer.
//!
//! The contract that the crates above use is that of [`Sink::put`]: on success the sink took exactly
//! that text after what it had taken, and on a fault a beginning of it.
#![tactic(auto)]

pub mod ascii_texts;
pub mod found;
pub mod in_place;
pub mod segment;
pub mod sink;
pub mod sinks;
pub mod small_text;

pub use crate::ascii_texts::AsciiTexts;
pub use crate::found::{Found, Replacement};
pub use crate::in_place::{InPlace, Storing};
pub use crate::segment::Segment;
pub use crate::sink::Sink;
pub use crate::sinks::{
    CountOverflow, Counter, StackFull, StackSink, StringSink, VecSink, WriterSink,
};
pub use crate::small_text::SmallText;
