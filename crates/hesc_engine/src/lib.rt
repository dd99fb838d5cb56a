//! One engine for all operations: a rule says what it seeks, by what that is replaced, and what the
//! exceptions are; pieces are what the changes make of a text, and a sink takes the pieces.
//!
//! The contract that the crates above use is that of [`run`]: on success the sink took exactly the
//! rule's text. The forms of an operation, for any rule, are in [`forms`]. The sinks are a crate of
//! their own, which is passed on here.
#![tactic(auto)]

pub mod ahead;
pub mod engine;
pub mod forms;
pub mod length;
pub mod pieces;
pub mod rule;
pub mod search;
pub mod sought;

pub use crate::ahead::Ahead;
pub use crate::engine::run;
pub use crate::length::Length;
pub use crate::pieces::{Piece, Pieces};
pub use crate::rule::Rule;
pub use crate::search::change_from;
pub use crate::sought::{Seek, Sought};
pub use hesc_sinks::{
    AsciiTexts, CountOverflow, Counter, Found, InPlace, Replacement, Segment, Sink, SmallText,
    StackFull, StackSink, Storing, StringSink, VecSink, WriterSink, ascii_texts, found, in_place,
    segment, sink, sinks, small_text,
};
