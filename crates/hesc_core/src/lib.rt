//! The operations: the rule of each.
//!
//! What runs a rule, what finds the bytes at which it may change something, the tables of entities and
//! the laws are crates of their own, which are passed on here.
#![tactic(auto)]

pub mod rules;

pub use hesc_engine::{
    AsciiTexts, CountOverflow, Counter, Found, Length, Piece, Pieces, Replacement, Rule, Seek,
    Segment, Sink, SmallText, Sought, StringSink, VecSink, WriterSink, engine, forms, found,
    pieces, rule, run, segment, sink, sinks, small_text,
};
pub use hesc_laws as laws;
pub use hesc_scan::{find, openings, scan};
pub use hesc_specs::{Class, Element, Quotes, TableFault};
pub use hesc_table as table;
pub use hesc_table::entities::NAMED_ENTITIES;
pub use hesc_table::index::NameIndex;
pub use hesc_table::{EntityTable, entities};
