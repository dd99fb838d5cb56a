//! Pages that go to a writer by several writes.
//!
//! [`PageWriter`] writes markup as it stands and texts as they are encoded, one after another, and keeps
//! the writer's first fault until the end. So a page needs no `?` at each write, and a caller's proof has
//! one promise in place of one for each write: all of the page went out, or a beginning of it.
#![tactic(auto)]

mod page_text;
mod page_writer;

pub use crate::page_writer::PageWriter;
