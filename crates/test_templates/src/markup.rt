//! Long markup.
mod long;
