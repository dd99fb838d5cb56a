//! Callers that make pages and parts of pages by the encoders.

pub mod card;
pub mod cell;
pub mod excerpt;
pub mod field;
pub mod label;
pub mod rows;
pub mod search;
