//! Callers that read what was encoded, or what a stranger posted.

pub mod back;
pub mod posted;
pub mod table;
