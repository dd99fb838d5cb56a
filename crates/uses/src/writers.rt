//! Callers that write to any writer.

pub mod log_item;
pub mod log_list;
