//! The four forms of each operation, and of a table that is handed in.
pub mod answers;
pub mod calls;
pub mod planted_forms;
pub mod values;
pub mod writers;
