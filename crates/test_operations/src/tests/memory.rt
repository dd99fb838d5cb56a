//! What is asked of memory: how many bytes, how often by many small appends, and each request refused in
//! turn.
pub mod amounts;
pub mod appends;
pub mod refused_memory;
