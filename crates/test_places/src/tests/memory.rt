//! What is asked of memory: how often, how many bytes, and each request refused in turn.
pub mod builders;
pub mod place_amounts;
pub mod refusals;
