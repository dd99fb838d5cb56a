//! Tests of the operations in all their forms, of their pieces and sessions, and of what they stand on.
#![tactic(auto)]

#[cfg(test)]
mod tests;
