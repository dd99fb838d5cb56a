//! Tests of the tool and of the whole program, over streams and memory that fail.
#![tactic(auto)]

#[cfg(test)]
mod tests;
