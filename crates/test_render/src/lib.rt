//! Tests of the commands for views, over lists of files, and over streams and memory that fail.
#![tactic(auto)]

#[cfg(test)]
mod tests;
