//! Tests of texts in URLs: what is encoded, where it stands, and what is a link; and a caller of a law.
#![tactic(auto)]

pub mod items;
#[cfg(test)]
mod tests;
