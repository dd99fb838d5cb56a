//! Tests of the places: what is enclosed, what is read, pages and forms.
#![tactic(auto)]

#[cfg(test)]
mod tests;
