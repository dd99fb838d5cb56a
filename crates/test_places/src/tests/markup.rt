//! Forms and pages, built and read.
pub mod forms;
pub mod hostile_forms;
pub mod pages;
