//! Callers that make pages of data.

pub mod framed_page;
pub mod json_page;
pub mod nested_page;
pub mod two_pages;
