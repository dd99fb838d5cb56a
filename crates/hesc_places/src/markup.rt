//! Forms and pages: a tag with attributes and a script with a string, written and read.
pub mod attribute_checks;
pub mod form_builder;
pub mod form_length;
pub mod form_reader;
pub mod form_text;
pub mod names;
pub mod page_builder;
pub mod page_reader;
pub mod prefix;
pub mod tag_reader;
pub mod types;
