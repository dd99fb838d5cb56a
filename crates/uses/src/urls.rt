//! Callers that make URLs of parts and texts.

pub mod contact_links;
pub mod search_link;
