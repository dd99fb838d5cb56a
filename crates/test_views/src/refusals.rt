//! Refused sources in a form that can be read.
use html_view::Refused;
use std::alloc::{AllocError, Global};

/// The fault, and behind it the text and the byte of each section that stands where it shows.
pub fn refusal_of(alloc: Global, refused: &Refused) -> Result<String, AllocError> {
    let fault = refused.fault;
    let mut shown = format!(in alloc; "{fault:?}")?;
    for section in &refused.standing {
        let text = section.text;
        let byte = section.byte;
        write!(shown, " with {text}:{byte}")?;
    }
    Ok(shown)
}
