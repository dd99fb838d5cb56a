//! The names that the view of a source asks for, a section's behind a `#`, a fragment's
//! behind a `&`, and that of a record of attributes behind an `@`.
use crate::refusals::refusal_of;
use html_view::{Name, View};
use std::alloc::{AllocError, Global};

/// The names, each behind a blank, or the fault of the source.
pub fn names_of(
    alloc: Global,
    source: &str,
    partials: &[(&str, &str)],
) -> Result<String, AllocError> {
    let view = match View::parse(alloc, source, partials) {
        Ok(view) => view,
        Err(refused) => return refusal_of(alloc, &refused),
    };
    let names = view.names()?;
    let mut shown = String::new(alloc);
    for name in &names {
        match name {
            Name::Slot(name) => write!(shown, " {name}")?,
            Name::Fragment(name) => write!(shown, " &{name}")?,
            Name::Section(name) => write!(shown, " #{name}")?,
            Name::Attributes(name) => write!(shown, " @{name}")?,
        }
    }
    Ok(shown)
}
