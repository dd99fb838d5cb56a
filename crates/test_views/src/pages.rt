//! The page of JSON data by a source.
use crate::refusals::refusal_of;
use html_view::{Value, View};
use json::Scratch;
use std::alloc::{AllocError, Global};

/// The page of a JSON text, or the fault of the source or of the data, which leaves the output as it was.
pub fn page_of(
    alloc: Global,
    text: &str,
    source: &str,
    partials: &[(&str, &str)],
) -> Result<String, AllocError> {
    let mut scratch = Scratch::new(alloc);
    let tree = match json::Value::parse(alloc, text, &mut scratch) {
        Ok(tree) => tree,
        Err(_) => return format!(in alloc; "no JSON"),
    };
    let mut page = String::from_str(alloc, "<p>")?;
    match View::parse(alloc, source, partials) {
        Err(refused) => refusal_of(alloc, &refused),
        Ok(view) => match view.append(&mut page, Value::of_json(&tree)) {
            Ok(()) => match page.strip_prefix("<p>") {
                Some(page) => String::from_str(alloc, page),
                None => format!(in alloc; "the output was {page}"),
            },
            Err(fault) if page.as_str() == "<p>" => format!(in alloc; "{fault:?}"),
            Err(_) => format!(in alloc; "the output is {page}"),
        },
    }
}
