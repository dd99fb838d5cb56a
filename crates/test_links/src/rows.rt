//! Rows, each by its kind.
use crate::links::{is_no_link, is_no_own_path, is_whole_link, is_whole_own_path};
use crate::read::read_on;
use crate::references::{Reference, are_read};
use html_urls::{OpenPart, encode_component, may_be_segment, open_of};
use std::alloc::{AllocError, Global};
use test_support::shown::text_of;
use url::Url;

/// What the rows before have said.
#[derive(Drop)]
pub struct State {
    page: Option<Url>,
    texts: Vec<String>,
}

impl State {
    /// No page and no text.
    pub fn new(alloc: Global) -> State {
        State {
            page: None,
            texts: Vec::new(alloc),
        }
    }
}

/// Whether the row holds.
pub fn holds(alloc: Global, state: &mut State, row: &str) -> Result<bool, AllocError> {
    let mut columns = Vec::new(alloc);
    for shown in row.split('\t') {
        columns.push(text_of(alloc, shown)?)?;
    }
    let words: Vec<&str> = columns.iter().map(|column| column.as_str()).collect(alloc)?;
    match words.as_slice() {
        ["page", base] => {
            state.page = Url::parse(alloc, *base).ok();
            return Ok(state.page.is_some());
        }
        ["texts"] => state.texts.clear(),
        ["text", text] => state.texts.push(String::from_str(alloc, *text)?)?,
        ["text", text, component] => {
            state.texts.push(String::from_str(alloc, *text)?)?;
            return Ok(encode_component(alloc, *text)?.as_str() == *component);
        }
        [kind, text] => return is_such(alloc, *kind, *text),
        ["filled", filled @ ..] => return is_filled(alloc, filled),
        words => return is_so(alloc, state, words),
    }
    Ok(true)
}

// Whether a text is what the row says of it.
fn is_such(alloc: Global, kind: &str, text: &str) -> Result<bool, AllocError> {
    match kind {
        "link" => is_whole_link(alloc, text),
        "no-link" => is_no_link(alloc, text),
        "own-path" => is_whole_own_path(alloc, text),
        "no-own-path" => is_no_own_path(alloc, text),
        "is-segment" => Ok(may_be_segment(text)),
        "no-segment" => Ok(!may_be_segment(text)),
        "relative" => Ok(
            open_of(text.as_bytes()) == Some(OpenPart::NewSegment)
                && Url::parse(alloc, text).is_err(),
        ),
        _ => Ok(false),
    }
}

// Whether a reference with one text is read so.
fn is_filled(alloc: Global, columns: &[&str]) -> Result<bool, AllocError> {
    let (base, front, text, rest, url, reading) = match columns {
        [base, front, text, rest, url] => (*base, *front, *text, *rest, *url, ""),
        [base, front, text, rest, url, reading] => (*base, *front, *text, *rest, *url, *reading),
        _ => return Ok(false),
    };
    let component = encode_component(alloc, text)?;
    let reference = format!(in alloc; "{front}{}{rest}", component.as_str())?;
    let Ok(page) = Url::parse(alloc, base) else {
        return Ok(false);
    };
    let read = read_on(alloc, &page, reference.as_str())?;
    Ok(read.0.as_str() == url && (reading.is_empty() || read.1.as_str() == reading))
}

// Whether a reference is read so with each text.
fn is_so(alloc: Global, state: &State, words: &[&str]) -> Result<bool, AllocError> {
    let (kind, source, url, read) = match words {
        [kind, source, read] if kind.starts_with("value") => (*kind, *source, "", *read),
        [kind, source, url] => (*kind, *source, *url, ""),
        [kind, source, url, read] => (*kind, *source, *url, *read),
        _ => return Ok(false),
    };
    if !matches!(kind, "url" | "segment" | "value" | "value-segment") {
        return Ok(false);
    }
    let Some(page) = &state.page else {
        return Ok(false);
    };
    let row = Reference {
        page,
        source,
        url,
        read,
        is_segment: kind.ends_with("segment"),
    };
    are_read(alloc, row, state.texts.as_slice())
}
