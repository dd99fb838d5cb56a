//! References with slots, and what is read of them with each text.
use crate::links::link_of;
use crate::read::read_on;
use html_urls::encode_component;
use std::alloc::{AllocError, Global};
use url::Url;

/// A row's reference, and what is wanted of it.
#[derive(Clone, Copy)]
pub struct Reference<'r> {
    /// The page on which it stands.
    pub page: &'r Url,
    /// The reference of a URL, or the markup of a link's value.
    pub source: &'r str,
    /// The URL that is read, empty for the markup of a link.
    pub url: &'r str,
    /// Its reading, or empty.
    pub read: &'r str,
    /// Whether the first text is a whole segment.
    pub is_segment: bool,
}

/// Whether what is wanted is read with each text, or with each two if there is a second slot.
pub fn are_read(alloc: Global, row: Reference<'_>, texts: &[String]) -> Result<bool, AllocError> {
    let has_second = row.source.contains("{2}");
    for first in texts {
        for second in texts {
            if !is_read(alloc, row, first.as_str(), second.as_str())? {
                return Ok(false);
            }
            if !has_second {
                break;
            }
        }
    }
    Ok(true)
}

fn is_read(
    alloc: Global,
    row: Reference<'_>,
    first: &str,
    second: &str,
) -> Result<bool, AllocError> {
    let read = with(alloc, row.read, first, second)?;
    if !row.url.is_empty() {
        return Ok(
            row.is_segment && matches!(first, "." | "..")
                || is_url(alloc, row, first, second, read.as_str())?,
        );
    }
    if row.source.contains("{2}") {
        return is_value(alloc, row, "\"", (first, second), read.as_str());
    }
    for quote in ["\"", "'", ""] {
        if (!quote.is_empty() || !row.source.contains('='))
            && !is_value(alloc, row, quote, (first, second), read.as_str())?
        {
            return Ok(false);
        }
    }
    Ok(true)
}

// The pattern with a text at `{1}` and another at `{2}`.
fn with(alloc: Global, pattern: &str, first: &str, second: &str) -> Result<String, AllocError> {
    let with_first = pattern.replace(alloc, "{1}", first)?;
    with_first.replace(alloc, "{2}", second)
}

fn is_url(
    alloc: Global,
    row: Reference<'_>,
    first: &str,
    second: &str,
    read: &str,
) -> Result<bool, AllocError> {
    let first = encode_component(alloc, first)?;
    let second = encode_component(alloc, second)?;
    let reference = with(alloc, row.source, first.as_str(), second.as_str())?;
    let wanted = with(alloc, row.url, first.as_str(), second.as_str())?;
    let (url, reading) = read_on(alloc, row.page, reference.as_str())?;
    Ok(url.as_str() == wanted.as_str() && (read.is_empty() || reading.as_str() == read))
}

fn is_value(
    alloc: Global,
    row: Reference<'_>,
    quote: &str,
    (first, second): (&str, &str),
    read: &str,
) -> Result<bool, AllocError> {
    let markup = with(alloc, row.source, "{{a}}", "{{b}}")?;
    let link = if row.source.contains("{2}") {
        link_of(
            alloc,
            quote,
            markup.as_str(),
            &[("a", first), ("b", second)],
        )?
    } else {
        link_of(alloc, quote, markup.as_str(), &[("a", first)])?
    };
    let is_refused = row.is_segment && matches!(first, "" | "." | "..");
    match link.strip_prefix("value ") {
        Some(value) if !is_refused => Ok(read_on(alloc, row.page, value)?.1.as_str() == read),
        None if is_refused && first.is_empty() => Ok(
            link.as_str() == "Fill(Text(0, EmptySegment))",
        ),
        None if is_refused => Ok(link.as_str() == "Fill(Text(0, DotSegment))"),
        _ => Ok(false),
    }
}
