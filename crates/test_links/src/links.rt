//! Links in templates.
use crate::read::{has_known_scheme, is_on_page};
use html_escape::decode_html_entities;
use html_template_source::NamedTemplate;
use html_urls::{is_link, is_own_path};
use std::alloc::{AllocError, Global};

// The markup before the value of a URL, and behind it.
type Tag = (&'static str, &'static str);

const LINK: Tag = ("<a href=", ">");

const SCRIPT: Tag = ("<script src=", "></script>");

/// What a template with this markup as the value of a link's `href` makes of texts: `value` and the value
/// on its page, decoded, or the fault and what is appended.
pub fn link_of(
    alloc: Global,
    quote: &str,
    markup: &str,
    bindings: &[(&str, &str)],
) -> Result<String, AllocError> {
    value_of(alloc, LINK, quote, markup, bindings)
}

fn value_of(
    alloc: Global,
    tag: Tag,
    quote: &str,
    markup: &str,
    bindings: &[(&str, &str)],
) -> Result<String, AllocError> {
    let (start, end) = tag;
    let source = format!(in alloc; "{start}{quote}{markup}{quote}{end}")?;
    let template = match NamedTemplate::parse(alloc, source.as_str()) {
        Ok(template) => template,
        Err(fault) => return format!(in alloc; "{fault:?}"),
    };
    let mut page = String::new(alloc);
    match template.append(&mut page, bindings) {
        Ok(()) => value_on(alloc, tag, quote, page.as_str()),
        Err(fault) => format!(in alloc; "{fault:?}{page}"),
    }
}

// The value ends where the page's tag ends.
fn value_on(alloc: Global, tag: Tag, quote: &str, page: &str) -> Result<String, AllocError> {
    let inner = page
        .strip_prefix(tag.0)
        .and_then(|rest| rest.strip_prefix(quote))
        .and_then(|rest| rest.strip_suffix(tag.1))
        .and_then(|rest| rest.strip_suffix(quote));
    match inner {
        Some(value) if !value.contains(if quote.is_empty() { ">" } else { quote }) => {
            let text = decode_html_entities(alloc, value)?;
            format!(in alloc; "value {}", text.as_str())
        }
        _ => format!(in alloc; "another page: {page}"),
    }
}

static PAGES: [&str; 3] = [
    "https://h.example:8080/d/f?k=v#g",
    "http://h.example/",
    "ftp://h.example/d",
];

/// Whether the text is a link, and is read as itself, with a known scheme on each page.
pub fn is_whole_link(alloc: Global, text: &str) -> Result<bool, AllocError> {
    for quote in ["\"", "'"] {
        let link = link_of(alloc, quote, "{{a}}", &[("a", text)])?;
        if link.strip_prefix("value ") != Some(text) {
            return Ok(false);
        }
    }
    for page in PAGES {
        if !has_known_scheme(alloc, page, text) {
            return Ok(false);
        }
    }
    Ok(is_link(text))
}

/// Whether the text is none, and no template takes it as one.
pub fn is_no_link(alloc: Global, text: &str) -> Result<bool, AllocError> {
    for quote in ["\"", "'"] {
        let link = link_of(alloc, quote, "{{a}}", &[("a", text)])?;
        if link.as_str() != "Fill(Text(0, NotALink))" {
            return Ok(false);
        }
    }
    Ok(!is_link(text))
}

/// Whether the text is an own path: a template takes it as the source of a script and it is read as itself,
/// on each page with the page's scheme, user, host and port.
pub fn is_whole_own_path(alloc: Global, text: &str) -> Result<bool, AllocError> {
    for quote in ["\"", "'"] {
        let source = value_of(alloc, SCRIPT, quote, "{{a}}", &[("a", text)])?;
        if source.strip_prefix("value ") != Some(text) {
            return Ok(false);
        }
    }
    for page in PAGES {
        if !is_on_page(alloc, page, text) {
            return Ok(false);
        }
    }
    Ok(is_own_path(text))
}

/// Whether the text is none, and no template takes it as one.
pub fn is_no_own_path(alloc: Global, text: &str) -> Result<bool, AllocError> {
    for quote in ["\"", "'"] {
        let source = value_of(alloc, SCRIPT, quote, "{{a}}", &[("a", text)])?;
        if source.as_str() != "Fill(Text(0, NotAnOwnPath))" {
            return Ok(false);
        }
    }
    Ok(!is_own_path(text))
}
