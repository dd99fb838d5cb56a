//! A page with a slot in every place, and its reading.
use hesc_places::{End, Place, read_place};
use html_template::{Part, Template};
use html_urls::append_component;
use std::alloc::{AllocError, Global};
use std::process::Abort;
use std::test::Fail;

/// How many slots the page has.
pub const PLACES: usize = 19;

/// The markup before each slot, and the place that the slot stands in.
pub static SLOTS: [(&str, Place); PLACES] = [
    ("<!DOCTYPE html><title>a < b</b>", Place::Text),
    ("</title><textarea></title> < </textarea><p>", Place::Text),
    ("</p><p title=\"", Place::DoubleAttribute),
    ("\"><p title='", Place::SingleAttribute),
    (
        "'><p class=a title=",
        Place::UnquotedAttribute(End::Greater),
    ),
    ("><script>f('</b>", Place::ScriptSingle),
    ("', \"</SCRIPTS>", Place::ScriptDouble),
    ("\");</script><style>p { x: '</script>", Place::StyleSingle),
    ("'; y: \"", Place::StyleDouble),
    ("\" }</style><svg viewBox=\"", Place::DoubleAttribute),
    ("\"><title>", Place::Text),
    ("</title><desc>", Place::Text),
    ("</desc><use href='#", Place::SingleAttribute),
    ("'/><text>", Place::Text),
    ("</text></svg><math><mi>", Place::Text),
    (
        "</mi></math><select><option value=\"",
        Place::DoubleAttribute,
    ),
    ("\">", Place::Text),
    (
        "</option></select><noscript><img src=\"/p?id=",
        Place::DoubleAttribute,
    ),
    (
        "\"></noscript><script type=\"application/json\">",
        Place::ScriptBody,
    ),
];

/// The markup after the last slot.
pub const LAST: &str = "</script>";

/// The parts of the page.
pub fn parts(alloc: Global) -> Result<Vec<Part<'static>>, AllocError> {
    let mut parts = Vec::new(alloc);
    for &(markup, _) in &SLOTS {
        parts.push(Part::Markup(markup))?;
        parts.push(Part::Slot)?;
    }
    parts.push(Part::Markup(LAST))?;
    Ok(parts)
}

/// The slot that stands in a URL.
pub const IN_URL: usize = 12;

// The one in a `noscript`.
const IN_RAW_URL: usize = 17;

// The slot for JSON.
const IN_DATA: usize = 18;

// What a data block has of a text: `null` for white space alone, and an escape for each `<`.
fn json_of(alloc: Global, text: &str) -> Result<String, AllocError> {
    let mut is_blank = true;
    let mut written = String::new(alloc);
    for character in text.chars() {
        if !matches!(character, ' ' | '\t' | '\n' | '\r') {
            is_blank = false;
        }
        if character == '<' {
            written.push_str("\\u003C")?;
        } else {
            written.push(character)?;
        }
    }
    if is_blank {
        return String::from_str(alloc, "null");
    }
    Ok(written)
}

// What is read of a text in the slot of that number: a URL has its component, a data block its JSON, and a value without quotes
// and a style's string have U+FFFD for NUL.
fn read_back(alloc: Global, number: usize, place: Place, text: &str) -> Result<String, AllocError> {
    let replaces = matches!(
        place,
        Place::UnquotedAttribute(_) | Place::StyleSingle | Place::StyleDouble
    );
    let mut read = String::new(alloc);
    if number == IN_URL || number == IN_RAW_URL {
        append_component(&mut read, text)?;
        return Ok(read);
    }
    if number == IN_DATA {
        return json_of(alloc, text);
    }
    if !replaces || !text.as_bytes().contains(&0) {
        read.push_str(text)?;
        return Ok(read);
    }
    for character in text.chars() {
        read.push(if character == '\0' {
            '\u{FFFD}'
        } else {
            character
        })?;
    }
    Ok(read)
}

/// Whether the page has its markup, and between it each text, as its place is read.
pub fn holds(alloc: Global, page: &str, texts: &[&str]) -> Result<bool, AllocError> {
    let mut rest = page.as_bytes();
    for (number, ((markup, place), text)) in SLOTS.iter().zip(texts.iter()).enumerate() {
        let Some(following) = rest.strip_prefix(markup.as_bytes()) else {
            return Ok(false);
        };
        let Some(found) = read_place(alloc, *place, following)? else {
            return Ok(false);
        };
        let wanted = read_back(alloc, number, *place, *text)?;
        let Some((_, more)) = following.split_at_checked(found.end) else {
            return Ok(false);
        };
        if found.value.as_slice() != wanted.as_bytes() {
            return Ok(false);
        }
        rest = more;
    }
    Ok(rest == LAST.as_bytes())
}

/// Puts a text in the place of that number.
pub fn put<'t>(texts: &mut [&'t str], at: usize, text: &'t str) {
    if let Some(place) = texts.get_mut(at) {
        *place = text;
    }
}

/// Whether the template takes the texts, and its page has them all.
pub fn stay(alloc: Global, template: &Template, texts: &[&str]) -> Result<bool, AllocError> {
    let mut page = String::new(alloc);
    match template.append(&mut page, texts) {
        Ok(()) => holds(alloc, page.as_str(), texts),
        Err(_) => Ok(false),
    }
}

const PLAIN: &str =
    "<!DOCTYPE html><title>a < b</b>a</title><textarea></title> < </textarea><p>a</p><p title=\"a\"><p title='a'><p class=a title=a><script>f('</b>a', \"</SCRIPTS>a\");</script><style>p { x: '</script>a'; y: \"a\" }</style><svg viewBox=\"a\"><title>a</title><desc>a</desc><use href='#a'/><text>a</text></svg><math><mi>a</mi></math><select><option value=\"a\">a</option></select><noscript><img src=\"/p?id=a\"></noscript><script type=\"application/json\">a</script>";

#[test]
fn a_page_is_told_from_others(rt: HostRuntime) -> Result<(), Fail> {
    let texts = ["a"; PLACES];
    assert!(rt; holds(rt.alloc(), PLAIN, &texts)?);
    assert!(rt; !holds(rt.alloc(), "<!DOCTYPE html><title>a < b</b>a", &texts)?);
    for wrong in 0..PLACES {
        let mut others = texts;
        put(&mut others, wrong, "b");
        assert!(rt; !holds(rt.alloc(), PLAIN, &others)?, "{wrong}");
    }
    Ok(())
}
