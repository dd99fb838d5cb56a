//! Texts in declarations of a `style`: which are refused, and what is read of those that are not.
use html_template::{FillFault, Part, Template, TextFault};
use html_tokenizer::laws::style_law;
use html_tokenizer::{Reader, SlotPlace, Standing, is_style_byte, is_style_value};
use std::alloc::{AllocError, Global};
use std::process::Abort;
use std::test::Fail;

static DOUBLE: [Part; 7] = [
    Part::Markup("<p style=\"width: "),
    Part::Slot,
    Part::Markup("%; margin:"),
    Part::Slot,
    Part::Markup("px "),
    Part::Slot,
    Part::Markup(" !important; color: red\">"),
];

static SINGLE: [Part; 7] = [
    Part::Markup("<p style='width: "),
    Part::Slot,
    Part::Markup("%; margin:"),
    Part::Slot,
    Part::Markup("px "),
    Part::Slot,
    Part::Markup(" !important; color: red'>"),
];

// What begins or ends something in a style: CSS Syntax Module Level 3, 4.3 Tokenizer Algorithms.
static HOSTILE: [&str; 36] = [
    ";",
    "red;",
    "1; top: 0",
    ";}",
    "a: b",
    ":",
    "(",
    ")",
    "url(",
    "url(//b.example)",
    "URL(b",
    "expression(f())",
    "var(--b)",
    "\"",
    "'",
    "\"b\"",
    "/*",
    "*/",
    "/* b */",
    "/",
    "\\",
    "\\3b ",
    "\\;",
    "@import",
    "{",
    "}",
    "[",
    "]",
    "!important",
    "<!--",
    "-->",
    "&#59;",
    "&semi;",
    "\u{0}",
    "\u{E9}",
    "red\u{FF1B}",
];

// Texts that a declaration may hold.
static HARMLESS: [&str; 14] = [
    "",
    "5",
    "-1.5e3",
    "+.5",
    "#0aF",
    "red",
    "a b, c",
    "url",
    "important",
    "--b",
    "-",
    "\t\n\x0c\r ",
    "50%",
    "0 auto",
];

// Whether the value has these names of declarations, and bytes alone of which CSS makes no string, comment, escape,
// function or block.
fn has_names(value: &str, names: &[&str]) -> bool {
    let mut count = 0;
    for declaration in value.split(';') {
        let Some((name, _)) = declaration.split_once(':') else {
            return false;
        };
        if names.get(count).copied() != Some(name.trim_ascii()) {
            return false;
        }
        count += 1;
    }
    for byte in value.bytes() {
        if !byte.is_ascii_alphanumeric() && !b" \t\n\x0c\r-_#%.,+!:;".contains(&byte) {
            return false;
        }
    }
    count == names.len()
}

// The value between the quote marks of the only attribute.
fn value_in<'p>(page: &'p str, mark: char) -> &'p str {
    let mut pieces = page.split(mark);
    let _tag = pieces.next();
    pieces.next().unwrap_or("")
}

// Whether each slot takes the text, and the page has the names of the template.
fn is_taken(alloc: Global, parts: &[Part], mark: char, text: &str) -> Result<bool, AllocError> {
    let Ok(template) = Template::new(alloc, parts) else {
        return Ok(false);
    };
    let mut page = String::new(alloc);
    if template.append(&mut page, &[text, "2", text]) != Ok(()) {
        return Ok(false);
    }
    let value = value_in(page.as_str(), mark);
    Ok(has_names(value, &["width", "margin", "color"]) && page.split(mark).count() == 3)
}

// Whether the first slot and the last refuse the text, and the output stays as it was.
fn is_refused(alloc: Global, parts: &[Part], text: &str) -> Result<bool, AllocError> {
    let Ok(template) = Template::new(alloc, parts) else {
        return Ok(false);
    };
    let mut page = String::from_str(alloc, "x")?;
    let first = template.append(&mut page, &[text, "2", "3"]);
    let last = template.append(&mut page, &["1", "2", text]);
    Ok(
        first == Err(FillFault::Text(0, TextFault::NotAStyleValue))
            && last == Err(FillFault::Text(2, TextFault::NotAStyleValue))
            && page.as_str() == "x",
    )
}

#[test]
fn hostile_texts_are_refused(rt: HostRuntime) -> Result<(), Fail> {
    for text in &HOSTILE {
        assert!(rt; is_refused(rt.alloc(), &DOUBLE, *text)?, "{text:?}");
        assert!(rt; is_refused(rt.alloc(), &SINGLE, *text)?, "{text:?}");
        assert!(rt; !is_style_value(text.as_bytes()), "{text:?}");
    }
    Ok(())
}

#[test]
fn harmless_texts_have_the_same_names(rt: HostRuntime) -> Result<(), Fail> {
    for text in &HARMLESS {
        assert!(rt; is_taken(rt.alloc(), &DOUBLE, '"', *text)?, "{text:?}");
        assert!(rt; is_taken(rt.alloc(), &SINGLE, '\'', *text)?, "{text:?}");
        assert!(rt; is_style_value(text.as_bytes()), "{text:?}");
    }
    Ok(())
}

#[test]
fn each_text_of_two_bytes_is_refused_or_harmless(rt: HostRuntime) -> Result<(), Fail> {
    let Ok(template) = Template::new(rt.alloc(), &DOUBLE) else {
        panic!(rt; "each slot stands in a declaration");
    };
    let mut page = String::new(rt.alloc());
    let mut text = String::new(rt.alloc());
    for number in 0..0x4000_u32 {
        text.clear();
        text.push(char::from_u32(number / 128).unwrap_or('x'))?;
        text.push(char::from_u32(number % 128).unwrap_or('x'))?;
        page.clear();
        let answer = template.append(&mut page, &[text.as_str(), text.as_str(), text.as_str()]);
        let harmless = has_names(value_in(page.as_str(), '"'), &["width", "margin", "color"]);
        let is_taken = answer == Ok(());
        assert!(rt; is_taken == is_style_value(text.as_bytes()), "{text:?}");
        assert!(rt; is_taken == harmless, "{text:?}");
    }
    Ok(())
}

#[test]
fn a_slot_stands_in_a_value_alone(rt: HostRuntime) -> Result<(), AllocError> {
    let mut reader = Reader::new(rt.alloc());
    reader.read(b"<p style=\"width:")?;
    assert!(rt; reader.slot() == Standing::InDeclaration(SlotPlace::DoubleQuoted));
    reader.read(b"%;")?;
    assert!(rt; reader.slot() == Standing::Barred);
    assert!(rt; is_style_byte(b'%') && !is_style_byte(b'('));
    style_law();
    Ok(())
}
