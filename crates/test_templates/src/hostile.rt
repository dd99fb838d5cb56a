//! Hostile texts in every place.
use crate::pages::{PLACES, parts, put, stay};
use html_template::{FillFault, Template, TextFault};
use std::alloc::{AllocError, Global};
use std::process::Abort;
use std::test::Fail;

// Quote marks, and what they could lead to.
static QUOTES: [&str; 13] = [
    "\"",
    "'",
    "`",
    "\"'`",
    "\" onmouseover=\"f()",
    "' onmouseover='f()",
    " onmouseover=f()",
    "\">",
    "'>",
    ">",
    "/>",
    "=",
    "a=b",
];

// What could begin a tag.
static OPENINGS: [&str; 9] = [
    "<",
    "<<",
    "</",
    "<!",
    "<?",
    "<a",
    "<a>",
    "<img src=x onerror=f()>",
    "<svg/onload=f()>",
];

// End tags in any case.
static END_TAGS: [&str; 11] = [
    "</p>",
    "</P >",
    "</title>",
    "</TITLE>",
    "</tItLe\t>",
    "</textarea>",
    "</TextArea>",
    "</script>",
    "</SCRIPT>",
    "</ScRiPt\n>",
    "</script/",
];

// Tags of scripts and styles.
static STYLES: [&str; 6] = [
    "<script>",
    "<SCRIPT>f()</SCRIPT>",
    "</style>",
    "</STYLE>",
    "</sTyLe\x0c>",
    "<style>",
];

// Comments and declarations.
static COMMENTS: [&str; 12] = [
    "<!--",
    "<!-->",
    "<!--->",
    "<!--<script>",
    "<!-- <SCRIPT> </SCRIPT> -->",
    "-->",
    "--!>",
    "--",
    "]]>",
    "<![CDATA[",
    "<!DOCTYPE html>",
    "<?xml version=\"1.0\"?>",
];

// References, whole and halved.
static REFERENCES: [&str; 15] = [
    "&",
    "&&",
    "&amp",
    "&amp;",
    "&lt;",
    "&quot",
    "&#",
    "&#x",
    "&#34",
    "&#34;",
    "&#x27;",
    "&#x0;",
    "&#1114112;",
    "&apos;&nbsp;",
    ";",
];

// Escapes, whole and halved.
static BACKSLASHES: [&str; 17] = [
    "\\",
    "\\\\",
    "\\'",
    "\\\"",
    "\\\\'",
    "\\n",
    "\\u0027",
    "\\u{27}",
    "\\x27",
    "\\0",
    "\\27 ",
    "\\22",
    "\\3C/style>",
    "\\\n",
    "\\<",
    "<\\/script>",
    "<\\!--",
];

// What ends a string, and code after it.
static CODE: [&str; 15] = [
    "');f();//",
    "\");f();//",
    "'}p{x:y",
    "\"}p{x:y",
    "*/",
    "/*",
    "//",
    "${f()}",
    "url(x)",
    "@import 'x';",
    "expression(f())",
    "javascript:f()",
    "data:text/html,<script>f()</script>",
    "{{a}}",
    " ",
];

// White space, controls, and characters past ASCII.
static SPACES: [&str; 14] = [
    "  a  ",
    "\t",
    "\n",
    "\r",
    "\r\n",
    "\x0c",
    "\x0b",
    "\0",
    "a\0b<\0'\"",
    "\u{1}\u{8}\u{1F}\u{7F}\u{80}\u{9F}",
    "\u{2028}\u{2029}\u{85}\u{A0}",
    "\u{FEFF}\u{202E}\u{FFFD}\u{FFFE}\u{10FFFF}",
    "\u{E9}<\u{1F600}>\u{4E2D}\"\u{301}'",
    "\u{2028}'\u{2029}\"\u{2028}</script>",
];

// The text in every place at once.
fn stays(alloc: Global, template: &Template, text: &str) -> Result<bool, AllocError> {
    stay(alloc, template, &[text; PLACES])
}

fn all_stay(alloc: Global, texts: &[&str]) -> Result<bool, AllocError> {
    let parts = parts(alloc)?;
    let Ok(template) = Template::new(alloc, &parts) else {
        return Ok(false);
    };
    for text in texts {
        if !stays(alloc, &template, *text)? {
            return Ok(false);
        }
    }
    Ok(true)
}

#[test]
fn quotes_and_tags_stay(rt: HostRuntime) -> Result<(), Fail> {
    assert!(rt; all_stay(rt.alloc(), &QUOTES)?);
    assert!(rt; all_stay(rt.alloc(), &OPENINGS)?);
    assert!(rt; all_stay(rt.alloc(), &END_TAGS)?);
    assert!(rt; all_stay(rt.alloc(), &STYLES)?);
    assert!(rt; all_stay(rt.alloc(), &COMMENTS)?);
    Ok(())
}

#[test]
fn references_and_escapes_stay(rt: HostRuntime) -> Result<(), Fail> {
    assert!(rt; all_stay(rt.alloc(), &REFERENCES)?);
    assert!(rt; all_stay(rt.alloc(), &BACKSLASHES)?);
    assert!(rt; all_stay(rt.alloc(), &CODE)?);
    assert!(rt; all_stay(rt.alloc(), &SPACES)?);
    Ok(())
}

#[test]
fn an_empty_text_stays_but_without_quotes(rt: HostRuntime) -> Result<(), Fail> {
    let parts = parts(rt.alloc())?;
    let Ok(template) = Template::new(rt.alloc(), &parts) else {
        panic!(rt; "the parts are a template");
    };
    let mut texts = [""; PLACES];
    let mut page = String::new(rt.alloc());
    assert!(rt;
        template.append(&mut page, &texts) == Err(FillFault::Text(4, TextFault::EmptyUnquoted))
    );
    put(&mut texts, 4, "x");
    assert!(rt; stay(rt.alloc(), &template, &texts)?);
    Ok(())
}

#[test]
fn every_character_of_a_byte_or_two_stays(rt: HostRuntime) -> Result<(), Fail> {
    let parts = parts(rt.alloc())?;
    let Ok(template) = Template::new(rt.alloc(), &parts) else {
        panic!(rt; "the parts are a template");
    };
    for number in 0..0x800u32 {
        let mut text = String::from_str(rt.alloc(), "<")?;
        text.push(char::from_u32(number).unwrap_or('/'))?;
        text.push_str("/")?;
        assert!(rt; stays(rt.alloc(), &template, text.as_str())?, "{number}");
    }
    Ok(())
}

pub(crate) fn repeated(alloc: Global, part: &str, times: usize) -> Result<String, AllocError> {
    let mut text = String::new(alloc);
    for _ in 0..times {
        text.push_str(part)?;
    }
    Ok(text)
}

#[test]
fn long_texts_stay_in_every_place(rt: HostRuntime) -> Result<(), Fail> {
    let parts = parts(rt.alloc())?;
    let Ok(template) = Template::new(rt.alloc(), &parts) else {
        panic!(rt; "the parts are a template");
    };
    for (part, times) in [("<", 1_000_000), ("&", 1_000_000), ("</script", 131_072)] {
        let text = repeated(rt.alloc(), part, times)?;
        assert!(rt; stays(rt.alloc(), &template, text.as_str())?, "{part}");
    }
    Ok(())
}
