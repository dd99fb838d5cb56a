//! Pages: what is appended, what is read back, the fault, and refused memory.
use crate::tests::memory::builders::{self, Builder};
use crate::tests::memory::refusals::{Reader, survives};
use hesc_places::{PlaceFault, build_page, read_page};
use std::alloc::{AllocError, Allocator, Global};
use std::process::Abort;
use std::test::Fail;
use test_support::Refusing;

static TEXTS: [&str; 3] = [
    "Hello world!",
    "The default value is \"Hello world!\".",
    "<script>'s end tag is </script>",
];

const PAGE: &str = "<input value=Hello&#x20;world&#x21; \
placeholder=\"The default value is &quot;Hello world!&quot;.\"/>\
<script>alert('\\x3Cscript>\\'s end tag is \\x3C/script>');</script>";

#[test]
fn a_page_is_built_and_read_back(rt: HostRuntime) -> Result<(), Fail> {
    assert!(rt; PAGE.len() == 163);
    let mut output = String::from_str(rt.alloc(), "x")?;
    let part = build_page(TEXTS[0], TEXTS[1], TEXTS[2], &mut output);
    assert!(rt; part == Ok(PAGE));
    assert!(rt; output.strip_prefix("x") == Some(PAGE));
    assert!(rt; reads_back(rt.alloc(), PAGE) == Ok(true));
    assert!(rt; reads_back(rt.alloc(), "abc") == Ok(false));
    Ok(())
}

/// Whether memory was found, and then whether the bytes are the page of the texts.
pub fn reads_back<A: Allocator + Clone>(alloc: A, bytes: &str) -> Result<bool, AllocError> {
    match read_page(alloc, bytes.as_bytes())? {
        Some(page) => Ok(
            page.first.as_slice() == TEXTS[0].as_bytes()
                && page.second.as_slice() == TEXTS[1].as_bytes()
                && page.third.as_slice() == TEXTS[2].as_bytes()
                && page.end == bytes.len(),
        ),
        None => Ok(false),
    }
}

#[test]
fn an_empty_value_leaves_the_output(rt: HostRuntime) -> Result<(), Fail> {
    let heap = Refusing::new(rt.alloc(), 0);
    let mut output = String::from_str(&heap, "x")?;
    heap.refuse(1);
    let answer = build_page("", TEXTS[1], TEXTS[2], &mut output);
    assert!(rt; answer == Err(PlaceFault::EmptyUnquoted));
    assert!(rt; is_x_and(output.as_str(), ""));
    assert!(rt; heap.asked(1) == 0);
    Ok(())
}

#[test]
fn every_request_of_a_page_is_refused_in_turn(rt: HostRuntime) -> Result<(), Fail> {
    assert!(rt;
        builders::survives(
            rt.alloc(),
            Builder::Page(TEXTS[0], TEXTS[1], TEXTS[2]),
            PAGE
        )?
    );
    assert!(rt; survives(rt.alloc(), Reader::Page(PAGE)));
    Ok(())
}

fn is_x_and(output: &str, added: &str) -> bool {
    output.strip_prefix("x") == Some(added)
}
