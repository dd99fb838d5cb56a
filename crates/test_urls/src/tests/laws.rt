//! The examples of the laws: each law is called with its example, and what it says of it is seen.
use crate::items::item_law;
use crate::tests::slots::url_of;
use html_urls::{UrlPart, UrlPlace, append_component, encode_component, laws};
use percent_encoding::percent_decode_str;
use std::alloc::Global;
use std::test::Fail;
use url::{ParseError, Url};

const PAGE: &str = "https://h/d/f?k=v#g";

// The URL of a front, a text as a component and a rest, on a page.
fn fill(alloc: Global, page: &str, front: &str, text: &str, rest: &str) -> Result<Url, ParseError> {
    let mut value = String::new(alloc);
    value.push_str(front)?;
    append_component(&mut value, text)?;
    value.push_str(rest)?;
    Url::parse(alloc, page)?.join(value.as_str())
}

#[test]
fn a_component_is_decoded_as_the_law_says(rt: HostRuntime) -> Result<(), Fail> {
    laws::decode_law("a&b");
    assert!(rt; encode_component(rt.alloc(), "a&b")?.as_str() == "a%26b");
    let mut bytes = Vec::new(rt.alloc());
    percent_decode_str("a%26b").append_to(&mut bytes)?;
    assert!(rt; bytes.as_slice() == b"a&b".as_slice());
    Ok(())
}

#[test]
fn a_query_goes_on_as_the_law_says(rt: HostRuntime) -> Result<(), Fail> {
    laws::url_law(UrlPlace::Query, b"/a?q=", "1&admin=1", b"#top");
    let url = fill(rt.alloc(), PAGE, "/a?q=", "1&admin=1", "#top")?;
    assert!(rt; url.as_str() == "https://h/a?q=1%26admin%3D1#top");
    Ok(())
}

#[test]
fn a_shape_is_filled_as_the_laws_say(rt: HostRuntime) -> Result<(), Fail> {
    let parts = [
        UrlPart::Markup("/items/"),
        UrlPart::Slot,
        UrlPart::Markup("?q="),
        UrlPart::Slot,
    ];
    laws::url_shape_law(&parts);
    laws::url_segments_law(&parts);
    let url = url_of(rt.alloc(), &parts, &["../../logout", "1&admin=1"])?;
    assert!(rt; url.path() == "/items/..%2F..%2Flogout");
    assert!(rt; url.query() == Some("q=1%26admin%3D1"));
    assert!(rt; url.path_segments().map_or(0, |segments| segments.count()) == 2);
    Ok(())
}

#[test]
fn texts_are_values_of_pairs_as_the_laws_say(rt: HostRuntime) -> Result<(), Fail> {
    let parts = [
        UrlPart::Markup("/items/"),
        UrlPart::Slot,
        UrlPart::Markup("?q="),
        UrlPart::Slot,
    ];
    laws::url_pairs_law(&parts, &["../../logout", "1&admin=1"]);
    item_law("../../logout", "1&admin=1");
    let url = url_of(rt.alloc(), &parts, &["../../logout", "1&admin=1"])?;
    let mut pairs = url.query_pairs();
    let Some(pair) = pairs.next() else {
        panic!(rt; "there is a pair");
    };
    let (name, value) = pair?;
    assert!(rt; name.as_str() == "q" && value.as_str() == "1&admin=1");
    assert!(rt; pairs.next().is_none());
    Ok(())
}

#[test]
fn a_link_has_its_scheme_as_the_law_says(rt: HostRuntime) -> Result<(), Fail> {
    laws::link_law("//a.example");
    assert!(rt; html_urls::is_link("//a.example"));
    let url = fill(rt.alloc(), PAGE, "//a.example", "", "")?;
    assert!(rt; url.as_str() == "https://a.example/");
    let url = fill(rt.alloc(), "ftp://h/d/", "//a.example", "", "")?;
    assert!(rt; url.as_str() == "ftp://a.example/");
    Ok(())
}
