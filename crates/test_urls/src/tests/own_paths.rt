//! Own paths: which texts are one, and that their URLs stay on the page's host.
use crate::tests::bases::{PAGES, head_of, head_on};
use html_urls::{is_own_path, laws};
use std::alloc::Global;
use std::test::Fail;
use url::{ParseError, Url};

const OWN: [&str; 24] = [
    "/",
    "/a.js",
    "/a.js?v=1#x",
    "/a/b/",
    "/a//b",
    "/.well-known/a",
    "/..a",
    "/a..",
    "/2.0/e",
    "/a%2Fb",
    "/%E2%82%AC",
    "/a%",
    "/a%4",
    "/a?%",
    "/?/../b",
    "/a?//evil.example",
    "/a#/..",
    "/a?#",
    "/:80/",
    "/@evil.example",
    "/javascript:f()",
    "/a;b=c&d",
    "/é",
    "/\u{FEFF}",
];

const OTHERS: [&str; 48] = [
    "",
    // Another host, or a path that is one to a browser.
    "//",
    "//h",
    "//evil.example/a.js",
    "///evil.example",
    "/\\evil.example",
    "\\/evil.example",
    "\\\\evil.example",
    "/a\\b",
    "/a?\\",
    "/\t/evil.example",
    "\t//evil.example",
    "/\n/evil.example",
    "/\r/evil.example",
    "/\u{0}/evil.example",
    " //evil.example",
    // White space and controls, which the parser removes at the ends.
    " /a",
    "/a ",
    "/a b",
    "/a\t",
    "/a\n",
    "/a\u{0}",
    "/\u{1F}",
    "/\u{7F}",
    "/a? #",
    // Dot segments, and what may be read so.
    "/.",
    "/..",
    "/a/.",
    "/a/..",
    "/a/../b",
    "/a/./b",
    "/%2e",
    "/a/%2E%2e/b",
    "/.%2e",
    "/..?a",
    "/.#a",
    "/...",
    "/%",
    "/%2",
    // A relative path, a query or a fragment alone, and a scheme.
    "a",
    "a/b.js",
    "../a",
    "?a",
    "#a",
    "https://h/",
    "https:/a",
    "javascript:x",
    "data:,x",
];

#[test]
fn a_text_is_an_own_path_or_none(rt: HostRuntime) -> Result<(), Fail> {
    for text in OWN {
        assert!(rt; is_own_path(text), "{text:?}");
    }
    for text in OTHERS {
        assert!(rt; !is_own_path(text), "{text:?}");
    }
    Ok(())
}

// Whether the path has the head of the page on each page of the web.
fn stays(alloc: Global, text: &str) -> Result<bool, ParseError> {
    for page in PAGES {
        let head = head_of(alloc, &Url::parse(alloc, page)?)?;
        if head_on(alloc, page, text)?.as_str() != head.as_str() {
            return Ok(false);
        }
    }
    Ok(true)
}

#[test]
fn own_paths_stay_on_the_host_as_the_law_says(rt: HostRuntime) -> Result<(), Fail> {
    laws::own_path_law("/a.js?v=1");
    let url = Url::parse(rt.alloc(), "https://h:8080/d/f")?.join("/a.js?v=1")?;
    assert!(rt; url.as_str() == "https://h:8080/a.js?v=1");
    for text in OWN {
        assert!(rt; stays(rt.alloc(), text)?, "{text}");
    }
    Ok(())
}
