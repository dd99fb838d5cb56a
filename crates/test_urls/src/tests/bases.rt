//! Bases: which texts may begin a URL that goes on, and where the URL then leads.
use html_urls::UrlPart::{Markup, Slot};
use html_urls::{
    BehindBase, OpenPart, UrlPart, UrlTextFault, append_url, behind_base, encode_component,
    goes_as, is_base, is_own_base, laws, open_behind,
};
use std::alloc::Global;
use std::test::Fail;
use url::{ParseError, Url};

pub const PAGES: [&str; 3] = [
    "https://h:8080/d/f?k=v#g",
    "http://u:p@h.example/",
    "ftp://f.example/d",
];

// Of each text: whether it is a base before a `/`, before a `?` or a `#`, and before a segment.
const TEXTS: [(&str, bool, bool, bool); 66] = [
    ("", true, true, false),
    ("/", false, true, true),
    ("/app", true, true, false),
    ("/app/", false, true, true),
    ("/a/b.c/d", true, true, false),
    ("/a//b", true, true, false),
    ("/a;b=c@d:e", true, true, false),
    ("/%20", true, true, false),
    ("/é", true, true, false),
    ("/a%2Fb", true, true, false),
    ("/a..", true, true, false),
    ("/2.0", true, true, false),
    ("https://a.example", true, true, false),
    ("HTTPS://a.example", true, true, false),
    ("http://a.example:80/b", true, true, false),
    ("https://u:p@a.example/", false, true, true),
    ("https://a.example/", false, true, true),
    ("https://[::1]:8080/b/", false, true, true),
    // Another host, or a path that is one on some pages.
    ("//", false, false, false),
    ("//evil.example", false, false, false),
    ("//evil.example/", false, false, false),
    ("///evil.example", false, false, false),
    ("/\\evil.example", false, false, false),
    ("\\/evil.example", false, false, false),
    ("/\t/evil.example", false, false, false),
    ("\t//evil.example", false, false, false),
    (" //evil.example", false, false, false),
    ("/\n/evil.example", false, false, false),
    ("/\r", false, false, false),
    ("/ ", false, false, false),
    (" /", false, false, false),
    ("/\u{0}", false, false, false),
    ("/\u{7F}", false, false, false),
    ("https:", false, false, false),
    ("https:/", false, false, false),
    ("https://", false, false, false),
    ("https:///", false, false, false),
    ("https:///a.example", false, false, false),
    ("https:a.example", false, false, false),
    ("https:/a.example", false, false, false),
    ("https:\\\\a.example", false, false, false),
    ("https://a.example\\b", false, false, false),
    (" https://a.example", false, false, false),
    ("ht\ttps://a.example", false, false, false),
    // Another scheme, or a relative path.
    ("javascript:x", false, false, false),
    ("javascript://a.example/", false, false, false),
    ("JavaScript://%0Aalert(1)", false, false, false),
    ("data:text/html,a/", false, false, false),
    ("mailto:a@b.example", false, false, false),
    ("ftp://a.example/", false, false, false),
    ("file:///a/", false, false, false),
    ("a", false, false, false),
    ("a/", false, false, false),
    ("./", false, false, false),
    ("../a", false, false, false),
    // A query, a fragment, dots, and an open escape.
    ("/a?b", false, false, false),
    ("https://a.example?b", false, false, false),
    ("/a#b", false, false, false),
    ("/.", false, false, false),
    ("/..", false, false, false),
    ("/a/../b", false, false, false),
    ("/a/%2e%2E/", false, false, false),
    ("https://a.example/.%2e", false, false, false),
    ("/a/./b", false, false, false),
    ("/a%", false, false, false),
    ("/a%4", false, false, false),
];

// What stands behind a base: with one slot at most.
const BEHIND: [(BehindBase, &[UrlPart<'static>]); 11] = [
    (BehindBase::Slash, &[Markup("/")]),
    (BehindBase::Slash, &[Markup("/items/"), Slot]),
    (BehindBase::Slash, &[Markup("/"), Slot]),
    (BehindBase::Slash, &[Markup("/a?q="), Slot]),
    (BehindBase::Tail, &[Markup("?page="), Slot]),
    (BehindBase::Tail, &[Markup("#comments")]),
    (BehindBase::Tail, &[Markup("#"), Slot, Markup("?a")]),
    (BehindBase::Segment, &[Markup("css/a.css")]),
    (BehindBase::Segment, &[Markup("_static/"), Slot]),
    (BehindBase::Segment, &[Slot, Markup(".html")]),
    (BehindBase::Segment, &[Markup("?a")]),
];

// Hostile texts, none of which is empty, `.` or `..`.
const HOSTILE: [&str; 7] = [
    "/evil.example",
    "//evil.example/",
    "@evil.example/",
    ":x",
    "../..",
    "\\evil.example",
    "?a#b",
];

// Scheme, user, password, host and port, as they are written before the path.
pub fn head_of(alloc: Global, url: &Url) -> Result<String, ParseError> {
    Ok(format!(in alloc; "{} {}", url.scheme(), url.authority())?)
}

// The head of a reference on a page, or that it is refused.
pub fn head_on(alloc: Global, page: &str, reference: &str) -> Result<String, ParseError> {
    match Url::parse(alloc, page)?.join(reference) {
        Ok(url) => head_of(alloc, &url),
        Err(_) => Ok(String::from_str(alloc, "no URL")?),
    }
}

// The path of a reference on a page, which has one.
fn path_on(alloc: Global, page: &str, reference: &str) -> Result<String, ParseError> {
    let url = Url::parse(alloc, page)?.join(reference)?;
    Ok(String::from_str(alloc, url.path())?)
}

#[test]
fn texts_are_bases_before_what_follows(rt: HostRuntime) -> Result<(), Fail> {
    for &(text, slash, tail, segment) in &TEXTS {
        assert!(rt; is_base(BehindBase::Slash, text) == slash, "{text:?}/");
        assert!(rt; is_base(BehindBase::Tail, text) == tail, "{text:?}?");
        assert!(rt; is_base(BehindBase::Segment, text) == segment, "{text:?}a");
        let is_own = text.is_empty() || text.starts_with('/');
        assert!(rt;
            is_own_base(BehindBase::Slash, text) == (slash && is_own),
            "{text:?}/"
        );
        assert!(rt;
            is_own_base(BehindBase::Tail, text) == (tail && is_own),
            "{text:?}?"
        );
        assert!(rt;
            is_own_base(BehindBase::Segment, text) == (segment && is_own),
            "{text:?}a"
        );
    }
    Ok(())
}

#[test]
fn markup_goes_on_by_its_first_byte(rt: HostRuntime) -> Result<(), Fail> {
    assert!(rt; behind_base(b"/items/") == Some(BehindBase::Slash));
    assert!(rt; behind_base(b"?q=") == Some(BehindBase::Tail));
    assert!(rt; behind_base(b"#top") == Some(BehindBase::Tail));
    for markup in ["css/a.css", "_static/", "0", "Z"] {
        assert!(rt;
            behind_base(markup.as_bytes()) == Some(BehindBase::Segment),
            "{markup}"
        );
    }
    for markup in [
        "",
        "&a=b",
        ".html",
        ":80/",
        "@a.example",
        "-a",
        "%41",
        "\\",
        " ",
    ] {
        assert!(rt; behind_base(markup.as_bytes()).is_none(), "{markup}");
    }
    Ok(())
}

#[test]
fn markup_goes_on_as_the_base_was_taken_for(rt: HostRuntime) -> Result<(), Fail> {
    for behind in [BehindBase::Slash, BehindBase::Tail, BehindBase::Segment] {
        assert!(rt; goes_as(behind, b"/items/") == (behind == BehindBase::Slash));
        assert!(rt; goes_as(behind, b"/") == (behind == BehindBase::Slash));
        assert!(rt; goes_as(behind, b"?q=") == (behind == BehindBase::Tail));
        assert!(rt; goes_as(behind, b"a") == (behind == BehindBase::Segment));
        for markup in ["", "//items/", ".html", "&a=b", ":80/"] {
            assert!(rt; !goes_as(behind, markup.as_bytes()), "{markup}");
        }
    }
    assert!(rt; open_behind(BehindBase::Slash) == OpenPart::NamedSegment);
    assert!(rt; open_behind(BehindBase::Segment) == OpenPart::NewSegment);
    Ok(())
}

// Whether the head is that of the base alone, whatever text stands behind it, on each page.
fn keeps_head<'x>(alloc: Global, text: &'x str, rest: &[UrlPart<'x>]) -> Result<bool, ParseError> {
    let mut parts = Vec::new(alloc);
    parts.extend_from_slice(&[Markup(text)])?;
    parts.extend_from_slice(rest)?;
    let has_slot = rest.iter().any(|part| matches!(part, Slot));
    for hostile in HOSTILE {
        let one = [hostile];
        let texts: &[&str] = if has_slot { &one } else { &[] };
        let mut url = String::new(alloc);
        if append_url(&mut url, &parts, texts).is_err() {
            return Ok(false);
        }
        for page in PAGES {
            let alone = head_on(alloc, page, text)?;
            let filled = head_on(alloc, page, url.as_str())?;
            if alone.as_str() != filled.as_str() {
                return Ok(false);
            }
        }
    }
    Ok(true)
}

#[test]
fn a_base_fixes_the_head(rt: HostRuntime) -> Result<(), Fail> {
    for &(text, _, _, _) in &TEXTS {
        for &(behind, rest) in &BEHIND {
            if is_base(behind, text) {
                assert!(rt; keeps_head(rt.alloc(), text, rest)?, "{text:?} {behind:?}");
            }
        }
    }
    Ok(())
}

#[test]
fn the_path_goes_on_behind_the_base(rt: HostRuntime) -> Result<(), Fail> {
    let rows = [
        ("", "/items/1", "/items/1"),
        ("/app", "/items/1", "/app/items/1"),
        ("/app/", "css/a.css", "/app/css/a.css"),
        ("/", "css/a.css", "/css/a.css"),
        ("https://a.example", "/items/1", "/items/1"),
        ("https://a.example/", "css/a.css", "/css/a.css"),
        ("https://a.example/b/", "?q=1", "/b/"),
        ("https://a.example", "?q=1", "/"),
        ("/app", "#top", "/app"),
        ("", "#top", "/d/f"),
    ];
    for &(base, rest, path) in &rows {
        let mut url = String::from_str(rt.alloc(), base)?;
        url.push_str(rest)?;
        let found = path_on(rt.alloc(), PAGES[0], url.as_str())?;
        assert!(rt; found.as_str() == path, "{base:?} {rest:?}");
    }
    Ok(())
}

// What is refused of bases, as it would be read.
#[test]
fn what_is_no_base_would_lead_elsewhere(rt: HostRuntime) -> Result<(), Fail> {
    let rows = [
        (
            "/",
            BehindBase::Slash,
            "/evil.example/a",
            "https evil.example",
        ),
        (
            "",
            BehindBase::Segment,
            "javascript:alert(1)",
            "javascript ",
        ),
        (
            "https://a.example",
            BehindBase::Segment,
            ".evil.example/",
            "https a.example.evil.example",
        ),
        (
            "https://a.example",
            BehindBase::Segment,
            "@evil.example/",
            "https a.example@evil.example",
        ),
        (
            "https:/",
            BehindBase::Slash,
            "/evil.example/",
            "https evil.example",
        ),
        (
            "/\\",
            BehindBase::Segment,
            "evil.example/",
            "https evil.example",
        ),
        (
            "/\t",
            BehindBase::Slash,
            "/evil.example/",
            "https evil.example",
        ),
        (
            "java",
            BehindBase::Segment,
            "script:alert(1)",
            "javascript ",
        ),
    ];
    for &(text, behind, rest, head) in &rows {
        assert!(rt; !is_base(behind, text), "{text:?}");
        let mut url = String::from_str(rt.alloc(), text)?;
        url.push_str(rest)?;
        let found = head_on(rt.alloc(), PAGES[0], url.as_str())?;
        assert!(rt; found.as_str() == head, "{text:?} {rest:?}: {found}");
    }
    Ok(())
}

#[test]
fn a_base_leads_as_the_law_says(rt: HostRuntime) -> Result<(), Fail> {
    let behind = [Markup("/items/"), Slot];
    laws::base_law(BehindBase::Slash, "https://a.example/b", &behind);
    let parts = [Markup("https://a.example/b"), Markup("/items/"), Slot];
    let mut url = String::new(rt.alloc());
    assert!(rt; append_url(&mut url, &parts, &["../c"]).is_ok());
    assert!(rt; url.as_str() == "https://a.example/b/items/..%2Fc");
    let refused = append_url(&mut url, &parts, &[".."]);
    assert!(rt; refused == Err(UrlTextFault::WrongText(0)));
    assert!(rt; encode_component(rt.alloc(), "../c")?.as_str() == "..%2Fc");
    Ok(())
}
