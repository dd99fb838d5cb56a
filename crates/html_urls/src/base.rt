//! Texts with which a URL begins that goes on in its markup: bases, and those of the page's own host.
ghost use Rattle.std.specs.Prelude.{◌≡◌};
ghost use Rattle.html_urls.specs.Bases as spec;
ghost use Rattle.html_urls.specs.OpenParts as opened;

use crate::link::mark_at;
use crate::open_part::{OpenPart, after_markup, is_rooted, is_web_scheme};
use crate::slots::is_plain;

/// What a URL goes on with behind a base.
#[derive(Clone, Copy, Debug, PartialEq, Eq)]
pub enum BehindBase {
    /// A `/`, and no second one, as in a base and `/items/`. The base does not end in `/`.
    Slash,
    /// A `?` or a `#`, as in a base and `?q=`. The base may end in `/` or not.
    Tail,
    /// A segment, as in a base and `css/a.css`. The base ends in `/`.
    Segment,
}

/// What a URL goes on with, by the first byte of its markup behind a base: `None` where it may not go on
/// so. A segment begins with an ASCII letter, a digit or `_`.
///
/// Of `/items/` it is `Slash`, of `#top` it is `Tail`, of `css/a.css` it is `Segment`, and of `&a=b`,
/// `.html` and no byte it is `None`.
pub fn behind_base(markup: &[u8]) -> Option<BehindBase>
    ensures { result ≡ spec.behind_base markup.now }
{
    match markup {
        [b'/', ..] => Some(BehindBase::Slash),
        [b'?' | b'#', ..] => Some(BehindBase::Tail),
        [b, ..] if b.is_ascii_alphanumeric() || *b == b'_' => Some(BehindBase::Segment),
        _ => None,
    }
}

fn is_same(behind: BehindBase, other: Option<BehindBase>) -> bool
    ensures { result ≡ spec.is_same behind other }
{
    match (behind, other) {
        (BehindBase::Slash, Some(BehindBase::Slash)) => true,
        (BehindBase::Tail, Some(BehindBase::Tail)) => true,
        (BehindBase::Segment, Some(BehindBase::Segment)) => true,
        _ => false,
    }
}

/// Whether a URL goes on so with this markup behind a base: by its first byte, and with no second `/`.
///
/// For `Slash`, of `/items/` it is `true`, and of `//items/` and `?q=` it is `false`.
pub fn goes_as(behind: BehindBase, markup: &[u8]) -> bool
    ensures { result ≡ spec.goes_as behind markup.now }
{
    is_same(behind, behind_base(markup)) && !markup.starts_with(b"//")
}

/// What is open behind a base. Before a `/`, a `?` or a `#` its last segment is one that is named.
///
/// Of `Slash` and `Tail` it is `NamedSegment`, and of `Segment` it is `NewSegment`.
pub fn open_behind(behind: BehindBase) -> OpenPart
    ensures { result ≡ spec.open_behind behind }
{
    match behind {
        BehindBase::Slash | BehindBase::Tail => OpenPart::NamedSegment,
        BehindBase::Segment => OpenPart::NewSegment,
    }
}

// `//` and a byte of a host.
fn begins_host(body: &[u8]) -> bool
    ensures { result ≡ spec.begins_host body.now }
{
    match body {
        [a, b, c, ..] => *a == b'/' && *b == b'/' && *c != b'/',
        _ => false,
    }
}

// `http://` or `https://`, in any case, and a byte of a host.
fn has_origin(text: &[u8]) -> bool
    ensures { result ≡ spec.has_origin text.now }
{
    let at = mark_at(text);
    at < text.len()
        && text[at] == b':'
        && is_web_scheme(&text[..at])
        && begins_host(&text[at + 1..])
}

// Of the page's own host, or with a host of the web.
fn is_own_or_web(text: &[u8]) -> bool
    ensures { result ≡ spec.is_own_or_web text.now }
{
    text.is_empty() || is_rooted(text) || has_origin(text)
}

// Whether a text that ends in this part, with no dot segment before, may stand before what follows.
fn ends_as(behind: BehindBase, is_empty: bool, part: Option<OpenPart>) -> bool
    ensures { result ≡ spec.ends_as behind is_empty part }
{
    match part {
        Some(OpenPart::NamedSegment) => behind != BehindBase::Segment,
        Some(OpenPart::NewSegment) => match behind {
            BehindBase::Slash => is_empty,
            BehindBase::Tail => true,
            BehindBase::Segment => !is_empty,
        },
        _ => false,
    }
}

/// Whether the text is a base before what follows: with it a URL begins, and its host is that of the base,
/// whatever follows so. A base is empty, or begins with one `/`, or with `http://` or `https://`, in any
/// case, and a host. It has no ASCII white space, no control, no `\`, no `?` and no `#`, and no segment that
/// is `.` or `..`, or may be read so: one that begins with `.` or `%` has a byte other than `.`, `%`, `2`,
/// `e` and `E`. No escape is open at its end.
///
/// Before a `/`, of `https://a.example/b`, `/b` and the empty text it is `true`, and of `/`, `//a.example`,
/// `javascript:x`, `/b?c` and `/b/..` it is `false`.
pub fn is_base(behind: BehindBase, text: &str) -> bool
    ensures { result ≡ spec.is_base behind text.now }
{
    let bytes = text.as_bytes();
    is_plain(bytes, false)
        && is_own_or_web(bytes)
        && ends_as(
            behind,
            bytes.is_empty(),
            after_markup(OpenPart::NewSegment, bytes),
        )
}

/// Whether the text is a base of the page's own host before what follows: it is empty, or begins with one
/// `/`.
///
/// Before a `/`, of `/b` and the empty text it is `true`, and of `https://a.example/b`, `//a.example` and `b`
/// it is `false`.
pub fn is_own_base(behind: BehindBase, text: &str) -> bool
    ensures { result ≡ spec.is_own_base behind text.now }
{
    is_base(behind, text) && (text.is_empty() || is_rooted(text.as_bytes()))
}
