//! What is open at the end of a URL's beginning: a segment of its path, its opaque path, its query or its
//! fragment.
ghost use Rattle.std.specs.Prelude.{◌≡◌, ◌≤◌, length};
ghost use Rattle.std.specs.List.{list_all, position_or_len};
ghost use Rattle.html_urls.specs.Hosts as hosts;
ghost use Rattle.html_urls.specs.OpenParts as spec;
ghost use Rattle.html_urls.specs.Parts.Segments as segments;

use crate::image::is_image_front;
use crate::link::{has_scheme, is_link_bytes, is_mark, mark_at};
use crate::parts::UrlSlot;
use crate::place::UrlPlace;

/// What is open at the end of a URL's beginning. A slot stands there by [`slot_at`].
///
/// Behind `/a/` it is `NewSegment`, behind `/a/b` `NamedSegment`, and behind `/a?q=` `Query`.
#[derive(Clone, Copy, Debug, PartialEq, Eq)]
pub enum OpenPart {
    /// A segment with nothing in it.
    NewSegment,
    /// A segment that may read as `.` or `..`.
    DotSegment,
    /// A segment that its markup, or the text with which it begins, keeps from that, whatever follows.
    NamedSegment,
    /// The first segment of a relative path, which its markup keeps from that. A `:` in it ends a scheme.
    FirstSegment,
    /// The opaque path of a `mailto:` or a `tel:` URL, and that of an image.
    OpaquePath,
    /// The query.
    Query,
    /// The fragment.
    Fragment,
}

fn is_dot_byte(b: u8) -> bool
    ensures { result ≡ segments.is_dot_byte b }
{
    b == b'.' || b == b'%' || b == b'2' || b == b'E' || b == b'e'
}

fn is_end(b: u8) -> bool
    ensures { result ≡ spec.is_end b }
{
    b == b'/' || b == b'?' || b == b'#'
}

// After one byte more of markup.
fn after_byte(part: OpenPart, b: u8) -> OpenPart
    ensures { result ≡ spec.after_byte part b }
{
    match part {
        OpenPart::Fragment => OpenPart::Fragment,
        OpenPart::Query => after_query_byte(b),
        OpenPart::OpaquePath => after_opaque_byte(b),
        _ => after_path_byte(part, b),
    }
}

fn after_query_byte(b: u8) -> OpenPart
    ensures { result ≡ spec.after_query_byte b }
{
    if b == b'#' {
        OpenPart::Fragment
    } else {
        OpenPart::Query
    }
}

fn after_opaque_byte(b: u8) -> OpenPart
    ensures { result ≡ spec.after_opaque_byte b }
{
    if b == b'?' {
        OpenPart::Query
    } else if b == b'#' {
        OpenPart::Fragment
    } else {
        OpenPart::OpaquePath
    }
}

fn after_path_byte(part: OpenPart, b: u8) -> OpenPart
    ensures { result ≡ spec.after_path_byte part b }
{
    if b == b'/' {
        OpenPart::NewSegment
    } else if b == b'?' {
        OpenPart::Query
    } else if b == b'#' {
        OpenPart::Fragment
    } else {
        after_segment_byte(part, b)
    }
}

fn after_segment_byte(part: OpenPart, b: u8) -> OpenPart
    ensures { result ≡ spec.after_segment_byte part b }
{
    let may_be_dots = match part {
        OpenPart::NewSegment => b == b'.' || b == b'%',
        OpenPart::NamedSegment => false,
        OpenPart::FirstSegment => return OpenPart::FirstSegment,
        _ => is_dot_byte(b),
    };
    if may_be_dots {
        OpenPart::DotSegment
    } else {
        OpenPart::NamedSegment
    }
}

// After markup in which no slot has stood.
fn after_front(part: OpenPart, markup: &[u8]) -> OpenPart
    ensures { result ≡ spec.after_front part markup.now }
{
    let mut part = part;
    let mut rest = markup;
    'bytes: while let [b, others @ ..] = rest {
        part = after_byte(part, *b);
        rest = others;
    }
    part
}

/// Whether what is open is a segment that may read as `.` or `..`: it may not end so.
///
/// Behind `/a/.` and `/a/%2` it is `true`, and behind `/a/` and `/a/b` it is `false`.
pub fn may_be_dots(part: OpenPart) -> bool
    ensures { result ≡ spec.may_be_dots part }
{
    part == OpenPart::DotSegment
}

/// Whether with some text a scheme ends in markup behind a slot, where this is open before it: in the first
/// segment of a relative path, at a `:` before any `/`, `?` and `#`. Such markup may not stand there.
///
/// In `FirstSegment`, of `-b:c` it is `true`, and of `/b:c` it is `false`.
pub fn ends_scheme(part: OpenPart, markup: &[u8]) -> bool
    ensures { result ≡ spec.ends_scheme part markup.now }
{
    part == OpenPart::FirstSegment && has_scheme(markup)
}

// Whether a `/` stands in the markup before any `?` and `#`.
fn has_slash(markup: &[u8]) -> bool
    ensures { result ≡ spec.has_slash markup.now }
{
    let at = end_at(markup);
    at < markup.len() && markup[at] == b'/'
}

// Where the first of these bytes stands.
fn end_at(bytes: &[u8]) -> usize
    ensures value { result ≡ position_or_len spec.is_end bytes.now }
    ensures within { result ≤ length bytes.now }
{
    bytes.iter().position(|b| is_end(*b)).unwrap_or(bytes.len())
}

/// Whether with markup behind a slot, where this is open before it, and some text the URL has another scheme
/// or another kind of path: where a scheme [ends](ends_scheme) in the markup, and in an opaque path at a `/`
/// before any `?` and `#`. Such markup may not stand there.
///
/// In `OpaquePath`, of `/b` it is `true`, and of `@a.example?cc=/` it is `false`.
pub fn is_unfixed(part: OpenPart, markup: &[u8]) -> bool
    ensures { result ≡ spec.is_unfixed part markup.now }
{
    ends_scheme(part, markup) || (part == OpenPart::OpaquePath && has_slash(markup))
}

/// What is open after markup behind a slot, where this was open before it: `None` where a segment ends
/// in the markup that may read as `.` or `..`.
///
/// After `?q=` it is `Query`, and after `/../b` it is `None`, in a path.
pub fn after_markup(part: OpenPart, markup: &[u8]) -> Option<OpenPart>
    ensures { result ≡ spec.after_markup part markup.now }
{
    let mut part = part;
    let mut rest = markup;
    'bytes: while let [b, others @ ..] = rest {
        if may_be_dots(part) && is_end(*b) {
            return None;
        }
        part = after_byte(part, *b);
        rest = others;
    }
    Some(part)
}

/// The slot that stands where this is open, unless its segment may read as `.` or `..` with some text.
///
/// Of `NewSegment` it is a slot in the path that a segment begins with, and of `DotSegment` it is `None`.
pub fn slot_at(part: OpenPart) -> Option<UrlSlot>
    ensures { result ≡ spec.slot_at part }
{
    match part {
        OpenPart::NewSegment => Some(UrlSlot {
            place: UrlPlace::Path,
            begins_segment: true,
        }),
        OpenPart::NamedSegment | OpenPart::FirstSegment => Some(UrlSlot {
            place: UrlPlace::Path,
            begins_segment: false,
        }),
        OpenPart::OpaquePath => Some(UrlSlot {
            place: UrlPlace::OpaquePath,
            begins_segment: false,
        }),
        OpenPart::DotSegment => None,
        OpenPart::Query => Some(UrlSlot {
            place: UrlPlace::Query,
            begins_segment: false,
        }),
        OpenPart::Fragment => Some(UrlSlot {
            place: UrlPlace::Fragment,
            begins_segment: false,
        }),
    }
}

/// What is open after a text that fills the slot, where this was open before it: a text with which a segment
/// begins names it, since it is not empty, and neither `.` nor `..`.
///
/// Of `NewSegment` it is `NamedSegment`, and of `Query` it is `Query`.
pub fn after_text(part: OpenPart) -> OpenPart
    ensures { result ≡ spec.after_text part }
{
    if part == OpenPart::NewSegment {
        OpenPart::NamedSegment
    } else {
        part
    }
}

fn has_byte(mark: u8, bytes: &[u8]) -> bool
    ensures { result ≡ spec.has_byte mark bytes.now }
{
    bytes.iter().any(|b| *b == mark)
}

// `//`, a byte of a host, and a `/` somewhere behind it.
fn has_host(body: &[u8]) -> bool
    ensures { result ≡ spec.has_host body.now }
{
    match body {
        [a, b, c, more @ ..] => *a == b'/' && *b == b'/' && *c != b'/' && has_byte(b'/', more),
        _ => false,
    }
}

// One `/`, and no second one after it.
pub(crate) fn is_rooted(front: &[u8]) -> bool
    ensures { result ≡ spec.is_rooted front.now }
{
    front.starts_with(b"/") && !front.starts_with(b"//")
}

pub(crate) fn is_web_scheme(scheme: &[u8]) -> bool
    ensures { result ≡ hosts.is_web_scheme scheme.now }
{
    scheme.eq_ignore_ascii_case(b"http") || scheme.eq_ignore_ascii_case(b"https")
}

// `http://` or `https://`, in any case, a host and `/`.
fn has_web_host(front: &[u8]) -> bool
    ensures { result ≡ spec.has_web_host front.now }
{
    let at = mark_at(front);
    at < front.len()
        && front[at] == b':'
        && is_web_scheme(&front[..at])
        && has_host(&front[at + 1..])
}

// The first segment of a relative path, which is not empty and has no `:`, and `/`.
fn has_first_segment(front: &[u8]) -> bool
    ensures { result ≡ hosts.has_first_segment front.now }
{
    let at = mark_at(front);
    at > 0 && at < front.len() && front[at] == b'/' && !has_byte(b'\\', &front[..at])
}

// The first segment of a relative path alone.
fn is_first_segment(front: &[u8]) -> bool
    ensures { result ≡ hosts.is_first_segment front.now }
{
    !front.is_empty() && are_first_bytes(front)
}

fn are_first_bytes(bytes: &[u8]) -> bool
    ensures { result ≡ list_all hosts.is_first_byte bytes.now }
{
    bytes.iter().all(|b| is_first_byte(*b))
}

fn is_first_byte(b: u8) -> bool
    ensures { result ≡ hosts.is_first_byte b }
{
    !is_mark(b) && b != b'\\'
}

// A segment that is named, where it is the first one.
fn as_first(part: OpenPart) -> OpenPart
    ensures { result ≡ spec.as_first part }
{
    if part == OpenPart::NamedSegment {
        OpenPart::FirstSegment
    } else {
        part
    }
}

// Whether the host is fixed before markup that goes on: by one `/`, by a first segment of a relative
// path and `/`, or by the markup's own host, with a scheme or that of the page.
fn is_fixed(front: &[u8]) -> bool
    ensures { result ≡ spec.is_fixed front.now }
{
    is_rooted(front) || has_first_segment(front) || has_host(front) || has_web_host(front)
}

// `mailto` or `tel`, in any case.
fn is_address_scheme(scheme: &[u8]) -> bool
    ensures { result ≡ spec.is_address_scheme scheme.now }
{
    scheme.eq_ignore_ascii_case(b"mailto") || scheme.eq_ignore_ascii_case(b"tel")
}

// Such a scheme and `:`.
fn has_address_scheme(front: &[u8]) -> bool
    ensures { result ≡ spec.has_address_scheme front.now }
{
    has_scheme(front) && is_address_scheme(&front[..mark_at(front)])
}

// Such a scheme, or `data:` and the type of an image.
fn has_opaque_front(front: &[u8]) -> bool
    ensures { result ≡ spec.has_opaque_front front.now }
{
    has_address_scheme(front) || is_image_front(front)
}

// And no `/` behind the scheme, `?` or `#`.
#[tactic(auto, using(crate::proofs::Places::OpaqueFronts::scheme_ends))]
fn ends_in_opaque_path(front: &[u8]) -> bool
    ensures { result ≡ spec.ends_in_opaque_path front.now }
{
    has_opaque_front(front)
        && !front[mark_at(front) + 1..].starts_with(b"/")
        && !has_byte(b'?', front)
        && !has_byte(b'#', front)
}

/// What is open at the end of the markup before the first slot, if a text may stand there. Behind a scheme
/// that is none of `http`, `https`, `mailto` and `tel` none may, but in the bytes of an image, behind a front
/// that [`is_image_front`]: of a `javascript:` or another `data:` URL a browser decodes all that follows, and
/// runs or shows it.
///
/// Of `/items/`, `items/` and `//a.example/` it is `NewSegment`, of `item-` it is `FirstSegment`, of
/// `mailto:`, `tel:+49` and `data:image/png;base64,` it is `OpaquePath`, of `mailto:a@b.example?subject=` it is
/// `Query`, and of `//`, `item:`, `mailto:/`, `data:` and `javascript:x?` it is `None`.
pub fn open_of(front: &[u8]) -> Option<OpenPart>
    ensures { result ≡ spec.open_of front.now }
{
    if ends_in_opaque_path(front) {
        return Some(OpenPart::OpaquePath);
    }
    if !is_link_bytes(front) && !has_address_scheme(front) {
        return None;
    }
    open_of_link(front)
}

fn open_of_link(front: &[u8]) -> Option<OpenPart>
    ensures { result ≡ spec.open_of_link front.now }
{
    if has_byte(b'#', front) {
        Some(OpenPart::Fragment)
    } else if has_byte(b'?', front) {
        Some(OpenPart::Query)
    } else if is_fixed(front) {
        Some(after_front(OpenPart::NewSegment, front))
    } else if is_first_segment(front) {
        Some(as_first(after_front(OpenPart::NewSegment, front)))
    } else {
        None
    }
}
