//! Texts that are a whole URL on the page's own host: own paths.
ghost use Rattle.std.specs.Prelude.{◌≡◌};
ghost use Rattle.html_urls.specs.OwnPaths as spec;

use crate::open_part::{OpenPart, after_markup, is_rooted, may_be_dots};
use crate::slots::is_plain;

// The URL ends where this is open.
fn may_end(part: Option<OpenPart>) -> bool
    ensures { result ≡ spec.may_end part }
{
    match part {
        Some(part) => !may_be_dots(part),
        None => false,
    }
}

/// Whether the text is an own path: a whole URL that leads to the page's own scheme, host and port. It
/// begins with one `/`, and no second one. It has no ASCII white space, no control and no `\`, and no segment
/// that is `.` or `..`, or may be read so: one that begins with `.` or `%` has a byte other than `.`, `%`,
/// `2`, `e` and `E`. A query and a fragment may follow, and hold any other bytes.
///
/// Of `/`, `/a.js?v=1#x` and `/.well-known/a` it is `true`, and of `//a.example`, `/\a.example`, `/a/../b`,
/// `/%2E%2e/b`, `a.js`, `https://a.example/` and the empty text it is `false`.
pub fn is_own_path(text: &str) -> bool
    ensures { result ≡ spec.is_own_path text.now }
{
    let bytes = text.as_bytes();
    is_plain(bytes, true) && is_rooted(bytes) && may_end(after_markup(OpenPart::NewSegment, bytes))
}
