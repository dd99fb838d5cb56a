//! Which texts are taken as whole URLs.
ghost use Rattle.std.specs.Prelude.{◌≡◌, ◌≤◌, length};
ghost use Rattle.url.specs.Input.{lowercase};
ghost use Rattle.html_urls.specs.Links as spec;

/// Whether the text is a URL with the scheme `http`, `https` or `mailto`, or one with no scheme, which
/// has that of the page. What stands before a `:` counts as a scheme where no `/`, `?` and `#` is in it,
/// also where it is none to a browser: a scheme begins with a letter and has letters, digits, `+`, `-` and
/// `.` alone. So `12:30`, `a b:c` and `é:x` are no links, and `./12:30` is one.
///
/// Of `HTTPS://a.example` and `/a:b` it is `true`, and of `javascript:x`, ` javascript:x` and
/// `java\tscript:x` it is `false`.
pub fn is_link(text: &str) -> bool
    ensures { result ≡ spec.is_link text.now }
{
    is_link_bytes(text.as_bytes())
}

/// The same of bytes.
pub(crate) fn is_link_bytes(text: &[u8]) -> bool
    ensures { result ≡ spec.is_link text.now }
{
    !has_scheme(text) || is_link_scheme(&text[..mark_at(text)])
}

/// Whether what stands before the first of `:`, `/`, `?` and `#` counts as a scheme: this is a `:`.
pub(crate) fn has_scheme(text: &[u8]) -> bool
    ensures { result ≡ spec.has_scheme text.now }
{
    let at = mark_at(text);
    at < text.len() && text[at] == b':'
}

fn is_link_scheme(scheme: &[u8]) -> bool
    ensures { result ≡ spec.is_link_scheme (lowercase scheme.now) }
{
    scheme.eq_ignore_ascii_case(b"http")
        || scheme.eq_ignore_ascii_case(b"https")
        || scheme.eq_ignore_ascii_case(b"mailto")
}

/// Where the first byte stands that may end a scheme or show that there is none.
pub(crate) fn mark_at(bytes: &[u8]) -> usize
    ensures value { result ≡ spec.mark_at bytes.now }
    ensures within { result ≤ length bytes.now }
{
    bytes
        .iter()
        .position(|b| is_mark(*b))
        .unwrap_or(bytes.len())
}

pub(crate) fn is_mark(b: u8) -> bool
    ensures { result ≡ spec.is_mark b }
{
    b == b':' || b == b'/' || b == b'?' || b == b'#'
}
