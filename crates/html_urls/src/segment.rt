//! Which texts may be a whole segment of a path.
ghost use Rattle.std.specs.Prelude.{◌≡◌};
ghost use Rattle.html_urls.specs.Parts.Segments as spec;

/// Whether the text may be a whole segment: it is neither `.` nor `..`, which the parser takes away
/// however they are percent-encoded.
///
/// Of `...` and `%2e` it is `true`, and of `..` it is `false`.
pub fn may_be_segment(text: &str) -> bool
    ensures { result ≡ spec.may_be_segment text.now }
{
    text != "." && text != ".."
}
