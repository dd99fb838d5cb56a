//! The parts of a URL that a text may stand in.

/// A part of a URL that a text may stand in.
#[derive(Clone, Copy, Debug, PartialEq, Eq)]
pub enum UrlPlace {
    /// The path: the text is in one of its segments.
    Path,
    /// The path of a `mailto:` or a `tel:` URL, or of an image in a `data:` URL, which is opaque: the text is
    /// an address, a number or the image in base64, or a part of one.
    OpaquePath,
    /// The query: the text is the value of a pair, or a part of one.
    Query,
    /// The fragment, which the browser does not send.
    Fragment,
}
