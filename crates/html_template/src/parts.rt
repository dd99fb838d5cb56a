//! What a template is made of, and what its laws speak of.
use html_urls::{BehindBase, UrlSlot};

/// A part of a template.
#[derive(Clone, Copy, Debug)]
pub enum Part<'a> {
    /// Markup, which stands in each page as it is.
    Markup(&'a str),
    /// A slot, for one text.
    Slot,
}

/// What the text of a slot is.
#[derive(Clone, Copy, Debug, PartialEq, Eq)]
pub enum SlotKind {
    /// A text, which is encoded for its place.
    Text,
    /// The value of a part of a URL, which is written as a component, in an opaque path as an address or a
    /// number.
    UrlPart(UrlSlot),
    /// A whole URL that its element only shows or follows. It has to be a link, and is encoded for its place.
    Link,
    /// A whole URL that the page runs, frames, sends to or goes on with. It has to be an own path, and is
    /// encoded for its place.
    OwnPath,
    /// The beginning of a URL that its element only shows or follows, which goes on so in the markup behind it.
    /// It has to be a base, and is encoded for its place.
    Base(BehindBase),
    /// The same of a URL that the page runs, frames, sends to or goes on with. It has to be an own base, which
    /// is one of the page's own host.
    OwnBase(BehindBase),
    /// A value in the code of a script, which is written as a string literal.
    Literal,
    /// JSON, with which the content of a script of the type `application/json` or `application/ld+json` begins.
    Json,
    /// A piece of the value of a declaration in a `style`, of words, numbers, hashes and commas. It is encoded for
    /// its place, which changes none of them.
    StyleValue,
}
