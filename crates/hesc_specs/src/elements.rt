/// An element of a page whose text is a body: it is read as it stands, up to its end tag.
#[derive(Clone, Copy, Debug, PartialEq, Eq)]
pub enum Element {
    Script,
    Style,
}
