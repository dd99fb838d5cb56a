//! How long a rule's text is, as far as that is known without a scan for changes.

/// The length of a rule's text, in bytes.
#[derive(Clone, Copy)]
pub enum Length {
    Exactly(usize),
    /// An upper bound, which is 0 where the text is empty.
    AtMost(usize),
    Unknown,
}
