//! The kinds of string encoders and decoders.

/// Which quote marks a string encoder escapes, and a string decoder knows.
#[derive(Clone, Copy, Debug, PartialEq, Eq)]
pub enum Quotes {
    /// `'`.
    Single,
    /// `"`.
    Double,
    /// Both `'` and `"`.
    Both,
}
