//! Where a text may stand.

/// Where a text may stand in a page, and so which encoder writes it.
#[derive(Clone, Copy, Debug, PartialEq, Eq)]
pub enum SlotPlace {
    /// Text between two tags, or in a `title` or `textarea`.
    Text,
    /// An attribute's value in double quotes.
    DoubleQuoted,
    /// An attribute's value in single quotes.
    SingleQuoted,
    /// An attribute's value without quotes. The text may not be empty.
    Unquoted,
    /// A string of a script in single quotes.
    ScriptSingle,
    /// A string of a script in double quotes.
    ScriptDouble,
    /// A string of a style in single quotes.
    StyleSingle,
    /// A string of a style in double quotes.
    StyleDouble,
}
