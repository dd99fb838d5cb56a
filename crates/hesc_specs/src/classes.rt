//! The classes of bytes, one for each encoder that replaces single bytes or characters.
/// A set of bytes: those at which the encoder of that name may change something.
#[derive(Clone, Copy, Debug, PartialEq, Eq)]
pub enum Class {
    /// `&` and `<`.
    TextMinimal,
    /// `&`, `<` and `>`.
    Text,
    /// Those of `Text`, and `"`.
    DoubleQuotedAttribute,
    /// Those of `Text`, and `'`.
    SingleQuotedAttribute,
    /// Those of `Text`, and both `"` and `'`.
    QuotedAttribute,
    /// Those of `QuotedAttribute`, and `/`.
    Safe,
    /// The bytes 0 to 127 that are no ASCII letter or digit.
    UnquotedAttribute,
    /// The bytes 0 to 31, `\`, `<`, `'`, and E2 hex, with which U+2028 and U+2029 begin.
    ScriptSingleQuoted,
    /// The bytes 0 to 31, `\`, `<`, `"`, and E2 hex.
    ScriptDoubleQuoted,
    /// The bytes 0 to 31, `\`, `<`, `'`, `"`, and E2 hex.
    ScriptQuoted,
    /// The bytes 0 to 31, `\`, `<` and `'`.
    StyleSingleQuoted,
    /// The bytes 0 to 31, `\`, `<` and `"`.
    StyleDoubleQuoted,
    /// The bytes 0 to 31, `\`, `<`, `'` and `"`.
    StyleQuoted,
}
