//! The places of a page.
ghost use Rattle.std.specs.Prelude.{◌≡◌};
ghost use Rattle.hesc_grammars.specs.Places.{end_byte};

/// A place of a page where a text may stand.
///
/// | place | opening mark | closing mark |
/// |---|---|---|
/// | `Text` | `>` | `<` |
/// | `DoubleAttribute` | `"` | `"` |
/// | `SingleAttribute` | `'` | `'` |
/// | `UnquotedAttribute` | `=` | its ending |
/// | `ScriptSingle`, `StyleSingle` | `'` | `'` |
/// | `ScriptDouble`, `StyleDouble` | `"` | `"` |
/// | `ScriptBody` | `<script>` | `</script>` |
/// | `StyleBody` | `<style>` | `</style>` |
#[derive(Clone, Copy, Debug, PartialEq, Eq)]
pub enum Place {
    /// The text between two tags.
    Text,
    /// An attribute's value in double quotes.
    DoubleAttribute,
    /// An attribute's value in single quotes.
    SingleAttribute,
    /// An attribute's value without quotes, and what stands right after it. It may not be empty.
    UnquotedAttribute(End),
    /// A string literal of a script in single quotes.
    ScriptSingle,
    /// A string literal of a script in double quotes.
    ScriptDouble,
    /// A string of a style in single quotes.
    StyleSingle,
    /// A string of a style in double quotes.
    StyleDouble,
    /// The body of a script.
    ScriptBody,
    /// The body of a style.
    StyleBody,
}

/// What ends an attribute's value without quotes: white space, or the `>` of the tag.
#[derive(Clone, Copy, Debug, PartialEq, Eq)]
pub enum End {
    /// The byte 09 hex.
    Tab,
    /// The byte 0A hex.
    LineFeed,
    /// The byte 0C hex.
    FormFeed,
    /// The byte 20 hex.
    Space,
    /// The byte 3E hex, `>`.
    Greater,
}

/// The byte of an ending.
pub(crate) fn end_byte(end: End) -> u8
    ensures { result ≡ end_byte end }
{
    match end {
        End::Tab => b'\t',
        End::LineFeed => b'\n',
        End::FormFeed => b'\x0c',
        End::Space => b' ',
        End::Greater => b'>',
    }
}
