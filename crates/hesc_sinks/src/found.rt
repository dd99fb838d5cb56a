//! What a rule finds: a change of the text, and what stands there instead.
use crate::small_text::SmallText;

/// The text that a change puts in.
#[derive(Clone, Copy)]
pub enum Replacement<'r> {
    /// A text that stands elsewhere, such as a constant or a table's value.
    Borrowed(&'r str),
    /// A text of at most six bytes.
    Small(SmallText),
}

impl Replacement<'_> {
    ghost use Rattle.std.specs.Prelude.{◌≡◌};
    ghost use Rattle.hesc_sinks.specs.Text.{replacement_bytes};

    /// The text.
    ///
    /// `Replacement::Borrowed("&lt;").as_str()` is `&lt;`.
    #[inline(always)]
    pub fn as_str(&self) -> &str
        ensures { result.now ≡ replacement_bytes self.now }
    {
        match self {
            Replacement::Borrowed(text) => text,
            Replacement::Small(text) => text.as_str(),
        }
    }
}

/// A change: the bytes from `start` to `end` of the source become the replacement.
#[derive(Clone, Copy)]
pub struct Found<'r> {
    pub start: usize,
    pub end: usize,
    pub replacement: Replacement<'r>,
}
