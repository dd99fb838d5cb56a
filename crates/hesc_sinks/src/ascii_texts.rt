//! A short text for each ASCII byte: what an encoder writes in the place of that byte.
ghost use Rattle.std.specs.Prelude.{◌≡◌, length, true};
ghost use Rattle.hesc_sinks.specs.AsciiRows.{are_short_ascii};

use crate::small_text::SmallText;

/// A text of at most six ASCII bytes for each ASCII byte, which is empty where the byte has none.
#[derive(Clone, Copy)]
pub struct AsciiTexts {
    rows: &'static [([u8; 8], usize)],
    ghost all: { length rows.now ≡ 128 },
    ghost short: { are_short_ascii rows.now ≡ true },
}

impl AsciiTexts {
    ghost use Rattle.std.specs.Prelude.{◌≡◌, ◌<◌, IfSome, IsSome};
    ghost use Rattle.hesc_sinks.specs.AsciiRows.{HasText, text_at};
    ghost use Rattle.hesc_sinks.specs.Hits.{ascii_rows};
    ghost use Rattle.hesc_sinks.specs.Text.{small_text_bytes};

    /// The texts of 128 rows: the bytes of each text, with padding after them, and their number.
    ///
    /// Of rows of which that of `<` is `(*b"&lt;\0\0\0\0", 4)` the text for `<` is `&lt;`.
    #[inline(always)]
    pub fn new(rows: &'static [([u8; 8], usize)]) -> AsciiTexts
        requires all { length rows.now ≡ 128 }
        requires short { are_short_ascii rows.now ≡ true }
        ensures { ascii_rows result ≡ rows.now }
    {
        AsciiTexts { rows }
    }

    /// The text for a byte, or `None` where it has none.
    ///
    /// Of the texts of the HTML references and `b'<'` it is `&lt;`.
    #[inline(always)]
    pub fn text_for(&self, byte: u8) -> Option<SmallText>
        ensures text { IfSome result (λ text. small_text_bytes text ≡ text_at (ascii_rows self.now) byte) }
        ensures some { IfSome result (λ _. HasText (ascii_rows self.now) byte) }
        ensures all { HasText (ascii_rows self.now) byte → IsSome result }
        ensures ascii { IfSome result (λ _. byte < 128) }
    {
        if byte >= 128 {
            return None;
        }
        let (bytes, len) = self.rows[byte as usize];
        if len == 0 {
            return None;
        }
        Some(SmallText::from_ascii(bytes, len))
    }
}
