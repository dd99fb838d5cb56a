//! A text of at most six bytes that owns them and takes no memory: what an escape or a reference is
//! written as.
ghost use Rattle.std.specs.Prelude.{◌≤◌, take};
ghost use Rattle.std.specs.Str.{IsAscii, IsUtf8};

use std::str;

/// At most six bytes of UTF-8. They stand at the front of eight, which are copied as one; the
/// others are padding.
#[derive(Clone, Copy)]
pub struct SmallText {
    bytes: [u8; 8],
    len: usize,
    ghost short: { len ≤ 6 },
    ghost utf8: { ∥ IsUtf8 (take len bytes) ∥₁ },
}

impl SmallText {
    ghost use Rattle.std.specs.Prelude.{◌≡◌, ◌<◌, [], ◌∷◌, encode_utf8, length};
    ghost use Rattle.std.specs.Int.{to_le_bytes, w64};
    ghost use Rattle.hesc_sinks.specs.Text.{small_text_bytes};

    /// The text, which has at most six bytes.
    ///
    /// `SmallText::new("&#x2F;").as_str()` is `&#x2F;`.
    #[inline(always)]
    pub fn new(text: &str) -> SmallText
        requires { length text.now ≤ 6 }
        ensures { small_text_bytes result ≡ text.now }
    {
        let mut bytes = [0; 8];
        bytes[..text.len()].copy_from_slice(text.as_bytes());
        SmallText {
            bytes,
            len: text.len(),
        }
    }

    /// The text of one character.
    ///
    /// `SmallText::from_char('\u{C6}').len()` is 2.
    #[inline(always)]
    pub fn from_char(character: char) -> SmallText
        ensures { small_text_bytes result ≡ encode_utf8 character }
    {
        if character.is_ascii() {
            SmallText::from_one_ascii(character as u8)
        } else {
            SmallText::new(character.encode_utf8(&mut [0; 4]))
        }
    }

    #[inline(always)]
    fn from_one_ascii(byte: u8) -> SmallText
        requires { byte < 128 }
        ensures { small_text_bytes result ≡ byte ∷ [] }
    {
        SmallText {
            bytes: [byte, 0, 0, 0, 0, 0, 0, 0],
            len: 1,
        }
    }

    /// The text of the first of eight ASCII bytes, at most six.
    ///
    /// `SmallText::from_ascii(*b"&lt;\0\0\0\0", 4).as_str()` is `&lt;`.
    #[inline(always)]
    pub fn from_ascii(bytes: [u8; 8], len: usize) -> SmallText
        requires short { len ≤ 6 }
        requires ascii { IsAscii bytes }
        ensures { small_text_bytes result ≡ take len bytes }
    {
        SmallText { bytes, len }
    }

    /// The text.
    ///
    /// `SmallText::new("&lt;").as_str()` is `&lt;`.
    #[inline(always)]
    pub fn as_str(&self) -> &str
        ensures { result.now ≡ small_text_bytes self.now }
    {
        // The bytes are UTF-8, as the ghost field `utf8` keeps.
        unsafe { str::from_utf8_unchecked(&self.bytes[..self.len]) }
    }

    /// The number of its bytes.
    ///
    /// `SmallText::new("&lt;").len()` is 4.
    #[inline(always)]
    pub fn len(&self) -> usize
        ensures { result ≡ length (small_text_bytes self.now) }
    {
        self.len
    }

    /// The bytes of the text, and padding.
    #[inline(always)]
    pub(crate) fn block(&self) -> [u8; 8]
        ensures { take (length (small_text_bytes self.now)) result ≡ small_text_bytes self.now }
    {
        self.bytes
    }

    /// The same as a number, which is passed in a register.
    #[inline(always)]
    pub(crate) fn word(&self) -> u64
        ensures { take (length (small_text_bytes self.now)) (to_le_bytes w64 result)
            ≡ small_text_bytes self.now }
    {
        u64::from_le_bytes(self.block())
    }
}
