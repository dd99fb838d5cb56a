//! What stands at the front of bytes, and the bytes after it.
ghost use Rattle.std.specs.Prelude.{◌≡◌, ◌≤◌, length};
ghost use Rattle.std.specs.Char.{is_ascii_lowercase};
ghost use Rattle.std.specs.List.{prefix_len};
ghost use Rattle.std.specs.Option.{option_map};
ghost use Rattle.hesc_places.specs.Pages.Parsers.{past, past_in_any_case};
ghost use Rattle.hesc_grammars.specs.Words.{is_white_space};

/// The bytes after a word, if it stands there.
pub(crate) fn past<'b>(bytes: &'b [u8], word: &[u8]) -> Option<&'b [u8]>
    ensures { option_map (λ rest. rest.now) result ≡ past word.now bytes.now }
{
    bytes.strip_prefix(word)
}

/// The bytes after a word in lower case, if it stands there in any ASCII case.
pub(crate) fn past_in_any_case<'b>(bytes: &'b [u8], word: &[u8]) -> Option<&'b [u8]>
    ensures { option_map (λ rest. rest.now) result ≡ past_in_any_case word.now bytes.now }
{
    let mut letters = word;
    let mut rest = bytes;
    'letters: while let [letter, others @ ..] = letters {
        let [byte, after @ ..] = rest else {
            return None;
        };
        if byte.to_ascii_lowercase() != *letter {
            return None;
        }
        letters = others;
        rest = after;
    }
    Some(rest)
}

/// The number of bytes of white space at the front.
pub(crate) fn white_space_at(bytes: &[u8]) -> usize
    ensures value { result ≡ prefix_len is_white_space bytes.now }
    ensures within { result ≤ length bytes.now }
{
    let mut count = 0;
    let mut rest = bytes;
    'space: while let [b'\t' | b'\n' | b'\x0c' | b' ', after @ ..] = rest {
        count += 1;
        rest = after;
    }
    count
}

/// The number of lower-case ASCII letters at the front.
pub(crate) fn letters_at(bytes: &[u8]) -> usize
    ensures value { result ≡ prefix_len is_ascii_lowercase bytes.now }
    ensures within { result ≤ length bytes.now }
{
    let mut count = 0;
    let mut rest = bytes;
    'letters: while let [b'a'..=b'z', after @ ..] = rest {
        count += 1;
        rest = after;
    }
    count
}
