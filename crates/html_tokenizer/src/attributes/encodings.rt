//! The encoding that the `content` of a `meta` names.
ghost use Rattle.std.specs.Option.{option_map};
ghost use Rattle.std.specs.Prelude.{◌≡◌};
ghost use Rattle.html_tokenizer.specs.Tokenizer.Attributes.Encodings.{after_charset, ends_label, has_first, is_utf_8, names_no_other, past};

/// Whether the label is one of UTF-8.
pub(crate) fn is_utf_8(label: &[u8]) -> bool
    ensures { result ≡ is_utf_8 label.now }
{
    label == b"utf-8".as_slice() || label == b"utf8".as_slice()
}

// The bytes after the word, if it stands first.
fn past<'b>(bytes: &'b [u8], word: &[u8]) -> Option<&'b [u8]>
    ensures { option_map (λ rest. rest.now) result ≡ past word.now bytes.now }
{
    bytes.strip_prefix(word)
}

// The bytes after the first `charset`.
fn after_charset(value: &[u8]) -> Option<&[u8]>
    ensures { option_map (λ rest. rest.now) result ≡ after_charset value.now }
{
    let mut rest = value;
    'bytes: while let [_, others @ ..] = rest {
        if let Some(following) = past(rest, b"charset") {
            return Some(following);
        }
        rest = others;
    }
    None
}

fn ends_label(bytes: &[u8]) -> bool
    ensures { result ≡ ends_label bytes.now }
{
    match bytes {
        [byte, ..] => *byte == b' ' || *byte == b';',
        [] => true,
    }
}

// Whether the word stands first, and then a space, a `;` or nothing.
fn has_first(word: &[u8], bytes: &[u8]) -> bool
    ensures { result ≡ has_first word.now bytes.now }
{
    match past(bytes, word) {
        Some(rest) => ends_label(rest),
        None => false,
    }
}

/// Whether the value, in small letters, names no encoding, or UTF-8.
pub(crate) fn names_no_other(value: &[u8]) -> bool
    ensures { result ≡ names_no_other value.now }
{
    match after_charset(value) {
        Some(rest) => has_first(b"=utf-8", rest) || has_first(b"=utf8", rest),
        None => true,
    }
}
