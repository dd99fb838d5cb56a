//! Rows of data in which each character can be seen.
use std::alloc::{AllocError, Global};

/// The text that a row shows: `⏎` stands for a line feed, and the digits of a code point in hexadecimal,
/// between `‹` and `›`, for its character. `‹›` is the empty text.
///
/// For instance `a‹0›⏎` shows `a`, NUL and a line feed.
pub fn text_of(alloc: Global, shown: &str) -> Result<String, AllocError> {
    let shown = shown.replace(alloc, "⏎", "\n")?;
    let mut text = String::new(alloc);
    for piece in shown.split('‹') {
        match piece.split_once('›') {
            Some(("", rest)) => text.push_str(rest)?,
            Some((digits, rest)) => {
                text.push(character_of(digits))?;
                text.push_str(rest)?;
            }
            None => text.push_str(piece)?,
        }
    }
    Ok(text)
}

// U+FFFD where the digits are of no character.
fn character_of(digits: &str) -> char {
    match u32::from_str_radix(digits, 16) {
        Ok(number) => char::from_u32(number).unwrap_or('\u{FFFD}'),
        Err(_) => '\u{FFFD}',
    }
}
