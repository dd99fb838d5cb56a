//! Texts of several kinds, made of words from a seed, and pieces that are cut out of them.

use crate::numbers::Numbers;
use std::alloc::{AllocError, Global};

/// Words, of which one in so many is a rare one.
pub(crate) struct Mixture {
    pub(crate) common: &'static [&'static str],
    pub(crate) rare: &'static [&'static str],
    pub(crate) one_in: usize,
}

/// A text of these words that is about so long.
pub(crate) fn text_of(
    alloc: Global,
    mixture: &Mixture,
    numbers: &mut Numbers,
    length: usize,
) -> Result<String, AllocError> {
    let mut text = String::new(alloc);
    'words: for _ in 0..length {
        if text.len() >= length {
            break 'words;
        }
        let words = if numbers.below(mixture.one_in) == 0 {
            mixture.rare
        } else {
            mixture.common
        };
        if let Some(word) = words.get(numbers.below(words.len())) {
            text.push_str(*word)?;
        }
    }
    Ok(text)
}

/// So many names of lower-case letters, all different.
pub(crate) fn names_of(alloc: Global, count: usize) -> Result<Vec<String>, AllocError> {
    let mut names = Vec::new(alloc);
    for number in 0..count {
        let mut name = String::from_str(alloc, "field")?;
        let mut left = number;
        for _ in 0..4 {
            let letter = (left % 26) as u8 + b'a';
            name.push(letter as char)?;
            left /= 26;
        }
        names.push(name)?;
    }
    Ok(names)
}

/// The piece of a text at about this position and of about this length, from character to character.
pub(crate) fn cut(text: &str, start: usize, length: usize) -> &str {
    let start = boundary(text, start);
    let end = boundary(text, start.saturating_add(length));
    match text.get(start..end) {
        Some(piece) => piece,
        None => "",
    }
}

/// A piece from anywhere in the text.
pub(crate) fn any_piece<'t>(text: &'t str, numbers: &mut Numbers, length: usize) -> &'t str {
    let start = numbers.below(text.len().saturating_sub(length));
    cut(text, start, length)
}

// The next position, from this one on, where a character begins.
fn boundary(text: &str, position: usize) -> usize {
    for more in 0..4 {
        let place = position.saturating_add(more);
        if text.is_char_boundary(place) {
            return place;
        }
    }
    text.len()
}
