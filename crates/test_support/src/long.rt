//! Texts of a megabyte, said in a line.
use std::alloc::{AllocError, Global};

/// A head, a part and how often it stands there, and a tail.
pub type Long = (&'static str, &'static str, usize, &'static str);

pub fn long_text(alloc: Global, long: Long) -> Result<String, AllocError> {
    let (head, part, times, tail) = long;
    let mut text = String::from_str(alloc, head)?;
    for _ in 0..times {
        text.push_str(part)?;
    }
    text.push_str(tail)?;
    Ok(text)
}

pub const MILLION: usize = 1_000_000;

/// Times that a part of eight bytes makes a megabyte.
pub const MANY: usize = 131_072;

/// Texts at which a search that begins anew for each part never comes to its end.
pub static TRAPS: [Long; 9] = [
    ("", "&", MILLION, ""),
    ("", "<", MILLION, ""),
    ("", "\\", MILLION, ""),
    ("", "</scrip", MANY, ""),
    ("", "<\\/styl", MANY, ""),
    ("", "<!--<script", MANY, ""),
    ("&#", "1", MILLION, ";"),
    ("&#x", "0", MILLION, "41;"),
    ("&", "a", MILLION, ";"),
];
