//! Texts for the tests of how much memory is asked for, and what may be asked for beside an answer.
use std::alloc::{AllocError, Global};

/// A part, and about how long a text of such parts is. One part is changed by no operation, and the
/// others by some much, for the length of the answer or for the bound of it that is reserved.
pub static TEXTS: [(&str, usize); 12] = [
    ("a", 10),
    ("a", 1000),
    ("a", 65_536),
    (MIXED, 10),
    (MIXED, 1000),
    (MIXED, 65_536),
    ("\\", 10),
    ("\\", 1000),
    ("&amp;&#x00000041;", 1000),
    ("<!--</script></style>", 1000),
    ("<\\!--\\\\\\x3C\\3C ", 1000),
    ("\u{2026}<", 1000),
];

/// A part of which every encoder changes something.
pub const MIXED: &str = "<&\"'/>\\\t\u{2028}</style></script>&lt;";

/// What is asked for beside what is reserved, since no request is for fewer than eight bytes.
pub const SMALL: usize = 16;

/// How many small texts are appended to one output, and how often they may ask for memory together: at
/// each growth its room doubles.
pub const APPENDS: usize = 1000;

pub const MOST_REQUESTS: u64 = 20;

/// What a reader of forms asks for at most for an attribute beside its bytes: its place in the list,
/// which doubles too, and the least room of its value.
pub const FOR_EACH_ATTRIBUTE: usize = 512;

/// A text of the part alone that is about so long.
pub fn text_of(alloc: Global, part: &str, length: usize) -> Result<String, AllocError> {
    let mut text = String::new(alloc);
    for _ in 0..=length / part.len().max(1) {
        text.push_str(part)?;
    }
    Ok(text)
}
