//! The table of all names: that its rows are those of a second source, and that a text is decoded.
mod by_character;

use crate::tests::entities::by_character::NAMES;
use html_entities::{built_in_names_law, html_entities};
use html_escape::{EntityTable, decode_html_entities_with};
use std::alloc::{AllocError, Global};
use std::process::Abort;
use std::test::Fail;

// The character of a code point in hexadecimal digits.
fn character_of(point: &str) -> Option<char> {
    match u32::from_str_radix(point, 16) {
        Ok(number) => char::from_u32(number),
        Err(_) => None,
    }
}

// The characters of these code points, with `+` between them.
fn characters_of(alloc: Global, points: &str) -> Result<Option<String>, AllocError> {
    let mut characters = String::new(alloc);
    for point in points.split('+') {
        match character_of(point) {
            Some(character) => characters.push(character)?,
            None => return Ok(None),
        }
    }
    Ok(Some(characters))
}

#[test]
fn the_names_of_another_table_have_its_characters(rt: HostRuntime) -> Result<(), Fail> {
    let table = html_entities();
    assert!(rt; NAMES.split(',').count() == 1511);
    for entry in NAMES.split(',') {
        assert!(rt; is_row(rt.alloc(), &table, entry)?, "{entry}");
    }
    Ok(())
}

// Whether the table has the entry's name with its characters.
fn is_row(alloc: Global, table: &EntityTable<'_>, entry: &str) -> Result<bool, AllocError> {
    let Some((points, name)) = entry.split_once(' ') else {
        return Ok(false);
    };
    match characters_of(alloc, points)? {
        Some(characters) => Ok(table.get(name.as_bytes()) == Some(characters.as_str())),
        None => Ok(false),
    }
}

// Texts, and what they are decoded to.
static TEXTS: [(&str, &str); 5] = [
    ("I &hearts; you", "I \u{2665} you"),
    ("&NotEqualTilde;&fjlig;", "\u{2242}\u{338}fj"),
    ("&amp;hearts;", "&hearts;"),
    ("&hearts &Hearts; &heart;", "&hearts &Hearts; &heart;"),
    ("&nGt;&zwnj;&AElig;", "\u{226B}\u{20D2}\u{200C}\u{C6}"),
];

#[test]
fn each_name_has_its_value_and_others_have_none(rt: HostRuntime) {
    let table = html_entities();
    for (name, value) in table.rows() {
        assert!(rt; table.get(name) == Some(*value));
    }
    for name in [b"".as_slice(), b"h", b"heart", b"hearts;", b"zwnk"] {
        assert!(rt; table.get(name).is_none());
    }
}

#[test]
fn texts_are_decoded(rt: HostRuntime) -> Result<(), Fail> {
    let table = html_entities();
    for &(text, wanted) in &TEXTS {
        let made = decode_html_entities_with(rt.alloc(), &table, text)?;
        assert!(rt; made.as_str() == wanted, "{text}");
    }
    Ok(())
}

#[test]
fn the_tables_answer_as_they_are_said_to(rt: HostRuntime) {
    let table = html_entities();
    assert!(rt; table.get(b"hearts") == Some("\u{2665}"));
    built_in_names_law();
    assert!(rt; table.get(b"AElig") == Some("\u{C6}"));
    assert!(rt; EntityTable::built_in().get(b"AElig") == Some("\u{C6}"));
    assert!(rt; table.has_whole_index() && EntityTable::built_in().has_whole_index());
}
