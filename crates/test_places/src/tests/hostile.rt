//! Long and hostile texts in places: the readings are right, and come in time that grows with the
//! length alone.
use hesc_places::{End, Place, end_of_place, read_place};
use std::process::Abort;
use std::test::Fail;
use test_support::long::{Long, MANY, MILLION, TRAPS, long_text};
use test_support::places::PLACES;

// A place, the text after its opening mark, its value, and the closing mark.
static READ: [(Place, Long, Long, &str); 8] = [
    (
        Place::Text,
        ("&lt", ";&lt", MANY - 1, ";"),
        ("", "<", MANY, ""),
        "<",
    ),
    (
        Place::DoubleAttribute,
        ("&#", "0", MILLION, "65;"),
        ("A", "", 0, ""),
        "\"",
    ),
    (
        Place::SingleAttribute,
        ("&amp", ";&amp", MANY - 1, ";"),
        ("", "&", MANY, ""),
        "'",
    ),
    (
        Place::UnquotedAttribute(End::Space),
        ("", "a", MILLION, ""),
        ("", "a", MILLION, ""),
        " ",
    ),
    (
        Place::ScriptSingle,
        ("", "\\\\", MILLION, ""),
        ("", "\\", MILLION, ""),
        "'",
    ),
    (
        Place::StyleDouble,
        ("", "\\\\", MILLION, ""),
        ("", "\\", MILLION, ""),
        "\"",
    ),
    (
        Place::ScriptBody,
        ("", "</scrip", MANY, ""),
        ("", "</scrip", MANY, ""),
        "</script>",
    ),
    (
        Place::StyleBody,
        ("", "</styl", MANY, ""),
        ("", "</styl", MANY, ""),
        "</style>",
    ),
];

// Texts that are taken by one stretch after another, or by one byte after another.
static STRETCHES: [Long; 5] = [
    ("", "a.", MILLION / 2, ""),
    ("", "/", MILLION, ""),
    ("", "\u{2026}", MILLION / 3, ""),
    ("<!--", "-", MILLION, ""),
    ("", "&lt;", MILLION / 4, ""),
];

// A place, a text of short stretches, and the closing mark. Each stretch goes up to a byte that is near,
// where the other that could end it comes at the end alone: a search that went on to that one, and began
// anew for each stretch, would not end.
static SHORT_STRETCHES: [(Place, Long, &str); 9] = [
    (Place::Text, ("", "a&lt;", MILLION, ""), "<"),
    (Place::DoubleAttribute, ("", "a&lt;", MILLION, ""), "\""),
    (Place::SingleAttribute, ("", "a&lt;", MILLION, ""), "'"),
    (
        Place::UnquotedAttribute(End::Space),
        ("", "a&lt;", MILLION, ""),
        " ",
    ),
    (Place::ScriptSingle, ("", "a\\n", MILLION, ""), "'"),
    (Place::StyleDouble, ("", "a\\a ", MILLION, ""), "\""),
    (Place::StyleBody, ("", "a<", 2 * MILLION, ""), "</style>"),
    (Place::ScriptBody, ("", "a<", 2 * MILLION, ""), "</script>"),
    (
        Place::ScriptBody,
        ("<!--", "a-", 2 * MILLION, ""),
        "</script>",
    ),
];

#[test]
fn short_stretches_are_read_to_their_end_alone(rt: HostRuntime) -> Result<(), Fail> {
    for &(place, text, mark) in &SHORT_STRETCHES {
        let mut text = long_text(rt.alloc(), text)?;
        let end = text.len();
        text.push_str(mark)?;
        let bytes = text.as_bytes();
        assert!(rt; end_of_place(place, bytes) == Some(end), "{place:?}");
        let found = read_place(rt.alloc(), place, bytes)?;
        assert!(rt; found.is_some_and(|found| found.end == end), "{place:?}");
    }
    Ok(())
}

#[test]
fn long_texts_are_read(rt: HostRuntime) -> Result<(), Fail> {
    for &(place, text, value, mark) in &READ {
        let mut text = long_text(rt.alloc(), text)?;
        let value = long_text(rt.alloc(), value)?;
        let end = text.len();
        text.push_str(mark)?;
        let bytes = text.as_bytes();
        assert!(rt; end_of_place(place, bytes) == Some(end), "{place:?}");
        match read_place(rt.alloc(), place, bytes)? {
            Some(found) => {
                assert!(rt; found.end == end, "{place:?}");
                assert!(rt; found.value.as_slice() == value.as_bytes(), "{place:?}");
            }
            None => panic!(rt; "{place:?} has no reading"),
        }
    }
    Ok(())
}

#[test]
fn every_reader_ends(rt: HostRuntime) -> Result<(), Fail> {
    for &trap in TRAPS.iter().chain(&STRETCHES) {
        let text = long_text(rt.alloc(), trap)?;
        for &place in &PLACES {
            let end = end_of_place(place, text.as_bytes());
            let found = match read_place(rt.alloc(), place, text.as_bytes())? {
                Some(found) => Some(found.end),
                None => None,
            };
            assert!(rt; found == end, "{place:?} of {trap:?}");
        }
    }
    Ok(())
}
