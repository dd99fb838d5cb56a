//! The small parts of the engine: the search for a byte of a class, the counting sink and the small
//! text.
use hesc_core::scan::first_in;
use hesc_core::{Class, Counter, Sink, SmallText};
use std::test::Fail;

// The place of the one `<` among 64 bytes, where the search begins, and what it finds.
static FIRST_PLACES: [(usize, usize, usize); 16] = [
    (0, 0, 0),
    (0, 1, 64),
    (0, 31, 64),
    (0, 33, 64),
    (31, 0, 31),
    (31, 1, 31),
    (31, 31, 31),
    (31, 33, 64),
    (32, 0, 32),
    (32, 1, 32),
    (32, 31, 32),
    (32, 33, 64),
    (63, 0, 63),
    (63, 1, 63),
    (63, 31, 63),
    (63, 33, 63),
];

#[test]
fn the_first_place_is_found(rt: HostRuntime) {
    for &(at, from, first) in &FIRST_PLACES {
        assert!(rt; at < 64 && from <= 64);
        let mut bytes = [b'a'; 64];
        bytes[at] = b'<';
        assert!(rt;
            first_in(Class::Text, &bytes, from) == first,
            "`<` at {at}, from {from}"
        );
    }
}

// Bytes that need be no text, where the search begins, and what it finds.
static FIRST_PLACES_IN_BYTES: [(Class, &[u8; 7], usize, usize); 10] = [
    (Class::TextMinimal, b"Z\xE3cba<9", 1, 5),
    (Class::Text, b"\xE30ca0\xBC<", 1, 6),
    (Class::Text, b"c>0\xC3aYc", 1, 1),
    (Class::DoubleQuotedAttribute, b"b9\xC3Y\xE3\xC3\xE3", 6, 7),
    (Class::SingleQuotedAttribute, b"!9b\xE1aca", 6, 7),
    (Class::QuotedAttribute, b"0\xE3&c!\xA2Z", 1, 2),
    (Class::Safe, b"9c/\xE3\xC309", 4, 7),
    (Class::Safe, b"\xE3/bX\xC3\xC3\"", 5, 6),
    (Class::UnquotedAttribute, b"=aYb\"\xE3X", 3, 4),
    (Class::UnquotedAttribute, b"\x0B\x06\xC3a\xC3?\xC3", 5, 5),
];

#[test]
fn the_first_place_is_found_in_any_bytes(rt: HostRuntime) {
    for &(class, bytes, from, first) in &FIRST_PLACES_IN_BYTES {
        assert!(rt; from <= bytes.len());
        assert!(rt;
            first_in(class, bytes, from) == first,
            "{class:?} in {bytes:?} from {from}"
        );
    }
}

#[test]
fn a_count_is_of_bytes(rt: HostRuntime) -> Result<(), Fail> {
    let mut counter = Counter::new();
    assert!(rt; counter.count() == 0);
    for (piece, count) in [("ab", 2), ("", 2), ("é", 4)] {
        counter.put(piece)?;
        assert!(rt; counter.count() == count, "after {piece:?}");
    }
    Ok(())
}

#[test]
fn a_small_text_is_the_text(rt: HostRuntime) {
    for text in ["", "x", "é", "&#x2F;"] {
        assert!(rt; text.len() <= 6);
        assert!(rt; SmallText::new(text).as_str() == text);
    }
}
