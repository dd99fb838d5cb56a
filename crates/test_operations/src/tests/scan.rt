//! The first place of a class at every length and start, against the definition run as it stands;
//! and the table of flags.
use crate::tests::first_places::rows;
use hesc_core::Class;
use hesc_core::scan::{FLAGS, first_in};
use std::process::Abort;

static CLASSES: [Class; 13] = [
    Class::TextMinimal,
    Class::Text,
    Class::DoubleQuotedAttribute,
    Class::SingleQuotedAttribute,
    Class::QuotedAttribute,
    Class::Safe,
    Class::UnquotedAttribute,
    Class::ScriptSingleQuoted,
    Class::ScriptDoubleQuoted,
    Class::ScriptQuoted,
    Class::StyleSingleQuoted,
    Class::StyleDoubleQuoted,
    Class::StyleQuoted,
];

fn is_in(class: Class, byte: u8) -> bool {
    match class {
        Class::TextMinimal => matches!(byte, b'&' | b'<'),
        Class::Text => matches!(byte, b'&' | b'<' | b'>'),
        Class::DoubleQuotedAttribute => matches!(byte, b'&' | b'<' | b'>' | b'"'),
        Class::SingleQuotedAttribute => matches!(byte, b'&' | b'<' | b'>' | b'\''),
        Class::QuotedAttribute => matches!(byte, b'&' | b'<' | b'>' | b'"' | b'\''),
        Class::Safe => matches!(byte, b'&' | b'<' | b'>' | b'"' | b'\'' | b'/'),
        Class::UnquotedAttribute => byte.is_ascii() && !byte.is_ascii_alphanumeric(),
        Class::ScriptSingleQuoted => matches!(byte, 0..=31 | b'\\' | b'<' | b'\'' | 0xE2),
        Class::ScriptDoubleQuoted => matches!(byte, 0..=31 | b'\\' | b'<' | b'"' | 0xE2),
        Class::ScriptQuoted => matches!(byte, 0..=31 | b'\\' | b'<' | b'\'' | b'"' | 0xE2),
        Class::StyleSingleQuoted => matches!(byte, 0..=31 | b'\\' | b'<' | b'\''),
        Class::StyleDoubleQuoted => matches!(byte, 0..=31 | b'\\' | b'<' | b'"'),
        Class::StyleQuoted => matches!(byte, 0..=31 | b'\\' | b'<' | b'\'' | b'"'),
    }
}

fn first_by_definition(class: Class, bytes: &[u8], from: usize) -> usize {
    for at in from..bytes.len() {
        if is_in(class, bytes[at]) {
            return at;
        }
    }
    bytes.len()
}

fn agrees(class: Class, bytes: &[u8]) -> bool {
    for from in 0..=bytes.len() {
        if first_in(class, bytes, from) != first_by_definition(class, bytes, from) {
            return false;
        }
    }
    true
}

// Bytes of every value, one after another in an order that no rule of this crate knows; the fewer
// `kept` of them, the more of the rest are the letter `a`.
fn scattered(kept: u32) -> [u8; 100] {
    let mut bytes = [b'a'; 100];
    let mut state: u32 = 12345;
    for place in 0..bytes.len() {
        state = state.wrapping_mul(1103515245).wrapping_add(12345);
        if (state >> 16) % 100 < kept {
            bytes[place] = (state >> 24) as u8;
        }
    }
    bytes
}

#[test]
fn every_length_and_start_is_as_the_definition_says(rt: HostRuntime) {
    for kept in [0, 4, 30, 100] {
        let bytes = scattered(kept);
        for length in 0..=100 {
            for &class in &CLASSES {
                assert!(rt;
                    agrees(class, &bytes[..length]),
                    "{class:?}, {length} bytes"
                );
            }
        }
    }
}

#[test]
fn every_byte_alone_is_found_at_each_place_of_a_chunk(rt: HostRuntime) {
    for byte in 0..=255 {
        for place in 0..33 {
            let mut bytes = [b'a'; 33];
            bytes[place] = byte;
            for &class in &CLASSES {
                assert!(rt; agrees(class, &bytes), "{class:?}, {byte} at {place}");
            }
        }
    }
}

#[test]
fn first_places(rt: HostRuntime) {
    for &class in &CLASSES {
        for (bytes, from, first) in rows(class) {
            assert!(rt; *from <= bytes.len());
            assert!(rt;
                first_in(class, bytes, *from) == *first,
                "{class:?} from {from}"
            );
        }
    }
}

// The flags of each byte, as the classes were written down.
fn flags_of(byte: u8) -> u16 {
    match byte {
        0..=31 | b'\\' => 0x1FC0,
        b'&' => 0x007F,
        b'<' => 0x1FFF,
        b'"' => 0x1B74,
        b'\'' => 0x16F8,
        b'/' => 0x0060,
        b'>' => 0x007E,
        0xE2 => 0x0380,
        b'0'..=b'9' | b'A'..=b'Z' | b'a'..=b'z' | 128..=255 => 0,
        _ => 0x0040,
    }
}

#[test]
fn flags(rt: HostRuntime) {
    for byte in 0..=255_u8 {
        assert!(rt; FLAGS[byte as usize] == flags_of(byte));
    }
}
