//! Texts are encoded in blocks: each length about a block's end, and each character across one.
use hesc_engine::{Counter, StackSink};
use html_urls::{
    COMPONENT, append_component, append_component_to_vec, component_length, encode_component,
    put_component,
};
use percent_encoding::utf8_percent_encode;
use std::alloc::Global;
use std::borrow::CowStr;
use std::test::Fail;

// Of one byte that stays as it is and of one that does not, and of two, three and four bytes.
const CHARACTERS: [&str; 5] = ["~", "&", "\u{E9}", "\u{20AC}", "\u{1F600}"];

// So many letters, with the character after the first ones.
fn text_with(
    alloc: Global,
    letters: usize,
    before: usize,
    character: &str,
) -> Result<String<Global>, Fail> {
    let mut text = String::new(alloc);
    for place in 0..letters {
        if place == before {
            text.push_str(character)?;
        }
        text.push('a')?;
    }
    if before >= letters {
        text.push_str(character)?;
    }
    Ok(text)
}

// Whether each form gives what the encoder of another crate gives, byte by byte.
fn is_encoded(alloc: Global, text: &str) -> Result<bool, Fail> {
    let mut expected = String::new(alloc);
    for piece in utf8_percent_encode(text, COMPONENT) {
        expected.push_str(piece)?;
    }
    let mut page = String::new(alloc);
    let mut bytes = Vec::new(alloc);
    let mut counter = Counter::new();
    let is_put = put_component(text, &mut counter).is_ok();
    Ok(
        is_put
            && append_component(&mut page, text)? == expected.as_str()
            && append_component_to_vec(&mut bytes, text)? == expected.as_str().as_bytes()
            && encode_component(alloc, text)?.as_str() == expected.as_str()
            && counter.count() == expected.len()
            && component_length(text) == Some(expected.len())
            && matches!(&encode_component(alloc, text)?, CowStr::Borrowed(_))
                == (text == expected.as_str()),
    )
}

#[test]
fn texts_of_letters_are_encoded(rt: HostRuntime) -> Result<(), Fail> {
    for letters in 0..200 {
        let text = text_with(rt.alloc(), letters, letters, "")?;
        assert!(rt; is_encoded(rt.alloc(), text.as_str())?, "{letters}");
    }
    Ok(())
}

#[test]
fn a_character_at_each_place_is_encoded(rt: HostRuntime) -> Result<(), Fail> {
    for &letters in &[
        0, 1, 6, 7, 8, 14, 15, 16, 30, 31, 32, 33, 62, 63, 64, 65, 127, 128,
    ] {
        for before in 0..=letters {
            for &character in &CHARACTERS {
                let text = text_with(rt.alloc(), letters, before, character)?;
                assert!(rt; is_encoded(rt.alloc(), text.as_str())?, "{text:?}");
            }
        }
    }
    Ok(())
}

#[test]
fn each_character_alone_is_encoded(rt: HostRuntime) -> Result<(), Fail> {
    for number in 0..0x800 {
        let Some(character) = char::from_u32(number) else {
            continue;
        };
        let mut text = String::new(rt.alloc());
        text.push(character)?;
        assert!(rt; is_encoded(rt.alloc(), text.as_str())?, "{text:?}");
        for _ in 0..16 {
            text.push('a')?;
        }
        assert!(rt; is_encoded(rt.alloc(), text.as_str())?, "{text:?}");
    }
    Ok(())
}

// Its 16 bytes are made in place where there is room for 64, and on the stack where there is less.
#[test]
fn a_block_is_made_in_enough_room_and_in_less(rt: HostRuntime) -> Result<(), Fail> {
    let text = "a b c d e f g h ";
    let expected = "a%20b%20c%20d%20e%20f%20g%20h%20";
    let mut enough = StackSink::<64>::new();
    assert!(rt; put_component(text, &mut enough).is_ok());
    assert!(rt; enough.as_str() == expected);
    let mut less = StackSink::<63>::new();
    assert!(rt; put_component(text, &mut less).is_ok());
    assert!(rt; less.as_str() == expected);
    let mut exact = StackSink::<32>::new();
    assert!(rt; put_component(text, &mut exact).is_ok());
    assert!(rt; exact.as_str() == expected);
    let mut full = StackSink::<31>::new();
    assert!(rt; put_component(text, &mut full).is_err());
    assert!(rt; full.as_str().is_empty());
    Ok(())
}
