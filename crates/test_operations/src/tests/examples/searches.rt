//! The examples of the searches and of the lengths.
use hesc_core::find::{first_byte, first_of_two};
use hesc_core::openings::{completes_opening, is_named, name_of};
use hesc_core::scan::{FLAGS, completes_separator, first_block, flags_agree};
use hesc_core::{Class, Element};
use hesc_scan::byte_block::first_byte_block;
use hesc_scan::length::{body_bound, encoded_length, longest_body, longest_escaped, string_bound};

#[test]
fn bytes_are_found_as_they_are_said_to_be(rt: HostRuntime) {
    assert!(rt; first_byte(b'<', b"a<b", 0) == 1);
    assert!(rt; first_byte(b'<', b"a<b", 2) == 3);
    assert!(rt; first_of_two(b'&', b';', b"a;b&", 0) == 1);
    assert!(rt; first_of_two(b'&', b';', b"a;b&", 2) == 3);
    assert!(rt; first_block(Class::Text, b"ab<c<", 1) == (1, 0b1010));
    assert!(rt; first_byte_block(b'<', b"ab<c<", 1) == (1, 0b1010));
    assert!(rt; completes_separator(&[0x80, 0xA8]));
    assert!(rt; !completes_separator(&[0x82, 0xAC]));
    flags_agree(Class::Text, b'&');
    assert!(rt; FLAGS[b'&' as usize] == 0x7F);
}

#[test]
fn openings_are_found_as_they_are_said_to_be(rt: HostRuntime) {
    assert!(rt; completes_opening(Element::Script, b"/script>"));
    assert!(rt; !completes_opening(Element::Script, b"/b>"));
    assert!(rt; is_named(Element::Script, b"SCRIPT>"));
    assert!(rt; !is_named(Element::Script, b"scripts>"));
    assert!(rt; name_of(Element::Script) == b"script".as_slice());
}

#[test]
fn lengths_are_as_they_are_said_to_be(rt: HostRuntime) {
    assert!(rt; body_bound(b"</script>") == Some(10));
    assert!(rt; encoded_length(Class::Text, b"a<b") == Some(6));
    assert!(rt; string_bound(Class::ScriptQuoted, "it's") == Some(5));
    assert!(rt; longest_escaped(Class::Text, "a<b") == Some(18));
    assert!(rt; longest_body(b"</b>") == Some(8));
}
