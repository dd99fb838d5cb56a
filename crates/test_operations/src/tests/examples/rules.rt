//! The examples of the rules.
use crate::tests::examples::is_change;
use hesc_core::rules::{
    DecodeBody, EncodeBody, Escape, Names, Unescape, body_escape_at, body_unescape_at,
    reference_at, string_class, unescape_at,
};
use hesc_core::table::entities::entities_agree;
use hesc_core::{Class, Element, Quotes};
use hesc_engine::change_from;
use html_escape::decoder::next_decoded;
use html_escape::encoder::next_encoded;
use html_escape::{Decoder, Encoder, EntityTable, NAMED_ENTITIES};

#[test]
fn encoders_change_what_they_are_said_to(rt: HostRuntime) {
    let found = body_escape_at(Element::Script, "a</script>", 1);
    assert!(rt; is_change(found, 2, 2, "\\"));
    let script = EncodeBody(Element::Script);
    assert!(rt; is_change(change_from(&script, "a</script>", 0), 2, 2, "\\"));
    let html = Escape(Class::Text);
    assert!(rt; is_change(change_from(&html, "a<b", 0), 1, 2, "&lt;"));
    let string = Escape(Class::ScriptQuoted);
    assert!(rt; is_change(change_from(&string, "it's", 0), 2, 3, "\\'"));
    assert!(rt; is_change(change_from(&string, "a\u{2029}", 0), 1, 4, "\\u2029"));
    let style = Escape(Class::StyleQuoted);
    assert!(rt; is_change(change_from(&style, "a\0", 0), 1, 2, "\u{FFFD}"));
    assert!(rt;
        matches!(
            string_class(Class::ScriptQuoted),
            Some((Element::Script, Quotes::Both))
        )
    );
    let found = next_encoded(Encoder::Text, "a<b", 0);
    assert!(rt; is_change(found, 1, 2, "&lt;"));
}

#[test]
fn decoders_change_what_they_are_said_to(rt: HostRuntime) {
    let found = body_unescape_at(Element::Script, "a<\\/script>", 2);
    assert!(rt; is_change(found, 2, 3, ""));
    let script = DecodeBody(Element::Script);
    assert!(rt; is_change(change_from(&script, "a<\\/script>", 0), 2, 3, ""));
    let found = unescape_at(Class::ScriptQuoted, "it\\'s", 2);
    assert!(rt; is_change(found, 2, 4, "'"));
    let string = Unescape(Class::ScriptQuoted);
    assert!(rt; is_change(change_from(&string, "it\\'s", 0), 2, 4, "'"));
    let style = Unescape(Class::StyleQuoted);
    assert!(rt; is_change(change_from(&style, "a\\3C b", 0), 1, 5, "<"));
    let found = reference_at(Names::BuiltIn, "a&lt;b", 1);
    assert!(rt; is_change(found, 1, 5, "<"));
    let found = reference_at(Names::Of(&EntityTable::built_in()), "a&AElig;b", 1);
    assert!(rt; is_change(found, 1, 8, "\u{C6}"));
    let found = next_decoded(Decoder::HtmlEntities, "a&lt;b", 0);
    assert!(rt; is_change(found, 1, 5, "<"));
}

static ENTITIES: [(&[u8], &str); 77] = NAMED_ENTITIES;

#[test]
fn the_entities_are_as_they_are_said_to_be(rt: HostRuntime) {
    entities_agree();
    assert!(rt; ENTITIES.first() == Some(&(b"AElig".as_slice(), "\u{C6}")));
}
