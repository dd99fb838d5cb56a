//! The examples of the laws: each law is called with its example, and what it says of it is seen.
use html_escape::{
    BodyKind, Class, Decoder, Encoder, EntityTable, Operation, Quotes, append, encode_pieces,
    encode_text_to_writer, laws, write_markup,
};
use std::alloc::{AllocError, Global};
use std::process::Abort;
use std::test::Fail;
use test_support::{Trouble, WeakWriter, Weakness};

// An operation, a text, and what it makes of it.
type Row = (Operation, &'static str, &'static str);

// The first text that its operation makes something else of.
fn first_wrong(alloc: Global, rows: &[Row]) -> Result<Option<&'static str>, AllocError> {
    for (operation, text, made) in rows {
        let mut page = String::new(alloc);
        if append(&mut page, operation, text)? != *made {
            return Ok(Some(*text));
        }
    }
    Ok(None)
}

const TEXT: Operation = Operation::Encode(Encoder::Text);

const SCRIPT_STRING: Operation = Operation::Encode(Encoder::ScriptQuoted);

const STYLE_STRING: Operation = Operation::Encode(Encoder::StyleQuoted);

const SCRIPT: Operation = Operation::Encode(Encoder::Script);

const DECODE_SCRIPT: Operation = Operation::Decode(Decoder::Script);

const REFERENCES: Operation = Operation::Decode(Decoder::HtmlEntities);

#[test]
fn encodings_differ_as_the_laws_say(rt: HostRuntime) -> Result<(), Fail> {
    laws::joined_texts(Class::Text, "a<", "b");
    laws::different_texts(Class::Text, "<", "&lt;");
    laws::same_style_strings(Quotes::Both, "\0", "\u{FFFD}");
    let rows = [
        (TEXT, "a<", "a&lt;"),
        (TEXT, "b", "b"),
        (TEXT, "a<b", "a&lt;b"),
        (TEXT, "<", "&lt;"),
        (TEXT, "&lt;", "&amp;lt;"),
        (STYLE_STRING, "\0", "\u{FFFD}"),
        (STYLE_STRING, "\u{FFFD}", "\u{FFFD}"),
    ];
    assert!(rt; first_wrong(rt.alloc(), &rows)?.is_none());
    Ok(())
}

#[test]
fn strings_are_plain_as_the_laws_say(rt: HostRuntime) -> Result<(), Fail> {
    laws::different_encodings(Class::ScriptQuoted, "\0", "\u{FFFD}");
    laws::different_encodings(Class::StyleQuoted, "\0", "\u{FFFD}");
    laws::plain_string_encoding(BodyKind::Script, Quotes::Both, "<\n");
    let rows = [
        (SCRIPT_STRING, "\0", "\\x00"),
        (SCRIPT_STRING, "\u{FFFD}", "\u{FFFD}"),
        (SCRIPT_STRING, "<\n", "\\x3C\\x0A"),
    ];
    assert!(rt; first_wrong(rt.alloc(), &rows)?.is_none());
    Ok(())
}

#[test]
fn references_undo_encoders_as_the_laws_say(rt: HostRuntime) -> Result<(), Fail> {
    let table = EntityTable::built_in();
    laws::references_undo_encoders(Class::Text, &table, "a<", "&amp;");
    laws::references_undo_unquoted_encoder(&table, " \u{1}", "");
    let unquoted = Operation::Encode(Encoder::UnquotedAttribute);
    let rows = [
        (TEXT, "a<", "a&lt;"),
        (REFERENCES, "a&lt;&amp;", "a<&"),
        (unquoted, " \u{1}", "&#x20;&#x01;"),
        (REFERENCES, "&#x20;&#x01;", " &#x01;"),
    ];
    assert!(rt; first_wrong(rt.alloc(), &rows)?.is_none());
    Ok(())
}

#[test]
fn decoders_undo_encoders_as_the_laws_say(rt: HostRuntime) -> Result<(), Fail> {
    laws::string_decoders_undo_encoders(
        BodyKind::Script,
        Quotes::Single,
        Quotes::Both,
        "it's",
        b"",
    );
    laws::string_round_trip(BodyKind::Script, Quotes::Single, "it's", b"");
    let single = Operation::Encode(Encoder::ScriptSingleQuoted);
    let of_single = Operation::Decode(Decoder::ScriptSingleQuoted);
    let of_both = Operation::Decode(Decoder::ScriptQuoted);
    let rows = [
        (single, "it's", "it\\'s"),
        (of_single, "it\\'s", "it's"),
        (of_both, "it\\'s", "it's"),
    ];
    assert!(rt; first_wrong(rt.alloc(), &rows)?.is_none());
    Ok(())
}

#[test]
fn bodies_are_the_same_as_the_laws_say(rt: HostRuntime) -> Result<(), Fail> {
    laws::canonical_bodies(BodyKind::Script, "<!--", "<\\!--");
    laws::canonical_body(BodyKind::Script, "<!--");
    laws::repeated_body(BodyKind::Script, "<!--");
    laws::same_bodies(BodyKind::Script, "<!--", "<\\!--");
    let rows = [
        (SCRIPT, "<!--", "<\\!--"),
        (SCRIPT, "<\\!--", "<\\!--"),
        (DECODE_SCRIPT, "<!--", "<!--"),
        (DECODE_SCRIPT, "<\\!--", "<!--"),
    ];
    assert!(rt; first_wrong(rt.alloc(), &rows)?.is_none());
    Ok(())
}

#[test]
fn bodies_join_as_the_laws_say(rt: HostRuntime) -> Result<(), Fail> {
    laws::joined_bodies(BodyKind::Script, "a", "<!--");
    let rows = [
        (SCRIPT, "a", "a"),
        (SCRIPT, "<!--", "<\\!--"),
        (SCRIPT, "a<!--", "a<\\!--"),
    ];
    assert!(rt; first_wrong(rt.alloc(), &rows)?.is_none());
    // The laws of sessions: a session over these pieces.
    let mut page = String::new(rt.alloc());
    let pieces = ["</scr", "ipt>"];
    assert!(rt; encode_pieces(&mut page, BodyKind::Script, &pieces)? == "<\\/script>");
    Ok(())
}

#[test]
fn writes_join_as_the_law_says(rt: HostRuntime) -> Result<(), Fail> {
    laws::writes_law();
    // Six bytes of `<li>a&amp;` go out, and then the writer fails.
    let weakness = Weakness::byte_by_byte(7, Trouble::Fails);
    let mut writer = WeakWriter::new(rt.alloc(), weakness);
    assert!(rt; write_markup(&mut writer, "<li>").is_ok());
    assert!(rt; writer.taken.as_slice() == b"<li>".as_slice());
    assert!(rt; encode_text_to_writer("a&", &mut writer).is_err());
    assert!(rt; writer.taken.as_slice() == b"<li>a&".as_slice());
    assert!(rt; writer.was_only_written());
    Ok(())
}
