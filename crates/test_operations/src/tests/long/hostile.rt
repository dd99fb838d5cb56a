//! Long and hostile texts: the answers are right, and come in time that grows with the length alone.
use crate::tests::forms::answers::{is_held, is_made};
use crate::tests::forms::calls::Call;
use crate::tests::forms::values::{make, make_to_string};
use html_escape::{Decoder, Encoder, Operation};
use std::alloc::{AllocError, Global};
use std::process::Abort;
use std::test::Fail;
use test_support::long::{Long, MANY, MILLION, TRAPS, long_text};
use test_support::operations::OPERATIONS;
use test_support::rows::Held;

// An operation, a text, and what is made of it.
type Row = (Operation, Long, Long);

static MADE: [Row; 14] = [
    (ENCODE_TEXT, ("", "<", 4096, ""), ("", "&lt;", 4096, "")),
    (
        ENCODE_SCRIPT_STRING,
        ("", "\\", 4096, ""),
        ("", "\\", 8192, ""),
    ),
    (
        DECODE_SCRIPT_STRING,
        ("", "\\", 8192, ""),
        ("", "\\", 4096, ""),
    ),
    (
        DECODE_SCRIPT_STRING,
        ("", "\\", 4095, ""),
        ("", "\\", 2048, ""),
    ),
    (
        DECODE_REFERENCES,
        ("", "&", 4096, "amp;"),
        ("", "&", 4096, ""),
    ),
    (
        DECODE_SCRIPT,
        ("", "<\\", 2048, "!--"),
        ("", "<\\", 2047, "<!--"),
    ),
    (
        ENCODE_SCRIPT,
        ("", "<!-", 1, "<!--"),
        ("", "<!-", 1, "<\\!--"),
    ),
    (
        ENCODE_TEXT,
        ("", "&", MILLION, ""),
        ("", "&amp;", MILLION, ""),
    ),
    (
        DECODE_REFERENCES,
        ("&#", "0", MILLION, "65;"),
        ("A", "", 0, ""),
    ),
    (
        ENCODE_SCRIPT,
        ("", "</scrip", MANY, "t"),
        ("", "</scrip", MANY - 1, "<\\/script"),
    ),
    (
        DECODE_SCRIPT,
        ("", "<\\/scrip", MANY, "t"),
        ("", "<\\/scrip", MANY - 1, "</script"),
    ),
    (
        DECODE_SCRIPT_STRING,
        ("", "<\\/scrip", MANY, "t>"),
        ("", "<\\/scrip", MANY - 1, "</script>"),
    ),
    (
        ENCODE_SCRIPT_STRING,
        ("", "\u{2026}", MANY, "\u{2028}"),
        ("", "\u{2026}", MANY, "\\u2028"),
    ),
    (
        DECODE_STYLE_STRING,
        ("", "\\3", MANY, "C "),
        ("", "\\3", MANY - 1, "<"),
    ),
];

const ENCODE_TEXT: Operation = Operation::Encode(Encoder::Text);

const ENCODE_SCRIPT: Operation = Operation::Encode(Encoder::Script);

const ENCODE_SCRIPT_STRING: Operation = Operation::Encode(Encoder::ScriptQuoted);

const DECODE_REFERENCES: Operation = Operation::Decode(Decoder::HtmlEntities);

const DECODE_SCRIPT: Operation = Operation::Decode(Decoder::Script);

const DECODE_SCRIPT_STRING: Operation = Operation::Decode(Decoder::ScriptQuoted);

const DECODE_STYLE_STRING: Operation = Operation::Decode(Decoder::StyleQuoted);

#[test]
fn long_texts_are_made(rt: HostRuntime) -> Result<(), Fail> {
    for &(operation, text, made) in &MADE {
        let text = long_text(rt.alloc(), text)?;
        let made = long_text(rt.alloc(), made)?;
        let is_made = is_made(
            rt.alloc(),
            Call::Of(operation),
            text.as_str(),
            made.as_str(),
            Held::Owned,
        )?;
        assert!(rt; is_made, "{operation:?}");
    }
    Ok(())
}

// An operation, and a text in which it changes nothing.
static KEPT: [(Operation, Long); 12] = [
    (ENCODE_SCRIPT, ("", "<", 4096, "")),
    (ENCODE_SCRIPT, ("", "<", 1, "")),
    (ENCODE_SCRIPT, ("", "</", 1, "")),
    (ENCODE_SCRIPT, ("", "</scrip", 1, "")),
    (ENCODE_SCRIPT, ("", "<!", 1, "")),
    (ENCODE_SCRIPT, ("", "<!-", 1, "")),
    (ENCODE_SCRIPT, ("", "</scrip", MANY, "")),
    (DECODE_REFERENCES, ("", "&", MILLION, "")),
    (DECODE_REFERENCES, ("&#", "9", MILLION, ";")),
    (DECODE_REFERENCES, ("&", "a", MILLION, ";")),
    (DECODE_SCRIPT, ("", "<\\/scrip", MANY, "")),
    (DECODE_STYLE_STRING, ("", "\\3", MANY, "")),
];

#[test]
fn long_texts_are_kept(rt: HostRuntime) -> Result<(), Fail> {
    for &(operation, text) in &KEPT {
        let text = long_text(rt.alloc(), text)?;
        let text = text.as_str();
        let is_kept = is_held(rt.alloc(), Call::Of(operation), text, text, Held::Borrowed)?;
        assert!(rt; is_kept, "{operation:?}");
    }
    Ok(())
}

#[test]
fn every_operation_ends(rt: HostRuntime) -> Result<(), Fail> {
    for &trap in &TRAPS {
        let text = long_text(rt.alloc(), trap)?;
        for &operation in &OPERATIONS {
            let is_same = makes_the_same(rt.alloc(), operation, text.as_str())?;
            assert!(rt; is_same, "{operation:?} of {trap:?}");
        }
    }
    Ok(())
}

// Whether the string form adds what the `Cow` form gives.
fn makes_the_same(alloc: Global, operation: Operation, text: &str) -> Result<bool, AllocError> {
    let cow = make(operation, alloc, text)?;
    let mut output = String::new(alloc);
    Ok(make_to_string(operation, text, &mut output)? == cow.as_str())
}
