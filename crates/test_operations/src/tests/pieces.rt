//! The pieces of what an operation makes of a text.
use html_escape::{Decoder, Encoder, Operation, Piece, pieces};
use std::process::Abort;

/// A piece that is kept, with its place in the source, or a new text.
#[derive(Clone, Copy, Debug)]
enum Part {
    Kept(usize, &'static str),
    New(&'static str),
}

use Part::{Kept, New};

const NONE: [Part; 0] = [];

const AROUND: [Part; 3] = [Kept(0, "a "), New("&gt;"), Kept(3, " b")];

const SIDE_BY_SIDE: [Part; 2] = [New("&lt;"), New("&amp;")];

const ALL_KEPT: [Part; 1] = [Kept(0, ">>>a")];

const ALL_BUT_THE_END: [Part; 4] = [New("&amp;"), New("&amp;"), New("&amp;"), Kept(3, "a")];

const PUT_IN: [Part; 3] = [Kept(0, "<"), New("\\"), Kept(1, "/script")];

const LEFT_OUT: [Part; 2] = [Kept(0, "<"), Kept(2, "/script")];

static PIECES: [(Operation, &str, &[Part]); 8] = [
    (Operation::Encode(Encoder::Text), "", &NONE),
    (Operation::Decode(Decoder::ScriptQuoted), "", &NONE),
    (Operation::Encode(Encoder::Text), "a > b", &AROUND),
    (Operation::Encode(Encoder::Text), "<&", &SIDE_BY_SIDE),
    (Operation::Encode(Encoder::TextMinimal), ">>>a", &ALL_KEPT),
    (
        Operation::Encode(Encoder::TextMinimal),
        "&&&a",
        &ALL_BUT_THE_END,
    ),
    (Operation::Encode(Encoder::Script), "</script", &PUT_IN),
    (Operation::Decode(Decoder::Script), "<\\/script", &LEFT_OUT),
];

#[test]
fn pieces_are_the_stretches_and_the_references(rt: HostRuntime) {
    for &(operation, text, parts) in &PIECES {
        let mut pieces = pieces(&operation, text);
        for part in parts {
            assert!(rt; is_part(pieces.next(), *part), "{part:?} of {text:?}");
        }
        assert!(rt; pieces.next().is_none(), "after the last of {text:?}");
    }
}

fn is_part(piece: Option<Piece<'_>>, part: Part) -> bool {
    match (piece, part) {
        (Some(Piece::Kept { start, text }), Kept(want_start, want)) => {
            start == want_start && text == want
        }
        (Some(Piece::New(replacement)), New(want)) => replacement.as_str() == want,
        _ => false,
    }
}
