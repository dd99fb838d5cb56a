//! The program as a whole: its words, its streams and its status, also where they fail.
use crate::tests::serving::{
    MEMORY, Serving, is_right, is_right_without_words, survives_errors, survives_flush,
    survives_readers, survives_refusals, survives_writers,
};
use std::io::ErrorKind;
use std::process::Abort;
use std::test::Fail;

// The program's name and the words after it, the input, and what is written.
type Success = (&'static [&'static str], &'static [u8], &'static [u8]);

static SUCCESSES: [Success; 8] = [
    (&["hesc", "encode_text"], b"a<b", b"a&lt;b"),
    (&["hesc", "encode_text"], b"", b""),
    (&["any name", "decode_html_entities"], b"&lt;\n", b"<\n"),
    (
        &["hesc", "lines-script"],
        b"a\n</script>\n<!--",
        b"a\n<\\/script>\n<\\!--",
    ),
    (
        &["hesc", "enclose", "encode_text", "text"],
        b"a<b",
        b">a&lt;b<",
    ),
    (
        &["hesc", "page", "a", "b", "c"],
        b"",
        b"<input value=a placeholder=\"b\"/><script>alert('c');</script>",
    ),
    (&["hesc", "form", "x", "value", "u", "a b"], b"", FORM),
    (&["hesc", "read-form"], FORM, b"value u 3 a b\n1 x\n"),
];

const FORM: &[u8] = b"<input value=a&#x20;b /><script>alert('x');</script>";

fn success(row: Success) -> Serving<'static> {
    let (args, input, written) = row;
    Serving {
        args,
        input,
        status: 0,
        written,
        line: "",
    }
}

// The program's name and the words after it, the input, the status, and the line.
type Refusal = (&'static [&'static str], &'static [u8], u8, &'static str);

const USAGE: &str = "usage: hesc COMMAND [ARGUMENT..]\n";

static REFUSALS: [Refusal; 11] = [
    (&[], b"a", 2, USAGE),
    (&["hesc"], b"a", 2, USAGE),
    (&["encode_text"], b"a", 2, USAGE),
    (&["hesc", ""], b"a", 2, USAGE),
    (&["hesc", "encode_text", "x"], b"a", 2, USAGE),
    (
        &["hesc", "encode_text"],
        b"\xFF",
        1,
        "hesc: input is not UTF-8\n",
    ),
    (&["hesc", "read-page"], b"abc", 1, "hesc: no page\n"),
    (
        &["hesc", "enclose", "encode_text", "script-body"],
        b"a",
        1,
        "hesc: encoder does not suit the place\n",
    ),
    (
        &["hesc", "page", "", "b", "c"],
        b"",
        1,
        "hesc: empty unquoted value\n",
    ),
    (
        &["hesc", "form", "x", "value", "u", ""],
        b"",
        1,
        "hesc: empty unquoted value\n",
    ),
    (
        &["hesc", "form", "x", "a b", "u", "v"],
        b"",
        1,
        "hesc: bad attribute name\n",
    ),
];

fn refusal(row: Refusal) -> Serving<'static> {
    let (args, input, status, line) = row;
    Serving {
        args,
        input,
        status,
        written: b"",
        line,
    }
}

#[test]
fn a_success_is_written_and_flushed_once(rt: HostRuntime) -> Result<(), Fail> {
    for &row in &SUCCESSES {
        assert!(rt; is_right(rt.alloc(), success(row))?, "{:?}", row.0);
    }
    Ok(())
}

#[test]
fn each_refusal_has_its_status_and_its_line(rt: HostRuntime) -> Result<(), Fail> {
    for &row in &REFUSALS {
        assert!(rt; is_right(rt.alloc(), refusal(row))?, "{:?}", row.0);
    }
    Ok(())
}

#[test]
fn words_that_cannot_be_had_are_memory_or_usage(rt: HostRuntime) {
    let memory = ErrorKind::OutOfMemory;
    assert!(rt; is_right_without_words(rt.alloc(), memory, 1, MEMORY));
    for other in [
        ErrorKind::InvalidData,
        ErrorKind::Other,
        ErrorKind::Interrupted,
    ] {
        assert!(rt;
            is_right_without_words(rt.alloc(), other, 2, USAGE),
            "{other:?}"
        );
    }
}

#[test]
fn every_request_of_a_program_is_refused_in_turn(rt: HostRuntime) -> Result<(), Fail> {
    for &row in &SUCCESSES {
        assert!(rt; survives_refusals(rt.alloc(), success(row))?, "{:?}", row.0);
    }
    for &row in &REFUSALS {
        assert!(rt; survives_refusals(rt.alloc(), refusal(row))?, "{:?}", row.0);
    }
    Ok(())
}

#[test]
fn a_failed_read_ends_a_program(rt: HostRuntime) -> Result<(), Fail> {
    for &row in &SUCCESSES {
        if row.0.get(1) != Some(&"page") && row.0.get(1) != Some(&"form") {
            assert!(rt; survives_readers(rt.alloc(), success(row))?, "{:?}", row.0);
        }
    }
    Ok(())
}

#[test]
fn a_failed_write_or_flush_ends_a_program(rt: HostRuntime) -> Result<(), Fail> {
    for &row in &SUCCESSES {
        assert!(rt; survives_writers(rt.alloc(), success(row))?, "{:?}", row.0);
        assert!(rt; survives_flush(rt.alloc(), success(row))?, "{:?}", row.0);
    }
    Ok(())
}

#[test]
fn a_failed_error_stream_leaves_the_status(rt: HostRuntime) -> Result<(), Fail> {
    for &row in &REFUSALS {
        assert!(rt; survives_errors(rt.alloc(), refusal(row))?, "{:?}", row.0);
    }
    Ok(())
}
