//! Runs of the tool: what each command answers and writes, also over streams and memory that fail.
use crate::tests::runs::{Run, is_right, survives_readers, survives_refusals, survives_writers};
use hesc_tool::Fault;
use std::process::Abort;

// Words, an input, the answer, and what is written.
type Row = (
    &'static [&'static str],
    &'static [u8],
    Result<(), Fault>,
    &'static [u8],
);

static RUNS: [Row; 17] = [
    (
        &["encode_text"],
        b"a > b && a < c",
        Ok(()),
        b"a &gt; b &amp;&amp; a &lt; c",
    ),
    (&["encode_text"], b"", Ok(()), b""),
    (&["decode_html_entities"], b"&amp;lt;", Ok(()), b"&lt;"),
    (
        &["decode_script_quoted_text"],
        b"\\x3C\\!--",
        Ok(()),
        b"<\\!--",
    ),
    (
        &["enclose", "encode_text", "text"],
        b"a<b",
        Ok(()),
        b">a&lt;b<",
    ),
    (
        &["page", "a", "b", "c"],
        b"",
        Ok(()),
        b"<input value=a placeholder=\"b\"/><script>alert('c');</script>",
    ),
    (&["read-page"], PAGE, Ok(()), PAGE_LINES),
    (&["encode_text"], b"\xFF", Err(Fault::NotUtf8), b""),
    (&["read-page"], b"abc", Err(Fault::NoPage), b""),
    (
        &["enclose", "encode_text", "script-body"],
        b"a",
        Err(Fault::NotForPlace),
        b"",
    ),
    (
        &["enclose", "encode_unquoted_attribute", "unquoted-space"],
        b"",
        Err(Fault::EmptyUnquoted),
        b"",
    ),
    (&["page", "", "b", "c"], b"", Err(Fault::EmptyUnquoted), b""),
    (&[], b"a", Err(Fault::Usage), b""),
    (&["encode"], b"a", Err(Fault::Usage), b""),
    (&["encode_text", "x"], b"a", Err(Fault::Usage), b""),
    (
        &["enclose", "encode_text", "body"],
        b"a",
        Err(Fault::Usage),
        b"",
    ),
    (&["page", "a", "b"], b"a", Err(Fault::Usage), b""),
];

// A page, and a byte after it that is no text.
const PAGE: &[u8] = b"<input value=Hello&#x20;world&#x21; \
placeholder=\"The default value is &quot;Hello world!&quot;.\"/>\
<script>alert('\\x3Cscript>\\'s end tag is \\x3C/script>');</script>\xFF";

const PAGE_LINES: &[u8] = b"12 Hello world!\n\
36 The default value is \"Hello world!\".\n\
31 <script>'s end tag is </script>\n";

fn run_of(row: Row) -> Run<'static> {
    let (words, input, answer, written) = row;
    Run {
        words,
        input,
        answer,
        written,
    }
}

#[test]
fn each_command_line_has_its_answer(rt: HostRuntime) {
    for &row in &RUNS {
        assert!(rt; is_right(rt.alloc(), run_of(row)), "{:?}", row.0);
    }
}

#[test]
fn every_request_of_a_run_is_refused_in_turn(rt: HostRuntime) {
    for &row in &RUNS {
        assert!(rt; survives_refusals(rt.alloc(), run_of(row)), "{:?}", row.0);
    }
}

// Whether the run comes to read its input.
fn reads(row: Row) -> bool {
    row.2 != Err(Fault::Usage) && row.0.first() != Some(&"page")
}

#[test]
fn a_failed_read_is_answered_and_nothing_written(rt: HostRuntime) {
    for &row in &RUNS {
        if reads(row) {
            assert!(rt; survives_readers(rt.alloc(), run_of(row)), "{:?}", row.0);
        }
    }
}

#[test]
fn a_failed_write_leaves_a_beginning(rt: HostRuntime) {
    for &row in &RUNS {
        assert!(rt; survives_writers(rt.alloc(), run_of(row)), "{:?}", row.0);
    }
}
