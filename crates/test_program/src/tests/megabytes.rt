//! A megabyte through the program: how often it calls its streams, and that many lines end in time.
use crate::tests::serving::{Served, Streams, args_of, ended, serve_over};
use std::alloc::{AllocError, Global};
use std::process::Abort;
use std::test::Fail;
use test_support::long::{Long, long_text};
use test_support::{Flush, Trouble, Weakness};

const MEGABYTE: usize = 1_048_576;

// What a read is offered at least.
const READ_SIZE: u64 = 4096;

// A stream that gives or takes all that it is offered.
const STRONG: Weakness = Weakness {
    step: usize::MAX,
    at: 0,
    trouble: Trouble::Calm,
};

fn through(alloc: Global, words: &[&str], input: &[u8]) -> Result<Served, AllocError> {
    let streams = Streams {
        input: STRONG,
        output: STRONG,
        errors: STRONG,
        flush: Flush::Succeeds,
    };
    let args = args_of(alloc, words)?;
    Ok(serve_over(alloc, Ok(args), input, streams, alloc))
}

// The program's words, its input and what is written.
type Row = (&'static [&'static str], Long, Long);

static ROWS: [Row; 7] = [
    (
        &["hesc", "encode_text"],
        ("", "a", MEGABYTE, ""),
        ("", "a", MEGABYTE, ""),
    ),
    (
        &["hesc", "encode_text"],
        ("", "<", MEGABYTE, ""),
        ("", "&lt;", MEGABYTE, ""),
    ),
    (
        &["hesc", "lines-script"],
        ("", "\n", MEGABYTE, ""),
        ("", "\n", MEGABYTE, ""),
    ),
    (
        &["hesc", "lines-script"],
        ("", "a\n", MEGABYTE, "</script"),
        ("", "a\n", MEGABYTE, "<\\/script"),
    ),
    (
        &["hesc", "lines-style"],
        ("", "<!--\n", MEGABYTE / 4, ""),
        ("", "<\\!--\n", MEGABYTE / 4, ""),
    ),
    (
        &[
            "hesc",
            "enclose",
            "encode_double_quoted_attribute",
            "double-attribute",
        ],
        ("", "a\"", MEGABYTE / 2, ""),
        ("\"", "a&quot;", MEGABYTE / 2, "\""),
    ),
    (
        &["hesc", "read-form"],
        (
            "<input value=\"",
            "&lt;",
            MEGABYTE / 4,
            "\" /><script>alert('x');</script>",
        ),
        ("value d 262144 ", "<", MEGABYTE / 4, "\n1 x\n"),
    ),
];

#[test]
fn a_megabyte_takes_few_calls(rt: HostRuntime) -> Result<(), Fail> {
    for &(words, input, written) in &ROWS {
        let input = long_text(rt.alloc(), input)?;
        let written = long_text(rt.alloc(), written)?;
        let served = through(rt.alloc(), words, input.as_bytes())?;
        assert!(rt; ended(&served, 0, written.as_bytes(), "", 1), "{words:?}");
        assert!(rt;
            served.reads <= input.len() as u64 / READ_SIZE + 2,
            "{words:?}"
        );
        assert!(rt; served.output.calls == 1, "{words:?}");
    }
    Ok(())
}
