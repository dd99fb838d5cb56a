//! The commands that encode a body line by line.
use crate::tests::runs::{Run, is_right, survives_readers, survives_refusals, survives_writers};
use hesc_tool::{Fault, run};
use std::process::Abort;
use std::test::Fail;
use test_support::long::{MILLION, long_text};
use test_support::{Trouble, WeakReader, WeakWriter, Weakness};

// A command, its input, and what it writes.
static LINES: [(&str, &[u8], &[u8]); 8] = [
    ("lines-script", b"</script\n<!--", b"<\\/script\n<\\!--"),
    ("lines-script", b"a</scr\nipt>", b"a</scr\nipt>"),
    ("lines-script", b"", b""),
    ("lines-script", b"\n\n</SCRIPT", b"\n\n<\\/SCRIPT"),
    ("lines-script", b"<\n", b"<\n"),
    ("lines-style", b"</style\n<!--", b"<\\/style\n<\\!--"),
    ("lines-style", b"</script\n", b"</script\n"),
    ("lines-style", b"a\r\n</style>\n", b"a\r\n<\\/style>\n"),
];

#[test]
fn a_command_encodes_line_by_line(rt: HostRuntime) {
    for &(word, input, written) in &LINES {
        let wanted = Run {
            words: &[word],
            input,
            answer: Ok(()),
            written,
        };
        let alloc = rt.alloc();
        assert!(rt; is_right(alloc, wanted), "{word} of {input:?}");
        assert!(rt; survives_refusals(alloc, wanted), "{word} of {input:?}");
        assert!(rt; survives_readers(alloc, wanted), "{word} of {input:?}");
        assert!(rt; survives_writers(alloc, wanted), "{word} of {input:?}");
    }
}

#[test]
fn a_command_of_lines_has_its_refusals(rt: HostRuntime) {
    for word in ["lines-script", "lines-style"] {
        let not_text = Run {
            words: &[word],
            input: b"\xFF",
            answer: Err(Fault::NotUtf8),
            written: b"",
        };
        assert!(rt; is_right(rt.alloc(), not_text), "{word}");
        let two_words = Run {
            words: &[word, "x"],
            input: b"a",
            answer: Err(Fault::Usage),
            written: b"",
        };
        assert!(rt; is_right(rt.alloc(), two_words), "{word}");
    }
}

const STRONG: Weakness = Weakness {
    step: usize::MAX,
    at: 0,
    trouble: Trouble::Calm,
};

#[test]
fn a_million_lines_are_encoded(rt: HostRuntime) -> Result<(), Fail> {
    for (line, made) in [("\n", "\n"), ("</script\n", "<\\/script\n")] {
        let text = long_text(rt.alloc(), ("", line, MILLION, ""))?;
        let made = long_text(rt.alloc(), ("", made, MILLION, ""))?;
        assert!(rt; made.len() >= 1_000_000);
        let mut input = WeakReader::new(text.as_bytes(), STRONG);
        let mut output = WeakWriter::new(rt.alloc(), STRONG);
        let answer = run(rt.alloc(), &["lines-script"], &mut input, &mut output);
        assert!(rt; answer.is_ok(), "{line:?}");
        assert!(rt; output.taken.as_slice() == made.as_bytes(), "{line:?}");
    }
    Ok(())
}
