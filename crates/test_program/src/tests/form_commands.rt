//! The tool's commands of forms, over streams and memory that fail.
use crate::tests::runs::{Run, is_right, survives_readers, survives_refusals, survives_writers};
use hesc_tool::Fault;
use std::process::Abort;

// The words of a `form`, and its form.
type FormRun = (&'static [&'static str], &'static str);

static FORM_RUNS: [FormRun; 4] = [
    (
        &["form", "x", "value", "u", "a b"],
        "<input value=a&#x20;b /><script>alert('x');</script>",
    ),
    (&["form", "x"], "<input/><script>alert('x');</script>"),
    (
        &["form", "", "a", "u", "1", "b", "d", "\""],
        "<input a=1 b=\"&quot;\"/><script>alert('');</script>",
    ),
    (
        &["form", "x", "a", "s", "it's"],
        "<input a='it&#x27;s'/><script>alert('x');</script>",
    ),
];

#[test]
fn form_writes_the_form_of_its_words(rt: HostRuntime) {
    for &(words, form) in &FORM_RUNS {
        let wanted = Run {
            words,
            input: b"",
            answer: Ok(()),
            written: form.as_bytes(),
        };
        let is_right = is_right(rt.alloc(), wanted)
            && survives_refusals(rt.alloc(), wanted)
            && survives_writers(rt.alloc(), wanted);
        assert!(rt; is_right, "{words:?}");
    }
}

// A form, and the lines in which it is written.
type LinesRow = (&'static [u8], &'static [u8]);

static LINES: [LinesRow; 4] = [
    (
        b"<input value=a&#x20;b /><script>alert('x');</script>",
        b"value u 3 a b\n1 x\n",
    ),
    (b"<input/><script>alert('x');</script>\xFF", b"1 x\n"),
    (
        b"<input\x0Ca=1\n\tb=\"&quot;\" c=''\n></script><script>alert('');</script>",
        b"",
    ),
    (
        b"<input\x0Ca=1\n\tb=\"&quot;\" c='\xFF'\n><script>alert('');</SCRIPT>",
        b"a u 1 1\nb d 1 \"\nc s 1 \xFF\n0 \n",
    ),
];

#[test]
fn read_form_writes_the_lines_of_a_form(rt: HostRuntime) {
    for &(form, lines) in &LINES {
        let answer = if lines.is_empty() {
            Err(Fault::NoPage)
        } else {
            Ok(())
        };
        let wanted = Run {
            words: &["read-form"],
            input: form,
            answer,
            written: lines,
        };
        let is_right = is_right(rt.alloc(), wanted)
            && survives_refusals(rt.alloc(), wanted)
            && survives_readers(rt.alloc(), wanted)
            && survives_writers(rt.alloc(), wanted);
        assert!(rt; is_right, "{form:?}");
    }
}

// The words of a run that is refused, and its fault.
type Refusal = (&'static [&'static str], Fault);

static REFUSALS: [Refusal; 10] = [
    (&["form"], Fault::Usage),
    (&["form", "x", "value"], Fault::Usage),
    (&["form", "x", "value", "u"], Fault::Usage),
    (&["form", "x", "value", "q", "v"], Fault::Usage),
    (&["form", "x", "a", "u", "v", "b"], Fault::Usage),
    (&["read-form", "x"], Fault::Usage),
    (&["form", "x", "Value", "u", "v"], Fault::BadName),
    (&["form", "x", "a", "u", "v", "a", "d", ""], Fault::BadName),
    (&["form", "x", "value", "u", ""], Fault::EmptyUnquoted),
    (&["read-form"], Fault::NoPage),
];

#[test]
fn a_refused_form_writes_nothing(rt: HostRuntime) {
    for &(words, fault) in &REFUSALS {
        let wanted = Run {
            words,
            input: b"",
            answer: Err(fault),
            written: b"",
        };
        let is_right = is_right(rt.alloc(), wanted) && survives_refusals(rt.alloc(), wanted);
        assert!(rt; is_right, "{words:?}");
    }
}
