//! Bodies that are encoded piece by piece.
use html_escape::{BodyEncoder, BodyKind};
use std::alloc::{AllocError, Allocator, Global};
use std::process::Abort;
use std::test::Fail;
use test_support::Refusing;

/// The pieces, what each push adds, and what the finish adds.
pub type Session = (
    &'static [&'static str],
    &'static [&'static str],
    &'static str,
);

static SCRIPTS: [Session; 24] = [
    (&[], &[], ""),
    (&[""], &[""], ""),
    (&["a<", "!", "--b"], &["a", "", "<\\!--b"], ""),
    (&["</script", ">"], &["", "<\\/script>"], ""),
    (&["</scr", "ipt"], &["", ""], "<\\/script"),
    (&["</script", "<"], &["", "</script"], "<"),
    (&["<", "<", "<"], &["", "<", "<"], "<"),
    (
        &["<!-", "</SCRIPT\n", "b"],
        &["", "<!-<\\/SCRIPT\n", "b"],
        "",
    ),
    (&["<!", "x"], &["", "<!x"], ""),
    (&["<s", "cript>"], &["<s", "cript>"], ""),
    (&["a</script"], &["a"], "<\\/script"),
    (
        &["scri", "p<>S", "CR", "ipt\\\u{B}", "</sc", "ri", "pt"],
        &["scri", "p<>S", "CR", "ipt\\\u{B}", "", "", ""],
        "<\\/script",
    ),
    (
        &["x</SCRIPT ><!--<script></s", "cript"],
        &["x<\\/SCRIPT ><\\!--<script>", ""],
        "<\\/script",
    ),
    (
        &["/scri", "p<", "/\u{65E5}", "\\</<", "/scri", "pt"],
        &["/scri", "p", "</\u{65E5}", "\\</", "", ""],
        "<\\/script",
    ),
    (&["\u{B}</s", "cript"], &["\u{B}", ""], "<\\/script"),
    (
        &["\u{1B}</", "sc", "ript"],
        &["\u{1B}", "", ""],
        "<\\/script",
    ),
    (
        &["", "<", "</sc", "ri", "pt"],
        &["", "", "<", "", ""],
        "<\\/script",
    ),
    (
        &["</scr", "ipt</", "scr", "ipt"],
        &["", "</script", "", ""],
        "<\\/script",
    ),
    (
        &["</sc", "r", "", "ip", "t\u{1B}\\\u{B}"],
        &["", "", "", "", "</script\u{1B}\\\u{B}"],
        "",
    ),
    (
        &["</s", "cr", "", "ip", "ts"],
        &["", "", "", "", "</scripts"],
        "",
    ),
    (&["<<<", "/</"], &["<<", "</"], "</"),
    (
        &["<", "/s", "cri", "pt\u{1B}"],
        &["", "", "", "</script\u{1B}"],
        "",
    ),
    (
        &["<\u{65E5}", "</\u{65E5}"],
        &["<\u{65E5}", "</\u{65E5}"],
        "",
    ),
    (&["</style", ">"], &["</style", ">"], ""),
];

static STYLES: [Session; 16] = [
    (&[], &[], ""),
    (&["</style", ">"], &["", "<\\/style>"], ""),
    (&["<", "/\u{1C}"], &["", "</\u{1C}"], ""),
    (
        &["", "\u{65E5}<", "/styl", "e"],
        &["", "\u{65E5}", "", ""],
        "<\\/style",
    ),
    (
        &["", "<", "", "/", "", "style", ""],
        &["", "", "", "", "", "", ""],
        "<\\/style",
    ),
    (
        &["<", "<", "!", "-", "-", "<"],
        &["", "<", "", "", "<\\!--", ""],
        "<",
    ),
    (
        &["\u{1C}S", "TYl", "e\u{B}", "\\\u{B}</", "s", "ty", "le"],
        &["\u{1C}S", "TYl", "e\u{B}", "\\\u{B}", "", "", ""],
        "<\\/style",
    ),
    (
        &["s</s", "</s <", "/", "styl", "e"],
        &["s", "</s</s ", "", "", ""],
        "<\\/style",
    ),
    (
        &["x</STYLE ><!--<style>", "</style"],
        &["x<\\/STYLE ><\\!--<style>", ""],
        "<\\/style",
    ),
    (
        &["<", "/\u{65E5}\u{1C}!", "\u{65E5}<", "/</", "style"],
        &["", "</\u{65E5}\u{1C}!", "\u{65E5}", "</", ""],
        "<\\/style",
    ),
    (
        &["\u{B}!\u{65E5}-", "</sty", "", "l", "e", "</sty", "le"],
        &["\u{B}!\u{65E5}-", "", "", "", "", "</style", ""],
        "<\\/style",
    ),
    (&["-", "</", " -< \\"], &["-", "", "</ -< \\"], ""),
    (&["<", "\\/style"], &["", "<\\/style"], ""),
    (
        &["", "/", "/<sty", "", "le<st", "", "yle<"],
        &["", "/", "/<sty", "", "le<st", "", "yle"],
        "<",
    ),
    (&["</STYLE", "/"], &["", "<\\/STYLE/"], ""),
    (&["</script", ">"], &["</script", ">"], ""),
];

fn sessions(kind: BodyKind) -> &'static [Session] {
    match kind {
        BodyKind::Script => &SCRIPTS,
        BodyKind::Style => &STYLES,
    }
}

static KINDS: [BodyKind; 2] = [BodyKind::Script, BodyKind::Style];

#[derive(Clone, Copy)]
enum Call {
    Push(&'static str),
    Finish,
}

fn make<'o, A: Allocator>(
    session: &mut BodyEncoder,
    call: Call,
    output: &'o mut String<A>,
) -> Result<&'o str, AllocError> {
    match call {
        Call::Push(piece) => session.push(piece, output),
        Call::Finish => session.finish(output),
    }
}

fn is_part(answer: Result<&str, AllocError>, added: &str) -> bool {
    match answer {
        Ok(part) => part == added,
        Err(AllocError) => false,
    }
}

// Whether the call adds this and asks for memory once, and not at all where it adds nothing; and
// whether it leaves session and output as they were where it is refused, so that it can be made
// again.
fn survives(
    alloc: Global,
    session: &mut BodyEncoder,
    call: Call,
    added: &str,
) -> Result<bool, AllocError> {
    let heap = Refusing::new(alloc, 0);
    let mut output = String::with_capacity(&heap, 1)?;
    output.push('x')?;
    if added.is_empty() {
        heap.refuse(1);
        let is_right = is_part(make(session, call, &mut output), "");
        return Ok(is_right && heap.asked(1) == 0 && output.as_str() == "x");
    }
    heap.refuse(1);
    let is_refused = make(session, call, &mut output).is_err();
    let is_as_it_was = heap.asked(1) == 1 && output.as_str() == "x";
    heap.refuse(0);
    let is_right = is_part(make(session, call, &mut output), added);
    let is_added = output.as_str().strip_prefix("x") == Some(added);
    Ok(is_refused && is_as_it_was && is_right && is_added && heap.asked(0) == 1)
}

/// Whether the calls of the session add this, also where they are refused memory first.
pub fn is_session(alloc: Global, kind: BodyKind, wanted: Session) -> Result<bool, AllocError> {
    let (pieces, added, last) = wanted;
    let mut session = BodyEncoder::new(kind);
    for (piece, part) in pieces.iter().zip(added) {
        if !survives(alloc, &mut session, Call::Push(*piece), *part)? {
            return Ok(false);
        }
    }
    // A finished session is as new.
    Ok(
        pieces.len() == added.len()
            && survives(alloc, &mut session, Call::Finish, last)?
            && survives(alloc, &mut session, Call::Push("a<"), "a")?
            && survives(alloc, &mut session, Call::Finish, "<")?,
    )
}

#[test]
fn each_call_adds_what_is_decided(rt: HostRuntime) -> Result<(), Fail> {
    for &kind in &KINDS {
        for wanted in sessions(kind) {
            let is_right = is_session(rt.alloc(), kind, *wanted)?;
            assert!(rt; is_right, "{kind:?} of {:?}", wanted.0);
        }
    }
    Ok(())
}

#[test]
fn two_sessions_know_nothing_of_each_other(rt: HostRuntime) -> Result<(), Fail> {
    let mut output = String::new(rt.alloc());
    let mut script = BodyEncoder::new(BodyKind::Script);
    let mut style = BodyEncoder::new(BodyKind::Style);
    assert!(rt; adds(&mut script, Call::Push("</scr"), "", &mut output)?);
    assert!(rt; adds(&mut style, Call::Push("</styl"), "", &mut output)?);
    assert!(rt; adds(&mut script, Call::Push("ipt"), "", &mut output)?);
    assert!(rt; adds(&mut style, Call::Push("e>"), "<\\/style>", &mut output)?);
    assert!(rt; adds(&mut style, Call::Finish, "", &mut output)?);
    assert!(rt; adds(&mut script, Call::Finish, "<\\/script", &mut output)?);
    assert!(rt; output.as_str() == "<\\/style><\\/script");
    Ok(())
}

fn adds(
    session: &mut BodyEncoder,
    call: Call,
    added: &str,
    output: &mut String,
) -> Result<bool, AllocError> {
    Ok(make(session, call, output)? == added)
}

const TEXT: &str = "x</SCRIPT ><!--<script></script";

const ENCODED: &str = "x<\\/SCRIPT ><\\!--<script><\\/script";

#[test]
fn a_body_may_be_cut_anywhere(rt: HostRuntime) -> Result<(), Fail> {
    for at in 0..=TEXT.len() {
        assert!(rt; is_encoded_in_two(rt.alloc(), at)?, "cut at {at}");
    }
    Ok(())
}

fn is_encoded_in_two(alloc: Global, at: usize) -> Result<bool, AllocError> {
    let Some((first, second)) = TEXT.split_at_checked(at) else {
        return Ok(false);
    };
    let mut output = String::new(alloc);
    let mut session = BodyEncoder::new(BodyKind::Script);
    session.push(first, &mut output)?;
    session.push(second, &mut output)?;
    session.finish(&mut output)?;
    Ok(output.as_str() == ENCODED)
}

#[test]
fn a_body_may_come_by_single_bytes(rt: HostRuntime) -> Result<(), Fail> {
    let output = encoded_in_pieces(rt.alloc(), BodyKind::Script, TEXT, 1)?;
    assert!(rt; output.as_str() == ENCODED);
    Ok(())
}

/// The body of pieces of so many bytes; the text is ASCII.
pub fn encoded_in_pieces(
    alloc: Global,
    kind: BodyKind,
    text: &str,
    size: usize,
) -> Result<String, AllocError> {
    let mut output = String::new(alloc);
    let mut session = BodyEncoder::new(kind);
    let mut rest = text;
    for _ in 0..text.len() {
        let Some((piece, left)) = rest.split_at_checked(size.min(rest.len())) else {
            break;
        };
        session.push(piece, &mut output)?;
        rest = left;
    }
    session.finish(&mut output)?;
    Ok(output)
}

// What a session does not add.
static WRONG: [Session; 5] = [
    (&["a<"], &["a<"], ""),
    (&["a<"], &["a"], ""),
    (&["a", "b"], &["a"], ""),
    (&["</script", ">"], &["", "</script>"], ""),
    (&["a"], &[""], "a"),
];

#[test]
fn sessions_that_are_wrong_are_refused(rt: HostRuntime) -> Result<(), Fail> {
    for &session in &WRONG {
        let is_right = is_session(rt.alloc(), BodyKind::Script, session)?;
        assert!(rt; !is_right, "{:?} of {:?}", session.1, session.0);
    }
    Ok(())
}
