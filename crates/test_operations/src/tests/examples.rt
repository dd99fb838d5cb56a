//! The examples of the documents that are not rows of an operation.
mod engine;
mod laws;
mod rules;
mod searches;
mod sinks;

use hesc_core::rules::{Escape, References};
use hesc_core::scan::first_in;
use hesc_engine::change_from;
use html_escape::{
    BodyEncoder, BodyKind, Class, Encoder, EntityTable, Found, Operation, SmallText, append,
    append_to_vec, encode_pieces, pieces,
};
use std::alloc::AllocError;
use std::process::Abort;
use std::test::Fail;

/// Whether the change is this one.
pub fn is_change(found: Option<Found<'_>>, start: usize, end: usize, text: &str) -> bool {
    match found {
        Some(found) => {
            found.start == start && found.end == end && found.replacement.as_str() == text
        }
        None => false,
    }
}

#[test]
fn values_and_sessions_append_as_they_are_said_to(rt: HostRuntime) -> Result<(), Fail> {
    let mut page = String::from_str(rt.alloc(), "x")?;
    assert!(rt; append(&mut page, &Encoder::Text, "a<b")? == "a&lt;b");
    let script = ["</scr", "ipt>"];
    assert!(rt; encode_pieces(&mut page, BodyKind::Script, &script)? == "<\\/script>");
    assert!(rt; is_session_onto(&mut page)?);
    assert!(rt; page.as_str() == "xa&lt;b<\\/script><\\/script>a<");
    Ok(())
}

// Whether each call of a session appends what it is said to.
fn is_session_onto(page: &mut String) -> Result<bool, AllocError> {
    let mut session = BodyEncoder::new(BodyKind::Script);
    Ok(
        session.push("</scr", page)?.is_empty()
            && session.push("ipt>", page)? == "<\\/script>"
            && session.push("a<", page)? == "a"
            && session.finish(page)? == "<",
    )
}

#[test]
fn values_append_bytes_as_they_are_said_to(rt: HostRuntime) -> Result<(), Fail> {
    let mut bytes = b"x".to_vec(rt.alloc())?;
    assert!(rt; append_to_vec(&mut bytes, &Encoder::Text, "a<b")? == b"a&lt;b".as_slice());
    let operation = Operation::Encode(Encoder::Text);
    assert!(rt; pieces(&operation, "a<b").count() == 3);
    Ok(())
}

#[test]
fn sessions_append_as_they_are_said_to(rt: HostRuntime) -> Result<(), Fail> {
    let mut page = String::new(rt.alloc());
    let mut session = BodyEncoder::new(BodyKind::Script);
    assert!(rt; session.finish(&mut page)?.is_empty());
    assert!(rt; adds_piece(&mut page, &mut session, "</scr", "")?);
    assert!(rt; adds_piece(&mut page, &mut session, "ipt>", "<\\/script>")?);
    assert!(rt; adds_piece(&mut page, &mut session, "a<", "a")?);
    assert!(rt; BodyEncoder::append_rest(&mut page, &mut session)? == "<");
    Ok(())
}

fn adds_piece(
    page: &mut String,
    session: &mut BodyEncoder,
    piece: &str,
    added: &str,
) -> Result<bool, AllocError> {
    Ok(BodyEncoder::append_piece(page, session, piece)? == added)
}

#[test]
fn tables_searches_and_rules_answer_as_they_are_said_to(rt: HostRuntime) {
    let table = EntityTable::built_in();
    assert!(rt; table.get(b"AElig") == Some("\u{C6}"));
    assert!(rt; table.get(b"amp") == Some("&"));
    assert!(rt; table.get(b"copy").is_none());
    assert!(rt; first_in(Class::Text, b"a<b", 0) == 1);
    assert!(rt; first_in(Class::Text, b"a<b", 2) == 3);
    assert!(rt; SmallText::from_char('\u{C6}').len() == 2);
    let found = change_from(&Escape(Class::Text), "a<b", 0);
    assert!(rt; is_change(found, 1, 2, "&lt;"));
    let references = References(&table);
    assert!(rt; is_change(change_from(&references, "a&lt;b", 0), 1, 5, "<"));
    let rows = table.rows();
    assert!(rt; rows.len() == 77);
    assert!(rt; rows.first() == Some(&(b"AElig".as_slice(), "\u{C6}")));
}
