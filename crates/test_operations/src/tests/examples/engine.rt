//! The examples of the engine: rules, pieces and forms.
use crate::tests::examples::is_change;
use hesc_core::forms::made::Made;
use hesc_core::forms::measure::{measure, room_for, total};
use hesc_core::forms::{
    Parts, append_parts, append_parts_to_vec, append_to_string, append_to_vec, kept_to_writer,
    onto_string, onto_vec, to_cow, to_writer,
};
use hesc_core::rules::{Escape, Unescape};
use hesc_core::{Class, Counter, Length, Piece, Pieces, Replacement, Rule, SmallText, Sought, run};
use hesc_engine::engine::run_made;
use hesc_engine::{Ahead, change_from};
use std::process::Abort;
use std::test::Fail;
use test_support::{Trouble, WeakWriter, Weakness};

#[test]
fn a_rule_answers_as_it_is_said_to(rt: HostRuntime) {
    let encoder = Escape(Class::Text);
    assert!(rt; is_change(change_from(&encoder, "a<b", 0), 1, 2, "&lt;"));
    let ahead = Ahead::nothing("a<b");
    assert!(rt; ahead.start == 3 && ahead.hits == 0);
    assert!(rt; matches!(encoder.seeks().sought, Sought::InClass(Class::Text)));
    assert!(rt; matches!(encoder.length("a<b"), Length::Exactly(6)));
    assert!(rt; encoder.longest("a<b") == Some(18));
    let Some(texts) = encoder.seeks().texts else {
        panic!(rt; "it has texts");
    };
    let Some(text) = texts.text_for(b'<') else {
        panic!(rt; "it has a text");
    };
    assert!(rt; text.as_str() == "&lt;");
    let encoder = Escape(Class::ScriptQuoted);
    assert!(rt; matches!(encoder.length("\u{20AC}"), Length::AtMost(6)));
    assert!(rt; total(&encoder, "\u{20AC}") == Some(3));
    let Some(texts) = encoder.seeks().texts else {
        panic!(rt; "it has texts");
    };
    let Some(text) = texts.text_for(b'\'') else {
        panic!(rt; "it has a text");
    };
    assert!(rt; text.as_str() == "\\'");
    assert!(rt;
        matches!(
            Unescape(Class::ScriptQuoted).length("it"),
            Length::AtMost(2)
        )
    );
}

#[test]
fn a_text_is_measured_as_it_is_said_to_be(rt: HostRuntime) -> Result<(), Fail> {
    assert!(rt; measure(&Escape(Class::Text), "a<b") == Ok(6));
    let encoder = Escape(Class::ScriptQuoted);
    assert!(rt; room_for(&encoder, "\u{20AC}", 0) == Ok(6));
    assert!(rt; room_for(&encoder, "\u{20AC}", 3) == Ok(3));
    let mut counter = Counter::new();
    run(&encoder, "it's", &mut counter)?;
    assert!(rt; counter.count() == 5);
    Ok(())
}

fn is_kept(piece: Option<Piece<'_>>, place: usize, kept: &str) -> bool {
    match piece {
        Some(Piece::Kept { start, text }) => start == place && text == kept,
        _ => false,
    }
}

fn is_new(piece: Option<Piece<'_>>, new: &str) -> bool {
    match piece {
        Some(Piece::New(replacement)) => replacement.as_str() == new,
        _ => false,
    }
}

#[test]
fn pieces_are_as_they_are_said_to_be(rt: HostRuntime) {
    let encoder = Escape(Class::Text);
    let mut pieces = Pieces::new(&encoder, "a<b");
    assert!(rt; is_kept(pieces.next(), 0, "a"));
    assert!(rt; is_new(pieces.next(), "&lt;"));
    assert!(rt; is_kept(pieces.next(), 2, "b"));
    assert!(rt; pieces.next().is_none());
    let piece = Piece::Kept {
        start: 1,
        text: "b",
    };
    assert!(rt; piece.as_str() == "b");
    assert!(rt; Replacement::Borrowed("&lt;").as_str() == "&lt;");
    assert!(rt; SmallText::from_ascii(*b"&lt;\0\0\0\0", 4).as_str() == "&lt;");
    assert!(rt; SmallText::new("&lt;").as_str() == "&lt;");
    assert!(rt; SmallText::new("&lt;").len() == 4);
}

#[test]
fn forms_append_as_they_are_said_to(rt: HostRuntime) -> Result<(), Fail> {
    let encoder = Escape(Class::Text);
    assert!(rt; to_cow(rt.alloc(), &encoder, "a<b")?.as_str() == "a&lt;b");
    let mut page = String::from_str(rt.alloc(), "x")?;
    append_to_string(&mut page, &encoder, "a<b")?;
    assert!(rt; page.as_str() == "xa&lt;b");
    assert!(rt; onto_string(&mut page, &encoder, "a<b")? == "a&lt;b");
    Ok(())
}

#[test]
fn forms_append_bytes_as_they_are_said_to(rt: HostRuntime) -> Result<(), Fail> {
    let encoder = Escape(Class::Text);
    let mut bytes = b"x".to_vec(rt.alloc())?;
    append_to_vec(&mut bytes, &encoder, "a<b")?;
    assert!(rt; bytes.as_slice() == b"xa&lt;b".as_slice());
    assert!(rt; onto_vec(&mut bytes, &encoder, "a<b")? == b"a&lt;b".as_slice());
    Ok(())
}

#[test]
fn a_form_writes_as_it_is_said_to(rt: HostRuntime) -> Result<(), Fail> {
    let mut writer = WeakWriter::new(
        rt.alloc(),
        Weakness {
            step: 8,
            at: 0,
            trouble: Trouble::Calm,
        },
    );
    to_writer(&Escape(Class::Text), "a<b", &mut writer)?;
    assert!(rt; writer.taken.as_slice() == b"a&lt;b".as_slice());
    kept_to_writer("a<b", &mut writer)?;
    assert!(rt; writer.taken.as_slice() == b"a&lt;ba<b".as_slice());
    Ok(())
}

#[test]
fn parts_are_put_as_they_are_said_to_be(rt: HostRuntime) -> Result<(), Fail> {
    let encoder = Escape(Class::Text);
    assert!(rt; Made::of(&encoder, "ab").is_none());
    let Some(made) = Made::of(&encoder, "a<b") else {
        panic!(rt; "it changes");
    };
    assert!(rt; made.room_for(0) == Ok(6));
    assert!(rt; made.most() == 18);
    assert!(rt; made.may_fit(9) && !made.may_fit(8));
    assert!(rt; made.about().is_none());
    let mut counter = Counter::new();
    made.put_into(&mut counter)?;
    assert!(rt; counter.count() == 6);
    let mut counter = Counter::new();
    run_made(&made, &mut counter)?;
    assert!(rt; counter.count() == 6);
    let mut page = String::from_str(rt.alloc(), "x")?;
    append_parts(&mut page, &made)?;
    assert!(rt; page.as_str() == "xa&lt;b");
    let mut bytes = b"x".to_vec(rt.alloc())?;
    append_parts_to_vec(&mut bytes, &made)?;
    assert!(rt; bytes.as_slice() == b"xa&lt;b".as_slice());
    Ok(())
}
