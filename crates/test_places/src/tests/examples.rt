//! The examples of the documents.
mod laws;

use hesc_places::grammar::references::{body_character, reference};
use hesc_places::grammar::script_strings::{script_escape, script_string_step};
use hesc_places::grammar::{Mode, Step, first_mode, step_of};
use hesc_places::{
    Attribute, Place, Quoting, append_enclosed, append_form, append_page, build_page, enclose,
    end_of_place, read_form, read_place, suits,
};
use html_escape::Encoder;
use std::process::Abort;
use std::test::Fail;

#[test]
fn places_are_read_as_they_are_said_to_be(rt: HostRuntime) -> Result<(), Fail> {
    let mut page = String::new(rt.alloc());
    let Ok(part) = append_enclosed(&mut page, Encoder::Text, Place::Text, "a<b") else {
        panic!(rt; "the encoder suits the place");
    };
    assert!(rt; part == ">a&lt;b<");
    let Some(reading) = read_place(rt.alloc(), Place::Text, b"a&lt;b</p>")? else {
        panic!(rt; "the text has an end");
    };
    assert!(rt; reading.value.as_slice() == b"a<b".as_slice());
    assert!(rt; reading.end == 6);
    assert!(rt; end_of_place(Place::Text, b"a&lt;b</p>") == Some(6));
    assert!(rt; suits(Encoder::Text, Place::Text) && !suits(Encoder::Text, Place::ScriptBody));
    Ok(())
}

#[test]
fn pages_and_forms_are_appended_as_they_are_said_to_be(rt: HostRuntime) {
    let mut page = String::new(rt.alloc());
    let written = append_page(&mut page, "a", "b", "c");
    assert!(rt; written == Ok("<input value=a placeholder=\"b\"/><script>alert('c');</script>"));
    let attributes = [Attribute {
        name: "value",
        quoting: Quoting::Unquoted,
        value: "a b",
    }];
    let written = append_form(&mut page, &attributes, "x");
    assert!(rt; written == Ok("<input value=a&#x20;b /><script>alert('x');</script>"));
}

#[test]
fn a_value_is_found_by_its_name(rt: HostRuntime) -> Result<(), Fail> {
    let form = b"<input a=1 b=\"2\"/><script>alert('x');</script>";
    let Some(form) = read_form(rt.alloc(), form)? else {
        panic!(rt; "it is a form");
    };
    assert!(rt; form.value_of("a") == Some(b"1".as_slice()));
    assert!(rt; form.value_of("b") == Some(b"2".as_slice()));
    assert!(rt; form.value_of("c").is_none());
    Ok(())
}

#[test]
fn what_is_appended_is_answered_with_the_output_last(rt: HostRuntime) {
    let mut page = String::new(rt.alloc());
    let written = enclose(Encoder::Text, Place::Text, "a<b", &mut page);
    assert!(rt; written == Ok(">a&lt;b<"));
    let written = build_page("a", "b", "c", &mut page);
    assert!(rt; written == Ok("<input value=a placeholder=\"b\"/><script>alert('c');</script>"));
}

#[test]
fn steps_are_taken_as_they_are_said_to_be(rt: HostRuntime) {
    let less = Step::Character(3, '<', Mode::Plain);
    assert!(rt; step_of(Place::Text, Mode::Plain, b"&lt;b") == less);
    assert!(rt; first_mode(Place::Text) == Mode::Plain);
    assert!(rt; reference(b"lt;b") == less);
    assert!(rt; body_character(b"#x3C") == Some('<'));
    let step = script_string_step(b'"', Mode::Plain, b"a\"");
    assert!(rt; step == Step::Byte(0, b'a', Mode::Plain));
    assert!(rt; script_escape(b"nb") == Step::Character(1, '\n', Mode::Plain));
}
