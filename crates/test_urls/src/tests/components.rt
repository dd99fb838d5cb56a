//! Each form of a component gives what another program gives.
use crate::tests::hostile::ROWS;
use hesc_engine::Counter;
use hesc_engine::forms::Parts;
use html_urls::{
    Component, UrlPlace, append_component, append_component_to_vec, component_length,
    component_length_at, encode_component, encode_component_to_string, encode_component_to_vec,
    encode_component_to_writer, put_component, put_component_at,
};
use std::borrow::CowStr;
use std::test::Fail;
use test_support::{Trouble, WeakWriter, Weakness};

#[test]
fn a_component_is_what_another_program_gives(rt: HostRuntime) -> Result<(), Fail> {
    for &(text, component) in &ROWS {
        let made = encode_component(rt.alloc(), text)?;
        assert!(rt; made.as_str() == component, "{text:?}");
        let is_borrowed = matches!(&made, CowStr::Borrowed(_));
        assert!(rt; is_borrowed == (text == component), "{text:?}");
        assert!(rt; component_length(text) == Some(component.len()), "{text:?}");
    }
    Ok(())
}

#[test]
fn a_component_is_appended(rt: HostRuntime) -> Result<(), Fail> {
    let mut page = String::new(rt.alloc());
    let mut bytes = Vec::new(rt.alloc());
    let mut expected = String::new(rt.alloc());
    for &(text, component) in &ROWS {
        assert!(rt; append_component(&mut page, text)? == component, "{text:?}");
        assert!(rt;
            encode_component_to_string(text, &mut page)? == component,
            "{text:?}"
        );
        assert!(rt; append_component_to_vec(&mut bytes, text)? == component.as_bytes());
        assert!(rt; encode_component_to_vec(text, &mut bytes)? == component.as_bytes());
        expected.push_str(component)?;
        expected.push_str(component)?;
    }
    assert!(rt; page.as_str() == expected.as_str());
    assert!(rt; bytes.as_slice() == expected.as_str().as_bytes());
    Ok(())
}

// Longer than what is made on the stack.
#[test]
fn a_long_text_is_appended(rt: HostRuntime) -> Result<(), Fail> {
    let mut text = String::new(rt.alloc());
    let mut expected = String::new(rt.alloc());
    for _ in 0..8 {
        for &(part, component) in &ROWS {
            text.push_str(part)?;
            expected.push_str(component)?;
        }
    }
    let mut page = String::new(rt.alloc());
    assert!(rt; append_component(&mut page, text.as_str())? == expected.as_str());
    let made = encode_component(rt.alloc(), text.as_str())?;
    assert!(rt; made.as_str() == expected.as_str());
    Ok(())
}

#[test]
fn a_component_is_written(rt: HostRuntime) -> Result<(), Fail> {
    for &(text, component) in &ROWS {
        let mut writer = WeakWriter::new(rt.alloc(), Weakness::byte_by_byte(0, Trouble::Calm));
        encode_component_to_writer(text, &mut writer)?;
        assert!(rt; writer.taken.as_slice() == component.as_bytes(), "{text:?}");
        assert!(rt; writer.was_only_written(), "{text:?}");
    }
    Ok(())
}

#[test]
fn a_fault_of_the_writer_is_handed_on(rt: HostRuntime) -> Result<(), Fail> {
    for number in 1..=5 {
        let weakness = Weakness::byte_by_byte(number, Trouble::Fails);
        let mut writer = WeakWriter::new(rt.alloc(), weakness);
        assert!(rt; encode_component_to_writer("a&b", &mut writer).is_err());
        let taken = number as usize - 1;
        assert!(rt; writer.taken.as_slice() == &b"a%26b"[..taken], "{number}");
        assert!(rt; writer.calls == number);
    }
    Ok(())
}

#[test]
fn a_text_is_put_as_its_place_has_it(rt: HostRuntime) -> Result<(), Fail> {
    let mut counter = Counter::new();
    assert!(rt; put_component_at(UrlPlace::OpaquePath, "a+b@c?d", &mut counter).is_ok());
    assert!(rt; counter.count() == 9);
    assert!(rt; put_component_at(UrlPlace::Query, "a+b@c?d", &mut counter).is_ok());
    assert!(rt; counter.count() == 22);
    assert!(rt; component_length_at(UrlPlace::OpaquePath, "a+b@c?d") == Some(9));
    assert!(rt; component_length_at(UrlPlace::Query, "a+b@c?d") == Some(13));
    Ok(())
}

#[test]
fn a_component_is_put(rt: HostRuntime) -> Result<(), Fail> {
    let mut counter = Counter::new();
    assert!(rt; put_component("a&b", &mut counter).is_ok());
    assert!(rt; counter.count() == 5);
    assert!(rt; Component("a&b").put_into(&mut counter).is_ok());
    assert!(rt; counter.count() == 10);
    assert!(rt; Component("a&b").most() == 9);
    Ok(())
}
