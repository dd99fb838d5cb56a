//! The examples of the laws: each law is called with its example, and what it says of it is seen.
use hesc_places::{
    Attribute, FormFault, Place, Quoting, append_form, append_page, end_of_place, laws, read_form,
    read_page, read_place,
};
use html_escape::{BodyKind, Encoder, encode_script, encode_text};
use std::alloc::{AllocError, Global};
use std::process::Abort;
use std::test::Fail;

fn reads(
    alloc: Global,
    place: Place,
    bytes: &[u8],
    value: &str,
    end: usize,
) -> Result<bool, AllocError> {
    match read_place(alloc, place, bytes)? {
        Some(reading) => { Ok(reading.value.as_slice() == value.as_bytes() && reading.end == end) }
        None => Ok(false),
    }
}

#[test]
fn places_end_as_the_laws_say(rt: HostRuntime) -> Result<(), Fail> {
    laws::place_law(Encoder::Text, Place::Text, "a<b", b"");
    assert!(rt; encode_text(rt.alloc(), "a<b")?.as_str() == "a&lt;b");
    assert!(rt; reads(rt.alloc(), Place::Text, b"a&lt;b<", "a<b", 6)?);
    laws::place_law_for_any_rest(Encoder::Text, Place::Text, "a<b");
    assert!(rt; reads(rt.alloc(), Place::Text, b"a&lt;b</p>", "a<b", 6)?);
    laws::end_tag_law(BodyKind::Script, "<!--", b"</SCRIPT >");
    assert!(rt; encode_script(rt.alloc(), "<!--")?.as_str() == "<\\!--");
    assert!(rt;
        reads(
            rt.alloc(),
            Place::ScriptBody,
            b"<\\!--</SCRIPT >",
            "<\\!--",
            5
        )?
    );
    laws::no_other_pair(Encoder::Text, Place::DoubleAttribute);
    assert!(rt; encode_text(rt.alloc(), "\"")?.as_str() == "\"");
    assert!(rt; end_of_place(Place::DoubleAttribute, b"\"\"") == Some(0));
    Ok(())
}

#[test]
fn a_page_comes_back_as_the_law_says(rt: HostRuntime) -> Result<(), Fail> {
    laws::page_law("a", "b", "c", b"");
    laws::page_law_for_any_rest("a", "b", "c");
    let mut text = String::new(rt.alloc());
    assert!(rt; append_page(&mut text, "a", "b", "c").is_ok());
    text.push_str("</html>")?;
    let Some(page) = read_page(rt.alloc(), text.as_bytes())? else {
        panic!(rt; "it is a page");
    };
    assert!(rt; page.first.as_slice() == b"a".as_slice());
    assert!(rt; page.second.as_slice() == b"b".as_slice());
    assert!(rt; page.third.as_slice() == b"c".as_slice());
    Ok(())
}

const VALUE: Attribute = Attribute {
    name: "value",
    quoting: Quoting::Unquoted,
    value: "a b",
};

#[test]
fn a_form_comes_back_as_the_law_says(rt: HostRuntime) -> Result<(), Fail> {
    let mut text = String::new(rt.alloc());
    let attributes = [VALUE];
    assert!(rt; append_form(&mut text, &attributes, "x").is_ok());
    text.push_str("</html>")?;
    laws::form_law(&attributes, "x", b"");
    laws::form_law_for_any_rest(&attributes, "x");
    let Some(form) = read_form(rt.alloc(), text.as_bytes())? else {
        panic!(rt; "it is a form");
    };
    assert!(rt; form.script.as_slice() == b"x".as_slice());
    assert!(rt; form.attributes.len() == 1);
    assert!(rt; form.attributes[0].0.as_slice() == b"value".as_slice());
    assert!(rt; form.attributes[0].2.as_slice() == b"a b".as_slice());
    let attributes = [VALUE, VALUE];
    laws::good_attributes_law(&attributes);
    assert!(rt; append_form(&mut text, &attributes, "x") == Err(FormFault::BadName(1)));
    Ok(())
}
