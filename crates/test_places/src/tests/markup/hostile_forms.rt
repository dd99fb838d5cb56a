//! Forms of very many attributes: the answers are right, and come in time that grows little faster
//! than the length.
use crate::tests::markup::forms::many_names;
use hesc_places::{Attribute, FormFault, Quoting, build_form, read_form, read_page};
use std::alloc::{AllocError, Global};
use std::process::Abort;
use std::test::Fail;
use test_support::long::long_text;

// How many attributes a form has.
const MANY: usize = 20_000;

// So many names of four letters, no two the same.
fn names_of_four_letters(alloc: Global) -> Result<Vec<String>, AllocError> {
    let mut names = Vec::new(alloc);
    for beginning in many_names(alloc)? {
        for letter in "abcde".chars() {
            let mut name = String::from_str(alloc, beginning.as_str())?;
            name.push(letter)?;
            names.push(name)?;
        }
    }
    names.truncate(MANY);
    Ok(names)
}

fn attributes_of(alloc: Global, names: &[String]) -> Result<Vec<Attribute<'_>>, AllocError> {
    let mut attributes = Vec::new(alloc);
    for name in names {
        attributes.push(Attribute {
            name: name.as_str(),
            quoting: Quoting::Unquoted,
            value: "b",
        })?;
    }
    Ok(attributes)
}

const TAIL: &str = "/><script>alert('x');</script>";

// The form of unquoted attributes, whether it can be built or not.
fn form_of(alloc: Global, names: &[String]) -> Result<String, AllocError> {
    let mut form = String::from_str(alloc, "<input")?;
    for name in names {
        form.push(' ')?;
        form.push_str(name.as_str())?;
        form.push_str("=b")?;
    }
    form.push(' ')?;
    form.push_str(TAIL)?;
    Ok(form)
}

#[test]
fn names_that_differ_are_a_form(rt: HostRuntime) -> Result<(), Fail> {
    let names = names_of_four_letters(rt.alloc())?;
    assert!(rt; names.len() == 20_000);
    let attributes = attributes_of(rt.alloc(), names.as_slice())?;
    let form = form_of(rt.alloc(), names.as_slice())?;
    let mut output = String::new(rt.alloc());
    let is_built = build_form(attributes.as_slice(), "x", &mut output).is_ok();
    assert!(rt; is_built && output.as_str() == form.as_str());
    match read_form(rt.alloc(), form.as_bytes())? {
        Some(read) => assert!(rt; read.attributes.len() == 20_000 && read.end == form.len()),
        None => assert!(rt; false, "the form is read"),
    }
    Ok(())
}

#[test]
fn a_last_name_that_is_the_first_is_a_fault(rt: HostRuntime) -> Result<(), Fail> {
    let mut names = names_of_four_letters(rt.alloc())?;
    let _last = names.pop();
    names.push(String::from_str(rt.alloc(), "aaaa")?)?;
    let attributes = attributes_of(rt.alloc(), names.as_slice())?;
    let mut output = String::new(rt.alloc());
    let fault = build_form(attributes.as_slice(), "x", &mut output).err();
    assert!(rt; fault == Some(FormFault::BadName(19_999)));
    assert!(rt; output.is_empty());
    let form = form_of(rt.alloc(), names.as_slice())?;
    assert!(rt; read_form(rt.alloc(), form.as_bytes())?.is_none());
    Ok(())
}

// A part, and how often it makes about a megabyte after the beginning of a tag.
static UNREAD: [(&str, usize); 4] = [
    (" a=b", 250_000),
    ("<input a", 125_000),
    (" a='b'", 166_000),
    (" a=\"&amp;\"", 100_000),
];

#[test]
fn a_megabyte_that_is_no_form_is_read_to_its_end(rt: HostRuntime) -> Result<(), Fail> {
    for &(part, times) in &UNREAD {
        for head in ["<input", ""] {
            for tail in [TAIL, ""] {
                let bytes = long_text(rt.alloc(), (head, part, times, tail))?;
                assert!(rt; bytes.len() >= 990_000, "{part:?}");
                let form = read_form(rt.alloc(), bytes.as_bytes())?;
                assert!(rt; form.is_none(), "{part:?}");
                let page = read_page(rt.alloc(), bytes.as_bytes())?;
                assert!(rt; page.is_none(), "{part:?}");
            }
        }
    }
    Ok(())
}
