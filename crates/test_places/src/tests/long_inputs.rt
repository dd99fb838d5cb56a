//! What is built past 32 MiB is read back.
use hesc_places::{
    Attribute, Place, Quoting, build_form, build_page, enclose, read_form, read_page,
};
use html_escape::Encoder;
use std::alloc::{AllocError, Global};
use std::process::Abort;
use std::test::Fail;
use test_support::long::long_text;

// How often the part stands in a text that is longer than 32 MiB.
const TIMES: usize = (33 << 20) / PART.len();

const PART: &str = "a text, sixty-four bytes long, with one change in it: \\/script<-";

#[test]
fn what_is_built_goes_past_32_mib(rt: HostRuntime) -> Result<(), Fail> {
    let text = long_text(rt.alloc(), ("", PART, TIMES, ""))?;
    let text = text.as_str();
    assert!(rt; text.len() > 33_554_432);
    let mut enclosed = String::new(rt.alloc());
    assert!(rt; enclose(Encoder::Text, Place::Text, text, &mut enclosed).is_ok());
    assert!(rt; enclosed.len() > text.len());
    let mut page = String::new(rt.alloc());
    assert!(rt; build_page("a", text, "b", &mut page).is_ok());
    assert!(rt; reads_page(rt.alloc(), page.as_str(), text)?);
    let attributes = [Attribute {
        name: "a",
        quoting: Quoting::Single,
        value: text,
    }];
    let mut form = String::new(rt.alloc());
    assert!(rt; build_form(&attributes, "b", &mut form).is_ok());
    assert!(rt; reads_form(rt.alloc(), form.as_str(), text)?);
    Ok(())
}

fn reads_page(alloc: Global, page: &str, text: &str) -> Result<bool, AllocError> {
    match read_page(alloc, page.as_bytes())? {
        Some(read) => Ok(read.second.as_slice() == text.as_bytes() && read.end == page.len()),
        None => Ok(false),
    }
}

fn reads_form(alloc: Global, form: &str, text: &str) -> Result<bool, AllocError> {
    match read_form(alloc, form.as_bytes())? {
        Some(read) => match read.attributes.first() {
            Some((_, _, value)) => Ok(
                value.as_slice() == text.as_bytes() && read.end == form.len(),
            ),
            None => Ok(false),
        },
        None => Ok(false),
    }
}
