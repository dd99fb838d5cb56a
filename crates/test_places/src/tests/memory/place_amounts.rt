//! How many bytes are asked for where places, pages and forms are built and read.
use crate::tests::markup::forms::many_names;
use hesc_places::{
    Attribute, End, Place, Quoting, append_enclosed, build_form, build_page, enclose, read_form,
    read_page, read_place, suits,
};
use html_escape::{Encoder, Operation};
use std::alloc::{AllocError, Allocator, Global};
use std::process::Abort;
use std::test::Fail;
use test_support::Refusing;
use test_support::amounts::{FOR_EACH_ATTRIBUTE, SMALL, TEXTS, text_of};
use test_support::long::{Long, long_text};
use test_support::operations::OPERATIONS;
use test_support::places::{PLACES, opening_mark};

// What is read goes into room that is doubled when it is full, so that all requests together are for
// at most four times of it.
const DOUBLED: usize = 4;

// So many names are compared without memory.
const FEW_NAMES: usize = 32;

// What is asked for each name where more of them are kept in order.
const FOR_EACH_NAME: usize = 48;

#[test]
fn enclosing_asks_for_its_answer_alone(rt: HostRuntime) -> Result<(), Fail> {
    for &(part, length) in &TEXTS {
        let text = text_of(rt.alloc(), part, length)?;
        for &operation in &OPERATIONS {
            let Operation::Encode(encoder) = operation else {
                continue;
            };
            for &place in &PLACES {
                if suits(encoder, place) && (length <= 1000 || is_one_of_few(encoder)) {
                    let is_right = asks_little(rt.alloc(), encoder, place, text.as_str())?;
                    assert!(rt; is_right, "{encoder:?} in {place:?}: {length} of {part:?}");
                }
            }
        }
    }
    Ok(())
}

// The encoders that go over the long texts too.
fn is_one_of_few(encoder: Encoder) -> bool {
    matches!(
        encoder,
        Encoder::Safe | Encoder::ScriptSingleQuoted | Encoder::Script
    )
}

// Both forms of enclosing, and the reading of what was enclosed.
fn asks_little(
    alloc: Global,
    encoder: Encoder,
    place: Place,
    text: &str,
) -> Result<bool, AllocError> {
    let heap = Refusing::new(alloc, 0);
    let mut output = String::new(&heap);
    let is_enclosed = enclose(encoder, place, text, &mut output).is_ok();
    let asked = heap.asked_bytes();
    heap.refuse(0);
    let mut other = String::new(&heap);
    let is_appended = append_enclosed(&mut other, encoder, place, text).is_ok();
    let most = output.len().saturating_add(SMALL) as u64;
    if !is_enclosed || !is_appended || asked > most || heap.asked_bytes() > most {
        return Ok(false);
    }
    match output.as_str().strip_prefix(opening_mark(place)) {
        Some(after) => reads_little(alloc, place, after),
        None => Ok(false),
    }
}

fn reads_little(alloc: Global, place: Place, after: &str) -> Result<bool, AllocError> {
    let heap = Refusing::new(alloc, 0);
    match read_place(&heap, place, after.as_bytes())? {
        Some(found) => {
            let most = found
                .value
                .len()
                .saturating_mul(DOUBLED)
                .saturating_add(SMALL);
            Ok(heap.asked_bytes() <= most as u64)
        }
        None => Ok(false),
    }
}

// A place, a text and its closing mark, the bytes that are kept of its value, and the requests for them.
// Bytes that are read as they stand go in at once, into a room of their own size where no item follows
// them, and else into one of a power of two.
static KEPT: [(Place, Long, usize, u64); 9] = [
    (Place::Text, ("", "a", 1000, "<"), 1000, 1),
    (Place::Text, ("", "a", 999, "&lt;<"), 1024, 1),
    (Place::Text, ("&lt;", "a", 999, "<"), 1000, 2),
    (Place::DoubleAttribute, ("", "a", 1025, "\""), 1025, 1),
    (
        Place::UnquotedAttribute(End::Space),
        ("a", "a", 1000, " "),
        1001,
        2,
    ),
    (Place::ScriptSingle, ("", "a", 1000, "\\n'"), 1024, 1),
    (Place::StyleDouble, ("", "a", 1000, "\""), 1000, 1),
    (Place::ScriptBody, ("<!--", "a", 1000, "</script>"), 1004, 2),
    (Place::StyleBody, ("", "a", 1000, "</style>"), 1000, 1),
];

#[test]
fn a_value_keeps_about_its_length(rt: HostRuntime) -> Result<(), Fail> {
    for &(place, text, kept, requests) in &KEPT {
        let text = long_text(rt.alloc(), text)?;
        let heap = Refusing::new(rt.alloc(), 0);
        let Some(found) = read_place(&heap, place, text.as_bytes())? else {
            panic!(rt; "{place:?} has no reading");
        };
        assert!(rt;
            found.value.capacity() == kept,
            "{place:?} keeps {}",
            found.value.capacity()
        );
        assert!(rt;
            heap.asked(0) == requests,
            "{place:?} asks {} times",
            heap.asked(0)
        );
    }
    Ok(())
}

#[test]
fn pages_ask_for_what_stands_in_them(rt: HostRuntime) -> Result<(), Fail> {
    for &(part, length) in &TEXTS {
        let text = text_of(rt.alloc(), part, length)?;
        let heap = Refusing::new(rt.alloc(), 0);
        let mut page = String::new(&heap);
        let is_built = build_page(text.as_str(), part, text.as_str(), &mut page).is_ok();
        assert!(rt;
            is_built && heap.asked_bytes() <= page.len().saturating_add(SMALL) as u64,
            "{part:?}"
        );
        heap.refuse(0);
        let is_read = read_page(&heap, page.as_bytes())?.is_some();
        assert!(rt;
            is_read && heap.asked_bytes() <= most_of_reading(page.len(), 2),
            "{part:?}"
        );
    }
    Ok(())
}

// Each value is read once, and so is the script's string: its body takes no memory.
fn most_of_reading(length: usize, attributes: usize) -> u64 {
    let values = length.saturating_mul(DOUBLED);
    let places = attributes.saturating_mul(FOR_EACH_ATTRIBUTE);
    values.saturating_add(places).saturating_add(SMALL) as u64
}

#[test]
fn forms_ask_for_what_stands_in_them(rt: HostRuntime) -> Result<(), Fail> {
    let names = many_names(rt.alloc())?;
    for &(part, length) in &TEXTS {
        let text = text_of(rt.alloc(), part, length.min(50))?;
        let mut attributes = Vec::new(rt.alloc());
        for name in names.iter().take(length / 32) {
            attributes.push(Attribute {
                name: name.as_str(),
                quoting: Quoting::Single,
                value: text.as_str(),
            })?;
        }
        let is_right = asks_little_for_form(rt.alloc(), attributes.as_slice(), text.as_str())?;
        assert!(rt; is_right, "{} attributes of {part:?}", attributes.len());
    }
    Ok(())
}

// The form itself; and where its names are many, they are kept in order by their references.
fn most_of_building(length: usize, attributes: usize) -> u64 {
    let names = if attributes > FEW_NAMES {
        attributes.saturating_mul(FOR_EACH_NAME)
    } else {
        0
    };
    length.saturating_add(names).saturating_add(SMALL) as u64
}

fn asks_little_for_form(
    alloc: Global,
    attributes: &[Attribute],
    script: &str,
) -> Result<bool, AllocError> {
    let heap = Refusing::new(alloc, 0);
    let mut form = String::new(&heap);
    let is_built = build_form(attributes, script, &mut form).is_ok();
    if !is_built || heap.asked_bytes() > most_of_building(form.len(), attributes.len()) {
        return Ok(false);
    }
    heap.refuse(0);
    let is_read = is_form(&heap, form.as_bytes())?;
    Ok(is_read && heap.asked_bytes() <= most_of_reading(form.len(), attributes.len()))
}

fn is_form<A: Allocator + Clone>(alloc: A, bytes: &[u8]) -> Result<bool, AllocError> {
    Ok(read_form(alloc, bytes)?.is_some())
}
