//! What appends a text that it builds: it asks for memory once where there is no room, and not at all
//! where there is, and a few times for many small texts; and what does not, which has to be refused.
use hesc_places::{
    Attribute, FormFault, Place, PlaceFault, Quoting, build_form, build_page, enclose,
};
use html_escape::Encoder;
use std::alloc::{AllocError, Allocator, Global};
use std::process::Abort;
use std::test::Fail;
use test_support::Refusing;
use test_support::amounts::{APPENDS, MOST_REQUESTS};
use test_support::flaws::{Flaw, plant_in_string};

/// What is built.
#[derive(Clone, Copy)]
pub enum Builder<'b> {
    Enclosed(Encoder, Place, &'b str),
    Page(&'b str, &'b str, &'b str),
    Form(&'b [Attribute<'b>], &'b str),
    /// The encoding of a text, with something wrong.
    Planted(Flaw, &'b str),
}

// Whether memory was found, and then whether the answer is this one.
fn answers<A: Allocator>(
    builder: Builder<'_>,
    output: &mut String<A>,
    added: &str,
) -> Result<bool, AllocError> {
    match builder {
        Builder::Enclosed(encoder, place, text) => match enclose(encoder, place, text, output) {
            Ok(part) => Ok(part == added),
            Err(PlaceFault::Memory) => Err(AllocError),
            Err(_) => Ok(false),
        },
        Builder::Page(first, second, third) => match build_page(first, second, third, output) {
            Ok(part) => Ok(part == added),
            Err(PlaceFault::Memory) => Err(AllocError),
            Err(_) => Ok(false),
        },
        Builder::Form(attributes, script) => match build_form(attributes, script, output) {
            Ok(part) => Ok(part == added),
            Err(FormFault::Memory) => Err(AllocError),
            Err(_) => Ok(false),
        },
        Builder::Planted(flaw, text) => match plant_in_string(flaw, text, output) {
            Ok(part) => Ok(part == added),
            Err(AllocError) => Err(AllocError),
        },
    }
}

/// Whether this is answered and appended, and the answer is Memory and the output as it was where
/// the one request is refused.
pub fn survives(alloc: Global, builder: Builder<'_>, added: &str) -> Result<bool, AllocError> {
    let without = survives_within(alloc, builder, added, 0, 2)?;
    let within = survives_within(alloc, builder, added, added.len(), 1)?;
    let refused = survives_within(alloc, builder, added, 0, 1)?;
    Ok(without && within && refused)
}

// The same with so much room, where the request of that number is refused.
fn survives_within(
    alloc: Global,
    builder: Builder<'_>,
    added: &str,
    room: usize,
    number: u64,
) -> Result<bool, AllocError> {
    let heap = Refusing::new(alloc, 0);
    let mut output = String::with_capacity(&heap, room.saturating_add(1))?;
    output.push('x')?;
    heap.refuse(number);
    let answer = answers(builder, &mut output, added);
    let requests = if room < added.len() { 1 } else { 0 };
    let (wanted, held) = if requests < number {
        (Ok(true), added)
    } else {
        (Err(AllocError), "")
    };
    Ok(answer == wanted && heap.asked(number) == requests && output.strip_prefix("x") == Some(held))
}

// Whether many appends of it to one string ask for memory a few times.
fn asks_rarely(alloc: Global, builder: Builder<'_>, added: &str) -> Result<bool, AllocError> {
    let heap = Refusing::new(alloc, 0);
    let mut output = String::new(&heap);
    for _ in 0..APPENDS {
        if !answers(builder, &mut output, added)? {
            return Ok(false);
        }
    }
    Ok(heap.asked(0) <= MOST_REQUESTS)
}

static SMALL_TEXTS: [(&str, &str); 3] = [("", ""), ("abc", "abc"), ("a<b", "a&lt;b")];

#[test]
fn small_appends_ask_rarely(rt: HostRuntime) -> Result<(), Fail> {
    for &(text, made) in &SMALL_TEXTS {
        let element = Builder::Enclosed(Encoder::Text, Place::Text, text);
        let marks = format!(in rt.alloc(); ">{made}<")?;
        assert!(rt; asks_rarely(rt.alloc(), element, marks.as_str())?, "{text}");
        let value = Builder::Enclosed(Encoder::DoubleQuotedAttribute, Place::DoubleAttribute, text);
        let marks = format!(in rt.alloc(); "\"{made}\"")?;
        assert!(rt; asks_rarely(rt.alloc(), value, marks.as_str())?, "{text}");
    }
    Ok(())
}

#[test]
fn small_pages_and_forms_ask_rarely(rt: HostRuntime) -> Result<(), Fail> {
    let page = "<input value=a placeholder=\"b\"/><script>alert('c');</script>";
    assert!(rt; asks_rarely(rt.alloc(), Builder::Page("a", "b", "c"), page)?);
    let attributes = [Attribute {
        name: "value",
        quoting: Quoting::Unquoted,
        value: "a b",
    }];
    let form = "<input value=a&#x20;b /><script>alert('x');</script>";
    assert!(rt; asks_rarely(rt.alloc(), Builder::Form(&attributes, "x"), form)?);
    Ok(())
}

#[test]
fn an_exact_growth_is_refused(rt: HostRuntime) -> Result<(), Fail> {
    let sound = Builder::Planted(Flaw::Sound, "a<b");
    let exact = Builder::Planted(Flaw::GrowsExactly, "a<b");
    assert!(rt; asks_rarely(rt.alloc(), sound, "a&lt;b")?);
    assert!(rt; !asks_rarely(rt.alloc(), exact, "a&lt;b")?);
    Ok(())
}

static FLAWS: [Flaw; 5] = [
    Flaw::OtherText,
    Flaw::AsksTwice,
    Flaw::AsksForMuch,
    Flaw::Empties,
    Flaw::AnswersAll,
];

#[test]
fn each_flaw_of_a_builder_is_refused(rt: HostRuntime) -> Result<(), Fail> {
    let (text, made) = ("a<b>c&d", "a&lt;b&gt;c&amp;d");
    assert!(rt; survives(rt.alloc(), Builder::Planted(Flaw::Sound, text), made)?);
    for &flaw in &FLAWS {
        let is_right = survives(rt.alloc(), Builder::Planted(flaw, text), made)?;
        assert!(rt; !is_right, "{flaw:?}");
    }
    Ok(())
}
