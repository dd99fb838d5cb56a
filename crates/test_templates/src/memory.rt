//! Memory that is refused: the answer is Memory and the output as it was. An append asks once where
//! there is no room, and not at all where there is, and many small ones ask a few times. A named append
//! asks for no more, but for a table where many names are bound in another order than that of their slots.
//! A reader asks for what it holds alone, and what makes a template for its lists.
use crate::named::{self, bindings, names};
use crate::pages::{PLACES, parts};
use html_template::{FillFault, Part, Template, TemplateFault, TextFault};
use html_template_source::{BindFault, NamedTemplate, SourceFault};
use html_tokenizer::Reader;
use std::alloc::Global;
use std::process::Abort;
use std::slice;
use std::test::Fail;
use test_support::Refusing;
use test_support::amounts::{APPENDS, MOST_REQUESTS, SMALL};
use test_support::long::{Long, MILLION, long_text};

#[test]
fn every_request_of_new_is_refused_in_turn(rt: HostRuntime) -> Result<(), Fail> {
    let parts = parts(rt.alloc())?;
    let heap = Refusing::new(rt.alloc(), 0);
    assert!(rt; Template::new(&heap, &parts).is_ok());
    let requests = heap.asked(0);
    // The list of pieces, and the word of the name or value that is read, both of which double.
    assert!(rt; requests >= 2 && requests <= 12, "{requests}");
    for number in 1..=requests {
        heap.refuse(number);
        let fault = match Template::new(&heap, &parts) {
            Ok(_) => None,
            Err(fault) => Some(fault),
        };
        assert!(rt; fault == Some(TemplateFault::Memory), "{number}");
        assert!(rt; heap.asked(number) == number);
    }
    Ok(())
}

static TEXTS: [&str; PLACES] = [
    "<",
    "&",
    "\"",
    "'",
    " ",
    "'",
    "\"",
    "\\",
    "</style>",
    "\"",
    "</title>",
    "</desc>",
    "'",
    "</svg>",
    "</mi>",
    "&",
    "<",
    "</noscript>",
    "<!--",
];

#[test]
fn an_append_asks_once_or_not_at_all(rt: HostRuntime) -> Result<(), Fail> {
    let parts = parts(rt.alloc())?;
    let Ok(template) = Template::new(rt.alloc(), &parts) else {
        panic!(rt; "the parts are a template");
    };
    let heap = Refusing::new(rt.alloc(), 0);
    let mut output = String::from_str(&heap, "x")?;
    // The one request, refused.
    heap.refuse(1);
    assert!(rt; template.append(&mut output, &TEXTS) == Err(FillFault::Memory));
    assert!(rt; output.as_str() == "x");
    assert!(rt; heap.asked(1) == 1);
    // The one request, and no other.
    heap.refuse(2);
    assert!(rt; template.append(&mut output, &TEXTS) == Ok(()));
    assert!(rt; heap.asked(2) == 1);
    // None, where there is room, or the texts do not fill the template.
    let length = output.len();
    heap.refuse(0);
    let mut roomy = String::with_capacity(&heap, length)?;
    heap.refuse(1);
    assert!(rt; template.append(&mut roomy, &["a"]) == Err(FillFault::WrongCount));
    assert!(rt; template.append(&mut roomy, &TEXTS) == Ok(()));
    assert!(rt; heap.asked(1) == 0);
    assert!(rt; output.as_str().strip_prefix("x") == Some(roomy.as_str()));
    Ok(())
}

// Of `<`, of which each becomes four bytes: a page that is made on the stack, one that outgrows it,
// and one that is too long for it from the first.
static LENGTHS: [usize; 3] = [400, 1000, 3000];

#[test]
fn an_append_of_any_length_asks_once_or_not_at_all(rt: HostRuntime) -> Result<(), Fail> {
    let parts = [Part::Markup("<p>"), Part::Slot, Part::Markup("</p>")];
    let Ok(template) = Template::new(rt.alloc(), &parts) else {
        panic!(rt; "the parts are a template");
    };
    let heap = Refusing::new(rt.alloc(), 0);
    for &length in &LENGTHS {
        let (mut text, mut page) = (String::new(rt.alloc()), String::new(rt.alloc()));
        page.push_str("x<p>")?;
        for _ in 0..length {
            text.push_str("<")?;
            page.push_str("&lt;")?;
        }
        page.push_str("</p>")?;
        heap.refuse(0);
        let mut output = String::from_str(&heap, "x")?;
        heap.refuse(1);
        assert!(rt; template.append(&mut output, &[text.as_str()]) == Err(FillFault::Memory));
        assert!(rt; output.as_str() == "x" && heap.asked(1) == 1, "{length}");
        heap.refuse(2);
        assert!(rt; template.append(&mut output, &[text.as_str()]) == Ok(()));
        assert!(rt;
            output.as_str() == page.as_str() && heap.asked(2) == 1,
            "{length}"
        );
        // Into the room that is there.
        heap.refuse(0);
        let mut roomy = String::with_capacity(&heap, page.len())?;
        roomy.push_str("x")?;
        heap.refuse(1);
        assert!(rt; template.append(&mut roomy, &[text.as_str()]) == Ok(()));
        assert!(rt;
            roomy.as_str() == page.as_str() && heap.asked(1) == 0,
            "{length}"
        );
    }
    Ok(())
}

const SOURCE: &str =
    "<p title=\"{{title}}\">{{body}}</p><script>f('{{body}}', \"{{other}}\")</script>";

#[test]
fn every_request_of_parse_is_refused_in_turn(rt: HostRuntime) {
    let heap = Refusing::new(rt.alloc(), 0);
    assert!(rt; NamedTemplate::parse(&heap, SOURCE).is_ok());
    let requests = heap.asked(0);
    // The parts, the names, the pieces and the word, all of which double.
    assert!(rt; requests >= 4 && requests <= 16, "{requests}");
    for number in 1..=requests {
        heap.refuse(number);
        let fault = match NamedTemplate::parse(&heap, SOURCE) {
            Ok(_) => None,
            Err(fault) => Some(fault),
        };
        assert!(rt; fault == Some(SourceFault::Memory), "{number}");
        assert!(rt; heap.asked(number) == number);
    }
}

#[test]
fn every_request_of_a_named_append_is_refused_in_turn(rt: HostRuntime) -> Result<(), Fail> {
    let heap = Refusing::new(rt.alloc(), 0);
    let Ok(template) = NamedTemplate::parse(&heap, SOURCE) else {
        panic!(rt; "the source is a template");
    };
    let bindings = [("title", "\""), ("body", "</p>"), ("other", "'")];
    let mut output = String::new(&heap);
    heap.refuse(0);
    assert!(rt; template.append(&mut output, &bindings) == Ok(()));
    let requests = heap.asked(0);
    // The output alone.
    assert!(rt; requests == 1, "{requests}");
    for number in 1..=requests {
        let mut output = String::new(&heap);
        heap.refuse(number);
        assert!(rt; template.append(&mut output, &bindings) == Err(BindFault::Memory));
        assert!(rt; output.as_str().is_empty());
        assert!(rt; heap.asked(number) == number);
    }
    Ok(())
}

/// Whether this is the fault, the output stays as it was, and no memory is asked for.
fn is_told<'h>(
    heap: &'h Refusing<Global>,
    template: &NamedTemplate<'_, &'h Refusing<Global>>,
    bindings: &[(&str, &str)],
    fault: BindFault,
) -> bool {
    let mut output = String::new(heap);
    heap.refuse(1);
    template.append(&mut output, bindings) == Err(fault)
        && output.as_str().is_empty()
        && heap.asked(1) == 0
}

#[test]
fn a_fault_is_told_before_memory_is_asked_for(rt: HostRuntime) {
    let heap = Refusing::new(rt.alloc(), 0);
    let Ok(template) = NamedTemplate::parse(&heap, SOURCE) else {
        panic!(rt; "the source is a template");
    };
    let unknown = [("title", ""), ("body", ""), ("other", ""), ("none", "")];
    assert!(rt; is_told(&heap, &template, &unknown, BindFault::Unknown(3)));
    let doubled = [("title", ""), ("body", ""), ("other", ""), ("body", "")];
    assert!(rt; is_told(&heap, &template, &doubled, BindFault::Doubled(1)));
    let missing = [("body", ""), ("other", "")];
    assert!(rt; is_told(&heap, &template, &missing, BindFault::Missing(0)));
    let missing = [("title", ""), ("body", "")];
    assert!(rt; is_told(&heap, &template, &missing, BindFault::Missing(3)));
    let missing = [("other", ""), ("title", "")];
    assert!(rt; is_told(&heap, &template, &missing, BindFault::Missing(1)));
    heap.refuse(0);
    let Ok(template) = NamedTemplate::parse(&heap, "<p title={{title}}>{{body}}</p>") else {
        panic!(rt; "the source is a template");
    };
    let empty = [("title", ""), ("body", "")];
    let fault = BindFault::Fill(FillFault::Text(0, TextFault::EmptyUnquoted));
    assert!(rt; is_told(&heap, &template, &empty, fault));
    let empty = [("body", ""), ("title", "")];
    assert!(rt; is_told(&heap, &template, &empty, fault));
}

/// What an append asks for: how often, and how many bytes.
fn asked_for<'h>(
    heap: &'h Refusing<Global>,
    template: &NamedTemplate<'_, &'h Refusing<Global>>,
    bindings: &[(&str, &str)],
) -> (u64, u64) {
    let mut output = String::new(heap);
    heap.refuse(0);
    let done = template.append(&mut output, bindings).is_ok();
    let asked = (heap.asked(0), heap.asked_bytes());
    if done { asked } else { (0, 0) }
}

// Names in slots, of which each stands in so many. A table of the bindings of up to 256 names is kept
// on the stack.
static NAMES_AND_TIMES: [(usize, usize); 4] = [(10, 1), (10, 100), (256, 3), (257, 3)];

#[test]
fn a_named_append_asks_for_its_page(rt: HostRuntime) -> Result<(), Fail> {
    let heap = Refusing::new(rt.alloc(), 0);
    for &(count, times) in &NAMES_AND_TIMES {
        let names = names(rt.alloc(), count)?;
        let mut source = String::new(rt.alloc());
        for _ in 0..times {
            source.push_str(named::source(rt.alloc(), &names)?.as_str())?;
        }
        let Ok(template) = NamedTemplate::parse(&heap, source.as_str()) else {
            panic!(rt; "the source is a template");
        };
        let mut output = String::new(rt.alloc());
        let in_order = bindings(rt.alloc(), &names, false)?;
        assert!(rt; template.append(&mut output, &in_order) == Ok(()));
        let page = output.len() as u64;
        let (requests, bytes) = asked_for(&heap, &template, &in_order);
        assert!(rt; requests == 1 && bytes <= page + 16, "{count} {bytes}");
        let reversed = bindings(rt.alloc(), &names, true)?;
        let (requests, bytes) = asked_for(&heap, &template, &reversed);
        if count <= 256 {
            assert!(rt; requests == 1 && bytes <= page + 16, "{count} {bytes}");
        } else {
            let table = 8 * count as u64;
            let most = page.saturating_add(table + 16);
            assert!(rt; requests == 2 && bytes <= most, "{count} {bytes}");
        }
    }
    Ok(())
}

/// Whether this is the fault and the output stays as it was, whether or not memory is refused.
fn is_answered<'h>(
    heap: &'h Refusing<Global>,
    template: &NamedTemplate<'_, &'h Refusing<Global>>,
    bindings: &[(&str, &str)],
    fault: BindFault,
) -> bool {
    for refused in 0..2 {
        let mut output = String::new(heap);
        heap.refuse(refused);
        if template.append(&mut output, bindings) != Err(fault) || !output.as_str().is_empty() {
            return false;
        }
    }
    true
}

#[test]
fn a_fault_of_many_names_is_told_with_memory_and_without(rt: HostRuntime) -> Result<(), Fail> {
    let heap = Refusing::new(rt.alloc(), 0);
    let names = names(rt.alloc(), 600)?;
    let source = named::source(rt.alloc(), &names)?;
    let Ok(template) = NamedTemplate::parse(&heap, source.as_str()) else {
        panic!(rt; "the source is a template");
    };
    for is_reversed in [false, true] {
        let mut bindings = bindings(rt.alloc(), &names, is_reversed)?;
        bindings.push(("n599", ""))?;
        bindings.push(("n300", ""))?;
        let first = if is_reversed { 0 } else { 300 };
        let doubled = BindFault::Doubled(first);
        assert!(rt; is_answered(&heap, &template, &bindings, doubled));
        let last = bindings.len().saturating_sub(3);
        bindings.truncate(last);
        let missing = BindFault::Missing(if is_reversed { 0 } else { 599 });
        assert!(rt; is_answered(&heap, &template, &bindings, missing));
        bindings.push(("none", ""))?;
        let unknown = BindFault::Unknown(bindings.len().saturating_sub(1));
        assert!(rt; is_answered(&heap, &template, &bindings, unknown));
    }
    Ok(())
}

// Markup, and how many bytes of it a reader holds at once: the longest name, type of a script, reference
// or escape.
static HELD: [(Long, usize); 15] = [
    (("", "a.", MILLION / 2, ""), 0),
    (("<!--", "- ", MILLION / 2, "-->"), 0),
    (("<script>", "a/**/", MILLION / 5, "</script>"), 6),
    (("<script>", "'\\x41'+", MILLION / 7, "''</script>"), 6),
    (("", "<p title=\"a\">b</p>", MILLION / 19, ""), 5),
    (("", "<a href=\"https://a.b/c\">", MILLION / 24, ""), 5),
    (("", "&amp;", MILLION / 5, ""), 3),
    (("<p title=\"", "a", MILLION, "\">"), 5),
    (("<a href=\"", "a", MILLION, "/\">"), 4),
    (("<p ", "a", MILLION, "=b>"), MILLION),
    (("<", "p", MILLION, ">"), MILLION),
    (("&#", "0", MILLION, "65;"), MILLION + 3),
    (("&", "a", MILLION, " "), MILLION),
    (("<title></", "a", MILLION, "></title>"), MILLION),
    (("<script>'</", "a", MILLION, "'</script>"), MILLION),
];

// The room is doubled when it is full, so that all requests together are for at most four times of what
// is held.
const DOUBLED: usize = 4;

#[test]
fn a_reader_asks_for_what_it_holds(rt: HostRuntime) -> Result<(), Fail> {
    for &(long, held) in &HELD {
        let page = long_text(rt.alloc(), long)?;
        let most = held.saturating_mul(DOUBLED).saturating_add(SMALL) as u64;
        let heap = Refusing::new(rt.alloc(), 0);
        let mut whole = Reader::new(&heap);
        whole.read(page.as_bytes())?;
        assert!(rt; whole.may_end() && heap.asked_bytes() <= most, "{long:?}");
        heap.refuse(0);
        let mut bytewise = Reader::new(&heap);
        for byte in page.as_bytes() {
            bytewise.read(slice::from_ref(byte))?;
        }
        assert!(rt;
            bytewise.may_end() && heap.asked_bytes() <= most,
            "{long:?} byte by byte"
        );
    }
    Ok(())
}

static SMALL_TEXTS: [&str; 3] = ["", "abc", "a<b"];

#[test]
fn small_appends_ask_rarely(rt: HostRuntime) -> Result<(), Fail> {
    let parts = [Part::Slot];
    let Ok(template) = Template::new(rt.alloc(), &parts) else {
        panic!(rt; "the parts are a template");
    };
    let heap = Refusing::new(rt.alloc(), 0);
    let Ok(named) = NamedTemplate::parse(&heap, "<p title=\"{{a}}\">{{b}}</p>") else {
        panic!(rt; "the source is a template");
    };
    for &text in &SMALL_TEXTS {
        heap.refuse(0);
        let mut output = String::new(&heap);
        for _ in 0..APPENDS {
            assert!(rt; template.append(&mut output, &[text]) == Ok(()));
        }
        assert!(rt; heap.asked(0) <= MOST_REQUESTS, "{text}");
        heap.refuse(0);
        let mut output = String::new(&heap);
        for _ in 0..APPENDS {
            let bindings = [("b", text), ("a", text)];
            assert!(rt; named.append(&mut output, &bindings) == Ok(()));
        }
        assert!(rt; heap.asked(0) <= MOST_REQUESTS, "{text}");
    }
    Ok(())
}

// The bytes that a piece takes in a list that is made at once, and a part and a name in one that grows.
const PIECE: usize = 40;

const PART: usize = DOUBLED * 24;

const NAME: usize = DOUBLED * 16;

// What is kept of a slot beside its name, and of each name beside that, to find it by.
const NUMBER: usize = 8;

const FOUND: usize = 256;

#[test]
fn a_template_asks_for_its_pieces(rt: HostRuntime) -> Result<(), Fail> {
    for &length in &[1, 1000, MILLION] {
        let markup = long_text(rt.alloc(), ("<p>", "a", length, "</p>"))?;
        for &count in &[1, 1000_usize] {
            let mut parts = Vec::new(rt.alloc());
            for _ in 0..count {
                parts.push(Part::Markup(if count == 1 {
                    markup.as_str()
                } else {
                    "<p>a</p>"
                }))?;
                parts.push(Part::Slot)?;
            }
            let heap = Refusing::new(rt.alloc(), 0);
            assert!(rt; Template::new(&heap, &parts).is_ok());
            let most = parts.len().saturating_mul(PIECE).saturating_add(2 * SMALL);
            let asked = heap.asked_bytes();
            assert!(rt; asked <= most as u64, "{asked} for {count} of {length}");
        }
    }
    Ok(())
}

#[test]
fn a_named_template_asks_for_its_lists(rt: HostRuntime) -> Result<(), Fail> {
    for &length in &[1, MILLION] {
        let markup = long_text(rt.alloc(), ("<p>", "a", length, "</p>"))?;
        for &(count, times) in &NAMES_AND_TIMES {
            let names = names(rt.alloc(), count)?;
            let mut source = String::from_str(rt.alloc(), markup.as_str())?;
            for _ in 0..times {
                source.push_str(named::source(rt.alloc(), &names)?.as_str())?;
            }
            let heap = Refusing::new(rt.alloc(), 0);
            assert!(rt; NamedTemplate::parse(&heap, source.as_str()).is_ok());
            // A source has a slot of each name, and one more.
            let slots = count.saturating_add(1).saturating_mul(times);
            let parts = slots.saturating_mul(2).saturating_add(1);
            let listed = parts.saturating_mul(PIECE + PART);
            let named = slots.saturating_mul(NAME + NUMBER);
            let found = count.saturating_mul(FOUND);
            let most = listed.saturating_add(named).saturating_add(found);
            let asked = heap.asked_bytes();
            assert!(rt;
                asked <= most as u64,
                "{asked} for {count} names in {slots} slots, {most}"
            );
        }
    }
    Ok(())
}
