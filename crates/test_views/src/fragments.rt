//! Fragments in views.
use html_view::{DataFault, Fragment, FragmentBuf, Position, Value, ValueFault, View};
use std::alloc::{AllocError, Global};
use std::test::Fail;

const HOSTILE: &str = "</b></script><!--\"'&{{{";

// The page of a record with this value as `a`, or its fault.
fn page_with(alloc: Global, source: &str, value: Value<'_, '_>) -> Result<String, DataFault> {
    let Ok(view) = View::parse(alloc, source, &[]) else {
        return Err(DataFault::Memory);
    };
    let mut page = String::new(alloc);
    view.append(&mut page, Value::Record(&[("a", value)]))?;
    Ok(page)
}

// The fragment of `<b>`, this text and `</b>`.
fn bold(alloc: Global, text: &str) -> Result<FragmentBuf, DataFault> {
    let Ok(view) = View::parse(alloc, "<b>{{t}}</b>", &[]) else {
        return Err(DataFault::Memory);
    };
    view.fragment(alloc, Value::Record(&[("t", Value::Text(text))]))
}

#[test]
fn fragment_stands_as_it_is(rt: HostRuntime) -> Result<(), Fail> {
    let Ok(made) = bold(rt.alloc(), HOSTILE) else {
        panic!(rt; "the text fills its slot");
    };
    let markup = "<b>&lt;/b&gt;&lt;/script&gt;&lt;!--\"'&amp;{{{</b>";
    assert!(rt; made.as_fragment().as_str() == markup);
    let value = Value::Fragment(made.as_fragment());
    for source in [
        "{{{a}}}",
        "{{&a}}",
        "{{?a}}{{{a}}}{{/a}}",
        "{{#a}}{{{.}}}{{/a}}",
    ] {
        match page_with(rt.alloc(), source, value) {
            Ok(page) => assert!(rt; page.as_str() == markup, "{source}: {page}"),
            Err(_) => panic!(rt; "{source} has a page"),
        }
    }
    Ok(())
}

#[test]
fn fragments_are_joined(rt: HostRuntime) -> Result<(), Fail> {
    let mut list = FragmentBuf::new(rt.alloc());
    for text in ["a<b", "c"] {
        let Ok(item) = bold(rt.alloc(), text) else {
            panic!(rt; "the text fills its slot");
        };
        list.push(item.as_fragment())?;
        list.push_text(" & ")?;
    }
    assert!(rt; list.as_fragment().as_str() == "<b>a&lt;b</b> &amp; <b>c</b> &amp; ");
    Ok(())
}

#[test]
fn fragment_stands_in_a_layout(rt: HostRuntime) -> Result<(), Fail> {
    let Ok(made) = bold(rt.alloc(), "a<b") else {
        panic!(rt; "the text fills its slot");
    };
    let value = Value::Fragment(made.as_fragment());
    let Ok(page) = page_with(rt.alloc(), "<main>{{{a}}}</main>", value) else {
        panic!(rt; "it has a page");
    };
    assert!(rt; page.as_str() == "<main><b>a&lt;b</b></main>");
    Ok(())
}

// The first byte of the tag, and the fault there.
const fn refused(byte: usize, why: ValueFault) -> DataFault {
    DataFault::Value(Position { text: 0, byte }, why)
}

#[test]
fn no_text_is_a_fragment(rt: HostRuntime) -> Result<(), Fail> {
    let others = [
        Value::Text("<b>a</b>"),
        Value::Text(""),
        Value::Flag(true),
        Value::Flag(false),
        Value::List(&[]),
        Value::Record(&[]),
    ];
    for value in others {
        let outcome = page_with(rt.alloc(), "<p>{{{a}}}", value);
        assert!(rt; outcome.err() == Some(refused(3, ValueFault::NotAFragment)));
    }
    let missing = page_with(rt.alloc(), "<p>{{{a}}}", Value::Null);
    assert!(rt; missing.err() == Some(refused(3, ValueFault::Missing)));
    Ok(())
}

#[test]
fn no_fragment_is_a_text(rt: HostRuntime) -> Result<(), Fail> {
    let Ok(made) = bold(rt.alloc(), "c") else {
        panic!(rt; "the text fills its slot");
    };
    let value = Value::Fragment(made.as_fragment());
    for (source, byte) in [
        ("{{a}}", 0),
        ("<p title=\"{{a}}\">", 10),
        ("<a href=\"{{a}}\">", 9),
    ] {
        let outcome = page_with(rt.alloc(), source, value);
        assert!(rt;
            outcome.err() == Some(refused(byte, ValueFault::NotAText)),
            "{source}"
        );
    }
    let attributes = page_with(rt.alloc(), "<p {{a}}>", value);
    assert!(rt; attributes.err() == Some(refused(3, ValueFault::NotAttributes)));
    Ok(())
}

// An empty fragment is false, as an empty text is.
#[test]
fn empty_fragment_does_not_stand(rt: HostRuntime) -> Result<(), Fail> {
    let empty = FragmentBuf::new(rt.alloc());
    let value = Value::Fragment(empty.as_fragment());
    let Ok(page) = page_with(rt.alloc(), "{{?a}}b{{/a}}{{^a}}c{{/a}}{{{a}}}", value) else {
        panic!(rt; "it has a page");
    };
    assert!(rt; page.as_str() == "c");
    Ok(())
}
