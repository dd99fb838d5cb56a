//! Memory that is refused.
use html_view::{DataFault, Value, View, ViewFault};
use json::Scratch;
use std::alloc::Global;
use std::test::Fail;
use test_support::Refusing;

// Each kind of tag, in a layout, its block and a partial.
static SOURCE: &str = "{{<l}}{{$b}}{{#x}}a{{/x}} {{^x}}{{>p}}{{/x}}{{/b}}{{/l}}{{^y}}c{{/y}}";

static PARTIALS: [(&str, &str); 2] = [
    ("p", "<p title=\"{{a}}\">"),
    ("l", "{{?z}}{{\"{{\"}}{{/z}}{{$b}}{{/b}}{{! }}"),
];

// Whether each request is refused in turn, and each refusal told. There are so many requests at least.
fn refuses_each<'x>(
    alloc: Global,
    source: &'x str,
    partials: &[(&'x str, &'x str)],
    least: u64,
) -> bool {
    let heap = Refusing::new(alloc, 0);
    if View::parse(&heap, source, partials).is_err() {
        return false;
    }
    let requests = heap.asked(0);
    for number in 1..=requests {
        heap.refuse(number);
        let fault = match View::parse(&heap, source, partials) {
            Ok(_) => None,
            Err(refused) => Some(refused.fault),
        };
        if fault != Some(ViewFault::Memory) || heap.asked(number) != number {
            return false;
        }
    }
    requests >= least
}

#[test]
fn every_request_of_parse_is_refused_in_turn(rt: HostRuntime) -> Result<(), Fail> {
    assert!(rt; refuses_each(rt.alloc(), SOURCE, &PARTIALS, 15));
    Ok(())
}

#[test]
fn every_request_of_spelling_is_refused_in_turn(rt: HostRuntime) -> Result<(), Fail> {
    assert!(rt; refuses_each(rt.alloc(), "<p {{a}}>{{?b}}{{c}}{{/b}}", &[], 200));
    Ok(())
}

const DATA: &str = "{\"l\": [\"<\", true], \"x\": \"a&b\"}";

#[test]
fn every_request_of_append_is_refused_in_turn(rt: HostRuntime) -> Result<(), Fail> {
    let mut scratch = Scratch::new(rt.alloc());
    let Ok(tree) = json::Value::parse(rt.alloc(), DATA, &mut scratch) else {
        panic!(rt; "the data is JSON");
    };
    let heap = Refusing::new(rt.alloc(), 0);
    let Ok(view) = View::parse(&heap, "{{#l}}<b>{{.}}</b>{{/l}}<p>{{x}}", &[]) else {
        panic!(rt; "the source is a view");
    };
    let mut page = String::from_str(&heap, "x")?;
    heap.refuse(0);
    assert!(rt; view.append(&mut page, Value::of_json(&tree)) == Ok(()));
    assert!(rt; page.as_str() == "x<b>&lt;</b><b>true</b><p>a&amp;b");
    let requests = heap.asked(0);
    assert!(rt; requests >= 1, "{requests}");
    for number in 1..=requests {
        heap.refuse(0);
        let mut page = String::from_str(&heap, "x")?;
        heap.refuse(number);
        let outcome = view.append(&mut page, Value::of_json(&tree));
        assert!(rt; outcome == Err(DataFault::Memory), "{number}");
        assert!(rt; page.as_str() == "x", "{number}");
    }
    Ok(())
}
