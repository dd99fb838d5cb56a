//! Texts that do not fill slots of URLs: the fault of the first, with the output as it was.
use html_template::FillFault::{Text as At, WrongCount};
use html_template::TextFault::{DotSegment, EmptySegment, EmptyUnquoted, NotALink, NotAnOwnPath};
use html_template::{FillFault, Part, Template};
use std::alloc::Global;
use std::process::Abort;
use std::test::Fail;

// The fault of these texts, where the output is as it was.
fn fault(
    rt: &impl Abort,
    alloc: Global,
    parts: &[Part],
    texts: &[&str],
) -> Result<Option<FillFault>, Fail> {
    let Ok(template) = Template::new(alloc, parts) else {
        panic!(rt; "the parts are a template");
    };
    let mut page = String::from_str(alloc, "x")?;
    let fault = template.append(&mut page, texts).err();
    assert!(rt; fault == None || page.as_str() == "x", "{texts:?}");
    Ok(fault)
}

static ORDER: [Part; 11] = [
    Part::Markup("<p title="),
    Part::Slot,
    Part::Markup("><a href=\"/u/"),
    Part::Slot,
    Part::Markup("/?q="),
    Part::Slot,
    Part::Markup("\"><a href='"),
    Part::Slot,
    Part::Markup("'>"),
    Part::Slot,
    Part::Markup("</a></a></p>"),
];

static TEXTS: [(&[&str], Option<FillFault>); 12] = [
    (
        &["", "..", "", "javascript:f()", ""],
        Some(At(0, EmptyUnquoted)),
    ),
    (
        &["a", "..", "", "javascript:f()", ""],
        Some(At(1, DotSegment)),
    ),
    (&["a", ".", "", "javascript:f()"], Some(At(1, DotSegment))),
    (
        &["a", "", "", "javascript:f()", "", "b"],
        Some(At(1, EmptySegment)),
    ),
    (&["a", "b", "", "javascript:f()", ""], Some(At(3, NotALink))),
    (&["a", "b", "..", "data:,c", ""], Some(At(3, NotALink))),
    (&["a", "b", "", "tel:1"], Some(At(3, NotALink))),
    (&["a", "b", "", "/c"], Some(WrongCount)),
    (&["a", "b"], Some(WrongCount)),
    (&["a", "b", "", "/c", "", ""], Some(WrongCount)),
    (&["a", "b", "", "", ""], None),
    (&["..", "b", ".", "//c", "javascript:f()"], None),
];

#[test]
fn the_first_fault_is_told(rt: HostRuntime) -> Result<(), Fail> {
    for &(texts, wanted) in &TEXTS {
        let fault = fault(&rt, rt.alloc(), &ORDER, texts)?;
        assert!(rt; fault == wanted, "{texts:?}");
    }
    Ok(())
}

// A whole URL that runs, and one that a reader follows.
static WHOLE: [Part; 5] = [
    Part::Markup("<script src='"),
    Part::Slot,
    Part::Markup("'></script><a href=\""),
    Part::Slot,
    Part::Markup("\"></a>"),
];

static WHOLE_TEXTS: [(&[&str], Option<FillFault>); 6] = [
    (&["", ""], Some(At(0, NotAnOwnPath))),
    (
        &["//b.example/c.js", "javascript:f()"],
        Some(At(0, NotAnOwnPath)),
    ),
    (&["https://b.example/c.js", "/d"], Some(At(0, NotAnOwnPath))),
    (&["/c.js", "javascript:f()"], Some(At(1, NotALink))),
    (&["/c.js?d#e"], Some(WrongCount)),
    (&["/c.js?d#e", "//b.example/c"], None),
];

#[test]
fn a_whole_url_is_judged_by_its_element(rt: HostRuntime) -> Result<(), Fail> {
    for &(texts, wanted) in &WHOLE_TEXTS {
        let fault = fault(&rt, rt.alloc(), &WHOLE, texts)?;
        assert!(rt; fault == wanted, "{texts:?}");
    }
    Ok(())
}
