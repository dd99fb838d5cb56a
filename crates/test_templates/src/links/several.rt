//! Several slots in one URL, and several URLs in one template.
use html_template::PartFault::{AfterLink, DotSegment, NotFixed, NotPlain};
use html_template::TemplateFault::Part as At;
use html_template::{Part, Template, TemplateFault};
use std::process::Abort;

static PAGE: [Part; 13] = [
    Part::Markup("<form action=\"/s/"),
    Part::Slot,
    Part::Markup("/t?b="),
    Part::Slot,
    Part::Markup("#"),
    Part::Slot,
    Part::Markup("\"><a title="),
    Part::Slot,
    Part::Markup(" href='"),
    Part::Slot,
    Part::Markup("'><img src=/p-"),
    Part::Slot,
    Part::Markup(".png>"),
];

#[test]
fn each_slot_is_written_for_its_part(rt: HostRuntime) {
    let Ok(template) = Template::new(rt.alloc(), &PAGE) else {
        panic!(rt; "each slot stands in its part");
    };
    let mut page = String::new(rt.alloc());
    let texts = ["a/b", "c&d", "e#\"f", "g h", "//i?j&k'l", ".."];
    assert!(rt; template.append(&mut page, &texts) == Ok(()));
    assert!(rt;
        page.as_str()
            == "<form action=\"/s/a%2Fb/t?b=c%26d#e%23%22f\"><a title=g&#x20;h href='//i?j&amp;k&#x27;l'><img src=/p-...png>"
    );
}

// Parts, and the fault of each.
static FAULTS: [(&[Part], Option<TemplateFault>); 16] = [
    (
        &[
            Part::Markup("<a href=\"/u/"),
            Part::Slot,
            Part::Markup("/b%"),
            Part::Markup(""),
            Part::Slot,
            Part::Markup("\">"),
        ],
        Some(At(2, NotPlain)),
    ),
    (
        &[Part::Markup("<a href=\"/a"), Part::Markup("/"), Part::Slot],
        Some(At(2, NotFixed)),
    ),
    (
        &[Part::Markup("<a href=\""), Part::Markup(""), Part::Slot],
        Some(At(2, NotFixed)),
    ),
    (
        &[Part::Markup("<a href=\""), Part::Slot, Part::Slot],
        Some(At(2, AfterLink)),
    ),
    (
        &[
            Part::Markup("<a href=\""),
            Part::Slot,
            Part::Markup(""),
            Part::Slot,
        ],
        Some(At(3, AfterLink)),
    ),
    (
        &[
            Part::Markup("<a href=\""),
            Part::Slot,
            Part::Markup(""),
            Part::Markup("\">"),
        ],
        None,
    ),
    (
        &[
            Part::Markup("<a href=\"/a/"),
            Part::Slot,
            Part::Slot,
            Part::Markup("\">"),
        ],
        None,
    ),
    (
        &[
            Part::Markup("<a href=\"/a/b"),
            Part::Slot,
            Part::Slot,
            Part::Markup("\">"),
        ],
        None,
    ),
    (
        &[
            Part::Markup("<a href=\"?"),
            Part::Slot,
            Part::Slot,
            Part::Markup("\">"),
        ],
        None,
    ),
    (
        &[
            Part::Markup("<a href=\"/a/"),
            Part::Slot,
            Part::Markup("/"),
            Part::Markup("b/"),
            Part::Slot,
            Part::Markup("\">"),
        ],
        None,
    ),
    (
        &[
            Part::Markup("<a href=\"/a/"),
            Part::Slot,
            Part::Markup("/."),
            Part::Markup("./"),
        ],
        Some(At(3, DotSegment)),
    ),
    (
        &[
            Part::Markup("<a href=\"/a?b="),
            Part::Slot,
            Part::Markup("&am"),
            Part::Markup("p;c=\">"),
        ],
        Some(At(2, NotPlain)),
    ),
    (
        &[
            Part::Markup("<a href=\"/a/"),
            Part::Slot,
            Part::Markup("\"><a href=\"javascript:"),
            Part::Slot,
            Part::Markup("\">"),
        ],
        Some(At(3, NotFixed)),
    ),
    (
        &[
            Part::Markup("<a href=\"javascript:f("),
            Part::Slot,
            Part::Markup(")?"),
            Part::Slot,
            Part::Markup("\">"),
        ],
        Some(At(1, NotFixed)),
    ),
    (
        &[
            Part::Markup("<a href=\"a"),
            Part::Slot,
            Part::Markup("b"),
            Part::Markup(":c\">"),
        ],
        Some(At(3, NotFixed)),
    ),
    (
        &[
            Part::Markup("<a href=\"a"),
            Part::Slot,
            Part::Markup("b"),
            Part::Markup("/"),
            Part::Markup(":c\">"),
        ],
        None,
    ),
];

// A URL that begins with a slot, in parts of which two are markup.
static BASES: [(&[Part], Option<TemplateFault>); 8] = [
    (
        &[
            Part::Markup("<a href=\""),
            Part::Slot,
            Part::Markup("/"),
            Part::Slot,
            Part::Markup("\">"),
        ],
        None,
    ),
    (
        &[
            Part::Markup("<a href=\""),
            Part::Slot,
            Part::Markup("/"),
            Part::Markup("b\">"),
        ],
        None,
    ),
    (
        &[
            Part::Markup("<a href=\""),
            Part::Slot,
            Part::Markup("/b"),
            Part::Markup("//c\">"),
        ],
        None,
    ),
    // With an empty text the two would begin a host.
    (
        &[
            Part::Markup("<a href=\""),
            Part::Slot,
            Part::Markup("/"),
            Part::Markup("/b\">"),
        ],
        Some(At(3, AfterLink)),
    ),
    (
        &[
            Part::Markup("<a href=\""),
            Part::Slot,
            Part::Markup("//b\">"),
        ],
        Some(At(2, AfterLink)),
    ),
    (
        &[
            Part::Markup("<a href=\""),
            Part::Slot,
            Part::Markup(""),
            Part::Markup("/b\">"),
        ],
        Some(At(3, AfterLink)),
    ),
    (
        &[
            Part::Markup("<a href=\""),
            Part::Slot,
            Part::Slot,
            Part::Markup("/b\">"),
        ],
        Some(At(2, AfterLink)),
    ),
    (
        &[Part::Markup("<a href=\""), Part::Slot, Part::Markup("/b")],
        Some(TemplateFault::Unfinished),
    ),
];

#[test]
fn faults_are_told_part_by_part(rt: HostRuntime) {
    for &(parts, wanted) in &FAULTS {
        let fault = Template::new(rt.alloc(), parts).err();
        assert!(rt; fault == wanted, "{parts:?}");
    }
}

#[test]
fn a_base_goes_on_over_parts_with_one_slash(rt: HostRuntime) {
    for &(parts, wanted) in &BASES {
        let fault = Template::new(rt.alloc(), parts).err();
        assert!(rt; fault == wanted, "{parts:?}");
    }
}
