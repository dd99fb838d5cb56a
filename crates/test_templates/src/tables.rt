//! What a row of `test_markup` does not say of the tables in the README of `html_template` and in
//! `docs/TEMPLATES.md`: the place of a slot, very many elements, and texts and bindings that do not fill.
use html_template::{FillFault, Part, PartFault, Template, TemplateFault, TextFault};
use html_template_source::SourceFault::NoTemplate;
use html_template_source::{BindFault, NamedTemplate, SourceFault};
use html_tokenizer::{Reader, SlotPlace, Standing};
use std::alloc::{AllocError, Global};
use std::process::Abort;

fn fault(alloc: Global, source: &str) -> Option<SourceFault> {
    match NamedTemplate::parse(alloc, source) {
        Ok(_) => None,
        Err(fault) => Some(fault),
    }
}

// Each template, and the place of its slot.
static PLACES: [(&str, SlotPlace); 8] = [
    ("<p>{{a}}</p>", SlotPlace::Text),
    ("<p title=\"{{a}}\">", SlotPlace::DoubleQuoted),
    ("<p title='{{a}}'>", SlotPlace::SingleQuoted),
    ("<p title={{a}}>", SlotPlace::Unquoted),
    ("<script>f('{{a}}')</script>", SlotPlace::ScriptSingle),
    ("<script>f(\"{{a}}\")</script>", SlotPlace::ScriptDouble),
    (
        "<style>p::after { content: '{{a}}' }</style>",
        SlotPlace::StyleSingle,
    ),
    (
        "<style>p::after { content: \"{{a}}\" }</style>",
        SlotPlace::StyleDouble,
    ),
];

// Where the first slot of the source stands.
fn standing(alloc: Global, source: &str) -> Result<Standing, AllocError> {
    let Some((markup, _)) = source.split_once("{{") else {
        return Ok(Standing::Nowhere);
    };
    let mut reader = Reader::new(alloc);
    reader.read(markup.as_bytes())?;
    Ok(reader.slot())
}

#[test]
fn slots_stand_in_their_places(rt: HostRuntime) -> Result<(), AllocError> {
    for &(source, place) in &PLACES {
        assert!(rt; fault(rt.alloc(), source) == None, "{source}");
        assert!(rt;
            standing(rt.alloc(), source)? == Standing::Stands(place),
            "{source}"
        );
    }
    Ok(())
}

// As many templates, each within the one before it.
fn nested_templates(alloc: Global, count: usize) -> Result<String, AllocError> {
    let mut source = String::new(alloc);
    for _ in 0..count {
        source.push_str("<template>")?;
    }
    for _ in 0..count {
        source.push_str("</template>")?;
    }
    Ok(source)
}

#[test]
fn a_256th_open_template_is_refused(rt: HostRuntime) -> Result<(), AllocError> {
    let taken = nested_templates(rt.alloc(), 255)?;
    assert!(rt; fault(rt.alloc(), taken.as_str()) == None);
    let refused = nested_templates(rt.alloc(), 256)?;
    assert!(rt;
        fault(rt.alloc(), refused.as_str())
            == Some(NoTemplate(TemplateFault::Part(0, PartFault::Malformed)))
    );
    Ok(())
}

#[test]
fn texts_have_their_faults(rt: HostRuntime) {
    let two = [
        Part::Markup("<p>"),
        Part::Slot,
        Part::Markup("</p>"),
        Part::Slot,
    ];
    let Ok(template) = Template::new(rt.alloc(), &two) else {
        panic!(rt; "the slots stand in text");
    };
    let mut page = String::new(rt.alloc());
    assert!(rt; template.append(&mut page, &["c"]) == Err(FillFault::WrongCount));
    let unquoted = [Part::Markup("<p title="), Part::Slot, Part::Markup(">")];
    let Ok(template) = Template::new(rt.alloc(), &unquoted) else {
        panic!(rt; "the slot stands in a value");
    };
    assert!(rt;
        template.append(&mut page, &[""]) == Err(FillFault::Text(0, TextFault::EmptyUnquoted))
    );
    assert!(rt; page.as_str() == "");
}

#[test]
fn texts_of_urls_have_their_faults(rt: HostRuntime) {
    let segment = [
        Part::Markup("<a href=\"/u/"),
        Part::Slot,
        Part::Markup("\">"),
    ];
    let Ok(template) = Template::new(rt.alloc(), &segment) else {
        panic!(rt; "the slot stands in a path");
    };
    let mut page = String::new(rt.alloc());
    assert!(rt;
        template.append(&mut page, &[""]) == Err(FillFault::Text(0, TextFault::EmptySegment))
    );
    assert!(rt;
        template.append(&mut page, &[".."]) == Err(FillFault::Text(0, TextFault::DotSegment))
    );
    let link = [Part::Markup("<a href=\""), Part::Slot, Part::Markup("\">")];
    let Ok(template) = Template::new(rt.alloc(), &link) else {
        panic!(rt; "the slot is a whole URL");
    };
    let fault = template.append(&mut page, &["javascript:f()"]);
    assert!(rt; fault == Err(FillFault::Text(0, TextFault::NotALink)));
    assert!(rt; page.as_str() == "");
    let script = [
        Part::Markup("<script src=\""),
        Part::Slot,
        Part::Markup("\"></script>"),
    ];
    let Ok(template) = Template::new(rt.alloc(), &script) else {
        panic!(rt; "the slot is a whole URL");
    };
    let fault = template.append(&mut page, &["//b.example/c.js"]);
    assert!(rt; fault == Err(FillFault::Text(0, TextFault::NotAnOwnPath)));
    let items = [
        Part::Markup("<a href=\""),
        Part::Slot,
        Part::Markup("/b\">"),
    ];
    let Ok(template) = Template::new(rt.alloc(), &items) else {
        panic!(rt; "the slot is a base");
    };
    let fault = template.append(&mut page, &["//c.example"]);
    assert!(rt; fault == Err(FillFault::Text(0, TextFault::NotABase)));
    let script = [
        Part::Markup("<script src=\""),
        Part::Slot,
        Part::Markup("/b.js\"></script>"),
    ];
    let Ok(template) = Template::new(rt.alloc(), &script) else {
        panic!(rt; "the slot is an own base");
    };
    let fault = template.append(&mut page, &["https://c.example"]);
    assert!(rt; fault == Err(FillFault::Text(0, TextFault::NotAnOwnBase)));
    assert!(rt; page.as_str() == "");
}

// The fault of these bindings for the slots of the source, if it is a template.
fn bind_fault(alloc: Global, source: &str, bindings: &[(&str, &str)]) -> Option<BindFault> {
    let Ok(template) = NamedTemplate::parse(alloc, source) else {
        return None;
    };
    let mut page = String::new(alloc);
    template.append(&mut page, bindings).err()
}

#[test]
fn bindings_have_their_faults(rt: HostRuntime) {
    let unknown = bind_fault(rt.alloc(), "{{a}}", &[("a", "c"), ("b", "d")]);
    assert!(rt; unknown == Some(BindFault::Unknown(1)));
    let doubled = bind_fault(rt.alloc(), "{{a}}", &[("a", "c"), ("a", "d")]);
    assert!(rt; doubled == Some(BindFault::Doubled(0)));
    let missing = bind_fault(rt.alloc(), "{{a}}{{b}}", &[("a", "c")]);
    assert!(rt; missing == Some(BindFault::Missing(1)));
    let empty = bind_fault(rt.alloc(), "<p title={{a}}>", &[("a", "")]);
    assert!(rt; empty == Some(BindFault::Fill(FillFault::Text(0, TextFault::EmptyUnquoted))));
}
