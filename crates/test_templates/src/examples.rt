//! The examples of templates and of their laws.
use hesc_places::{Place, read_place};
use html_template::{
    Content, FillFault, FragmentBuf, Part, PartFault, Template, TemplateFault, TextFault, Texts,
    laws,
};
use html_template_source::{BindFault, NamedTemplate, SourceFault, cut_at, laws as source_laws};
use html_tokenizer::{Reader, SlotPlace, Standing};
use std::alloc::{AllocError, Global};
use std::process::Abort;
use std::test::Fail;
use url::Url;

/// The page of the template of these parts, or the fault of its texts.
fn page(alloc: Global, template: &Template, texts: &[&str]) -> Result<String, FillFault> {
    let mut page = String::new(alloc);
    template.append(&mut page, texts)?;
    Ok(page)
}

fn is_page(alloc: Global, template: &Template, texts: &[&str], wanted: &str) -> bool {
    match page(alloc, template, texts) {
        Ok(page) => page.as_str() == wanted,
        Err(_) => false,
    }
}

static TITLE: [Part; 3] = [Part::Markup("<p title=\""), Part::Slot, Part::Markup("\">")];

static PARAGRAPH: [Part; 3] = [Part::Markup("<p>"), Part::Slot, Part::Markup("</p>")];

static TWO_PARAGRAPHS: [Part; 6] = [
    Part::Markup("<p>"),
    Part::Slot,
    Part::Markup("</p>"),
    Part::Markup("<p>"),
    Part::Slot,
    Part::Markup("</p>"),
];

#[test]
fn a_template_is_made_and_filled_as_it_is_said_to_be(rt: HostRuntime) {
    let Ok(template) = Template::new(rt.alloc(), &TITLE) else {
        panic!(rt; "the slot stands in a value");
    };
    assert!(rt; is_page(rt.alloc(), &template, &["a\""], "<p title=\"a&quot;\">"));
    assert!(rt; is_page(rt.alloc(), &template, &["\">"], "<p title=\"&quot;&gt;\">"));
    let parts = [Part::Markup("<p "), Part::Slot, Part::Markup(">")];
    assert!(rt;
        Template::new(rt.alloc(), &parts).err() == Some(TemplateFault::Part(1, PartFault::NoPlace))
    );
}

#[test]
fn fragments_are_made_and_joined_as_they_are_said_to_be(rt: HostRuntime) -> Result<(), Fail> {
    let parts = [Part::Markup("<b>"), Part::Slot, Part::Markup("</b>")];
    let Ok(template) = Template::new(rt.alloc(), &parts) else {
        panic!(rt; "the slot stands in text");
    };
    let Ok(mut made) = template.fragment(rt.alloc(), &["a"]) else {
        panic!(rt; "the text fills the slot");
    };
    assert!(rt; made.as_fragment().as_str() == "<b>a</b>");
    assert!(rt; template.fragment(rt.alloc(), &[]).err() == Some(FillFault::WrongCount));
    let mut text = FragmentBuf::new(rt.alloc());
    text.push_text("a<b")?;
    assert!(rt; text.as_fragment().as_str() == "a&lt;b");
    made.push(text.as_fragment())?;
    assert!(rt; made.as_fragment().as_str() == "<b>a</b>a&lt;b");
    Ok(())
}

#[test]
fn texts_are_taken_one_by_one_as_they_are_said_to_be(rt: HostRuntime) {
    let texts: &[&str] = &["a", "b"];
    assert!(rt; texts.count() == 2);
    let Some((first, others)) = texts.take_first() else {
        panic!(rt; "there is a text");
    };
    assert!(rt; first == "a" && others == ["b"].as_slice());
    let Ok(template) = Template::new(rt.alloc(), &TITLE) else {
        panic!(rt; "the slot stands in a value");
    };
    let mut page = String::new(rt.alloc());
    let texts: &[&str] = &["a\""];
    assert!(rt; template.append_texts(&mut page, &texts) == Ok(()));
    assert!(rt; page.as_str() == "<p title=\"a&quot;\">");
}

#[test]
fn a_source_is_parsed_and_filled_as_it_is_said_to_be(rt: HostRuntime) {
    let Ok(template) = NamedTemplate::parse(rt.alloc(), "<p>{{name}}</p>") else {
        panic!(rt; "the slot stands in text");
    };
    let mut page = String::new(rt.alloc());
    assert!(rt; template.append(&mut page, &[]) == Err(BindFault::Missing(0)));
    assert!(rt; template.append(&mut page, &[("name", "a<b")]) == Ok(()));
    assert!(rt; page.as_str() == "<p>a&lt;b</p>");
    let fault = NamedTemplate::parse(rt.alloc(), "<p {{name}}>").err();
    assert!(rt; fault == Some(SourceFault::NoTemplate(TemplateFault::Part(1, PartFault::NoPlace))));
    assert!(rt; matches!(cut_at("a{{b", "{{"), Some(("a", "b"))));
}

// How many tags a page of plain tags has.
fn tags(page: &str) -> usize {
    page.as_bytes().iter().filter(|byte| **byte == b'<').count()
}

#[test]
fn pages_have_the_structure_that_the_laws_say(rt: HostRuntime) -> Result<(), Fail> {
    let Ok(template) = Template::new(rt.alloc(), &PARAGRAPH) else {
        panic!(rt; "the slot stands in text");
    };
    assert!(rt; is_page(rt.alloc(), &template, &["<"], "<p>&lt;</p>"));
    let Ok(plain) = page(rt.alloc(), &template, &["a"]) else {
        panic!(rt; "the text fills the slot");
    };
    let Ok(hostile) = page(rt.alloc(), &template, &["</p>"]) else {
        panic!(rt; "the text fills the slot");
    };
    assert!(rt; tags(&plain) == 2 && tags(&hostile) == 2);
    laws::template_law();
    laws::structure_law();
    laws::token_law();
    laws::joined_law();
    laws::pages_law();
    let mut both = String::new(rt.alloc());
    assert!(rt; template.append(&mut both, &["a"]) == Ok(()));
    assert!(rt; template.append(&mut both, &["b"]) == Ok(()));
    assert!(rt; both.as_str() == "<p>a</p><p>b</p>");
    let Ok(joined) = Template::new(rt.alloc(), &TWO_PARAGRAPHS) else {
        panic!(rt; "the slots stand in text");
    };
    assert!(rt; is_page(rt.alloc(), &joined, &["a", "b"], "<p>a</p><p>b</p>"));
    Ok(())
}

static LINK: [Part; 3] = [
    Part::Markup("<a href=\"/?q="),
    Part::Slot,
    Part::Markup("&amp;p=1\">"),
];

#[test]
fn a_page_has_the_urls_that_the_law_says(rt: HostRuntime) -> Result<(), Fail> {
    laws::page_urls_law();
    laws::url_law();
    let Ok(template) = Template::new(rt.alloc(), &LINK) else {
        panic!(rt; "the slot stands in a query");
    };
    let Ok(page) = page(rt.alloc(), &template, &["b&p=2"]) else {
        panic!(rt; "the text fills the slot");
    };
    let base = Url::parse(rt.alloc(), "https://h.example/")?;
    assert!(rt; page.as_str() == "<a href=\"/?q=b%26p%3D2&amp;p=1\">");
    let url = base.join("/?q=b%26p%3D2&p=1")?;
    assert!(rt; url.as_str() == "https://h.example/?q=b%26p%3D2&p=1");
    Ok(())
}

static UNQUOTED: [Part; 3] = [Part::Markup("<p title="), Part::Slot, Part::Markup(">")];

#[test]
fn faults_come_where_the_laws_say(rt: HostRuntime) {
    laws::fill_faults_law();
    source_laws::bind_faults_law();
    let Ok(template) = Template::new(rt.alloc(), &UNQUOTED) else {
        panic!(rt; "the slot stands in a value");
    };
    let mut page = String::new(rt.alloc());
    let empty = FillFault::Text(0, TextFault::EmptyUnquoted);
    assert!(rt; template.append(&mut page, &[""]) == Err(empty));
    assert!(rt; template.append(&mut page, &["", "a"]) == Err(empty));
    assert!(rt; template.append(&mut page, &["a", ""]) == Err(FillFault::WrongCount));
    let Ok(named) = NamedTemplate::parse(rt.alloc(), "<p>{{a}}</p>") else {
        panic!(rt; "the slot stands in text");
    };
    let unknown = [("b", ""), ("a", "")];
    assert!(rt; named.append(&mut page, &unknown) == Err(BindFault::Unknown(0)));
}

#[test]
fn texts_are_read_as_the_law_of_agreement_says(rt: HostRuntime) -> Result<(), AllocError> {
    laws::agreement_law(Content::NORMAL, b"a&lt;b<");
    let Some(reading) = read_place(rt.alloc(), Place::Text, b"a&lt;b<")? else {
        panic!(rt; "the text has an end");
    };
    assert!(rt; reading.value.as_slice() == b"a<b".as_slice());
    assert!(rt; reading.end == 6);
    Ok(())
}

// A reader that has read these bytes of a page.
fn reader_after(alloc: Global, bytes: &[u8]) -> Result<Reader<Global>, AllocError> {
    let mut reader = Reader::new(alloc);
    reader.read(bytes)?;
    Ok(reader)
}

#[test]
fn a_reader_stands_where_it_is_said_to_stand(rt: HostRuntime) -> Result<(), AllocError> {
    assert!(rt; Reader::new(rt.alloc()).may_end());
    let mut in_a_value = reader_after(rt.alloc(), b"<p title=\"")?;
    assert!(rt; in_a_value.slot() == Standing::Stands(SlotPlace::DoubleQuoted));
    let mut in_text = reader_after(rt.alloc(), b"<p>")?;
    assert!(rt; in_text.may_end() && !in_text.is_refused());
    assert!(rt; in_text.slot() == Standing::Stands(SlotPlace::Text));
    let mut in_a_tag = reader_after(rt.alloc(), b"<p")?;
    assert!(rt; !in_a_tag.may_end());
    assert!(rt; in_a_tag.slot() == Standing::Nowhere);
    assert!(rt; reader_after(rt.alloc(), b"<xmp>")?.is_refused());
    Ok(())
}

#[test]
fn readers_are_copied_and_compared(rt: HostRuntime) -> Result<(), AllocError> {
    let open = reader_after(rt.alloc(), b"<p title=\"")?;
    let mut copy = open.copy(rt.alloc())?;
    assert!(rt; copy.is_same(&open));
    copy.read(b"a\">")?;
    assert!(rt; copy.may_end() && !copy.is_same(&open));
    let empty = reader_after(rt.alloc(), b"<p></p>")?;
    assert!(rt; empty.is_same(&reader_after(rt.alloc(), b"<p>")?));
    assert!(rt; reader_after(rt.alloc(), b"<a href=\"")?.is_in_url());
    assert!(rt; !reader_after(rt.alloc(), b"<a title=\"")?.is_in_url());
    assert!(rt; reader_after(rt.alloc(), b"<p ")?.is_between_attributes());
    assert!(rt; !reader_after(rt.alloc(), b"<p")?.is_between_attributes());
    Ok(())
}
