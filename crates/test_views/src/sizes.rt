//! Sources of many tags and deep data. What is long is passed once: none of these takes more than seconds.
use html_view::{Position, TagFault, Value, View, ViewFault};
use json::Scratch;
use std::alloc::{AllocError, Global};
use std::test::Fail;

// A text so often.
fn repeated(alloc: Global, text: &str, times: usize) -> Result<String, AllocError> {
    let mut all = String::new(alloc);
    for _ in 0..times {
        all.push_str(text)?;
    }
    Ok(all)
}

#[test]
fn million_openings_are_too_deep(rt: HostRuntime) -> Result<(), Fail> {
    let source = repeated(rt.alloc(), "{{#a}}", 1_000_000)?;
    let Err(refused) = View::parse(rt.alloc(), source.as_str(), &[]) else {
        panic!(rt; "it is a view");
    };
    let position = Position { text: 0, byte: 192 };
    assert!(rt; refused.fault == ViewFault::Tag(position, TagFault::TooDeep));
    Ok(())
}

// How many nodes a source has.
fn count_nodes(alloc: Global, source: &str) -> Option<usize> {
    match View::parse(alloc, source, &[]) {
        Ok(view) => Some(view.nodes().len()),
        Err(_) => None,
    }
}

#[test]
fn many_sections_stand_in_a_row(rt: HostRuntime) -> Result<(), Fail> {
    for section in [
        "{{#a}}<b>{{c}}</b>{{/a}}",
        "<p {{#a}}title{{/a}}>",
        "{{^a}}b{{/a}}{{?a}}c{{/a}}",
    ] {
        let source = repeated(rt.alloc(), section, 5_000)?;
        let count = count_nodes(rt.alloc(), source.as_str());
        assert!(rt; count.is_some_and(|count| count >= 5_000), "{section}");
    }
    Ok(())
}

// Names that differ, with a letter before their numbers.
fn numbered(alloc: Global, count: usize) -> Result<Vec<String>, AllocError> {
    let mut names = Vec::new(alloc);
    for number in 0..count {
        names.push(format!(in alloc; "p{number}")?)?;
    }
    Ok(names)
}

// Partials of these names, each of one slot.
fn partials_of<'t>(
    alloc: Global,
    names: &'t [String],
) -> Result<Vec<(&'t str, &'t str)>, AllocError> {
    let mut partials = Vec::new(alloc);
    for name in names {
        partials.push((name.as_str(), "{{a}}"))?;
    }
    Ok(partials)
}

#[test]
fn many_partials_are_given(rt: HostRuntime) -> Result<(), Fail> {
    let names = numbered(rt.alloc(), 20_000)?;
    let partials = partials_of(rt.alloc(), &names)?;
    let source = "{{>p0}}{{>p19999}}{{>p10000}}";
    let Ok(view) = View::parse(rt.alloc(), source, &partials) else {
        panic!(rt; "each partial is there");
    };
    assert!(rt; view.nodes().len() == 3);
    Ok(())
}

#[test]
fn many_names_are_asked_for(rt: HostRuntime) -> Result<(), Fail> {
    let mut source = String::new(rt.alloc());
    for name in &numbered(rt.alloc(), 10_000)? {
        write!(source, "{{{{{name}}}}}")?;
    }
    let Ok(view) = View::parse(rt.alloc(), source.as_str(), &[]) else {
        panic!(rt; "each is a slot");
    };
    assert!(rt; view.names()?.len() == 10_000);
    Ok(())
}

// The page of JSON by a source.
fn page_of(alloc: Global, text: &str, source: &str) -> Result<String, AllocError> {
    let mut scratch = Scratch::new(alloc);
    let Ok(tree) = json::Value::parse(alloc, text, &mut scratch) else {
        return format!(in alloc; "no JSON");
    };
    let Ok(view) = View::parse(alloc, source, &[]) else {
        return format!(in alloc; "no view");
    };
    let mut page = String::new(alloc);
    match view.append(&mut page, Value::of_json(&tree)) {
        Ok(()) => Ok(page),
        Err(fault) => format!(in alloc; "{fault:?}"),
    }
}

// So many records in each other, each of one value, `a`, and in the innermost one the text `b`.
fn nested(alloc: Global, levels: usize) -> Result<String, AllocError> {
    let mut text = repeated(alloc, "{\"a\":", levels)?;
    text.push_str("\"b\"")?;
    text.push_str(repeated(alloc, "}", levels)?.as_str())?;
    Ok(text)
}

#[test]
fn data_nests_as_deep_as_sections(rt: HostRuntime) -> Result<(), Fail> {
    let mut source = repeated(rt.alloc(), "{{#a}}", 32)?;
    source.push_str("{{.}}")?;
    source.push_str(repeated(rt.alloc(), "{{/a}}", 32)?.as_str())?;
    let text = nested(rt.alloc(), 32)?;
    let page = page_of(rt.alloc(), text.as_str(), source.as_str())?;
    assert!(rt; page.as_str() == "b", "{page}");
    Ok(())
}

#[test]
fn data_nests_as_deep_as_a_name(rt: HostRuntime) -> Result<(), Fail> {
    let mut source = String::from_str(rt.alloc(), "{{a")?;
    source.push_str(repeated(rt.alloc(), ".a", 99)?.as_str())?;
    source.push_str("}}")?;
    let text = nested(rt.alloc(), 100)?;
    let page = page_of(rt.alloc(), text.as_str(), source.as_str())?;
    assert!(rt; page.as_str() == "b", "{page}");
    Ok(())
}
