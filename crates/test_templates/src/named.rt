//! Texts that are bound to many names, and the fault that stands first. Of up to 256
//! names the bindings are placed on the stack: what is expected comes from the places alone.
use html_template_source::{BindFault, NamedTemplate};
use std::alloc::{AllocError, Global};
use std::process::Abort;
use std::test::Fail;

static COUNTS: [usize; 6] = [1, 2, 200, 256, 257, 600];

static PAIRS: [usize; 4] = [127, 128, 129, 300];

/// `n0`, `n1` and so on. The text of each is its number.
pub(crate) fn names(alloc: Global, count: usize) -> Result<Vec<String>, AllocError> {
    let mut names = Vec::new(alloc);
    for number in 0..count {
        names.push(format!(in alloc; "n{number}")?)?;
    }
    Ok(names)
}

fn text(name: &str) -> &str {
    name.strip_prefix("n").unwrap_or("")
}

/// A slot of each name in order, and one more of the first.
pub(crate) fn source(alloc: Global, names: &[String]) -> Result<String, AllocError> {
    let mut source = String::new(alloc);
    for name in names {
        source.push_str("<p>{{")?;
        source.push_str(name.as_str())?;
        source.push_str("}}</p>")?;
    }
    source.push_str("<b>{{n0}}</b>")?;
    Ok(source)
}

fn page(alloc: Global, names: &[String]) -> Result<String, AllocError> {
    let mut page = String::new(alloc);
    for name in names {
        page.push_str("<p>")?;
        page.push_str(text(name.as_str()))?;
        page.push_str("</p>")?;
    }
    page.push_str("<b>0</b>")?;
    Ok(page)
}

pub(crate) type Bindings<'n> = Vec<(&'n str, &'n str)>;

pub(crate) fn bindings<'n>(
    alloc: Global,
    names: &'n [String],
    is_reversed: bool,
) -> Result<Bindings<'n>, AllocError> {
    let mut bindings = Vec::new(alloc);
    for name in names {
        bindings.push((name.as_str(), text(name.as_str())))?;
    }
    if is_reversed {
        bindings.reverse();
    }
    Ok(bindings)
}

/// These bindings and one more, at this place.
fn with_one_more<'n>(
    alloc: Global,
    bindings: &[(&'n str, &'n str)],
    place: usize,
    binding: (&'n str, &'n str),
) -> Result<Bindings<'n>, AllocError> {
    let mut more = Vec::from_slice(alloc, bindings)?;
    if place <= more.len() {
        more.insert(place, binding)?;
    }
    Ok(more)
}

/// These bindings without the one at this place.
fn without_one<'n>(
    alloc: Global,
    bindings: &[(&'n str, &'n str)],
    place: usize,
) -> Result<Bindings<'n>, AllocError> {
    let mut fewer = Vec::from_slice(alloc, bindings)?;
    if place < fewer.len() {
        fewer.remove(place);
    }
    Ok(fewer)
}

/// Whether this is the fault, and the output stays as it was.
fn refuses(
    alloc: Global,
    template: &NamedTemplate<'_>,
    bindings: &[(&str, &str)],
    fault: BindFault,
) -> bool {
    let mut output = String::new(alloc);
    template.append(&mut output, bindings) == Err(fault) && output.as_str().is_empty()
}

#[test]
fn texts_of_many_names(rt: HostRuntime) -> Result<(), Fail> {
    for &count in &COUNTS {
        let names = names(rt.alloc(), count)?;
        let source = source(rt.alloc(), &names)?;
        let page = page(rt.alloc(), &names)?;
        let Ok(template) = NamedTemplate::parse(rt.alloc(), source.as_str()) else {
            panic!(rt; "the source is a template");
        };
        for is_reversed in [false, true] {
            let bindings = bindings(rt.alloc(), &names, is_reversed)?;
            let mut output = String::new(rt.alloc());
            assert!(rt;
                template.append(&mut output, &bindings) == Ok(()),
                "{count}"
            );
            assert!(rt; output.as_str() == page.as_str(), "{count}");
        }
    }
    Ok(())
}

/// Whether a binding more of an unknown name, a binding more of this one's name and a binding less are
/// each refused. Each name is a slot's that stands where the binding stands, but in reverse.
fn refuses_flaws_at<'n>(
    alloc: Global,
    template: &NamedTemplate<'_>,
    bindings: &[(&'n str, &'n str)],
    is_reversed: bool,
    place: usize,
) -> Result<bool, AllocError> {
    let Some(&(name, _)) = bindings.get(place) else {
        return Ok(false);
    };
    let last = bindings.len().saturating_sub(1);
    let slot = if is_reversed {
        last.saturating_sub(place)
    } else {
        place
    };
    let unknown = with_one_more(alloc, bindings, place, ("n", ""))?;
    let doubled = with_one_more(alloc, bindings, bindings.len(), (name, ""))?;
    let missing = without_one(alloc, bindings, place)?;
    // Of two faults the first is answered.
    let both = with_one_more(alloc, &doubled, bindings.len(), ("n", ""))?;
    Ok(
        refuses(alloc, template, &unknown, BindFault::Unknown(place))
            && refuses(alloc, template, &doubled, BindFault::Doubled(place))
            && refuses(alloc, template, &missing, BindFault::Missing(slot))
            && refuses(alloc, template, &both, BindFault::Doubled(place)),
    )
}

#[test]
fn faults_of_many_names(rt: HostRuntime) -> Result<(), Fail> {
    for &count in &COUNTS {
        let names = names(rt.alloc(), count)?;
        let source = source(rt.alloc(), &names)?;
        let Ok(template) = NamedTemplate::parse(rt.alloc(), source.as_str()) else {
            panic!(rt; "the source is a template");
        };
        for is_reversed in [false, true] {
            let bindings = bindings(rt.alloc(), &names, is_reversed)?;
            for place in [0, count / 2, count.saturating_sub(1)] {
                assert!(rt;
                    refuses_flaws_at(rt.alloc(), &template, &bindings, is_reversed, place)?,
                    "{count} {is_reversed} {place}"
                );
            }
        }
    }
    Ok(())
}

#[test]
fn two_names_in_many_slots(rt: HostRuntime) -> Result<(), Fail> {
    for &pairs in &PAIRS {
        let mut source = String::new(rt.alloc());
        let mut page = String::new(rt.alloc());
        for _ in 0..pairs {
            source.push_str("<i>{{a}}</i>{{b}}")?;
            page.push_str("<i>1</i>2")?;
        }
        let Ok(template) = NamedTemplate::parse(rt.alloc(), source.as_str()) else {
            panic!(rt; "the source is a template");
        };
        let mut output = String::new(rt.alloc());
        assert!(rt; template.append(&mut output, &[("b", "2"), ("a", "1")]) == Ok(()));
        assert!(rt; output.as_str() == page.as_str(), "{pairs}");
        let unknown = [("a", "1"), ("c", ""), ("b", "2")];
        assert!(rt; refuses(rt.alloc(), &template, &unknown, BindFault::Unknown(1)));
        let doubled = [("b", "2"), ("a", "1"), ("a", "2")];
        assert!(rt; refuses(rt.alloc(), &template, &doubled, BindFault::Doubled(1)));
        assert!(rt; refuses(rt.alloc(), &template, &[("a", "1")], BindFault::Missing(1)));
        assert!(rt; refuses(rt.alloc(), &template, &[("b", "2")], BindFault::Missing(0)));
    }
    Ok(())
}

// Names that all begin and end alike, and are as long.
fn like_names(alloc: Global) -> Result<Vec<String>, AllocError> {
    let mut names = Vec::new(alloc);
    for number in 10..99 {
        names.push(format!(in alloc; "name{number}name")?)?;
    }
    Ok(names)
}

#[test]
fn names_that_look_alike(rt: HostRuntime) -> Result<(), Fail> {
    let names = like_names(rt.alloc())?;
    let (mut source, mut page) = (String::new(rt.alloc()), String::new(rt.alloc()));
    let mut bindings = Vec::new(rt.alloc());
    for name in &names {
        source.push_str(format!(in rt.alloc(); "<p>{{{{{name}}}}}</p>")?.as_str())?;
        page.push_str(format!(in rt.alloc(); "<p>{name}</p>")?.as_str())?;
        bindings.push((name.as_str(), name.as_str()))?;
    }
    let Ok(template) = NamedTemplate::parse(rt.alloc(), source.as_str()) else {
        panic!(rt; "the source is a template");
    };
    bindings.reverse();
    let mut output = String::new(rt.alloc());
    assert!(rt; template.append(&mut output, &bindings) == Ok(()));
    assert!(rt; output.as_str() == page.as_str());
    let unknown = with_one_more(rt.alloc(), &bindings, 7, ("name99name", ""))?;
    assert!(rt; refuses(rt.alloc(), &template, &unknown, BindFault::Unknown(7)));
    let doubled = with_one_more(rt.alloc(), &bindings, 7, ("name10name", ""))?;
    assert!(rt; refuses(rt.alloc(), &template, &doubled, BindFault::Doubled(7)));
    Ok(())
}

// In a minute a look at each binding for each slot, or at each byte of each name for each binding,
// does not come to its end.
#[test]
fn many_slots_and_names(rt: HostRuntime) -> Result<(), Fail> {
    let names = names(rt.alloc(), 1_000)?;
    let (mut source, mut page) = (String::new(rt.alloc()), String::new(rt.alloc()));
    for _ in 0..100 {
        source.push_str(self::source(rt.alloc(), &names)?.as_str())?;
        page.push_str(self::page(rt.alloc(), &names)?.as_str())?;
    }
    let Ok(template) = NamedTemplate::parse(rt.alloc(), source.as_str()) else {
        panic!(rt; "the source is a template");
    };
    for is_reversed in [false, true] {
        let bindings = bindings(rt.alloc(), &names, is_reversed)?;
        for _ in 0..20 {
            let mut output = String::new(rt.alloc());
            assert!(rt; template.append(&mut output, &bindings) == Ok(()));
            assert!(rt; output.as_str() == page.as_str());
        }
    }
    Ok(())
}
