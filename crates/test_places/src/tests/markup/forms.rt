//! Forms: what is appended, what is read back, the faults and their order, refused memory, and a form of
//! many attributes.
use crate::tests::memory::builders::{self, Builder};
use crate::tests::memory::refusals::{Reader, survives};
use hesc_places::{Attribute, FormFault, Quoting, build_form, read_form};
use std::alloc::{AllocError, Allocator, Global};
use std::process::Abort;
use std::test::Fail;
use test_support::Refusing;

/// The name, the quoting and the value of an attribute.
pub type Entry = (&'static str, Quoting, &'static str);

/// Attributes, a script string, and their form.
pub type Row = (&'static [Entry], &'static str, &'static str);

static FORMS: [Row; 7] = [
    (&[], "x", "<input/><script>alert('x');</script>"),
    (
        &[("a", Quoting::Single, "it's")],
        "x",
        "<input a='it&#x27;s'/><script>alert('x');</script>",
    ),
    (
        &[("a", Quoting::Unquoted, "1"), ("b", Quoting::Double, "\"")],
        "",
        "<input a=1 b=\"&quot;\"/><script>alert('');</script>",
    ),
    (
        &[("value", Quoting::Unquoted, "a b")],
        "x",
        "<input value=a&#x20;b /><script>alert('x');</script>",
    ),
    (
        &[("b", Quoting::Double, ""), ("a", Quoting::Unquoted, "/")],
        "</script>",
        "<input b=\"\" a=&#x2F; /><script>alert('\\x3C/script>');</script>",
    ),
    (
        &[("a", Quoting::Single, ""), ("aa", Quoting::Single, "<\"&")],
        "'",
        "<input a='' aa='&lt;\"&amp;'/><script>alert('\\'');</script>",
    ),
    (
        &[("z", Quoting::Unquoted, "\u{E9}>\t")],
        "\u{2028}\\",
        "<input z=\u{E9}&gt;&#x09; /><script>alert('\\u2028\\\\');</script>",
    ),
];

// Attributes, and their first fault.
type FaultRow = (&'static [Entry], FormFault);

static FAULTS: [FaultRow; 12] = [
    (
        &[("a", Quoting::Double, ""), ("a", Quoting::Double, "")],
        FormFault::BadName(1),
    ),
    (&[("A", Quoting::Unquoted, "")], FormFault::BadName(0)),
    (
        &[("a", Quoting::Unquoted, ""), ("B", Quoting::Double, "v")],
        FormFault::EmptyUnquoted(0),
    ),
    (&[("", Quoting::Double, "v")], FormFault::BadName(0)),
    (&[("a-b", Quoting::Double, "v")], FormFault::BadName(0)),
    (&[("ab1", Quoting::Single, "v")], FormFault::BadName(0)),
    (&[("\u{E9}", Quoting::Single, "v")], FormFault::BadName(0)),
    (&[("a`", Quoting::Single, "v")], FormFault::BadName(0)),
    (&[("{", Quoting::Single, "v")], FormFault::BadName(0)),
    (
        &[
            ("a", Quoting::Double, "v"),
            ("b", Quoting::Single, "v"),
            ("a", Quoting::Unquoted, ""),
        ],
        FormFault::BadName(2),
    ),
    (
        &[
            ("b", Quoting::Double, ""),
            ("a", Quoting::Unquoted, ""),
            ("b", Quoting::Double, ""),
        ],
        FormFault::EmptyUnquoted(1),
    ),
    (
        &[("ab", Quoting::Double, ""), ("abc", Quoting::Unquoted, "")],
        FormFault::EmptyUnquoted(1),
    ),
];

fn attributes_of(
    alloc: Global,
    entries: &'static [Entry],
) -> Result<Vec<Attribute<'static>>, AllocError> {
    let mut attributes = Vec::new(alloc);
    for (name, quoting, value) in entries {
        attributes.push(Attribute {
            name: *name,
            quoting: *quoting,
            value: *value,
        })?;
    }
    Ok(attributes)
}

#[test]
fn forms_are_built_and_read_back(rt: HostRuntime) -> Result<(), Fail> {
    for &row in &FORMS {
        assert!(rt; builds(rt.alloc(), row.0, row.1, row.2)?, "{}", row.2);
        assert!(rt; reads_back(rt.alloc(), row) == Ok(true), "{}", row.2);
    }
    Ok(())
}

/// Whether the form is answered and appended, and asks for memory once, or not at all within room.
pub fn builds(
    alloc: Global,
    entries: &'static [Entry],
    script: &str,
    form: &str,
) -> Result<bool, AllocError> {
    let attributes = attributes_of(alloc, entries)?;
    let attributes = attributes.as_slice();
    builders::survives(alloc, Builder::Form(attributes, script), form)
}

/// Whether memory was found, and then whether the form is that of the row.
pub fn reads_back<A: Allocator + Clone>(alloc: A, row: Row) -> Result<bool, AllocError> {
    let (entries, script, form) = row;
    match read_form(alloc, form.as_bytes())? {
        Some(read) => Ok(
            are_same(read.attributes.as_slice(), entries)
                && read.script.as_slice() == script.as_bytes()
                && read.end == form.len(),
        ),
        None => Ok(false),
    }
}

fn are_same<A: Allocator>(read: &[(Vec<u8, A>, Quoting, Vec<u8, A>)], entries: &[Entry]) -> bool {
    if read.len() != entries.len() {
        return false;
    }
    for ((name, quoting, value), entry) in read.iter().zip(entries) {
        if name.as_slice() != entry.0.as_bytes()
            || *quoting != entry.1
            || value.as_slice() != entry.2.as_bytes()
        {
            return false;
        }
    }
    true
}

#[test]
fn nul_in_an_unquoted_value_is_read_as_a_replacement(rt: HostRuntime) -> Result<(), Fail> {
    let attributes = [
        Attribute {
            name: "a",
            quoting: Quoting::Unquoted,
            value: "\0",
        },
        Attribute {
            name: "b",
            quoting: Quoting::Single,
            value: "\0",
        },
    ];
    let mut output = String::new(rt.alloc());
    assert!(rt; build_form(&attributes, "\0", &mut output).is_ok());
    let form = "<input a=&#x00; b='\0'/><script>alert('\\x00');</script>";
    assert!(rt; output.as_str() == form);
    let wanted = [
        ("a", Quoting::Unquoted, "\u{FFFD}"),
        ("b", Quoting::Single, "\0"),
    ];
    match read_form(rt.alloc(), form.as_bytes())? {
        Some(read) => assert!(rt; are_same(read.attributes.as_slice(), &wanted)),
        None => assert!(rt; false),
    }
    Ok(())
}

#[test]
fn the_first_fault_is_answered_and_leaves_the_output(rt: HostRuntime) -> Result<(), Fail> {
    for &(entries, fault) in &FAULTS {
        assert!(rt; is_refused(rt.alloc(), entries, fault)?, "{fault:?}");
    }
    Ok(())
}

// No memory is asked for.
fn is_refused(
    alloc: Global,
    entries: &'static [Entry],
    fault: FormFault,
) -> Result<bool, AllocError> {
    let attributes = attributes_of(alloc, entries)?;
    let heap = Refusing::new(alloc, 0);
    let mut output = String::from_str(&heap, "x")?;
    heap.refuse(1);
    let is_refused = match build_form(attributes.as_slice(), "x", &mut output) {
        Ok(_) => false,
        Err(answer) => answer == fault,
    };
    Ok(is_refused && heap.asked(1) == 0 && output.as_str() == "x")
}

#[test]
fn every_request_of_a_reading_is_refused_in_turn(rt: HostRuntime) {
    for &row in &FORMS {
        assert!(rt; survives(rt.alloc(), Reader::Form(row)), "{}", row.2);
    }
}

const LETTERS: &str = "abcdefghijklmnop";

/// The 4096 words of three of the letters.
pub fn many_names(alloc: Global) -> Result<Vec<String>, AllocError> {
    let mut names = Vec::new(alloc);
    for first in LETTERS.chars() {
        for second in LETTERS.chars() {
            for third in LETTERS.chars() {
                let mut name = String::new(alloc);
                name.push(first)?;
                name.push(second)?;
                name.push(third)?;
                names.push(name)?;
            }
        }
    }
    Ok(names)
}

#[test]
fn a_form_of_4096_attributes_is_built_and_read(rt: HostRuntime) -> Result<(), Fail> {
    let names = many_names(rt.alloc())?;
    let mut attributes = Vec::new(rt.alloc());
    for name in &names {
        attributes.push(Attribute {
            name: name.as_str(),
            quoting: Quoting::Unquoted,
            value: "a b",
        })?;
    }
    assert!(rt; attributes.len() == 4096);
    let mut output = String::new(rt.alloc());
    assert!(rt; build_form(attributes.as_slice(), "x", &mut output).is_ok());
    match read_form(rt.alloc(), output.as_bytes())? {
        Some(read) => {
            assert!(rt; read.end == output.len());
            assert!(rt; have_names(read.attributes.as_slice(), names.as_slice()));
        }
        None => assert!(rt; false),
    }
    Ok(())
}

fn have_names(read: &[(Vec<u8>, Quoting, Vec<u8>)], names: &[String]) -> bool {
    if read.len() != names.len() {
        return false;
    }
    for ((name, quoting, value), wanted) in read.iter().zip(names) {
        if name.as_slice() != wanted.as_bytes()
            || *quoting != Quoting::Unquoted
            || value.as_slice() != b"a b".as_slice()
        {
            return false;
        }
    }
    true
}
