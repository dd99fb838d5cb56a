//! Rows that are not what the library does, which the tests have to refuse.
use crate::tests::enclosings;
use crate::tests::markup::forms;
use crate::tests::memory::refusals::{Reader, survives};
use crate::tests::readings::Read;
use hesc_places::{Place, Quoting};
use html_escape::Encoder;
use std::process::Abort;
use std::test::Fail;
use test_support::rows::{Held, Row};

static ENCLOSED: [Row; 3] = [
    ("<", "<", Held::Borrowed),
    ("<", "&lt;&lt;", Held::Owned),
    ("a", "", Held::Owned),
];

static READ: [Read<'static>; 3] = [(b"ab<", b"a", 2), (b"ab<", b"ab", 1), (b"ab", b"ab", 2)];

// Attributes, a script string, and what is not their form.
static FORMS: [forms::Row; 3] = [
    (&[], "x", "<input/><script>alert('y');</script>"),
    (
        &[("a", Quoting::Single, "b")],
        "x",
        "<input a=\"b\"/><script>alert('x');</script>",
    ),
    (
        &[("a", Quoting::Single, "b")],
        "x",
        "<input a='b' b=''/><script>alert('x');</script>",
    ),
];

#[test]
fn rows_that_are_wrong_are_refused(rt: HostRuntime) -> Result<(), Fail> {
    for &row in &ENCLOSED {
        let is_right = enclosings::survives(rt.alloc(), Encoder::Text, Place::Text, row)?;
        assert!(rt; !is_right, "{:?} of {:?}", row.1, row.0);
    }
    for &read in &READ {
        let is_right = survives(rt.alloc(), Reader::Place(Place::Text, read));
        assert!(rt; !is_right, "{:?} up to {}", read.1, read.2);
    }
    for &row in &FORMS {
        assert!(rt;
            !forms::builds(rt.alloc(), row.0, row.1, row.2)?,
            "{}",
            row.2
        );
        assert!(rt; !survives(rt.alloc(), Reader::Form(row)), "{}", row.2);
    }
    Ok(())
}
