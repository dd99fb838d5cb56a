//! Each call gives its rows, in each of its forms.
use crate::tests::forms::calls::{
    Call, fuller_rows, rows_of, to_cow, to_string, to_vec, to_writer,
};
use html_escape::EntityTable;
use std::alloc::{AllocError, Global};
use std::borrow::CowStr;
use std::process::Abort;
use std::test::Fail;
use test_support::operations::OPERATIONS;
use test_support::rows::Held;

#[test]
fn every_form_gives_the_rows(rt: HostRuntime) -> Result<(), Fail> {
    for &operation in &OPERATIONS {
        let wrong = first_wrong(rt.alloc(), Call::Of(operation))?;
        assert!(rt; wrong.is_none(), "{wrong:?}: {operation:?}");
    }
    let rows = fuller_rows(rt.alloc())?;
    let Ok(table) = EntityTable::new(rows.as_slice()) else {
        panic!(rt; "the fuller rows are a table");
    };
    assert!(rt; first_wrong(rt.alloc(), Call::By(&table))?.is_none());
    Ok(())
}

/// The first text of the call that a form makes something else of.
pub fn first_wrong(alloc: Global, of: Call<'_>) -> Result<Option<&'static str>, AllocError> {
    for (text, made, held) in rows_of(of) {
        if !is_made(alloc, of, text, made, *held)? {
            return Ok(Some(*text));
        }
    }
    Ok(None)
}

/// Whether each form makes this of the text.
pub fn is_made(
    alloc: Global,
    of: Call<'_>,
    text: &str,
    made: &str,
    held: Held,
) -> Result<bool, AllocError> {
    Ok(
        is_held(alloc, of, text, made, held)?
            && is_in_string(alloc, of, text, made)?
            && is_in_vec(alloc, of, text, made)?
            && is_written(alloc, of, text, made),
    )
}

/// Whether the `Cow` form gives the text, and borrows exactly where nothing changes.
pub fn is_held(
    alloc: Global,
    of: Call<'_>,
    text: &str,
    made: &str,
    held: Held,
) -> Result<bool, AllocError> {
    let cow = to_cow(of, alloc, text)?;
    let is_borrowed = matches!(cow, CowStr::Borrowed(_));
    Ok(cow.as_str() == made && is_borrowed == (held == Held::Borrowed))
}

// The string form answers what it added, after what stood there.
fn is_in_string(alloc: Global, of: Call<'_>, text: &str, made: &str) -> Result<bool, AllocError> {
    let mut output = String::from_str(alloc, "x")?;
    let is_answered = to_string(of, text, &mut output)? == made;
    Ok(is_answered && output.strip_prefix("x") == Some(made))
}

// The vector form likewise.
fn is_in_vec(alloc: Global, of: Call<'_>, text: &str, made: &str) -> Result<bool, AllocError> {
    let mut output = b"x".to_vec(alloc)?;
    let is_answered = to_vec(of, text, &mut output)? == made.as_bytes();
    Ok(is_answered && output.strip_prefix(b"x") == Some(made.as_bytes()))
}

// The writer form writes the text.
fn is_written(alloc: Global, of: Call<'_>, text: &str, made: &str) -> bool {
    let mut output = Vec::new(alloc);
    to_writer(of, text, &mut output).is_ok() && output.as_slice() == made.as_bytes()
}
