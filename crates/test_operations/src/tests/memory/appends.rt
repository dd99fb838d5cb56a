//! Many small appends to one output: its room doubles, so that memory is asked for a few times.
use crate::tests::forms::calls::{Call, fuller_rows, rows_of, to_string, to_vec};
use html_escape::EntityTable;
use std::alloc::{AllocError, Global};
use std::process::Abort;
use std::test::Fail;
use test_support::Refusing;
use test_support::amounts::{APPENDS, MOST_REQUESTS};
use test_support::operations::OPERATIONS;

// A text that no operation changes.
const UNCHANGED: &str = "abc";

#[test]
fn small_appends_of_each_operation_ask_rarely(rt: HostRuntime) -> Result<(), Fail> {
    for &operation in &OPERATIONS {
        let of = Call::Of(operation);
        assert!(rt; asks_rarely(rt.alloc(), of, UNCHANGED)?, "{operation:?}");
        let changed = first_changed(of);
        assert!(rt;
            asks_rarely(rt.alloc(), of, changed)?,
            "{operation:?} of {changed}"
        );
    }
    Ok(())
}

#[test]
fn small_appends_by_a_table_that_is_handed_in_ask_rarely(rt: HostRuntime) -> Result<(), Fail> {
    let rows = fuller_rows(rt.alloc())?;
    let Ok(table) = EntityTable::new(rows.as_slice()) else {
        panic!(rt; "the fuller rows are a table");
    };
    let of = Call::By(&table);
    assert!(rt; asks_rarely(rt.alloc(), of, UNCHANGED)?);
    assert!(rt; asks_rarely(rt.alloc(), of, first_changed(of))?);
    Ok(())
}

// The first small text of the call's rows that it changes.
fn first_changed(of: Call<'_>) -> &'static str {
    for &(text, made, _) in rows_of(of) {
        if text.len() <= 16 && text != made {
            return text;
        }
    }
    ""
}

/// Whether many appends of the text to one string, and to one vector, ask for memory a few times.
pub fn asks_rarely(alloc: Global, of: Call<'_>, text: &str) -> Result<bool, AllocError> {
    let heap = Refusing::new(alloc, 0);
    let mut string = String::new(&heap);
    for _ in 0..APPENDS {
        to_string(of, text, &mut string)?;
    }
    let by_string = heap.asked(0);
    heap.refuse(0);
    let mut vec = Vec::new(&heap);
    for _ in 0..APPENDS {
        to_vec(of, text, &mut vec)?;
    }
    Ok(by_string <= MOST_REQUESTS && heap.asked(0) <= MOST_REQUESTS)
}
