//! Pages, and what views have.
use crate::tests::rows::{CHECKS, PAGES, success};
use crate::tests::serving::{is_right, shown};
use std::process::Abort;
use std::test::Fail;

#[test]
fn a_page_or_what_a_view_has_is_written_and_flushed_once(rt: HostRuntime) -> Result<(), Fail> {
    for &row in &PAGES {
        let found = shown(rt.alloc(), success(row))?;
        assert!(rt; is_right(rt.alloc(), success(row))?, "{:?}: {found}", row.0);
    }
    for &row in &CHECKS {
        let found = shown(rt.alloc(), success(row))?;
        assert!(rt; is_right(rt.alloc(), success(row))?, "{:?}: {found}", row.0);
    }
    Ok(())
}
