//! The long texts.
use std::test::Fail;
use test_support::long::{MANY, MILLION, long_text};

#[test]
fn a_long_text_is_as_long_as_it_says(rt: HostRuntime) -> Result<(), Fail> {
    let text = long_text(rt.alloc(), ("ab", "c", MILLION, "def"))?;
    assert!(rt; text.len() == 1_000_005);
    let text = long_text(rt.alloc(), ("", "</scrip", MANY, ""))?;
    assert!(rt; text.len() == 917_504);
    Ok(())
}
