//! The examples of pages that go to a writer by several writes, and their faults.

use html_escape::Encoder;
use html_writer::PageWriter;
use std::io::{self, ErrorKind, Write};
use std::test::Fail;
use test_support::{Trouble, WeakWriter, Weakness};

const PAGE: &[u8] = b"<p title=\"&quot;\">a&lt;b</p>";

fn write_page<W: Write>(output: &mut W) -> io::Result<()> {
    let mut page = PageWriter::new(output);
    page.markup(output, "<p title=\"");
    page.text(output, Encoder::DoubleQuotedAttribute, "\"");
    page.markup(output, "\">");
    page.text(output, Encoder::Text, "a<b");
    page.markup(output, "</p>");
    page.finish(output)
}

#[test]
fn a_page_goes_out_whole(rt: HostRuntime) -> Result<(), Fail> {
    let mut writer = WeakWriter::new(rt.alloc(), Weakness::byte_by_byte(0, Trouble::Calm));
    write_page(&mut writer)?;
    assert!(rt; writer.taken.as_slice() == PAGE);
    assert!(rt; writer.was_only_written());
    Ok(())
}

#[test]
fn nothing_is_offered_after_the_first_fault(rt: HostRuntime) {
    for trouble in [Trouble::Fails, Trouble::Interrupted, Trouble::Idle] {
        for call in 1..=PAGE.len() {
            let weakness = Weakness::byte_by_byte(call as u64, trouble);
            let mut writer = WeakWriter::new(rt.alloc(), weakness);
            assert!(rt; write_page(&mut writer).is_err());
            assert!(rt; writer.taken.as_slice() == &PAGE[..call - 1]);
            assert!(rt; writer.calls == call as u64);
            assert!(rt; writer.was_only_written());
        }
    }
}

#[test]
fn the_first_fault_is_answered(rt: HostRuntime) {
    let weakness = Weakness::byte_by_byte(1, Trouble::Fails);
    let mut writer = WeakWriter::new(rt.alloc(), weakness);
    let Err(fault) = write_page(&mut writer) else {
        assert!(rt; false);
        return;
    };
    assert!(rt; fault.kind() == ErrorKind::BrokenPipe);
}
