//! The callers of encoders and decoders.

use std::test::Fail;
use test_support::{Trouble, WeakWriter, Weakness};
use uses::back::{by_escapes, by_references};
use uses::cell::cell;
use uses::excerpt::excerpt;
use uses::log_list::write_log;
use uses::rows::{Row, table};
use uses::table::decode;

#[test]
fn no_text_leaves_its_place(rt: HostRuntime) -> Result<(), Fail> {
    let cell = cell(rt.alloc(), "a \"b\"", "</td>")?;
    assert!(rt; cell.as_str() == "<td title=\"a &quot;b&quot;\">&lt;/td&gt;</td>");
    Ok(())
}

#[test]
fn each_text_stays_in_its_row(rt: HostRuntime) -> Result<(), Fail> {
    let rows = [
        Row {
            title: "\"a\"",
            text: "</td>",
        },
        Row {
            title: "",
            text: "&",
        },
    ];
    let page = table(rt.alloc(), &rows)?;
    assert!(rt;
        page.as_str()
            == "<table><tr title=\"&quot;a&quot;\"><td>&lt;/td&gt;</td></tr><tr title=\"\"><td>&amp;</td></tr></table>"
    );
    Ok(())
}

#[test]
fn each_text_comes_back(rt: HostRuntime) -> Result<(), Fail> {
    let text = "a'b\" </script> & \u{2028}";
    let back = by_references(rt.alloc(), text)?;
    assert!(rt; back.as_str() == text);
    let back = by_escapes(rt.alloc(), text)?;
    assert!(rt; back.as_str() == text);
    Ok(())
}

#[test]
fn a_name_of_the_rows_has_its_value(rt: HostRuntime) -> Result<(), Fail> {
    let made = decode(rt.alloc(), "I &hearts; &lt;b&gt; &copy;")?;
    assert!(rt; made.as_str() == "I \u{2665} <b> &copy;");
    Ok(())
}

#[test]
fn an_excerpt_ends_between_characters(rt: HostRuntime) -> Result<(), Fail> {
    for (most, wanted) in [
        (0, "..."),
        (1, "&lt;..."),
        (2, "&lt;..."),
        (3, "&lt;é..."),
        (4, "&lt;éa"),
        (5, "&lt;éa"),
    ] {
        let made = excerpt(rt.alloc(), "<éa", most)?;
        assert!(rt; made.as_str() == wanted, "{most}");
    }
    Ok(())
}

#[test]
fn a_log_is_written_or_begun(rt: HostRuntime) -> Result<(), Fail> {
    let messages = ["</ul>", "a & b"];
    let whole = "<ul><li>&lt;/ul&gt;</li><li>a &amp; b</li></ul>";
    // From the call after the last on, the writer does not fail.
    for call in 1..=whole.len() + 1 {
        let weakness = Weakness::byte_by_byte(call as u64, Trouble::Fails);
        let mut writer = WeakWriter::new(rt.alloc(), weakness);
        let outcome = write_log(&mut writer, &messages);
        assert!(rt; outcome.is_ok() == (call > whole.len()));
        assert!(rt;
            writer.taken.as_slice() == &whole.as_bytes()[..call - 1],
            "{call}"
        );
        assert!(rt; writer.was_only_written());
    }
    Ok(())
}
