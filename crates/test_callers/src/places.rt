//! The callers of places.

use hesc_places::{Attribute, FormFault, Quoting};
use std::test::Fail;
use uses::card::card;
use uses::field::{field, field_back};
use uses::label::label_style;
use uses::posted::{posted_script, posted_value, value_text};
use uses::search::{search_page, shown};

#[test]
fn a_title_stays_in_its_place(rt: HostRuntime) -> Result<(), Fail> {
    let made = card(rt.alloc(), "\"><script>", "<");
    assert!(rt;
        made.as_deref() == Ok("<figure title=\"&quot;&gt;&lt;script&gt;\"><b>&lt;</b></figure>")
    );
    Ok(())
}

#[test]
fn a_query_comes_back(rt: HostRuntime) -> Result<(), Fail> {
    let query = "\"</script>";
    let page = search_page(rt.alloc(), query);
    assert!(rt;
        page.as_deref()
            == Ok(
                "<input value=\"&quot;&lt;/script&gt;\"><script>show(\"\\\"\\x3C/script>\")</script>"
            )
    );
    let shown = shown(rt.alloc(), query);
    assert!(rt; shown.as_deref() == Ok(query.as_bytes()));
    Ok(())
}

#[test]
fn a_strangers_form_is_read(rt: HostRuntime) -> Result<(), Fail> {
    let posted = b"<input a=1 /><script>alert('\\x3C\\u0041');</script>rest";
    let script = posted_script(rt.alloc(), posted.as_slice())?;
    assert!(rt; script.as_deref() == Some(b"<A".as_slice()));
    let other = posted_script(rt.alloc(), b"<p>hello</p>")?;
    assert!(rt; other.as_deref().is_none());
    let value = posted_value(rt.alloc(), posted.as_slice(), "a")?;
    assert!(rt; value.as_deref() == Some(b"1".as_slice()));
    let value = posted_value(rt.alloc(), posted.as_slice(), "b")?;
    assert!(rt; value.as_deref().is_none());
    let value = value_text(rt.alloc(), "é&lt;\" rest")?;
    assert!(rt; value.as_deref() == Some("é<"));
    Ok(())
}

#[test]
fn a_label_stays_in_its_style(rt: HostRuntime) -> Result<(), Fail> {
    let style = label_style(rt.alloc(), "\"}</style>");
    assert!(rt;
        style.as_deref() == Ok("<style>main::before{content:\"\\\"}\\3C /style>\"}</style>")
    );
    Ok(())
}

const FIELDS: [Attribute; 2] = [
    Attribute {
        name: "value",
        quoting: Quoting::Unquoted,
        value: "a b",
    },
    Attribute {
        name: "title",
        quoting: Quoting::Double,
        value: "\">",
    },
];

#[test]
fn a_field_comes_back(rt: HostRuntime) -> Result<(), Fail> {
    let page = field(rt.alloc(), &FIELDS, "'</script>");
    assert!(rt;
        page.as_deref()
            == Ok(
                "<p><input value=a&#x20;b title=\"&quot;&gt;\"/><script>alert('\\'\\x3C/script>');</script></p>"
            )
    );
    let Ok(form) = field_back(rt.alloc(), &FIELDS, "'</script>") else {
        assert!(rt; false);
        return Ok(());
    };
    assert!(rt; form.script.as_slice() == b"'</script>".as_slice());
    assert!(rt; form.value_of("value") == Some(b"a b".as_slice()));
    assert!(rt; form.value_of("title") == Some(b"\">".as_slice()));
    let twice = [FIELDS[1], FIELDS[1]];
    assert!(rt; field(rt.alloc(), &twice, "").as_deref() == Err(&FormFault::BadName(1)));
    Ok(())
}
