//! JSON for a script of a page, in each form.
use hesc_engine::{Counter, StackSink};
use html_json::{
    append_json, append_json_to_vec, encode_json, encode_json_to_string, encode_json_to_vec,
    encode_json_to_writer, json_length, laws as json_laws, put_json, put_json_string,
};
use html_template::laws as template_laws;
use html_template_source::NamedTemplate;
use html_tokenizer::is_json_space;
use std::alloc::AllocError;
use std::borrow::CowStr;
use std::test::Fail;
use test_support::{Refusing, Trouble, WeakWriter, Weakness};

// Texts, and their encodings: RFC 8259, 7 Strings.
static ROWS: [(&str, &str); 14] = [
    ("", ""),
    ("null", "null"),
    ("[1, -2.5e3, true]", "[1, -2.5e3, true]"),
    ("{\"a\": \"b>&'\u{2028}\"}", "{\"a\": \"b>&'\u{2028}\"}"),
    ("\"<\"", "\"\\u003C\""),
    ("[\"</script>\"]", "[\"\\u003C/script>\"]"),
    ("[\"<!--<script>\"]", "[\"\\u003C!--\\u003Cscript>\"]"),
    ("{\"<\": \"\\\"<\"}", "{\"\\u003C\": \"\\\"\\u003C\"}"),
    ("\"\\\\<\"", "\"\\\\\\u003C\""),
    ("\"\\u003c<\"", "\"\\u003c\\u003C\""),
    ("\"\u{1F600}<\u{E9}\"", "\"\u{1F600}\\u003C\u{E9}\""),
    ("<", "\\u003C"),
    (
        "<<<<<<<<",
        "\\u003C\\u003C\\u003C\\u003C\\u003C\\u003C\\u003C\\u003C",
    ),
    ("]]>", "]]>"),
];

#[test]
fn json_is_encoded(rt: HostRuntime) -> Result<(), Fail> {
    for &(text, encoding) in &ROWS {
        let made = encode_json(rt.alloc(), text)?;
        assert!(rt; made.as_str() == encoding, "{text:?}");
        let is_borrowed = matches!(&made, CowStr::Borrowed(_));
        assert!(rt; is_borrowed == (text == encoding), "{text:?}");
        assert!(rt; json_length(text) == Some(encoding.len()), "{text:?}");
        let mut counter = Counter::new();
        assert!(rt; put_json(text, &mut counter).is_ok());
        assert!(rt; counter.count() == encoding.len(), "{text:?}");
    }
    Ok(())
}

#[test]
fn text_is_a_string(rt: HostRuntime) {
    for (text, string) in [
        ("", "\"\""),
        ("a\"<", "\"a\\\"\\u003C\""),
        ("\\/</script>", "\"\\\\/\\u003C/script>\""),
        ("\u{8}\t\n\u{c}\r\u{1f}", "\"\\b\\t\\n\\f\\r\\u001f\""),
        ("\u{7f}\u{2028}\u{1F600}'&", "\"\u{7f}\u{2028}\u{1F600}'&\""),
    ] {
        let mut sink = StackSink::<64>::new();
        assert!(rt; put_json_string(text, &mut sink).is_ok());
        assert!(rt; sink.as_str() == string, "{text:?}");
    }
}

#[test]
fn json_is_appended(rt: HostRuntime) -> Result<(), Fail> {
    let mut page = String::new(rt.alloc());
    let mut bytes = Vec::new(rt.alloc());
    let mut expected = String::new(rt.alloc());
    for &(text, encoding) in &ROWS {
        assert!(rt; append_json(&mut page, text)? == encoding, "{text:?}");
        assert!(rt;
            encode_json_to_string(text, &mut page)? == encoding,
            "{text:?}"
        );
        assert!(rt; append_json_to_vec(&mut bytes, text)? == encoding.as_bytes());
        assert!(rt; encode_json_to_vec(text, &mut bytes)? == encoding.as_bytes());
        expected.push_str(encoding)?;
        expected.push_str(encoding)?;
    }
    assert!(rt; page.as_str() == expected.as_str());
    assert!(rt; bytes.as_slice() == expected.as_str().as_bytes());
    Ok(())
}

#[test]
fn json_is_written(rt: HostRuntime) -> Result<(), Fail> {
    for &(text, encoding) in &ROWS {
        let mut writer = WeakWriter::new(rt.alloc(), Weakness::byte_by_byte(0, Trouble::Calm));
        encode_json_to_writer(text, &mut writer)?;
        assert!(rt; writer.taken.as_slice() == encoding.as_bytes(), "{text:?}");
        assert!(rt; writer.was_only_written(), "{text:?}");
    }
    for number in 1..=8 {
        let weakness = Weakness::byte_by_byte(number, Trouble::Fails);
        let mut writer = WeakWriter::new(rt.alloc(), weakness);
        assert!(rt; encode_json_to_writer("\"<\"", &mut writer).is_err());
        let taken = number as usize - 1;
        assert!(rt;
            writer.taken.as_slice() == &b"\"\\u003C\""[..taken],
            "{number}"
        );
    }
    Ok(())
}

#[test]
fn a_template_writes_json(rt: HostRuntime) -> Result<(), Fail> {
    let source = "<script type=\"application/json\">{{data}}</script>";
    let Ok(template) = NamedTemplate::parse(rt.alloc(), source) else {
        panic!(rt; "the source is a template");
    };
    let mut page = String::new(rt.alloc());
    assert!(rt; template.append(&mut page, &[("data", "[\"</b>\"]")]) == Ok(()));
    assert!(rt; page.as_str() == "<script type=\"application/json\">[\"\\u003C/b>\"]</script>");
    template_laws::json_law();
    json_laws::no_less_law("[\"</b>\"]");
    json_laws::same_value_law("[\"</b>\"]");
    Ok(())
}

#[test]
fn a_refusal_leaves_the_output_as_it_was(rt: HostRuntime) -> Result<(), Fail> {
    let heap = Refusing::new(rt.alloc(), 1);
    assert!(rt; encode_json(&heap, "[\"a\"]").is_ok());
    assert!(rt; heap.asked(1) == 0);
    assert!(rt; encode_json(&heap, "[\"<\"]").is_err());
    heap.refuse(2);
    let mut page = String::from_str(&heap, "x")?;
    assert!(rt; append_json(&mut page, "[\"</script>\"]").is_err());
    assert!(rt; page.as_str() == "x");
    assert!(rt; append_json(&mut page, "[\"</script>\"]").is_ok());
    assert!(rt; page.as_str() == "x[\"\\u003C/script>\"]");
    Ok(())
}

#[test]
fn white_space_of_json_is_told(rt: HostRuntime) -> Result<(), AllocError> {
    assert!(rt; is_json_space(b' ') && is_json_space(b'\n'));
    assert!(rt; !is_json_space(b'\x0c') && !is_json_space(b'a'));
    Ok(())
}
