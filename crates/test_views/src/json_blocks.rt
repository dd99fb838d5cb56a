//! JSON in the data block of a view: it is that of the data, and reads back as it.
use html_view::{DataFault, FragmentBuf, Position, Value, ValueFault, View};
use json::Scratch;
use std::alloc::{AllocError, Global};
use std::test::Fail;

const BEGIN: &str = "<script type=\"application/json\">";

const END: &str = "</script>";

// What stands in the data block of this value, or its fault.
fn block_of(alloc: Global, value: Value<'_, '_>) -> Result<String, DataFault> {
    let Ok(view) = View::parse(
        alloc,
        "<script type=\"application/json\">{{.}}</script>",
        &[],
    ) else {
        return Err(DataFault::Memory);
    };
    let mut page = String::new(alloc);
    view.append(&mut page, value)?;
    let inner = page
        .strip_prefix(BEGIN)
        .and_then(|rest| rest.strip_suffix(END));
    Ok(String::from_str(alloc, inner.unwrap_or("no block"))?)
}

// What is read of a text, and what is read of the block that it has.
fn read_twice(alloc: Global, text: &str) -> Result<(String, String), AllocError> {
    let (mut scratch, mut another) = (Scratch::new(alloc), Scratch::new(alloc));
    let Ok(tree) = json::Value::parse(alloc, text, &mut scratch) else {
        return Ok((format!(in alloc; "no JSON")?, String::new(alloc)));
    };
    let Ok(block) = block_of(alloc, Value::of_json(&tree)) else {
        return Ok((format!(in alloc; "no page")?, String::new(alloc)));
    };
    if block.contains('<') {
        return Ok((format!(in alloc; "{block} has a <")?, String::new(alloc)));
    }
    match json::Value::parse(alloc, block.as_str(), &mut another) {
        Ok(again) => Ok((
            format!(in alloc; "{tree:?}")?,
            format!(in alloc; "{again:?}")?,
        )),
        Err(_) => Ok((format!(in alloc; "{block} is no JSON")?, String::new(alloc))),
    }
}

#[test]
fn data_reads_back(rt: HostRuntime) -> Result<(), Fail> {
    for text in [
        "null",
        "true",
        "-0",
        "1.50e+400",
        "12345678901234567890123456789",
        "\"\"",
        "[]",
        "{}",
        "[[], {}, [[]], [{}], \"\", 0]",
        "\"</script><script>alert(1)</script>\"",
        "\"<!--<script>\"",
        "\"]]>\"",
        "\"\\\\</script>\"",
        "\"\\\\\\\"<\"",
        "\"\\u2028\\u2029\\ud834\\udd1e\\ufeff\\u007f\"",
        "\"\\u0000\\u0001\\b\\t\\n\\u000b\\f\\r\\u000e\\u001f\"",
        "\"'&amp;{{a}}\"",
        "{\"<\\\"\\\\\\n</script>\": {\"\": [null, false, -1]}}",
        "{\"a\": 1, \"b\": {\"a\": 2}, \"a\": 3}",
        "[{\"id\": 1, \"name\": \"Tom & Co\"}, {\"id\": 2, \"name\": \"</li>\"}]",
    ] {
        let (first, again) = read_twice(rt.alloc(), text)?;
        assert!(rt; first.as_str() == again.as_str(), "{text}: {first} {again}");
    }
    Ok(())
}

#[test]
fn deep_data_reads_back(rt: HostRuntime) -> Result<(), Fail> {
    let mut text = String::new(rt.alloc());
    for _ in 0..64 {
        text.push_str("[{\"a\":")?;
    }
    text.push_str("\"<\"")?;
    for _ in 0..64 {
        text.push_str("}]")?;
    }
    let (first, again) = read_twice(rt.alloc(), text.as_str())?;
    assert!(rt; first.as_str() == again.as_str(), "{first} {again}");
    Ok(())
}

// Whether this is written for a value.
fn is_written(alloc: Global, value: Value<'_, '_>, block: &str) -> bool {
    match block_of(alloc, value) {
        Ok(found) => found.as_str() == block,
        Err(_) => false,
    }
}

#[test]
fn borrowed_data_is_written(rt: HostRuntime) -> Result<(), Fail> {
    let alloc = rt.alloc();
    assert!(rt; is_written(alloc, Value::Null, "null"));
    assert!(rt; is_written(alloc, Value::Flag(true), "true"));
    assert!(rt; is_written(alloc, Value::Text("12"), "\"12\""));
    assert!(rt; is_written(alloc, Value::Text("</script>"), "\"\\u003C/script>\""));
    assert!(rt; is_written(alloc, Value::List(&[]), "[]"));
    assert!(rt; is_written(alloc, Value::Record(&[]), "{}"));
    let items = [Value::Null, Value::List(&[]), Value::Number("0")];
    assert!(rt; is_written(alloc, Value::List(&items), "[null,[],0]"));
    let fields = [("<", Value::Text("\"")), ("<", Value::Flag(false))];
    let block = "{\"\\u003C\":\"\\\"\",\"\\u003C\":false}";
    assert!(rt; is_written(alloc, Value::Record(&fields), block));
    Ok(())
}

// A number that is none of JSON is a string.
#[test]
fn borrowed_number_is_written(rt: HostRuntime) -> Result<(), Fail> {
    let alloc = rt.alloc();
    assert!(rt; is_written(alloc, Value::Number("12"), "12"));
    assert!(rt; is_written(alloc, Value::Number("-1.5E+3"), "-1.5E+3"));
    assert!(rt; is_written(alloc, Value::Number("012"), "\"012\""));
    assert!(rt; is_written(alloc, Value::Number(""), "\"\""));
    assert!(rt; is_written(alloc, Value::Number(" 1"), "\" 1\""));
    assert!(rt; is_written(alloc, Value::Number("1</script>"), "\"1\\u003C/script>\""));
    Ok(())
}

#[test]
fn no_fragment_is_json(rt: HostRuntime) -> Result<(), Fail> {
    let empty = FragmentBuf::new(rt.alloc());
    let fragment = Value::Fragment(empty.as_fragment());
    let refused = DataFault::Value(Position { text: 0, byte: 32 }, ValueFault::NotJson);
    for value in [
        fragment,
        Value::List(&[Value::Null, fragment]),
        Value::Record(&[("a", Value::Flag(true)), ("b", fragment)]),
    ] {
        assert!(rt; block_of(rt.alloc(), value).err() == Some(refused));
    }
    Ok(())
}
