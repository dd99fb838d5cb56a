//! Texts between the marks of a place: what is appended, and the faults.
use hesc_places::{End, Place, PlaceFault, append_enclosed, enclose, suits};
use html_escape::Encoder;
use std::process::Abort;
use std::test::Fail;
use test_support::Refusing;

type Row = (Encoder, Place, &'static str, &'static str);

static ENCLOSED: [Row; 20] = [
    (Encoder::Text, Place::Text, "a<b", ">a&lt;b<"),
    (Encoder::TextMinimal, Place::Text, "", "><"),
    (Encoder::Safe, Place::Text, "</b>", ">&lt;&#x2F;b&gt;<"),
    (
        Encoder::DoubleQuotedAttribute,
        Place::DoubleAttribute,
        "it's \"1\"",
        "\"it's &quot;1&quot;\"",
    ),
    (
        Encoder::UnquotedAttribute,
        Place::DoubleAttribute,
        "\0é",
        "\"&#x00;é\"",
    ),
    (
        Encoder::SingleQuotedAttribute,
        Place::SingleAttribute,
        "it's \"1\"",
        "'it&#x27;s \"1\"'",
    ),
    (
        Encoder::QuotedAttribute,
        Place::SingleAttribute,
        "'\"'",
        "'&#x27;&quot;&#x27;'",
    ),
    (
        Encoder::UnquotedAttribute,
        Place::UnquotedAttribute(End::Greater),
        "a b",
        "=a&#x20;b>",
    ),
    (
        Encoder::UnquotedAttribute,
        Place::UnquotedAttribute(End::Space),
        "a>",
        "=a&gt; ",
    ),
    (
        Encoder::UnquotedAttribute,
        Place::UnquotedAttribute(End::Tab),
        "a",
        "=a\t",
    ),
    (
        Encoder::UnquotedAttribute,
        Place::UnquotedAttribute(End::LineFeed),
        "a",
        "=a\n",
    ),
    (
        Encoder::UnquotedAttribute,
        Place::UnquotedAttribute(End::FormFeed),
        "a",
        "=a\u{c}",
    ),
    (
        Encoder::ScriptSingleQuoted,
        Place::ScriptSingle,
        "it's \"<b>\"",
        "'it\\'s \"\\x3Cb>\"'",
    ),
    (
        Encoder::ScriptQuoted,
        Place::ScriptDouble,
        "it's \"<b>\"",
        "\"it\\'s \\\"\\x3Cb>\\\"\"",
    ),
    (Encoder::StyleQuoted, Place::StyleSingle, "< a", "'\\3C  a'"),
    (
        Encoder::StyleDoubleQuoted,
        Place::StyleDouble,
        "\0a",
        "\"\u{fffd}a\"",
    ),
    (
        Encoder::Script,
        Place::ScriptBody,
        "</script",
        "<script><\\/script</script>",
    ),
    (
        Encoder::Script,
        Place::ScriptBody,
        "</scri",
        "<script></scri</script>",
    ),
    (
        Encoder::Script,
        Place::ScriptBody,
        "<!--<script>",
        "<script><\\!--<script></script>",
    ),
    (
        Encoder::Style,
        Place::StyleBody,
        "</style\u{b}",
        "<style><\\/style\u{b}</style>",
    ),
];

static FAULTS: [(Encoder, Place, &str, PlaceFault); 6] = [
    (
        Encoder::StyleSingleQuoted,
        Place::StyleDouble,
        "a",
        PlaceFault::NotForPlace,
    ),
    (
        Encoder::Style,
        Place::ScriptBody,
        "a",
        PlaceFault::NotForPlace,
    ),
    (
        Encoder::Text,
        Place::DoubleAttribute,
        "a",
        PlaceFault::NotForPlace,
    ),
    (
        Encoder::Safe,
        Place::UnquotedAttribute(End::Space),
        "a",
        PlaceFault::NotForPlace,
    ),
    (
        Encoder::Safe,
        Place::UnquotedAttribute(End::Space),
        "",
        PlaceFault::NotForPlace,
    ),
    (
        Encoder::UnquotedAttribute,
        Place::UnquotedAttribute(End::Space),
        "",
        PlaceFault::EmptyUnquoted,
    ),
];

#[test]
fn the_text_stands_between_the_marks(rt: HostRuntime) -> Result<(), Fail> {
    for &(encoder, place, text, enclosed) in &ENCLOSED {
        assert!(rt; suits(encoder, place), "{encoder:?} in {place:?}");
        let mut output = String::from_str(rt.alloc(), "x")?;
        let added = enclose(encoder, place, text, &mut output);
        assert!(rt; added == Ok(enclosed), "{encoder:?} in {place:?}");
        assert!(rt;
            output.strip_prefix("x") == Some(enclosed),
            "{encoder:?} in {place:?}"
        );
    }
    Ok(())
}

#[test]
fn a_fault_leaves_the_output(rt: HostRuntime) -> Result<(), Fail> {
    for &(encoder, place, text, fault) in &FAULTS {
        let heap = Refusing::new(rt.alloc(), 0);
        let mut output = String::from_str(&heap, "x")?;
        heap.refuse(1);
        let answer = append_enclosed(&mut output, encoder, place, text);
        assert!(rt; answer == Err(fault), "{encoder:?} in {place:?}");
        assert!(rt; output.as_str() == "x", "{encoder:?} in {place:?}");
        assert!(rt; heap.asked(1) == 0, "{encoder:?} in {place:?}");
    }
    Ok(())
}
