//! The line of each fault, and its status.
use crate::tests::serving::{Row, is_right, shown};
use std::process::Abort;
use std::test::Fail;

/// Words, files by their paths, the input, the status, and the line.
pub type Refusal = (
    &'static [&'static str],
    &'static [(&'static str, &'static [u8])],
    &'static [u8],
    u8,
    &'static str,
);

/// The run of these.
pub fn refusal(row: Refusal) -> Row {
    let (words, files, input, status, line) = row;
    Row {
        words,
        files,
        input,
        status,
        written: b"",
        line,
    }
}

/// Of the words, of files and of tags.
pub static REFUSALS: [Refusal; 17] = [
    (&[], &[], b"", 2, "usage: hesc COMMAND [ARGUMENT..]\n"),
    (
        &["render"],
        &[],
        b"a",
        2,
        "usage: hesc COMMAND [ARGUMENT..]\n",
    ),
    (
        &["check"],
        &[],
        b"a",
        2,
        "usage: hesc COMMAND [ARGUMENT..]\n",
    ),
    (
        &["renders", "v"],
        &[("v", b"")],
        b"{}",
        2,
        "usage: hesc COMMAND [ARGUMENT..]\n",
    ),
    // Files.
    (
        &["render", "a.html"],
        &[],
        b"{}",
        1,
        "hesc: a.html: cannot be read\n",
    ),
    (
        &["check", "v", "p/x.html"],
        &[("v", b"")],
        b"",
        1,
        "hesc: p/x.html: cannot be read\n",
    ),
    (
        &["render", "v", "p"],
        &[("v", b""), ("p", b"a\xFF")],
        b"{}",
        1,
        "hesc: p: is not UTF-8\n",
    ),
    (
        &["check", "v"],
        &[("v", b"\xC3")],
        b"",
        1,
        "hesc: v: is not UTF-8\n",
    ),
    // Tags.
    (
        &["check", "v"],
        &[("v", b"\xC3\xA9\n  {{a")],
        b"",
        1,
        "hesc: v:2:3: no }} ends this tag\n",
    ),
    (
        &["check", "v"],
        &[("v", b"x{{a b}}")],
        b"",
        1,
        "hesc: v:1:2: bad name; a name is of letters, digits, _ and -, with dots between words\n",
    ),
    (
        &["check", "v"],
        &[("v", b"<p>\xC3\xA9{{{a}}")],
        b"",
        1,
        "hesc: v:1:5: no }}} ends this tag\n",
    ),
    (
        &["check", "v"],
        &[("v", b"\r\n{{*a}}")],
        b"",
        1,
        "hesc: v:2:1: no tag begins like this; for a {{ in the page write {{\"{{\"}}\n",
    ),
    (
        &["check", "v"],
        &[("v", b"a\n\nb{{/x}}")],
        b"",
        1,
        "hesc: v:3:2: nothing of this name is open here\n",
    ),
    (
        &["check", "v"],
        &[("v", b"{{#x}}")],
        b"",
        1,
        "hesc: v:1:1: this has no end; write {{/name}}\n",
    ),
    (
        &["check", "v"],
        &[("v", b"{{>p}}")],
        b"",
        1,
        "hesc: v:1:1: no such partial; give its file, in front of partials that ask for it\n",
    ),
    (
        &["check", "v"],
        &[(
            "v",
            b"{{#a}}{{#a}}{{#a}}{{#a}}{{#a}}{{#a}}{{#a}}{{#a}}{{#a}}{{#a}}{{#a}}\
        {{#a}}{{#a}}{{#a}}{{#a}}{{#a}}{{#a}}{{#a}}{{#a}}{{#a}}{{#a}}{{#a}}\
        {{#a}}{{#a}}{{#a}}{{#a}}{{#a}}{{#a}}{{#a}}{{#a}}{{#a}}{{#a}}{{#a}}",
        )],
        b"",
        1,
        "hesc: v:1:193: more than 32 tags stand in one another\n",
    ),
    (
        &["check", "v", "p", "q"],
        &[("v", b"{{>p}}"), ("p", b"\n {{>q}}"), ("q", b"")],
        b"",
        1,
        "hesc: p:2:2: no such partial; give its file, in front of partials that ask for it\n",
    ),
];

/// Of places and of ways.
static OF_VIEWS: [Refusal; 15] = [
    // Places.
    (
        &["check", "v"],
        &[("v", b"<p a=b=c>")],
        b"",
        1,
        "hesc: v:1:1: browsers may not read this markup alike\n",
    ),
    (
        &["check", "v"],
        &[("v", b"<p{{a}}>")],
        b"",
        1,
        "hesc: v:1:3: no text may stand here\n",
    ),
    (
        &["check", "v"],
        &[("v", b"<p onclick=\"{{a}}\">")],
        b"",
        1,
        "hesc: v:1:13: no text may stand here, since it would be read as code\n",
    ),
    (
        &["check", "v"],
        &[("v", b"<a href=\"/a b{{c}}\">")],
        b"",
        1,
        "hesc: v:1:14: this URL has a slot; percent-encode white space, \\ and other references than &amp;\n",
    ),
    (
        &["check", "v"],
        &[("v", b"<a href=\"//{{a}}\">")],
        b"",
        1,
        "hesc: v:1:12: the host of this URL is open; begin it with / or https://host/\n",
    ),
    (
        &["check", "v"],
        &[("v", b"<a href=\"/.{{a}}\">")],
        b"",
        1,
        "hesc: v:1:12: a segment of this URL may be . or ..; write other bytes beside the dots\n",
    ),
    (
        &["check", "v"],
        &[("v", b"<a href=\"{{a}}.x\">")],
        b"",
        1,
        "hesc: v:1:15: a slot begins this URL; it may go on with one /, ?, #, a letter, a digit or _\n",
    ),
    (
        &["check", "v"],
        &[("v", b"<p style=\"top: {{a}}(b)\">")],
        b"",
        1,
        "hesc: v:1:21: a slot stands in this declaration; up to its ; it may go on with letters, digits, spaces and - _ # % . , + !\n",
    ),
    // Ways.
    (
        &["check", "v"],
        &[("v", b"<p title={{?x}}'{{/x}}{{^x}}\"{{/x}}a {{a}}'\">")],
        b"",
        1,
        "hesc: v:1:38: this slot stands in two places, or before two kinds of markup; write one slot for each\n",
    ),
    (
        &["check", "v"],
        &[(
            "v",
            b"<p {{?a}}h{{/a}}{{?b}}r{{/b}}{{?c}}e{{/c}}{{?d}}f{{/d}}>",
        )],
        b"",
        1,
        "hesc: v:1:43: too many sections stand within one tag; let each hold whole attributes or whole tags\n",
    ),
    (
        &["check", "v"],
        &[("v", b"<p title=\"{{&a}}\">")],
        b"",
        1,
        "hesc: v:1:11: no fragment may stand here, but in text\n",
    ),
    (
        &["check", "a/v.html"],
        &[("a/v.html", b"{{?a}}<p{{/a}}")],
        b"",
        1,
        "hesc: a/v.html: ends within a tag, a comment, a reference or an element (if the section at a/v.html:1:1 stands)\n",
    ),
    (
        &["check", "v"],
        &[("v", b"{{?y}}b{{/y}}\n{{?x}}<!--{{/x}}{{a}}")],
        b"",
        1,
        "hesc: v:2:17: no text may stand here (if the section at v:2:1 stands)\n",
    ),
    (
        &["check", "v", "p/row.html"],
        &[
            ("v", b"{{#l}}{{>row}}{{/l}}"),
            ("p/row.html", b"{{?x}}\n<!--{{/x}}{{a}}"),
        ],
        b"",
        1,
        "hesc: p/row.html:2:11: no text may stand here (if the sections at v:1:1 and p/row.html:1:1 stand)\n",
    ),
    (
        &["check", "v"],
        &[(
            "v",
            b"{{#a}}{{#b}}{{#c}}{{?d}}<!--{{e}}{{/d}}{{/c}}{{/b}}{{/a}}",
        )],
        b"",
        1,
        "hesc: v:1:29: no text may stand here (if the sections at v:1:13 and v:1:19 stand, and 2 before them)\n",
    ),
];

/// Of the input and of values.
static OF_DATA: [Refusal; 22] = [
    // The input.
    (
        &["render", "v"],
        &[("v", b"{{a}}")],
        b"\"\xFF\"",
        1,
        "hesc: input is not UTF-8\n",
    ),
    (
        &["render", "v"],
        &[("v", b"{{a}}")],
        b"",
        1,
        "hesc: input is not JSON\n",
    ),
    (
        &["render", "v"],
        &[("v", b"{{a}}")],
        b"{\"a\": 1} x",
        1,
        "hesc: input is not JSON\n",
    ),
    (
        &["render", "v"],
        &[("v", b"{{a}}")],
        b"{\"a\": 01}",
        1,
        "hesc: input is not JSON\n",
    ),
    (
        &["render", "v"],
        &[("v", b"{{a}}")],
        b"{\"b\": [{\"a\": 1, \"\\u0061\": 2}]}",
        1,
        "hesc: input has a key twice in one object\n",
    ),
    // What is wrong with a view comes before what is wrong with the input.
    (
        &["render", "v"],
        &[("v", b"<p{{a}}>")],
        b"\xFF",
        1,
        "hesc: v:1:3: no text may stand here\n",
    ),
    // Values.
    (
        &["render", "v"],
        &[("v", b"{{a}}")],
        b"{}",
        1,
        "hesc: v:1:1: no value has this name\n",
    ),
    (
        &["render", "v"],
        &[("v", b"x\n{{#o}}\n{{o.a}}{{/o}}")],
        b"{\"o\": {\"a\": null}}",
        1,
        "hesc: v:3:1: no value has this name\n",
    ),
    (
        &["render", "v"],
        &[("v", b"{{a}}")],
        b"{\"a\": []}",
        1,
        "hesc: v:1:1: the value is no text\n",
    ),
    (
        &["render", "v"],
        &[("v", b" {{a}}")],
        b"{\"a\": {}}",
        1,
        "hesc: v:1:2: the value is no text\n",
    ),
    (
        &["render", "v"],
        &[("v", b" {{{a}}}")],
        b"{\"a\": \"<b>\"}",
        1,
        "hesc: v:1:2: the value is no fragment, as no value of JSON is; write {{name}} for its text\n",
    ),
    (
        &["render", "v"],
        &[("v", b"<p {{a}}>")],
        b"{\"a\": \"b\"}",
        1,
        "hesc: v:1:4: the value is no object of attributes; this slot stands between attributes\n",
    ),
    (
        &["render", "v"],
        &[("v", b"<option {{#x}}selected{{/x}}>")],
        b"{\"x\": [1, 2]}",
        1,
        "hesc: v:1:9: the list has two items or more, and this section stands once\n",
    ),
    (
        &["render", "v"],
        &[("v", b"<p title={{a}}>")],
        b"{\"a\": \"\"}",
        1,
        "hesc: v:1:10: the text is empty; write quotes around the slot\n",
    ),
    (
        &["render", "v"],
        &[("v", b"<a href=\"/{{a}}\">")],
        b"{\"a\": \"\"}",
        1,
        "hesc: v:1:11: the text is empty, and a segment of a URL is not\n",
    ),
    (
        &["render", "v"],
        &[("v", b"<a href=\"/{{a}}\">")],
        b"{\"a\": \"..\"}",
        1,
        "hesc: v:1:11: the text is . or .., and a segment of a URL is not\n",
    ),
    (
        &["render", "v"],
        &[("v", b"<a href=\"{{a}}\">")],
        b"{\"a\": \"javascript:x\"}",
        1,
        "hesc: v:1:10: the text is no link; its scheme has to be http, https or mailto\n",
    ),
    (
        &["render", "v"],
        &[("v", b"<link href=\"{{a}}\">")],
        b"{\"a\": \"//b.example/c\"}",
        1,
        "hesc: v:1:13: the text is no own path; begin it with one /, and leave out white space, \\ and dot segments\n",
    ),
    (
        &["render", "v"],
        &[("v", b"<a href='{{a}}/b'>")],
        b"{\"a\": \"//c\"}",
        1,
        "hesc: v:1:10: the text is no base; begin it with one /, http:// or https://, leave out ?, # and dot segments, and end it in / before a name alone\n",
    ),
    (
        &["render", "v"],
        &[("v", b"<link href='{{a}}/b'>")],
        b"{\"a\": \"http://c\"}",
        1,
        "hesc: v:1:13: the text is no base of the page's own host; begin it with one /\n",
    ),
    (
        &["render", "v"],
        &[("v", b"<p style='top: {{a}}'>")],
        b"{\"a\": \"1;\"}",
        1,
        "hesc: v:1:16: the text is no piece of a declaration's value; it may have letters, digits, spaces and - _ # % . , +\n",
    ),
    (
        &["render", "v", "a/p.html"],
        &[("v", b"{{>p}}"), ("a/p.html", b"<p>\n\xC3\xA9 {{a.b}}")],
        b"{\"a\": 1}",
        1,
        "hesc: a/p.html:2:3: no value has this name\n",
    ),
];

#[test]
fn each_fault_of_words_files_and_tags_has_its_line(rt: HostRuntime) -> Result<(), Fail> {
    for &row in &REFUSALS {
        let found = shown(rt.alloc(), refusal(row))?;
        assert!(rt; is_right(rt.alloc(), refusal(row))?, "{:?}: {found}", row.4);
    }
    Ok(())
}

#[test]
fn each_fault_of_a_view_has_its_line(rt: HostRuntime) -> Result<(), Fail> {
    for &row in &OF_VIEWS {
        let found = shown(rt.alloc(), refusal(row))?;
        assert!(rt; is_right(rt.alloc(), refusal(row))?, "{:?}: {found}", row.4);
    }
    Ok(())
}

#[test]
fn each_fault_of_data_has_its_line(rt: HostRuntime) -> Result<(), Fail> {
    for &row in &OF_DATA {
        let found = shown(rt.alloc(), refusal(row))?;
        assert!(rt; is_right(rt.alloc(), refusal(row))?, "{:?}: {found}", row.4);
    }
    Ok(())
}
