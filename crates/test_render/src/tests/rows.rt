//! Runs that succeed: pages, and what a view has.
use crate::tests::serving::Row;

/// Words, files by their paths, the input, and what is written.
pub type Success = (
    &'static [&'static str],
    &'static [(&'static str, &'static [u8])],
    &'static [u8],
    &'static [u8],
);

/// The run of these.
pub fn success(row: Success) -> Row {
    let (words, files, input, written) = row;
    Row {
        words,
        files,
        input,
        status: 0,
        written,
        line: "",
    }
}

const ONE: &[&str] = &["render", "v"];

const LIST: &[u8] = b"<h1>{{title}}</h1>\n\
<ul>\n\
{{#items}}\n\
<li><a href=\"{{url}}\">{{name}}</a></li>\n\
{{/items}}\n\
{{^items}}\n\
<li>none</li>\n\
{{/items}}\n\
</ul>\n";

const LAYOUT: &[u8] = b"<!doctype html>\n\
<title>{{$title}}Untitled{{/title}}</title>\n\
<main>{{$main}}{{/main}}</main>\n\
{{>foot}}\n";

const INDEX: &[u8] = b"{{<layout}}\n\
{{$title}}{{title}}{{/title}}\n\
{{$main}}<p>{{title}}</p>{{/main}}\n\
{{/layout}}\n";

const FOOT: &[u8] = b"<footer>{{?year}}{{year}}{{/year}}{{^year}}-{{/year}}</footer>\n";

pub static PAGES: [Success; 16] = [
    (
        ONE,
        &[("v", LIST)],
        b"{\"title\": \"a<b\", \"items\": [{\"name\": \"x&y\", \"url\": \"/p?q=1\"}]}",
        b"<h1>a&lt;b</h1>\n<ul>\n<li><a href=\"/p?q=1\">x&amp;y</a></li>\n</ul>\n",
    ),
    (
        ONE,
        &[("v", LIST)],
        b"{\"title\": \"\", \"items\": []}",
        b"<h1></h1>\n<ul>\n<li>none</li>\n</ul>\n",
    ),
    // What is not there is no item.
    (
        ONE,
        &[("v", LIST)],
        b"{\"title\": \"\"}",
        b"<h1></h1>\n<ul>\n<li>none</li>\n</ul>\n",
    ),
    (
        &[
            "render",
            "a/index.html",
            "b.c/foot.html",
            "layout.part.html",
        ],
        &[
            ("layout.part.html", LAYOUT),
            ("b.c/foot.html", FOOT),
            ("a/index.html", INDEX),
        ],
        b"{\"title\": \"T&\", \"year\": 1.50}",
        b"<!doctype html>\n<title>T&amp;</title>\n<main><p>T&amp;</p></main>\n<footer>1.50</footer>\n",
    ),
    (
        &["render", "index", "foot", "layout"],
        &[("layout", LAYOUT), ("foot", FOOT), ("index", INDEX)],
        b"{\"title\": \"T\"}",
        b"<!doctype html>\n<title>T</title>\n<main><p>T</p></main>\n<footer>-</footer>\n",
    ),
    // Numbers stand as they are written.
    (
        ONE,
        &[("v", b"{{#n}}{{.}} {{/n}}")],
        b"{\"n\": [1.50, -0, 1e400, 12345678901234567890123]}",
        b"1.50 -0 1e400 12345678901234567890123 ",
    ),
    // A data block has any data, as JSON.
    (
        ONE,
        &[("v", b"<script type=\"application/json\">{{items}}</script>")],
        b"{\"items\": [{\"id\": 1.50, \"name\": \"</script>\", \"new\": false, \"tags\": null}]}",
        b"<script type=\"application/json\">[{\"id\":1.50,\"name\":\"\\u003C/script>\",\"new\":false,\"tags\":null}]</script>",
    ),
    // Flags are texts, and conditions.
    (
        ONE,
        &[("v", b"{{a}}{{b}}{{?a}}1{{/a}}{{^b}}2{{/b}}")],
        b"{\"a\": true, \"b\": false}",
        b"truefalse12",
    ),
    // Nothing, an empty text, an empty list and a missing name are no condition; an empty object is one.
    (
        ONE,
        &[(
            "v",
            b"{{^a}}1{{/a}}{{^b}}2{{/b}}{{^c}}3{{/c}}{{^d}}4{{/d}}{{?e}}5{{/e}}",
        )],
        b"{\"a\": null, \"b\": \"\", \"c\": [], \"e\": {}}",
        b"12345",
    ),
    // A name is looked up from inside out.
    (
        ONE,
        &[("v", b"{{#o}}{{a}}{{b}}{{c.d}}{{/o}}{{a}}")],
        b"{\"a\": 1, \"b\": 2, \"c\": {\"d\": 3}, \"o\": {\"a\": 4}}",
        b"4231",
    ),
    (
        ONE,
        &[("v", b"{{.}}")],
        b"\"\\u00e9\\ud83d\\ude00<\"",
        b"\xC3\xA9\xF0\x9F\x98\x80&lt;",
    ),
    (ONE, &[("v", b"")], b" null\n", b""),
    (
        ONE,
        &[("v", b"<p {{a}}>")],
        b"{\"a\": {\"class\": \"b\", \"hidden\": true}}",
        b"<p  class=\"b\" hidden=\"\">",
    ),
    (
        ONE,
        &[("v", b"<a href=\"/u/{{a}}?q={{b}}#{{c}}\">")],
        b"{\"a\": \"x/y\", \"b\": \"a b&c\", \"c\": \"\"}",
        b"<a href=\"/u/x%2Fy?q=a%20b%26c#\">",
    ),
    (
        ONE,
        &[("v", b"<script>var a = \"{{a}}\";</script>")],
        b"{\"a\": \"</script>\"}",
        b"<script>var a = \"\\x3C/script>\";</script>",
    ),
    // Of two partials with one name the later one stands.
    (
        &["render", "v", "a/p", "b/p"],
        &[("v", b"{{>p}}"), ("a/p", b"1"), ("b/p", b"{{>p}}2")],
        b"{}",
        b"12",
    ),
];

// What views have. The input is never read.
const CHECK: &[&str] = &["check", "v"];

pub static CHECKS: [Success; 8] = [
    (
        CHECK,
        &[("v", LIST)],
        b"not read",
        b"title text\n#items\nurl double-quoted link\nname text\n^items\n",
    ),
    (
        &["check", "index", "foot", "layout"],
        &[("layout", LAYOUT), ("foot", FOOT), ("index", INDEX)],
        b"not read",
        b"title text\ntitle text\n?year\nyear text\n^year\n",
    ),
    (CHECK, &[("v", b"<p>x</p>")], b"not read", b""),
    (
        CHECK,
        &[(
            "v",
            b"<p a={{a}} b='{{b}}' c=\"{{c}}\">\
            <a href='/{{d}}?{{e}}#{{f}}' title=t></a><a href='{{g}}'></a><link href='{{m}}'><a href='mailto:{{t}}'></a>\
            <a href='{{n}}/'></a><script src='{{o}}/p'></script>\
            <style>p { content: '{{h}}' \"{{i}}\" }</style><script>x('{{j}}', \"{{k.l}}\", {{q}})</script>{{{r}}}\
            <script type='application/json'>{{s}}</script><p style='top: {{t}}px; left: {{u}}'>",
        )],
        b"not read",
        b"a unquoted\n\
        b single-quoted\n\
        c double-quoted\n\
        d single-quoted path\n\
        e single-quoted query\n\
        f single-quoted fragment\n\
        g single-quoted link\n\
        m single-quoted own-path\n\
        t single-quoted opaque-path\n\
        n single-quoted base\n\
        o single-quoted own-base\n\
        h style-single\n\
        i style-double\n\
        j script-single\n\
        k.l script-double\n\
        q script-double literal\n\
        r fragment\n\
        s text json\n\
        t single-quoted style-value\n\
        u single-quoted style-value\n",
    ),
    // A section of white space alone has no line, nor has a body that never stands.
    (
        CHECK,
        &[(
            "v",
            b"{{#x}}{{.}}{{/x}} {{^x}}{{a}}{{/x}}{{^y}}{{b}}{{/y}}{{?z}}{{/z}}",
        )],
        b"not read",
        b"#x\n. text\n^x\na text\n^y\nb text\n?z\n",
    ),
    (
        CHECK,
        &[("v", b"{{a}}{{a}}{{#b}}{{#a}}{{c}}{{/a}}{{/b}}")],
        b"not read",
        b"a text\na text\n#b\n#a\nc text\n",
    ),
    (
        CHECK,
        &[("v", b"<option {{#x}}selected{{/x}}>")],
        b"not read",
        b"#x\n",
    ),
    // Of a slot between attributes the attributes are not told.
    (
        CHECK,
        &[("v", b"<p {{a}}>{{b}}</p>")],
        b"not read",
        b"a attributes\nb text\n",
    ),
];
