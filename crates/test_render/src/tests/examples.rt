//! The examples of the public functions, and those of the commands for views in the documents.
use crate::tests::rows::{Success, success};
use crate::tests::serving::{args_of, is_right};
use hesc_views::{
    Command, Fault, Refusal, Spot, Standing, Texts, append_nodes, are_for_views, call_of, line_of,
    page_of, partial_name, spot_of,
};
use html_template::PartFault;
use html_view::{Position, View};
use std::process::Abort;
use std::test::Fail;

const VIEW: &[u8] = b"<!doctype html>\n\
<title>{{title}}</title>\n\
<ul>\n\
{{#items}}\n\
<li><a href=\"{{url}}\">{{name}}</a></li>\n\
{{/items}}\n\
{{^items}}\n\
<li>Nothing yet.</li>\n\
{{/items}}\n\
</ul>\n\
{{>foot}}\n";

const FOOT: &[u8] = b"<footer>{{?year}}Since {{year}}{{/year}}</footer>\n";

const FILES: &[(&str, &[u8])] = &[("list.html", VIEW), ("partials/foot.html", FOOT)];

const SMALL: &[(&str, &[u8])] = &[(
    "page.html",
    b"<h1>{{title}}</h1>{{#links}} <a href=\"{{url}}\">{{name}}</a>{{/links}}\n",
)];

// Those of docs/TOOL.md, and then those of the README.
static SHOWN: [Success; 4] = [
    (
        &["render", "list.html", "partials/foot.html"],
        FILES,
        b"{\"title\": \"Links\", \"items\": [{\"name\": \"Q&A\", \"url\": \"/p?q=1\"}], \"year\": 2024}\n",
        b"<!doctype html>\n\
        <title>Links</title>\n\
        <ul>\n<li><a href=\"/p?q=1\">Q&amp;A</a></li>\n</ul>\n\
        <footer>Since 2024</footer>\n",
    ),
    (
        &["check", "list.html", "partials/foot.html"],
        FILES,
        b"",
        b"title text\n\
        #items\n\
        url double-quoted link\n\
        name text\n\
        ^items\n\
        ?year\n\
        year text\n",
    ),
    (
        &["render", "page.html"],
        SMALL,
        b"{\"title\": \"a<b\", \"links\": [{\"name\": \"Q&A\", \"url\": \"/p?q=1\"}]}\n",
        b"<h1>a&lt;b</h1> <a href=\"/p?q=1\">Q&amp;A</a>\n",
    ),
    (
        &["check", "page.html"],
        SMALL,
        b"",
        b"title text\n#links\nurl double-quoted link\nname text\n",
    ),
];

#[test]
fn the_examples_of_the_commands_are_right(rt: HostRuntime) -> Result<(), Fail> {
    for &row in &SHOWN {
        assert!(rt; is_right(rt.alloc(), success(row))?, "{:?}", row.0);
    }
    Ok(())
}

#[test]
fn functions_answer_as_they_are_said_to(rt: HostRuntime) -> Result<(), Fail> {
    let Some(call) = call_of(&["render", "page.html", "partials/head.html"]) else {
        panic!(rt; "the words call for a page");
    };
    assert!(rt; call.command == Command::Render && call.view == "page.html");
    assert!(rt; call.partials.len() == 1 && call.partials[0] == "partials/head.html");
    assert!(rt; call_of(&["render"]).is_none());
    assert!(rt; are_for_views(Ok(args_of(rt.alloc(), &["render"])?)));
    assert!(rt; !are_for_views(Ok(args_of(rt.alloc(), &["encode_text"])?)));
    assert!(rt; partial_name("partials/head.html") == "head");
    assert!(rt; Fault::Usage.status() == 2);
    let texts = Texts {
        view: "a\néb",
        partials: &[],
    };
    let spot = spot_of(texts, Position { text: 0, byte: 4 });
    let wanted = Spot {
        file: 0,
        line: 2,
        column: 2,
    };
    assert!(rt; spot == wanted);
    let spot = Spot {
        file: 0,
        line: 3,
        column: 14,
    };
    let fault = Fault::At(spot, Refusal::Part(PartFault::NoPlace, Standing::None));
    let line = line_of(rt.alloc(), &["page.html"], fault)?;
    assert!(rt; line.as_str() == "hesc: page.html:3:14: no text may stand here");
    Ok(())
}

#[test]
fn a_view_is_shown_and_has_a_page(rt: HostRuntime) -> Result<(), Fail> {
    let source = "<p>{{a}}</p>";
    let texts = Texts {
        view: source,
        partials: &[],
    };
    let Ok(view) = View::parse(rt.alloc(), source, &[]) else {
        panic!(rt; "the source is a view");
    };
    let mut lines = String::new(rt.alloc());
    append_nodes(&mut lines, view.nodes())?;
    assert!(rt; lines.as_str() == "a text\n");
    match page_of(rt.alloc(), rt.alloc(), &view, texts, "{\"a\": \"x<y\"}") {
        Ok(page) => assert!(rt; page.as_str() == "<p>x&lt;y</p>"),
        Err(fault) => panic!(rt; "{fault:?}"),
    }
    Ok(())
}
