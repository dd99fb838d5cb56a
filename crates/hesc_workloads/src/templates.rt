//! Templates that are read: named ones of a site, parts, and bytes alone.

use crate::digest::Digest;
use crate::kinds::{MANY_SCRIPTS, PROSE};
use crate::numbers::Numbers;
use crate::texts::{any_piece, text_of};
use html_template::{Part, Template};
use html_template_source::NamedTemplate;
use html_tokenizer::Reader;
use std::alloc::{AllocError, Global};

const HEAD: &str =
    "<!DOCTYPE html>\n<html lang=\"{{language}}\">\n<head>\n<meta charset=\"utf-8\">\n\
<meta name=\"viewport\" content=\"width=device-width, initial-scale=1\">\n<title>{{title}}</title>\n\
<link rel=\"stylesheet\" href=\"/static/css/main.css\">\n</head>\n<body class=\"page wide\">\n\
<nav id=\"menu\"><ul><li><a class=\"item active\" href=\"/\">Home</a></li>\
<li><a class=\"item\" href=\"/about\">About</a></li></ul></nav>\n<main>\n";

// Each name stands here once, so that all of them may be bound.
const FOOT: &str = "</main>\n<footer class=\"small muted\"><p>&#169; 2026 {{owner}}</p>\
<p hidden>{{heading}} {{author}} {{date}} {{name}} {{price}} {{id}} {{count}} {{text}} {{badge}} {{term}}</p>\
</footer>\n</body>\n</html>\n";

// What stands between the head and the foot: each block with a gap for prose in its middle.
static BLOCKS: [(&str, &str); 12] = [
    (
        "<article class=\"card shadow\" id=\"post\">\n  <h2 class=\"title\">{{heading}}</h2>\n  <p class=\"lead\">",
        "</p>\n  <p class=\"meta\">{{author}}, <time datetime=\"{{date}}\">{{date}}</time></p>\n</article>\n",
    ),
    ("<p>", "</p>\n"),
    ("<!-- ", " -->\n"),
    (
        "<table class=\"grid striped\">\n<thead><tr><th>Name</th><th>Price</th></tr></thead>\n<tbody><tr><td>{{name}}</td><td class=\"number\">{{price}}</td></tr></tbody>\n<caption>",
        "</caption></table>\n",
    ),
    (
        "<form method=\"post\" action=\"/orders/{{id}}\">\n<label for=\"count\">Count</label><input type=\"number\" name=\"count\" value=\"{{count}}\" min=1 max=99>\n<textarea name=\"note\" rows=\"4\">",
        "</textarea>\n<button type=\"submit\" class=\"button primary\" disabled>Order</button></form>\n",
    ),
    (
        "<ul class=\"links\">\n<li><a href=\"/items/{{id}}?from=list\" title=\"{{name}}\"><img src=\"/images/{{id}}.png\" alt=\"{{name}}\" width=64 height=64></a></li>\n<li>",
        "</li>\n</ul>\n",
    ),
    (
        "<script>\n// starts the page\nlet state = {open: false, name: \"{{name}}\", rows: []};\nfunction start(root) {\n  const items = root.querySelectorAll('.item');\n  for (const item of items) {\n    item.addEventListener('click', toggle);\n    state.rows.push(item.textContent.trim());\n  }\n  if (items.length > 20 && state.open) {\n    root.classList.add('long');\n  }\n}\n/* ",
        " */\nwindow.addEventListener('load', function () { start(document.body); });\n</script>\n",
    ),
    (
        "<style>\n.card { margin: 0 auto 16px; padding: 8px 12px; border: 1px solid #ccc; }\n.card > h2 { font: bold 20px/1.2 Georgia, serif; color: #336699; }\n.new::after { content: '{{badge}}'; }\n@media print { nav { display: none; } }\n/* ",
        " */\n.wide { background: white url(/images/paper.png) repeat; }\n</style>\n",
    ),
    (
        "<div class=\"row\"><div class=\"col\"><p title='",
        "'>{{text}}</p></div></div>\n",
    ),
    (
        "<section data-kind=\"news\" data-count={{count}}>\n<h3>{{heading}}</h3>\n<blockquote cite=\"/sources/7\">",
        "</blockquote>\n<hr class=\"thin\"/></section>\n",
    ),
    (
        "<dl>\n<dt>{{term}}</dt>\n<dd>",
        " <em>{{name}}</em> &amp; <b>more</b></dd>\n</dl>\n",
    ),
    (
        "<p class=\"note\"><b>Note.</b> ",
        " <a href=\"https://example.org/help/{{id}}\">Help</a></p>\n",
    ),
];

pub(crate) fn read_templates(
    alloc: Global,
    numbers: &mut Numbers,
    rounds: usize,
    digest: &mut Digest,
) -> Result<(), AllocError> {
    let mut prose = text_of(alloc, &PROSE, numbers, 100_000)?;
    let foreign = text_of(alloc, &MANY_SCRIPTS, numbers, 50_000)?;
    push_letters(&mut prose, foreign.as_str())?;
    let mut page = String::new(alloc);
    for round in 0..rounds {
        let length = numbers.length(1_000, 100_000);
        let source = source_of(alloc, &prose, numbers, length)?;
        read_source(alloc, &prose, &source, &mut page, numbers, digest)?;
        if round % 4 == 3 {
            let count = numbers.length(10, 4_000);
            read_parts(alloc, &prose, &mut page, numbers, count, digest)?;
        }
    }
    let slots = rounds.saturating_mul(100).min(100_000);
    read_parts(alloc, &prose, &mut page, numbers, slots, digest)
}

// The text without what is no plain text of a template.
fn push_letters(prose: &mut String, text: &str) -> Result<(), AllocError> {
    for part in text.split(['<', '>', '&', '"', '\'', '=', '/']) {
        prose.push_str(part)?;
    }
    Ok(())
}

fn source_of(
    alloc: Global,
    prose: &str,
    numbers: &mut Numbers,
    length: usize,
) -> Result<String, AllocError> {
    let mut source = String::from_str(alloc, HEAD)?;
    'blocks: for _ in 0..length {
        if source.len() >= length {
            break 'blocks;
        }
        if let Some((before, after)) = BLOCKS.get(numbers.below(BLOCKS.len())) {
            source.push_str(*before)?;
            let count = numbers.length(20, 2_000);
            source.push_str(any_piece(prose, numbers, count))?;
            source.push_str(*after)?;
        }
    }
    source.push_str(FOOT)?;
    Ok(source)
}

// The named template, and a part of it as a reader alone takes it.
fn read_source(
    alloc: Global,
    prose: &str,
    source: &str,
    page: &mut String,
    numbers: &mut Numbers,
    digest: &mut Digest,
) -> Result<(), AllocError> {
    let title = any_piece(prose, numbers, 40);
    let bindings = [
        ("language", "en"),
        ("title", title),
        ("owner", "The Daily Page"),
        ("heading", title),
        ("author", "A. N. Author"),
        ("date", "2026-11-26"),
        ("name", title),
        ("price", "12.50"),
        ("id", "1742"),
        ("count", "7"),
        ("text", any_piece(prose, numbers, 60)),
        ("badge", "new"),
        ("term", "term"),
    ];
    page.clear();
    match NamedTemplate::parse(alloc, source) {
        Ok(template) => {
            let written = template.append(page, &bindings).is_ok();
            digest.add_number(written as u64);
            digest.add(page.as_bytes());
        }
        Err(_) => digest.add_number(6),
    }
    let mut reader = Reader::new(alloc);
    let start = numbers.below(source.len() / 2);
    if let Some(bytes) = source.as_bytes().get(start..) {
        reader.read(bytes)?;
    }
    digest.add_number(reader.is_refused() as u64);
    digest.add_number(reader.may_end() as u64);
    digest.add_number(source.len() as u64);
    Ok(())
}

// A list of so many slots, each in a row of its own.
fn read_parts(
    alloc: Global,
    prose: &str,
    page: &mut String,
    numbers: &mut Numbers,
    count: usize,
    digest: &mut Digest,
) -> Result<(), AllocError> {
    let mut parts = Vec::new(alloc);
    let mut texts = Vec::new(alloc);
    parts.push(Part::Markup("<table><caption>"))?;
    parts.push(Part::Markup(any_piece(prose, numbers, 100)))?;
    parts.push(Part::Markup("</caption>"))?;
    for _ in 0..count / 2 {
        parts.push(Part::Markup("<tr><td title=\""))?;
        parts.push(Part::Slot)?;
        texts.push(any_piece(prose, numbers, 12))?;
        parts.push(Part::Markup("\" class=\"cell\">"))?;
        parts.push(Part::Slot)?;
        texts.push("1")?;
        parts.push(Part::Markup("</td></tr>\n"))?;
    }
    parts.push(Part::Markup("</table>"))?;
    match Template::new(alloc, parts.as_slice()) {
        Ok(template) => {
            page.clear();
            let written = template.append(page, &texts).is_ok();
            digest.add_number(written as u64);
            digest.add(page.as_bytes());
        }
        Err(_) => digest.add_number(7),
    }
    digest.add_number(count as u64);
    Ok(())
}
