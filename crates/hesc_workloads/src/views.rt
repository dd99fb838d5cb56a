//! Views that are parsed and rendered: a table, a list with conditions, the options of a `select`, a page
//! of partials, and the same table of JSON data.

use crate::digest::Digest;
use crate::kinds::{MANY_SCRIPTS, MARKUP};
use crate::numbers::Numbers;
use crate::texts::{any_piece, text_of};
use html_view::{Refused, Value, View};
use json::Scratch;
use std::alloc::{AllocError, Global};

const TABLE: &str = "<table class=\"grid\">\n{{#rows}}<tr id=\"row{{id}}\"><td>{{name}}</td>\
<td title=\"{{note}}\">{{price}}</td></tr>\n{{/rows}}</table>\n";

const LIST: &str =
    "{{#posts}}<article class=\"card{{?pinned}} pinned{{/pinned}}\">\n<h2>{{title}}</h2>\n\
{{?author.link}}<a href=\"{{author.link}}\">{{author.name}}</a>{{/author.link}}\
{{^author.link}}<b>{{author.name}}</b>{{/author.link}}\n\
<p>{{lead}}</p>\n{{#tags}}<i>{{.}}</i> {{/tags}}{{^tags}}<i>none</i>{{/tags}}\n</article>\n{{/posts}}\
{{^posts}}<p>Nothing yet.</p>\n{{/posts}}";

const SELECT: &str = "<label>{{label}} <select name=\"{{field}}\">\n{{#options}}\
<option value=\"{{value}}\"{{?chosen}} selected{{/chosen}}>{{text}}</option>\n{{/options}}</select></label>\n";

const PAGE: &str =
    "{{<layout}}{{$title}}{{title}} - {{site}}{{/title}}{{$main}}<ul>\n{{#rows}}{{>item}}{{/rows}}\
</ul>\n{{/main}}{{/layout}}";

static PARTIALS: [(&str, &str); 3] = [
    (
        "item",
        "<li><a href=\"/items/{{id}}?from=list\">{{name}}</a>, {{price}} {{currency}}</li>\n",
    ),
    ("foot", "<footer><p>{{site}}, {{owner}}</p></footer>\n"),
    (
        "layout",
        "<!DOCTYPE html>\n<html lang=\"{{language}}\"><head><title>{{$title}}Shop{{/title}}</title></head>\n\
<body><h1>{{title}}</h1>\n{{$main}}{{/main}}{{>foot}}</body></html>\n",
    ),
];

// The names of a row in the order of the views, and in another one.
static IN_ORDER: [&str; 4] = ["id", "name", "note", "price"];

static IN_ANOTHER: [&str; 4] = ["price", "note", "name", "id"];

/// The views, the texts that fill them, and the page that is written again and again.
#[derive(Drop)]
struct Shop<'s> {
    texts: &'s str,
    table: View<'static>,
    list: View<'static>,
    select: View<'static>,
    page: View<'static>,
    output: String,
}

pub(crate) fn render_views(
    alloc: Global,
    numbers: &mut Numbers,
    rounds: usize,
    digest: &mut Digest,
) -> Result<(), AllocError> {
    let mut texts = text_of(alloc, &MARKUP, numbers, 60_000)?;
    texts.push_str(text_of(alloc, &MANY_SCRIPTS, numbers, 20_000)?.as_str())?;
    let Ok(mut shop) = shop_of(alloc, texts.as_str()) else {
        digest.add_number(1);
        return Ok(());
    };
    for round in 0..rounds {
        let count = numbers.length(1, 400);
        match round % 6 {
            0 => render_rows(alloc, &mut shop, IN_ORDER, numbers, count, digest)?,
            1 => render_rows(alloc, &mut shop, IN_ANOTHER, numbers, count, digest)?,
            2 => render_list(alloc, &mut shop, numbers, count, digest)?,
            3 => render_options(alloc, &mut shop, numbers, count, digest)?,
            4 => render_json(alloc, &mut shop, numbers, count, digest)?,
            _ => parse_source(alloc, &mut shop, numbers, digest)?,
        }
    }
    Ok(())
}

fn shop_of(alloc: Global, texts: &str) -> Result<Shop<'_>, Refused> {
    Ok(Shop {
        texts,
        table: View::parse(alloc, TABLE, &[])?,
        list: View::parse(alloc, LIST, &[])?,
        select: View::parse(alloc, SELECT, &[])?,
        page: View::parse(alloc, PAGE, &PARTIALS)?,
        output: String::new(alloc),
    })
}

// A text of 5 to 60 bytes.
fn short<'t>(texts: &'t str, numbers: &mut Numbers) -> &'t str {
    let length = numbers.from(5, 56);
    any_piece(texts, numbers, length)
}

// The page of a view is written, and the digest of it is taken.
fn render(view: &View<'static>, output: &mut String, data: Value<'_, '_>, digest: &mut Digest) {
    output.clear();
    let written = view.append(output, data).is_ok();
    digest.add_number(written as u64);
    digest.add(output.as_bytes());
}

// Records of so many of these fields each. What is borrowed by one level of the data is made by a function
// of its own, at one lifetime.
fn records<'x, 't>(
    alloc: Global,
    fields: &'x [(&'x str, Value<'x, 't>)],
    count: usize,
) -> Result<Vec<Value<'x, 't>>, AllocError> {
    let mut records = Vec::new(alloc);
    for record in fields.chunks(count.max(1)) {
        records.push(Value::Record(record))?;
    }
    Ok(records)
}

// The fields of rows, with these names.
fn row_fields<'x, 't>(
    alloc: Global,
    names: [&'static str; 4],
    texts: &'x str,
    numbers: &mut Numbers,
    count: usize,
) -> Result<Vec<(&'x str, Value<'x, 't>)>, AllocError> {
    let [first, second, third, fourth] = names;
    let mut fields = Vec::new(alloc);
    for _ in 0..count {
        fields.push((first, Value::Text(short(texts, numbers))))?;
        fields.push((second, Value::Text(short(texts, numbers))))?;
        fields.push((third, Value::Text(short(texts, numbers))))?;
        fields.push((fourth, Value::Text("1742")))?;
    }
    Ok(fields)
}

// A table and a page of rows, whose fields have these names.
fn render_rows(
    alloc: Global,
    shop: &mut Shop<'_>,
    names: [&'static str; 4],
    numbers: &mut Numbers,
    count: usize,
    digest: &mut Digest,
) -> Result<(), AllocError> {
    let fields = row_fields(alloc, names, shop.texts, numbers, count)?;
    render_fields(alloc, shop, &fields, digest)
}

fn render_fields<'x, 't>(
    alloc: Global,
    shop: &mut Shop<'_>,
    fields: &'x [(&'x str, Value<'x, 't>)],
    digest: &mut Digest,
) -> Result<(), AllocError> {
    let rows = records(alloc, fields, 4)?;
    render_tables(shop, &rows, digest);
    Ok(())
}

fn render_tables<'x, 't>(shop: &mut Shop<'_>, rows: &'x [Value<'x, 't>], digest: &mut Digest) {
    let data = [
        ("language", Value::Text("en")),
        ("title", Value::Text("Orders")),
        ("site", Value::Text("The Daily Page")),
        ("rows", Value::List(rows)),
        ("currency", Value::Text("EUR")),
        ("owner", Value::Text("A. N. Owner")),
    ];
    render(&shop.table, &mut shop.output, Value::Record(&data), digest);
    render(&shop.page, &mut shop.output, Value::Record(&data), digest);
}

// The fields of authors, of whom some have a link.
fn author_fields<'x, 't>(
    alloc: Global,
    texts: &'x str,
    numbers: &mut Numbers,
    count: usize,
) -> Result<Vec<(&'x str, Value<'x, 't>)>, AllocError> {
    let mut fields = Vec::new(alloc);
    for _ in 0..count {
        fields.push(("name", Value::Text(short(texts, numbers))))?;
        let link = if numbers.below(2) == 0 {
            Value::Null
        } else {
            Value::Text("https://example.org/users/7")
        };
        fields.push(("link", link))?;
    }
    Ok(fields)
}

// Three tags for each post.
fn tags_of<'x, 't>(
    alloc: Global,
    texts: &'x str,
    numbers: &mut Numbers,
    count: usize,
) -> Result<Vec<Value<'x, 't>>, AllocError> {
    let mut tags = Vec::new(alloc);
    for _ in 0..count {
        tags.push(Value::Text(any_piece(texts, numbers, 8)))?;
        tags.push(Value::Text(any_piece(texts, numbers, 8)))?;
        tags.push(Value::Text("news"))?;
    }
    Ok(tags)
}

// The fields of posts, of which some have tags.
fn post_fields<'x, 't>(
    alloc: Global,
    texts: &'x str,
    authors: &'x [Value<'x, 't>],
    tags: &'x [Value<'x, 't>],
    numbers: &mut Numbers,
) -> Result<Vec<(&'x str, Value<'x, 't>)>, AllocError> {
    let mut fields = Vec::new(alloc);
    let mut number: usize = 0;
    for some in tags.chunks(3) {
        let author = match authors.get(number) {
            Some(author) => *author,
            None => Value::Null,
        };
        number = number.saturating_add(1);
        fields.push(("pinned", Value::Flag(numbers.below(8) == 0)))?;
        fields.push(("title", Value::Text(short(texts, numbers))))?;
        fields.push(("author", author))?;
        fields.push(("lead", Value::Text(any_piece(texts, numbers, 200))))?;
        let tags = if numbers.below(4) == 0 {
            Value::Null
        } else {
            Value::List(some)
        };
        fields.push(("tags", tags))?;
    }
    Ok(fields)
}

// A list of posts.
fn render_list(
    alloc: Global,
    shop: &mut Shop<'_>,
    numbers: &mut Numbers,
    count: usize,
    digest: &mut Digest,
) -> Result<(), AllocError> {
    let authors = author_fields(alloc, shop.texts, numbers, count)?;
    let tags = tags_of(alloc, shop.texts, numbers, count)?;
    render_posts(alloc, shop, shop.texts, &authors, &tags, numbers, digest)
}

fn render_posts<'x, 't>(
    alloc: Global,
    shop: &mut Shop<'_>,
    texts: &'x str,
    authors: &'x [(&'x str, Value<'x, 't>)],
    tags: &'x [Value<'x, 't>],
    numbers: &mut Numbers,
    digest: &mut Digest,
) -> Result<(), AllocError> {
    let authors = records(alloc, authors, 2)?;
    render_posts_by(alloc, shop, texts, &authors, tags, numbers, digest)
}

fn render_posts_by<'x, 't>(
    alloc: Global,
    shop: &mut Shop<'_>,
    texts: &'x str,
    authors: &'x [Value<'x, 't>],
    tags: &'x [Value<'x, 't>],
    numbers: &mut Numbers,
    digest: &mut Digest,
) -> Result<(), AllocError> {
    let fields = post_fields(alloc, texts, authors, tags, numbers)?;
    render_post_fields(alloc, shop, &fields, digest)
}

fn render_post_fields<'x, 't>(
    alloc: Global,
    shop: &mut Shop<'_>,
    fields: &'x [(&'x str, Value<'x, 't>)],
    digest: &mut Digest,
) -> Result<(), AllocError> {
    let posts = records(alloc, fields, 5)?;
    render_post_list(shop, &posts, digest);
    Ok(())
}

fn render_post_list<'x, 't>(shop: &mut Shop<'_>, posts: &'x [Value<'x, 't>], digest: &mut Digest) {
    let data = [("posts", Value::List(posts))];
    render(&shop.list, &mut shop.output, Value::Record(&data), digest);
}

// The fields of the options of a `select`, of which one is chosen.
fn option_fields<'x, 't>(
    alloc: Global,
    texts: &'x str,
    numbers: &mut Numbers,
    count: usize,
) -> Result<Vec<(&'x str, Value<'x, 't>)>, AllocError> {
    let chosen = numbers.below(count);
    let mut fields = Vec::new(alloc);
    for number in 0..count {
        fields.push(("value", Value::Text(any_piece(texts, numbers, 6))))?;
        fields.push(("chosen", Value::Flag(number == chosen)))?;
        fields.push(("text", Value::Text(any_piece(texts, numbers, 20))))?;
    }
    Ok(fields)
}

fn render_options(
    alloc: Global,
    shop: &mut Shop<'_>,
    numbers: &mut Numbers,
    count: usize,
    digest: &mut Digest,
) -> Result<(), AllocError> {
    let fields = option_fields(alloc, shop.texts, numbers, count)?;
    render_option_fields(alloc, shop, &fields, digest)
}

fn render_option_fields<'x, 't>(
    alloc: Global,
    shop: &mut Shop<'_>,
    fields: &'x [(&'x str, Value<'x, 't>)],
    digest: &mut Digest,
) -> Result<(), AllocError> {
    let options = records(alloc, fields, 3)?;
    render_select(shop, &options, digest);
    Ok(())
}

fn render_select<'x, 't>(shop: &mut Shop<'_>, options: &'x [Value<'x, 't>], digest: &mut Digest) {
    let data = [
        ("label", Value::Text("Country")),
        ("field", Value::Text("country")),
        ("options", Value::List(options)),
    ];
    render(&shop.select, &mut shop.output, Value::Record(&data), digest);
}

// A text as JSON has it, in quotes.
fn push_json(text: &mut String, value: &str) -> Result<(), AllocError> {
    text.push('"')?;
    for part in value.split(['"', '\\', '\n', '\t', '\r']) {
        text.push_str(part)?;
    }
    text.push('"')
}

// The table of rows that come as JSON, which is read once and rendered twice.
fn render_json(
    alloc: Global,
    shop: &mut Shop<'_>,
    numbers: &mut Numbers,
    count: usize,
    digest: &mut Digest,
) -> Result<(), AllocError> {
    let mut text = String::from_str(alloc, "{\"rows\": [")?;
    for number in 0..count {
        if number != 0 {
            text.push(',')?;
        }
        text.push_str("{\"id\": 1742, \"name\": ")?;
        push_json(&mut text, short(shop.texts, numbers))?;
        text.push_str(", \"note\": ")?;
        push_json(&mut text, short(shop.texts, numbers))?;
        text.push_str(", \"price\": 12.50}")?;
    }
    text.push_str("]}")?;
    let mut scratch = Scratch::new(alloc);
    match json::Value::parse(alloc, text.as_str(), &mut scratch) {
        Ok(tree) => {
            render(&shop.table, &mut shop.output, Value::of_json(&tree), digest);
            render(&shop.table, &mut shop.output, Value::of_json(&tree), digest);
        }
        Err(_) => digest.add_number(2),
    }
    Ok(())
}

// A source of sections and prose is parsed, and the page of few values is written.
fn parse_source(
    alloc: Global,
    shop: &mut Shop<'_>,
    numbers: &mut Numbers,
    digest: &mut Digest,
) -> Result<(), AllocError> {
    let length = numbers.length(500, 20_000);
    let mut source = String::new(alloc);
    'blocks: for _ in 0..length {
        if source.len() >= length {
            break 'blocks;
        }
        let block = match numbers.below(4) {
            0 => TABLE,
            1 => LIST,
            2 => SELECT,
            _ => "{{! a note }}\n{{#title}}\n<h1>{{title}}</h1>\n{{/title}}\n",
        };
        source.push_str(block)?;
        source.push_str("<p>")?;
        let prose = any_piece(shop.texts, numbers, 300);
        for part in prose.split(['<', '>', '&', '{', '}']) {
            source.push_str(part)?;
        }
        source.push_str("</p>\n")?;
    }
    let data = [
        ("title", Value::Text("Title")),
        ("label", Value::Text("Label")),
        ("field", Value::Text("field")),
    ];
    match View::parse(alloc, source.as_str(), &[]) {
        Ok(view) => {
            shop.output.clear();
            let written = view.append(&mut shop.output, Value::Record(&data)).is_ok();
            digest.add_number(written as u64);
            digest.add(shop.output.as_bytes());
        }
        Err(_) => digest.add_number(3),
    }
    Ok(())
}
