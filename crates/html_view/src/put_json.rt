//! The JSON of data, put into a sink.
ghost use Rattle.std.specs.Prelude.{◌≡◌, Some};
ghost use Rattle.json.specs.Print.{quoted};
ghost use Rattle.html_json.specs.Encoding.{json_encoding};
ghost use Rattle.html_view.specs.Data as data_of;
ghost use Rattle.html_view.specs.JsonTexts.{comma, json_text, key_text};
ghost use Rattle.html_view.specs.PuttingJson.{PutsJson};
ghost use Rattle.html_view.specs.Values.{datum_of, fields_in, items_in};

use crate::data::{Fields, Items, Value};
use crate::unroll::Stop;
use hesc_core::Sink;
use html_json::{put_json as put_encoded, put_json_string};

// Puts a text that has no `<`.
fn put_mark<S: Sink>(mark: &str, sink: &mut S) -> Result<(), Stop<S::Fault>>
    requires { json_encoding mark.now ≡ mark.now }
    ensures puts { PutsJson (Some mark.now) (S.seen sink.old).taken (S.seen sink.new).taken result }
    ensures same_reference { (S.seen sink.new).reference ≡ (S.seen sink.old).reference }
    ensures same_before { (S.seen sink.new).before ≡ (S.seen sink.old).before }
{
    // For the proof alone that it is UTF-8.
    let _length = mark.len();
    match sink.put(mark) {
        Ok(()) => Ok(()),
        Err(fault) => Err(Stop::Failed(fault)),
    }
}

fn put_string<S: Sink>(text: &str, sink: &mut S) -> Result<(), Stop<S::Fault>>
    ensures puts { PutsJson (Some (quoted text.now)) (S.seen sink.old).taken (S.seen sink.new).taken result }
    ensures same_reference { (S.seen sink.new).reference ≡ (S.seen sink.old).reference }
    ensures same_before { (S.seen sink.new).before ≡ (S.seen sink.old).before }
{
    match put_json_string(text, sink) {
        Ok(()) => Ok(()),
        Err(fault) => Err(Stop::Failed(fault)),
    }
}

// Puts a text that stands as it is in JSON.
fn put_word<S: Sink>(text: &str, sink: &mut S) -> Result<(), Stop<S::Fault>>
    ensures puts { PutsJson (Some text.now) (S.seen sink.old).taken (S.seen sink.new).taken result }
    ensures same_reference { (S.seen sink.new).reference ≡ (S.seen sink.old).reference }
    ensures same_before { (S.seen sink.new).before ≡ (S.seen sink.old).before }
{
    let _length = text.len();
    match put_encoded(text, sink) {
        Ok(()) => Ok(()),
        Err(fault) => Err(Stop::Failed(fault)),
    }
}

fn put_nothing<S: Sink>(sink: &mut S) -> Result<(), Stop<S::Fault>>
    ensures puts { PutsJson (json_text data_of.Nothing) (S.seen sink.old).taken (S.seen sink.new).taken result }
    ensures same_reference { (S.seen sink.new).reference ≡ (S.seen sink.old).reference }
    ensures same_before { (S.seen sink.new).before ≡ (S.seen sink.old).before }
{
    put_mark("null", sink)
}

fn put_flag<S: Sink>(flag: bool, sink: &mut S) -> Result<(), Stop<S::Fault>>
    ensures puts { PutsJson (json_text (data_of.Flag flag)) (S.seen sink.old).taken (S.seen sink.new).taken result }
    ensures same_reference { (S.seen sink.new).reference ≡ (S.seen sink.old).reference }
    ensures same_before { (S.seen sink.new).before ≡ (S.seen sink.old).before }
{
    if flag {
        put_mark("true", sink)
    } else {
        put_mark("false", sink)
    }
}

fn put_text<S: Sink>(text: &str, sink: &mut S) -> Result<(), Stop<S::Fault>>
    ensures puts { PutsJson (json_text (data_of.Text text.now)) (S.seen sink.old).taken (S.seen sink.new).taken
        result }
    ensures same_reference { (S.seen sink.new).reference ≡ (S.seen sink.old).reference }
    ensures same_before { (S.seen sink.new).before ≡ (S.seen sink.old).before }
{
    put_string(text, sink)
}

fn put_number<S: Sink>(text: &str, sink: &mut S) -> Result<(), Stop<S::Fault>>
    ensures puts { PutsJson (json_text (data_of.Number text.now)) (S.seen sink.old).taken
        (S.seen sink.new).taken result }
    ensures same_reference { (S.seen sink.new).reference ≡ (S.seen sink.old).reference }
    ensures same_before { (S.seen sink.new).before ≡ (S.seen sink.old).before }
{
    if json::is_number(text) {
        put_word(text, sink)
    } else {
        put_string(text, sink)
    }
}

fn put_comma<S: Sink>(after: bool, sink: &mut S) -> Result<(), Stop<S::Fault>>
    ensures puts { PutsJson (Some (comma after)) (S.seen sink.old).taken (S.seen sink.new).taken result }
    ensures same_reference { (S.seen sink.new).reference ≡ (S.seen sink.old).reference }
    ensures same_before { (S.seen sink.new).before ≡ (S.seen sink.old).before }
{
    if after {
        put_mark(",", sink)
    } else {
        put_mark("", sink)
    }
}

// Puts the name of a member, which stands behind another one or is the first.
fn put_key<S: Sink>(after: bool, name: &str, sink: &mut S) -> Result<(), Stop<S::Fault>>
    ensures puts { PutsJson (Some (key_text after name.now)) (S.seen sink.old).taken (S.seen sink.new).taken
        result }
    ensures same_reference { (S.seen sink.new).reference ≡ (S.seen sink.old).reference }
    ensures same_before { (S.seen sink.new).before ≡ (S.seen sink.old).before }
{
    match put_comma(after, sink) {
        Ok(()) => {}
        Err(stop) => return Err(stop),
    }
    match put_string(name, sink) {
        Ok(()) => {}
        Err(stop) => return Err(stop),
    }
    put_mark(":", sink)
}

/// Puts the JSON of a value, with each `<` escaped, or a beginning of it. It is refused where a fragment
/// stands in it.
#[cycle(json)]
pub(crate) fn put_json<'p, 't: 'p, S: Sink>(
    value: Value<'p, 't>,
    sink: &mut S,
) -> Result<(), Stop<S::Fault>>
    ensures puts { PutsJson (json_text (datum_of value.entry)) (S.seen sink.old).taken (S.seen sink.new).taken
        result }
    ensures same_reference { (S.seen sink.new).reference ≡ (S.seen sink.old).reference }
    ensures same_before { (S.seen sink.new).before ≡ (S.seen sink.old).before }
{
    match value {
        Value::Null => put_nothing(sink),
        Value::Text(text) => put_text(text, sink),
        Value::Number(text) => put_number(text, sink),
        Value::Flag(flag) => put_flag(flag, sink),
        Value::Fragment(_) => Err(Stop::Refused),
        Value::List(values) => put_items(Items::List(values), sink),
        Value::Array(items) => put_items(Items::Array(items), sink),
        Value::Record(fields) => put_fields(Fields::Record(fields), sink),
        Value::Object(members) => put_fields(Fields::Object(members), sink),
    }
}

// Puts an array of these items.
#[cycle(json)]
fn put_items<'p, 't: 'p, S: Sink>(items: Items<'p, 't>, sink: &mut S) -> Result<(), Stop<S::Fault>>
    ensures puts { PutsJson (json_text (data_of.Items (items_in items.entry))) (S.seen sink.old).taken
        (S.seen sink.new).taken result }
    ensures same_reference { (S.seen sink.new).reference ≡ (S.seen sink.old).reference }
    ensures same_before { (S.seen sink.new).before ≡ (S.seen sink.old).before }
{
    match put_mark("[", sink) {
        Ok(()) => {}
        Err(stop) => return Err(stop),
    }
    let mut rest = items;
    let mut after = false;
    'items: while let Some((item, others)) = rest.take_first() {
        match put_comma(after, sink) {
            Ok(()) => {}
            Err(stop) => return Err(stop),
        }
        match put_json(item, sink) {
            Ok(()) => {}
            Err(stop) => return Err(stop),
        }
        rest = others;
        after = true;
    }
    put_mark("]", sink)
}

// Puts an object of these members.
#[cycle(json)]
fn put_fields<'p, 't: 'p, S: Sink>(
    fields: Fields<'p, 't>,
    sink: &mut S,
) -> Result<(), Stop<S::Fault>>
    ensures puts { PutsJson (json_text (data_of.Record (fields_in fields.entry))) (S.seen sink.old).taken
        (S.seen sink.new).taken result }
    ensures same_reference { (S.seen sink.new).reference ≡ (S.seen sink.old).reference }
    ensures same_before { (S.seen sink.new).before ≡ (S.seen sink.old).before }
{
    match put_mark("{", sink) {
        Ok(()) => {}
        Err(stop) => return Err(stop),
    }
    let mut rest = fields;
    let mut after = false;
    'fields: while let Some((name, value, others)) = rest.take_first() {
        match put_key(after, name, sink) {
            Ok(()) => {}
            Err(stop) => return Err(stop),
        }
        match put_json(value, sink) {
            Ok(()) => {}
            Err(stop) => return Err(stop),
        }
        rest = others;
        after = true;
    }
    put_mark("}", sink)
}
