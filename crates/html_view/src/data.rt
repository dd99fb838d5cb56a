//! The data of a page, and what a name means in it.
ghost use Rattle.std.specs.Prelude.{◌≡◌, bytes_eq, option_map, IfNone, IfSome};
ghost use Rattle.json.specs.Value.{members_view, value_view};
ghost use Rattle.html_template.specs.Templates.{texts_of};
ghost use Rattle.html_view.specs.Data as data_of;
ghost use Rattle.html_view.specs.JsonData.{datum_of_json, fields_of_json};
ghost use Rattle.html_view.specs.CutNames.{words_in};
ghost use Rattle.html_view.specs.Values.{datum_of, fields_in, fields_of, items_in, stack_of};

use crate::words::Words;
use html_template::Fragment;
use std::alloc::Allocator;

/// A value: nothing, a text, a number as its text, a flag, a fragment, a list, or named values, also as JSON has
/// them. Of two values with one name the first counts. A number is told from a text in JSON alone, where one that
/// is none of JSON is a text.
#[derive(Clone, Copy)]
pub enum Value<'a, 't> {
    Null,
    Text(&'a str),
    Number(&'a str),
    Flag(bool),
    Fragment(Fragment<'a>),
    List(&'a [Value<'a, 't>]),
    Record(&'a [(&'a str, Value<'a, 't>)]),
    Array(&'a [json::Value<'t>]),
    Object(&'a [(&'t str, json::Value<'t>)]),
}

impl<'a, 't> Value<'a, 't> {
    /// The value of JSON. A number stays as it is written.
    ///
    /// Of `[1.50]` the first item is the number `1.50`.
    pub fn of_json(json: &'a json::Value<'t>) -> Value<'a, 't>
        ensures { datum_of result ≡ datum_of_json (value_view json.now) }
    {
        match json {
            json::Value::Null => Value::Null,
            json::Value::Bool(flag) => Value::Flag(*flag),
            json::Value::Number(text) => Value::Number(*text),
            json::Value::String(text) => Value::Text(*text),
            json::Value::Array(items) => Value::Array(items),
            json::Value::Object(members) => Value::Object(members),
        }
    }
}

/// The items of a list.
#[derive(Clone, Copy)]
pub(crate) enum Items<'a, 't> {
    List(&'a [Value<'a, 't>]),
    Array(&'a [json::Value<'t>]),
}

impl<'a, 't> Items<'a, 't> {
    /// The first item and the others.
    pub(crate) fn take_first(self) -> Option<(Value<'a, 't>, Items<'a, 't>)>
        ensures some { IfSome result (λ r. items_in self.entry
            ≡ data_of.item (datum_of r.0) (items_in r.1)) }
        ensures none { IfNone result (items_in self.entry ≡ data_of.no_items) }
    {
        match self {
            Items::List([]) => None,
            Items::List([value, others @ ..]) => Some((*value, Items::List(others))),
            Items::Array([]) => None,
            Items::Array([json, others @ ..]) => {
                Some((Value::of_json(json), Items::Array(others)))
            }
        }
    }
}

/// Named values.
#[derive(Clone, Copy)]
pub(crate) enum Fields<'a, 't> {
    Record(&'a [(&'a str, Value<'a, 't>)]),
    Object(&'a [(&'t str, json::Value<'t>)]),
}

impl<'a, 't: 'a> Fields<'a, 't> {
    /// The first name and its value, and the others.
    pub(crate) fn take_first(self) -> Option<(&'a str, Value<'a, 't>, Fields<'a, 't>)>
        ensures some { IfSome result (λ r. fields_in self.entry
            ≡ data_of.field r.0.now (datum_of r.1) (fields_in r.2)) }
        ensures none { IfNone result (fields_in self.entry ≡ data_of.bare) }
    {
        match self {
            Fields::Record([]) => None,
            Fields::Record([(name, value), others @ ..]) => {
                Some((*name, *value, Fields::Record(others)))
            }
            Fields::Object([]) => None,
            Fields::Object([(name, json), others @ ..]) => {
                Some((*name, Value::of_json(json), Fields::Object(others)))
            }
        }
    }
}

/// A value and what is around it, or nothing.
#[derive(Clone, Copy)]
pub(crate) enum Around<'s, 'p, 't> {
    Nothing,
    Inside(Value<'p, 't>, &'s Around<'s, 'p, 't>),
}

// Whether a name is this word. Most that are not differ in their lengths, and most have up to eight bytes: these are
// compared by their ends, which may overlap.
#[inline(always)]
fn is_same(name: &str, word: &str) -> bool
    ensures { result ≡ bytes_eq name.now word.now }
{
    if name.len() != word.len() {
        return false;
    }
    let (name, word) = (name.as_bytes(), word.as_bytes());
    if name.len() <= 8 {
        if let (Some(first), Some(other)) = (name.first_chunk::<4>(), word.first_chunk::<4>()) {
            if let (Some(last), Some(another)) = (name.last_chunk::<4>(), word.last_chunk::<4>()) {
                return *first == *other && *last == *another;
            }
        }
    }
    are_same(name, word)
}

// The same of others. It is called, so that a search makes nothing ready for long names.
#[inline(never)]
fn are_same(name: &[u8], word: &[u8]) -> bool
    ensures { result ≡ bytes_eq name.now word.now }
{
    name == word
}

// The first value of this name.
#[inline(always)]
fn field_of<'p, 't>(fields: &'p [(&'p str, Value<'p, 't>)], word: &str) -> Option<Value<'p, 't>>
    ensures { option_map datum_of result ≡ data_of.field_of word.now (fields_of fields.now) }
{
    let mut rest = fields;
    'fields: while let [(name, value), others @ ..] = rest {
        if is_same(*name, word) {
            return Some(*value);
        }
        rest = others;
    }
    None
}

// The first member of this name.
#[inline(always)]
fn member_in<'p, 't>(members: &'p [(&'t str, json::Value<'t>)], word: &str) -> Option<Value<'p, 't>>
    ensures { option_map datum_of result
        ≡ data_of.field_of word.now (fields_of_json (members_view members.now)) }
{
    let mut rest = members;
    'members: while let [(name, json), others @ ..] = rest {
        if is_same(*name, word) {
            return Some(Value::of_json(json));
        }
        rest = others;
    }
    None
}

#[inline(always)]
fn member_of<'p, 't>(value: Value<'p, 't>, word: &str) -> Option<Value<'p, 't>>
    ensures { option_map datum_of result ≡ data_of.member_of word.now (datum_of value.entry) }
{
    // Most values with names in them are records, which is asked first.
    if let Value::Record(fields) = value {
        return field_of(fields, word);
    }
    if let Value::Object(members) = value {
        return member_in(members, word);
    }
    None
}

/// The value of a word, from inside out.
#[inline(always)]
pub(crate) fn find<'s, 'p, 't>(around: &Around<'s, 'p, 't>, word: &str) -> Option<Value<'p, 't>>
    ensures { option_map datum_of result ≡ data_of.around word.now (stack_of around.now) }
{
    let mut here = around;
    'values: while let Around::Inside(value, outer) = here {
        if let Some(found) = member_of(*value, word) {
            return Some(found);
        }
        here = *outer;
    }
    None
}

#[inline(always)]
fn innermost<'s, 'p, 't>(around: &Around<'s, 'p, 't>) -> Option<Value<'p, 't>>
    ensures { option_map datum_of result ≡ data_of.innermost (stack_of around.now) }
{
    match around {
        Around::Nothing => None,
        Around::Inside(value, _) => Some(*value),
    }
}

// The value of a name's first word: of none before others the innermost value.
#[inline(always)]
fn first_value<'s, 'p, 't>(
    others: &[&str],
    word: &str,
    around: &Around<'s, 'p, 't>,
) -> Option<Value<'p, 't>>
    ensures { option_map datum_of result
        ≡ data_of.first_value (texts_of others.now) word.now (stack_of around.now) }
{
    if word.is_empty() && !others.is_empty() {
        innermost(around)
    } else {
        find(around, word)
    }
}

/// What a name means: the innermost value of its first word, and in that what its other words mean.
#[inline(always)]
pub(crate) fn look_up<'s, 'p, 't, A: Allocator>(
    name: &Words<'_, A>,
    around: &Around<'s, 'p, 't>,
) -> Option<Value<'p, 't>>
    ensures { option_map datum_of result
        ≡ data_of.look_up (words_in name.now) (stack_of around.now) }
{
    match name {
        Words::Innermost => innermost(around),
        Words::One(word) => find(around, *word),
        Words::Several(first, others) => match first_value(others, *first, around) {
            None => None,
            Some(found) => within(others, found),
        },
    }
}

// What these words mean in a value.
fn within<'p, 't>(words: &[&str], value: Value<'p, 't>) -> Option<Value<'p, 't>>
    ensures { option_map datum_of result
        ≡ data_of.within (texts_of words.now) (datum_of value.entry) }
{
    let mut found = value;
    let mut rest = words;
    'words: while let [word, others @ ..] = rest {
        match member_of(found, *word) {
            None => return None,
            Some(member) => found = member,
        }
        rest = others;
    }
    Some(found)
}
