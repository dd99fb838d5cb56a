//! The attributes that a record may give to an element.
ghost use Rattle.std.specs.Prelude.{◌≡◌, Some, None, bytes_eq, if◌then◌else◌, option_map};
ghost use Rattle.std.specs.List.{list_any};
ghost use Rattle.json.specs.Value.{members_view};
ghost use Rattle.html_view.specs.Attributes.{are_attributes, attributes_fault, flag_names, is_attribute, is_one, refused_for, text_names};
ghost use Rattle.html_view.specs.JsonData.{fields_of_json};
ghost use Rattle.html_view.specs.Values.{datum_of, fields_of};
ghost use Rattle.html_view.specs.declared.faults.ValueFault.TheVariants.{NotAttributes};

use crate::data::Value;
use crate::faults::ValueFault;
use crate::node::Times;

/// An attribute.
#[derive(Clone, Copy)]
pub(crate) struct Attribute {
    name: &'static str,
    /// Its name as that of a member of the innermost value.
    pub(crate) member: &'static str,
    /// The markup up to its value.
    pub(crate) markup: &'static str,
}

macro_rules! attribute {
    ($name:literal) => {
        Attribute {
            name: $name,
            member: concat!(".", $name),
            markup: concat!(" ", $name, "=\""),
        }
    };
}

/// Those whose value is a text.
pub(crate) static TEXTS: [Attribute; 52] = [
    attribute!("id"),
    attribute!("class"),
    attribute!("title"),
    attribute!("lang"),
    attribute!("dir"),
    attribute!("tabindex"),
    attribute!("draggable"),
    attribute!("spellcheck"),
    attribute!("inputmode"),
    attribute!("name"),
    attribute!("value"),
    attribute!("placeholder"),
    attribute!("autocomplete"),
    attribute!("min"),
    attribute!("max"),
    attribute!("step"),
    attribute!("minlength"),
    attribute!("maxlength"),
    attribute!("pattern"),
    attribute!("size"),
    attribute!("rows"),
    attribute!("cols"),
    attribute!("label"),
    attribute!("alt"),
    attribute!("width"),
    attribute!("height"),
    attribute!("colspan"),
    attribute!("rowspan"),
    attribute!("scope"),
    attribute!("start"),
    attribute!("datetime"),
    attribute!("role"),
    attribute!("aria-checked"),
    attribute!("aria-controls"),
    attribute!("aria-current"),
    attribute!("aria-describedby"),
    attribute!("aria-disabled"),
    attribute!("aria-expanded"),
    attribute!("aria-haspopup"),
    attribute!("aria-hidden"),
    attribute!("aria-invalid"),
    attribute!("aria-label"),
    attribute!("aria-labelledby"),
    attribute!("aria-live"),
    attribute!("aria-modal"),
    attribute!("aria-pressed"),
    attribute!("aria-required"),
    attribute!("aria-selected"),
    attribute!("aria-sort"),
    attribute!("aria-valuemax"),
    attribute!("aria-valuemin"),
    attribute!("aria-valuenow"),
];

/// Those that stand or do not.
pub(crate) static FLAGS: [Attribute; 11] = [
    attribute!("autofocus"),
    attribute!("checked"),
    attribute!("disabled"),
    attribute!("hidden"),
    attribute!("inert"),
    attribute!("multiple"),
    attribute!("open"),
    attribute!("readonly"),
    attribute!("required"),
    attribute!("reversed"),
    attribute!("selected"),
];

fn is_in(attributes: &[Attribute], name: &str) -> bool
    ensures { result ≡ list_any (λ one. bytes_eq one.name.now name.now) attributes.now }
{
    attributes.iter().any(|attribute| attribute.name == name)
}

fn is_text_name(name: &str) -> bool
    ensures { result ≡ is_one text_names name.now }
{
    is_in(&TEXTS, name)
}

fn is_flag_name(name: &str) -> bool
    ensures { result ≡ is_one flag_names name.now }
{
    is_in(&FLAGS, name)
}

fn is_attribute(name: &str, value: Value<'_, '_>) -> bool
    ensures { result ≡ is_attribute name.now (datum_of value.entry) }
{
    match value {
        Value::Null | Value::Flag(_) => is_text_name(name) || is_flag_name(name),
        Value::Text(_) | Value::Number(_) => is_text_name(name),
        Value::Fragment(_) => false,
        Value::List(_) | Value::Array(_) => false,
        Value::Record(_) | Value::Object(_) => false,
    }
}

fn are_attributes(fields: &[(&str, Value<'_, '_>)]) -> bool
    ensures { result ≡ are_attributes (fields_of fields.now) }
{
    let mut rest = fields;
    'fields: while let [(name, value), others @ ..] = rest {
        if !is_attribute(*name, *value) {
            return false;
        }
        rest = others;
    }
    true
}

fn are_members<'t>(members: &[(&'t str, json::Value<'t>)]) -> bool
    ensures { result ≡ are_attributes (fields_of_json (members_view members.now)) }
{
    let mut rest = members;
    'members: while let [(name, json), others @ ..] = rest {
        if !is_attribute(*name, Value::of_json(json)) {
            return false;
        }
        rest = others;
    }
    true
}

fn fault_unless(are: bool) -> Option<ValueFault>
    ensures { result ≡ if are then None else Some NotAttributes }
{
    if are {
        None
    } else {
        Some(ValueFault::NotAttributes)
    }
}

#[inline(never)]
fn attributes_fault(value: Option<Value<'_, '_>>) -> Option<ValueFault>
    ensures { result ≡ attributes_fault (option_map datum_of value.entry) }
{
    match value {
        None => Some(ValueFault::Missing),
        Some(Value::Null) => Some(ValueFault::Missing),
        Some(Value::Record(fields)) => fault_unless(are_attributes(fields)),
        Some(Value::Object(members)) => fault_unless(are_members(members)),
        Some(Value::Text(_)) => Some(ValueFault::NotAttributes),
        Some(Value::Number(_)) => Some(ValueFault::NotAttributes),
        Some(Value::Flag(_)) => Some(ValueFault::NotAttributes),
        Some(Value::Fragment(_)) => Some(ValueFault::NotAttributes),
        Some(Value::List(_)) => Some(ValueFault::NotAttributes),
        Some(Value::Array(_)) => Some(ValueFault::NotAttributes),
    }
}

/// Why the value of a section is refused, whether its body would stand or not.
#[inline(always)]
pub(crate) fn refused_for(times: Times, value: Option<Value<'_, '_>>) -> Option<ValueFault>
    ensures { result ≡ refused_for times (option_map datum_of value.entry) }
{
    match times {
        Times::Attributes => attributes_fault(value),
        _ => None,
    }
}
