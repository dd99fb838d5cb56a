//! The length of the text of a form: values are counted by lanes, and the script's string change by
//! change.
ghost use Rattle.std.specs.Prelude.{◌≡◌, ◌<◌, ◌^◌, length, map, IfSome, IsSome};
ghost use Rattle.std.specs.List.{flat_map};
ghost use Rattle.hesc_places.specs.Pages.FormTexts.{attribute_text, form_text, value_text, written};

use crate::markup::form_text::gap;
use crate::markup::types::{Attribute, Quoting};
use hesc_core::forms::measure::total;
use html_escape::Encoder;

/// The length of the text of a form, or `None` where it would pass the greatest `usize`.
pub(crate) fn form_length(attributes: &[Attribute], script: &str) -> Option<usize>
    ensures count { IfSome result (λ count. count
        ≡ length (form_text (map written attributes.now) script.now)) }
    ensures fits { length (form_text (map written attributes.now) script.now) < 2 ^ 64
        → IsSome result }
{
    let tag = attributes_length(attributes)?.checked_add("<input".len())?;
    let string = total(&Encoder::ScriptSingleQuoted, script)?;
    let around = gap(attributes).len() + "/><script>alert('".len() + "');</script>".len();
    tag.checked_add(string)?.checked_add(around)
}

fn attributes_length(attributes: &[Attribute]) -> Option<usize>
    ensures count { IfSome result (λ count. count
        ≡ length (flat_map attribute_text (map written attributes.now))) }
    ensures fits { length (flat_map attribute_text (map written attributes.now)) < 2 ^ 64
        → IsSome result }
{
    let mut count: usize = 0;
    let mut rest = attributes;
    'attributes: while let [attribute, others @ ..] = rest {
        let added = attribute_length(*attribute)?;
        count = count.checked_add(added)?;
        rest = others;
    }
    Some(count)
}

fn attribute_length(attribute: Attribute) -> Option<usize>
    ensures count { IfSome result (λ count. count
        ≡ length (attribute_text (written attribute.entry))) }
    ensures fits { length (attribute_text (written attribute.entry)) < 2 ^ 64 → IsSome result }
{
    let value = value_length(attribute.quoting, attribute.value)?;
    value.checked_add(attribute.name.len())?.checked_add(2)
}

fn value_length(quoting: Quoting, value: &str) -> Option<usize>
    ensures count { IfSome result (λ count. count ≡ length (value_text quoting value.now)) }
    ensures fits { length (value_text quoting value.now) < 2 ^ 64 → IsSome result }
{
    match quoting {
        Quoting::Unquoted => total(&Encoder::UnquotedAttribute, value),
        Quoting::Single => total(&Encoder::SingleQuotedAttribute, value)?.checked_add(2),
        Quoting::Double => total(&Encoder::DoubleQuotedAttribute, value)?.checked_add(2),
    }
}
