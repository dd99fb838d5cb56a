//! The text of a form, as parts.
ghost use Rattle.std.specs.Prelude.{◌≡◌, ◌≤◌, ◌<◌, ◌-◌, ◌^◌, length, map};
ghost use Rattle.std.specs.List.{flat_map};
ghost use Rattle.hesc_sinks.specs.Took.{Took};
ghost use Rattle.hesc_places.specs.Pages.FormTexts.{
  attribute_text,
  form_text,
  gap,
  gap_after,
  value_text,
  written,
};

use crate::markup::form_length::form_length;
use crate::markup::types::{Attribute, Quoting};
use crate::place::enclosed::{most_encoded, put_between};
use hesc_core::forms::Parts;
use hesc_core::{CountOverflow, Sink, run};
use html_escape::Encoder;

/// The text of a form. Whether the attributes are good is the caller's to know.
#[derive(Drop)]
pub(crate) struct FormText<'f> {
    pub(crate) attributes: &'f [Attribute<'f>],
    pub(crate) script: &'f str,
}

impl Parts for FormText<'_> {
    ghost text = { λ form. form_text (map written form.attributes.now) form.script.now };

    fn put_into<S: Sink>(&self, sink: &mut S) -> Result<(), S::Fault> {
        sink.put("<input")?;
        put_attributes(self.attributes, sink)?;
        sink.put(gap(self.attributes))?;
        put_between(
            "/><script>alert('",
            Encoder::ScriptSingleQuoted,
            self.script,
            "');</script>",
            sink,
        )
    }

    // The values are counted by lanes and not put twice.
    fn room_for(&self, spare: usize) -> Result<usize, CountOverflow> {
        let _spare = spare;
        form_length(self.attributes, self.script).ok_or(CountOverflow)
    }

    fn most(&self) -> usize {
        most_encoded(self.script)
            .saturating_add(AROUND)
            .saturating_add(most_attributes(self.attributes))
    }
}

// The bytes of a form with no attributes and an empty string, and a space after the last value.
const AROUND: usize = 36;

// A space, `=` and two quote marks.
const AROUND_VALUE: usize = 4;

// The same of the attributes alone.
fn most_attributes(attributes: &[Attribute]) -> usize
    ensures { result < 2 ^ 64 - 1
        → length (flat_map attribute_text (map written attributes.now)) ≤ result }
{
    let mut most: usize = 0;
    let mut rest = attributes;
    'attributes: while let [attribute, others @ ..] = rest {
        most = most.saturating_add(most_attribute(*attribute));
        rest = others;
    }
    most
}

fn most_attribute(attribute: Attribute) -> usize
    ensures { result < 2 ^ 64 - 1 → length (attribute_text (written attribute.entry)) ≤ result }
{
    most_encoded(attribute.value)
        .saturating_add(AROUND_VALUE)
        .saturating_add(attribute.name.len())
}

fn put_attributes<S: Sink>(attributes: &[Attribute], sink: &mut S) -> Result<(), S::Fault>
    ensures { Took (S.seen sink.old) (S.seen sink.new)
        (flat_map attribute_text (map written attributes.now)) result }
{
    let mut rest = attributes;
    'attributes: while let [attribute, others @ ..] = rest {
        put_attribute(*attribute, sink)?;
        rest = others;
    }
    Ok(())
}

// An attribute, with the space before it.
fn put_attribute<S: Sink>(attribute: Attribute, sink: &mut S) -> Result<(), S::Fault>
    ensures { Took (S.seen sink.old) (S.seen sink.new)
        (attribute_text (written attribute.entry)) result }
{
    sink.put(" ")?;
    sink.put(attribute.name)?;
    sink.put("=")?;
    put_value(attribute.quoting, attribute.value, sink)
}

fn put_value<S: Sink>(quoting: Quoting, value: &str, sink: &mut S) -> Result<(), S::Fault>
    ensures { Took (S.seen sink.old) (S.seen sink.new) (value_text quoting value.now) result }
{
    match quoting {
        Quoting::Unquoted => run(&Encoder::UnquotedAttribute, value, sink),
        Quoting::Single => put_between("'", Encoder::SingleQuotedAttribute, value, "'", sink),
        Quoting::Double => put_between("\"", Encoder::DoubleQuotedAttribute, value, "\"", sink),
    }
}

/// What stands after the last attribute.
#[tactic(auto, using(crate::proofs::Pages::FormBounds::gap_of_last, crate::proofs::Pages::FormBounds::gap_of_none))]
pub(crate) fn gap(attributes: &[Attribute]) -> &'static str
    ensures { result.now ≡ gap (map written attributes.now) }
{
    match attributes.last() {
        Some(last) => gap_after(last.quoting),
        None => "",
    }
}

// A space, so that an unquoted value does not take the `/`.
fn gap_after(quoting: Quoting) -> &'static str
    ensures { result.now ≡ gap_after quoting }
{
    match quoting {
        Quoting::Unquoted => " ",
        Quoting::Single | Quoting::Double => "",
    }
}
