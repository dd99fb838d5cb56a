//! What data makes of nodes, put into a sink.
ghost use Rattle.std.specs.Prelude.{◌≡◌, [], ◌∷◌, IfErr, IfOk, Ok, Err, option_map, true};
ghost use Rattle.std.specs.Str.{IsUtf8};
ghost use Rattle.html_template.specs.Fragments.{markup_of};
ghost use Rattle.html_view.specs.CutNames.{words_in};
ghost use Rattle.html_view.specs.Data as data_of;
ghost use Rattle.html_view.specs.Data.{filled_stacks, given_stacks, inside, is_nothing, item_stacks, list_stacks, stacks};
ghost use Rattle.html_view.specs.Nodes as node;
ghost use Rattle.html_view.specs.Putting.{Puts, PutsFront, StandsSo};
ghost use Rattle.html_view.specs.Rendered.{fragment_for, is_json, plain_text_for, unrolled, unrolled_each};
ghost use Rattle.html_view.specs.Kept.{named_of, nodes_of, placed_node, slot_of};
ghost use Rattle.html_view.specs.Values.{datum_of, items_in, stack_of};
ghost use Rattle.html_view.specs.declared.data.Value as Value;
ghost use Rattle.html_view.specs.declared.node.Times.TheVariants.{Given};

use crate::attributes::refused_for;
use crate::data::{Around, Items, Value, find, look_up};
use crate::faults::{Position, ValueFault};
use crate::node::Times;
use crate::placed::{Named, Placed, PlacedNode};
use crate::put_json::put_json;
use crate::words::Words;
use hesc_core::Sink;
use html_template::{Fragment, StoredMarkup, put_markup, put_text};
use std::alloc::Allocator;

/// Where a value is refused, and why.
#[derive(Clone, Copy)]
pub(crate) struct Refusal {
    pub(crate) position: Position,
    pub(crate) why: ValueFault,
}

impl Refusal {
    /// Nothing that was refused.
    pub(crate) fn none() -> Refusal {
        Refusal {
            position: Position { text: 0, byte: 0 },
            why: ValueFault::Missing,
        }
    }
}

/// Why a page is not put to its end.
#[derive(Drop)]
pub(crate) enum Stop<F> {
    /// A value was refused, as is put down.
    Refused,
    /// The sink has failed.
    Failed(F),
}

// The text for a slot that is none for JSON, of what its name means.
#[inline(always)]
fn plain_text_for<'p, 't: 'p, A: Allocator>(
    slot: &Placed<'_, A>,
    value: Option<Value<'p, 't>>,
) -> Result<&'p str, ValueFault>
    ensures ok { IfOk result (λ text. plain_text_for (slot_of slot.now)
        (option_map datum_of value.entry) ≡ Ok text.now) }
    ensures utf8 { IfOk result (λ text. IsUtf8 text.now) }
    ensures err { IfErr result (λ fault. plain_text_for (slot_of slot.now)
        (option_map datum_of value.entry) ≡ Err (slot.now.asked.position, fault)) }
{
    let text = match value {
        None => return Err(ValueFault::Missing),
        Some(Value::Null) => return Err(ValueFault::Missing),
        Some(Value::Text(text)) => text,
        Some(Value::Number(text)) => text,
        Some(Value::Flag(true)) => "true",
        Some(Value::Flag(false)) => "false",
        Some(Value::Fragment(_)) => return Err(ValueFault::NotAText),
        Some(Value::List(_)) => return Err(ValueFault::NotAText),
        Some(Value::Record(_)) => return Err(ValueFault::NotAText),
        Some(Value::Array(_)) => return Err(ValueFault::NotAText),
        Some(Value::Object(_)) => return Err(ValueFault::NotAText),
    };
    // For the proof alone that it is UTF-8.
    let _length = text.len();
    match slot.checked.fault(text) {
        None => Ok(text),
        Some(fault) => Err(ValueFault::Unfit(fault)),
    }
}

#[inline(always)]
fn put_slot<'s, 'p, 't: 'p, A: Allocator, S: Sink>(
    slot: &Placed<'_, A>,
    around: &Around<'s, 'p, 't>,
    sink: &mut S,
    refusal: &mut Refusal,
) -> Result<(), Stop<S::Fault>>
    ensures puts { PutsFront (λ rest. unrolled (node.Slot (slot_of slot.now) rest)
        (stack_of around.now)) (stack_of around.now) (S.seen sink.old).taken (S.seen sink.new).taken
        refusal.new result }
    ensures same_reference { (S.seen sink.new).reference ≡ (S.seen sink.old).reference }
    ensures same_before { (S.seen sink.new).before ≡ (S.seen sink.old).before }
{
    match &slot.asked.words {
        Words::One(word) => put_value(slot, find(around, *word), around, sink, refusal),
        Words::Innermost | Words::Several(_, _) => put_slot_of_words(slot, around, sink, refusal),
    }
}

// The same, of a slot of any name. It is called, so that a slot whose name is one word has to make no room
// for the values that lie between.
#[inline(never)]
fn put_slot_of_words<'s, 'p, 't: 'p, A: Allocator, S: Sink>(
    slot: &Placed<'_, A>,
    around: &Around<'s, 'p, 't>,
    sink: &mut S,
    refusal: &mut Refusal,
) -> Result<(), Stop<S::Fault>>
    ensures puts { PutsFront (λ rest. unrolled (node.Slot (slot_of slot.now) rest)
        (stack_of around.now)) (stack_of around.now) (S.seen sink.old).taken (S.seen sink.new).taken
        refusal.new result }
    ensures same_reference { (S.seen sink.new).reference ≡ (S.seen sink.old).reference }
    ensures same_before { (S.seen sink.new).before ≡ (S.seen sink.old).before }
{
    put_value(
        slot,
        look_up(&slot.asked.words, around),
        around,
        sink,
        refusal,
    )
}

// Puts the text for a slot, whose name means this value.
#[inline(always)]
fn put_value<'s, 'p, 't: 'p, A: Allocator, S: Sink>(
    slot: &Placed<'_, A>,
    value: Option<Value<'p, 't>>,
    around: &Around<'s, 'p, 't>,
    sink: &mut S,
    refusal: &mut Refusal,
) -> Result<(), Stop<S::Fault>>
    requires means { option_map datum_of value
        ≡ data_of.look_up (words_in slot.now.asked.words) (stack_of around.now) }
    ensures puts { PutsFront (λ rest. unrolled (node.Slot (slot_of slot.now) rest)
        (stack_of around.now)) (stack_of around.now) (S.seen sink.old).taken (S.seen sink.new).taken
        refusal.new result }
    ensures same_reference { (S.seen sink.new).reference ≡ (S.seen sink.old).reference }
    ensures same_before { (S.seen sink.new).before ≡ (S.seen sink.old).before }
{
    if slot.checked.is_json() {
        return put_json_value(slot, value, around, sink, refusal);
    }
    match plain_text_for(slot, value) {
        Ok(text) => match put_text(&slot.checked.stored, text, sink) {
            Ok(()) => Ok(()),
            Err(fault) => Err(Stop::Failed(fault)),
        },
        Err(why) => {
            *refusal = Refusal {
                position: slot.asked.position,
                why,
            };
            Err(Stop::Refused)
        }
    }
}

// Puts the JSON for a slot of JSON, whose name means this value.
#[inline(never)]
fn put_json_value<'s, 'p, 't: 'p, A: Allocator, S: Sink>(
    slot: &Placed<'_, A>,
    value: Option<Value<'p, 't>>,
    around: &Around<'s, 'p, 't>,
    sink: &mut S,
    refusal: &mut Refusal,
) -> Result<(), Stop<S::Fault>>
    requires json { is_json slot.now.checked.stored.kind ≡ true }
    requires means { option_map datum_of value
        ≡ data_of.look_up (words_in slot.now.asked.words) (stack_of around.now) }
    ensures puts { PutsFront (λ rest. unrolled (node.Slot (slot_of slot.now) rest)
        (stack_of around.now)) (stack_of around.now) (S.seen sink.old).taken (S.seen sink.new).taken
        refusal.new result }
    ensures same_reference { (S.seen sink.new).reference ≡ (S.seen sink.old).reference }
    ensures same_before { (S.seen sink.new).before ≡ (S.seen sink.old).before }
{
    let _around = around;
    let position = slot.asked.position;
    let Some(value) = value else {
        *refusal = Refusal {
            position,
            why: ValueFault::Missing,
        };
        return Err(Stop::Refused);
    };
    // Why, if there is no JSON of the value.
    *refusal = Refusal {
        position,
        why: ValueFault::NotJson,
    };
    put_json(value, sink)
}

// The fragment for a slot, of what its name means.
fn fragment_for<'p, 't: 'p, A: Allocator>(
    slot: &Named<'_, A>,
    value: Option<Value<'p, 't>>,
) -> Result<Fragment<'p>, ValueFault>
    ensures ok { IfOk result (λ fragment. fragment_for (named_of slot.now)
        (option_map datum_of value.entry) ≡ Ok (markup_of fragment)) }
    ensures err { IfErr result (λ fault. fragment_for (named_of slot.now)
        (option_map datum_of value.entry) ≡ Err (slot.now.position, fault)) }
{
    let _slot = slot;
    match value {
        None => Err(ValueFault::Missing),
        Some(Value::Null) => Err(ValueFault::Missing),
        Some(Value::Fragment(fragment)) => Ok(fragment),
        Some(Value::Text(_)) => Err(ValueFault::NotAFragment),
        Some(Value::Number(_)) => Err(ValueFault::NotAFragment),
        Some(Value::Flag(_)) => Err(ValueFault::NotAFragment),
        Some(Value::List(_)) => Err(ValueFault::NotAFragment),
        Some(Value::Record(_)) => Err(ValueFault::NotAFragment),
        Some(Value::Array(_)) => Err(ValueFault::NotAFragment),
        Some(Value::Object(_)) => Err(ValueFault::NotAFragment),
    }
}

#[inline(never)]
fn put_fragment<'s, 'p, 't: 'p, A: Allocator, S: Sink>(
    slot: &Named<'_, A>,
    around: &Around<'s, 'p, 't>,
    sink: &mut S,
    refusal: &mut Refusal,
) -> Result<(), Stop<S::Fault>>
    ensures puts { PutsFront (λ rest. unrolled (node.Fragment (named_of slot.now) rest)
        (stack_of around.now)) (stack_of around.now) (S.seen sink.old).taken (S.seen sink.new).taken
        refusal.new result }
    ensures same_reference { (S.seen sink.new).reference ≡ (S.seen sink.old).reference }
    ensures same_before { (S.seen sink.new).before ≡ (S.seen sink.old).before }
{
    match fragment_for(slot, look_up(&slot.words, around)) {
        Ok(fragment) => match put_markup(&StoredMarkup::new(fragment.as_str()), sink) {
            Ok(()) => Ok(()),
            Err(fault) => Err(Stop::Failed(fault)),
        },
        Err(why) => {
            *refusal = Refusal {
                position: slot.position,
                why,
            };
            Err(Stop::Refused)
        }
    }
}

// How the body of a section stands.
#[derive(Clone, Copy)]
enum Stand<'p, 't> {
    Never,
    // With the same around.
    Here,
    // With this value around, too.
    Inside(Value<'p, 't>),
    // With each item around.
    Each(Items<'p, 't>),
    // It would stand more than once, and must not.
    Repeated,
}

// How a body stands that stands once for this value.
#[inline(always)]
fn stand_once<'s, 'p, 't>(
    times: Times,
    value: Value<'p, 't>,
    around: &Around<'s, 'p, 't>,
) -> Stand<'p, 't>
    ensures { StandsSo times (inside times (datum_of value.entry) (stack_of around.now) ∷ [])
        (stack_of around.now) result }
{
    let _around = around;
    match times {
        Times::Whether => Stand::Here,
        _ => Stand::Inside(value),
    }
}

// How the body of a section of a fragment stands.
fn stand_of_fragment<'s, 'p, 't>(
    times: Times,
    fragment: Fragment<'p>,
    around: &Around<'s, 'p, 't>,
) -> Stand<'p, 't>
    ensures { StandsSo times (filled_stacks times (Some (datum_of (Value.Fragment fragment.entry))) (stack_of around.now))
        (stack_of around.now) result }
{
    if fragment.as_str().is_empty() {
        Stand::Never
    } else {
        stand_once(times, Value::Fragment(fragment), around)
    }
}

// How the body of a section of a list stands.
#[inline(always)]
fn stand_of_list<'s, 'p, 't>(
    times: Times,
    items: Items<'p, 't>,
    around: &Around<'s, 'p, 't>,
) -> Stand<'p, 't>
    ensures { StandsSo times (list_stacks times (items_in items.entry) (stack_of around.now))
        (stack_of around.now) result }
{
    let _around = around;
    let Some((first, others)) = items.take_first() else {
        return Stand::Never;
    };
    match times {
        Times::Each => Stand::Each(items),
        Times::Once => match others.take_first() {
            None => Stand::Inside(first),
            Some(_) => Stand::Repeated,
        },
        Times::If | Times::Whether | Times::Given | Times::Attributes => Stand::Here,
    }
}

fn is_nothing(value: Value<'_, '_>) -> bool
    ensures { result ≡ is_nothing (datum_of value.entry) }
{
    matches!(value, Value::Null)
}

// How a body stands that stands for whatever is given.
fn stand_of_given<'s, 'p, 't>(
    value: Option<Value<'p, 't>>,
    around: &Around<'s, 'p, 't>,
) -> Stand<'p, 't>
    ensures { StandsSo Given (given_stacks (option_map datum_of value.entry) (stack_of around.now))
        (stack_of around.now) result }
{
    let _around = around;
    match value {
        None => Stand::Never,
        Some(value) if is_nothing(value) => Stand::Never,
        Some(value) => Stand::Inside(value),
    }
}

// How the body of a section stands whose name means this.
#[inline(always)]
fn stand_of<'s, 'p, 't>(
    times: Times,
    value: Option<Value<'p, 't>>,
    around: &Around<'s, 'p, 't>,
) -> Stand<'p, 't>
    ensures { StandsSo times (stacks times (option_map datum_of value.entry) (stack_of around.now))
        (stack_of around.now) result }
{
    match times {
        Times::Given => stand_of_given(value, around),
        _ => stand_of_filled(times, value, around),
    }
}

// The same of a body that does not stand for `false`, or for what is empty.
#[inline(always)]
fn stand_of_filled<'s, 'p, 't>(
    times: Times,
    value: Option<Value<'p, 't>>,
    around: &Around<'s, 'p, 't>,
) -> Stand<'p, 't>
    ensures { StandsSo times (filled_stacks times (option_map datum_of value.entry) (stack_of around.now))
        (stack_of around.now) result }
{
    match value {
        None => Stand::Never,
        Some(Value::Null) => Stand::Never,
        Some(Value::Flag(false)) => Stand::Never,
        Some(Value::Flag(true)) => Stand::Here,
        Some(Value::Text("")) => Stand::Never,
        Some(Value::Text(text)) => stand_once(times, Value::Text(text), around),
        Some(Value::Number("")) => Stand::Never,
        Some(Value::Number(text)) => stand_once(times, Value::Number(text), around),
        Some(Value::Fragment(fragment)) => stand_of_fragment(times, fragment, around),
        Some(Value::Record(fields)) => stand_once(times, Value::Record(fields), around),
        Some(Value::Object(members)) => stand_once(times, Value::Object(members), around),
        Some(Value::List(values)) => stand_of_list(times, Items::List(values), around),
        Some(Value::Array(values)) => stand_of_list(times, Items::Array(values), around),
    }
}

// Puts what data makes of a node.
#[cycle(put)]
#[inline(always)]
fn put_node<'s, 'a, 'p, 't: 'p, A: Allocator, S: Sink>(
    node: &PlacedNode<'a, A>,
    around: &'s Around<'s, 'p, 't>,
    sink: &mut S,
    refusal: &mut Refusal,
) -> Result<(), Stop<S::Fault>>
    ensures puts { PutsFront (λ rest. unrolled (placed_node node.now rest) (stack_of around.now))
        (stack_of around.now) (S.seen sink.old).taken (S.seen sink.new).taken refusal.new result }
    ensures same_reference { (S.seen sink.new).reference ≡ (S.seen sink.old).reference }
    ensures same_before { (S.seen sink.new).before ≡ (S.seen sink.old).before }
{
    match node {
        PlacedNode::Markup(markup) => match put_markup(markup, sink) {
            Ok(()) => Ok(()),
            Err(fault) => Err(Stop::Failed(fault)),
        },
        PlacedNode::Slot(slot) => put_slot(slot, around, sink, refusal),
        PlacedNode::Fragment(slot) => put_fragment(slot, around, sink, refusal),
        PlacedNode::Section(opened, body, otherwise) => {
            let value = look_up(&opened.tag.words, around);
            if let Some(why) = refused_for(opened.times, value) {
                *refusal = Refusal {
                    position: opened.tag.position,
                    why,
                };
                return Err(Stop::Refused);
            }
            match stand_of(opened.times, value, around) {
                Stand::Never => put_nodes(otherwise, around, sink, refusal),
                Stand::Here => put_nodes(body, around, sink, refusal),
                Stand::Inside(value) => put_inside(body, value, around, sink, refusal),
                Stand::Each(items) => put_each(body, items, around, sink, refusal),
                Stand::Repeated => {
                    *refusal = Refusal {
                        position: opened.tag.position,
                        why: ValueFault::Repeated,
                    };
                    Err(Stop::Refused)
                }
            }
        }
    }
}

// Puts what data makes of a body with this value around, too. What is around is made here, so that no other
// node has to make room for it.
#[cycle(put)]
#[inline(always)]
fn put_inside<'s, 'a, 'p, 't: 'p, A: Allocator, S: Sink>(
    body: &Vec<PlacedNode<'a, A>, A>,
    value: Value<'p, 't>,
    around: &'s Around<'s, 'p, 't>,
    sink: &mut S,
    refusal: &mut Refusal,
) -> Result<(), Stop<S::Fault>>
    ensures puts { Puts (unrolled (nodes_of body.now.items) (datum_of value.entry ∷ stack_of around.now))
        (S.seen sink.old).taken (S.seen sink.new).taken refusal.new result }
    ensures same_reference { (S.seen sink.new).reference ≡ (S.seen sink.old).reference }
    ensures same_before { (S.seen sink.new).before ≡ (S.seen sink.old).before }
{
    let inner = Around::Inside(value, around);
    put_nodes(body, &inner, sink, refusal)
}

// Puts what data makes of a body, once for each item.
#[cycle(put)]
fn put_each<'s, 'a, 'p, 't: 'p, A: Allocator, S: Sink>(
    body: &Vec<PlacedNode<'a, A>, A>,
    items: Items<'p, 't>,
    around: &'s Around<'s, 'p, 't>,
    sink: &mut S,
    refusal: &mut Refusal,
) -> Result<(), Stop<S::Fault>>
    ensures puts { Puts (unrolled_each (λ inner. unrolled (nodes_of body.now.items) inner)
        (item_stacks (items_in items.entry) (stack_of around.now)))
        (S.seen sink.old).taken (S.seen sink.new).taken refusal.new result }
    ensures same_reference { (S.seen sink.new).reference ≡ (S.seen sink.old).reference }
    ensures same_before { (S.seen sink.new).before ≡ (S.seen sink.old).before }
{
    let mut rest = items;
    'items: while let Some((item, others)) = rest.take_first() {
        let inner = Around::Inside(item, around);
        match put_nodes(body, &inner, sink, refusal) {
            Ok(()) => {}
            Err(stop) => return Err(stop),
        }
        rest = others;
    }
    Ok(())
}

/// Puts what data makes of nodes, one after the other.
#[cycle(put)]
pub(crate) fn put_nodes<'s, 'a, 'p, 't: 'p, A: Allocator, S: Sink>(
    nodes: &Vec<PlacedNode<'a, A>, A>,
    around: &'s Around<'s, 'p, 't>,
    sink: &mut S,
    refusal: &mut Refusal,
) -> Result<(), Stop<S::Fault>>
    ensures puts { Puts (unrolled (nodes_of nodes.now.items) (stack_of around.now))
        (S.seen sink.old).taken (S.seen sink.new).taken refusal.new result }
    ensures same_reference { (S.seen sink.new).reference ≡ (S.seen sink.old).reference }
    ensures same_before { (S.seen sink.new).before ≡ (S.seen sink.old).before }
{
    for node in nodes {
        match put_node(node, around, sink, refusal) {
            Ok(()) => {}
            Err(stop) => return Err(stop),
        }
    }
    Ok(())
}
