//! Nodes with each slot between the attributes of a start tag spelled out: with a section for each attribute that
//! its record may have.
ghost use Rattle.std.specs.Prelude.{◌≡◌, ◌≢◌, IfOk, OnOk};
ghost use Rattle.html_tokenizer.specs.Tokenizer.Phases.{tokenizer_of};
ghost use Rattle.html_view.specs.Attributes.{attributes, of_row, of_rows, value_of};
ghost use Rattle.html_view.specs.Kept.{asked_node, asked_nodes, asked_of};
ghost use Rattle.html_view.specs.Nodes as spec;
ghost use Rattle.html_view.specs.Spelled.{Spells};
ghost use Rattle.html_view.specs.declared.node.Times.TheVariants.{Once};

use crate::attributes::{Attribute, FLAGS, TEXTS};
use crate::faults::{Position, ViewFault};
use crate::node::{Asked, Node, Opening, Times};
use crate::source::sections::{Nodes, add};
use html_tokenizer::Reader;
use std::alloc::Allocator;

// Adds the text of an attribute that has one.
fn add_value<A: Allocator>(
    nodes: &mut Nodes<'_, A>,
    times: Times,
    position: Position,
) -> Result<(), ViewFault>
    ensures { OnOk result ((rest : spec.Nodes spec.Asked) → asked_nodes nodes.new.items rest
        ≡ asked_nodes nodes.old.items (value_of times position rest)) }
{
    match times {
        Times::Given => add(
            nodes,
            Node::Slot(Asked {
                name: ".",
                position,
            }),
        ),
        _ => Ok(()),
    }
}

// The section of an attribute.
fn attribute<'a, A: Allocator + Copy>(
    alloc: A,
    row: Attribute,
    times: Times,
    position: Position,
) -> Result<Node<'a, A>, ViewFault>
    requires { times ≢ Once }
    ensures { IfOk result (λ node. (rest : spec.Nodes spec.Asked)
        → asked_node node rest ≡ of_row times position row rest) }
{
    let mut body = Vec::new(alloc);
    add(&mut body, Node::Markup(row.markup, position))?;
    add_value(&mut body, times, position)?;
    add(&mut body, Node::Markup("\"", position))?;
    let opening = Opening {
        name: row.member,
        position,
        times,
    };
    Ok(Node::Section(opening, body, Vec::new(alloc)))
}

// Adds the sections of attributes.
fn add_all<'a, A: Allocator + Copy>(
    alloc: A,
    rows: &[Attribute],
    times: Times,
    position: Position,
    nodes: &mut Nodes<'a, A>,
) -> Result<(), ViewFault>
    requires { times ≢ Once }
    ensures { OnOk result ((rest : spec.Nodes spec.Asked) → asked_nodes nodes.new.items rest
        ≡ asked_nodes nodes.old.items (of_rows times position rows.now rest)) }
{
    let mut rest = rows;
    'rows: while let [row, others @ ..] = rest {
        let node = attribute(alloc, *row, times, position)?;
        add(nodes, node)?;
        rest = others;
    }
    Ok(())
}

// The section of a slot between attributes.
fn attributes<'a, A: Allocator + Copy>(alloc: A, slot: Asked<'a>) -> Result<Node<'a, A>, ViewFault>
    ensures { IfOk result (λ node. (rest : spec.Nodes spec.Asked)
        → asked_node node rest ≡ attributes (asked_of slot.entry) rest) }
{
    let mut body = Vec::new(alloc);
    add_all(alloc, &TEXTS, Times::Given, slot.position, &mut body)?;
    add_all(alloc, &FLAGS, Times::Whether, slot.position, &mut body)?;
    let opening = Opening {
        name: slot.name,
        position: slot.position,
        times: Times::Attributes,
    };
    Ok(Node::Section(opening, body, Vec::new(alloc)))
}

#[cycle(spell)]
fn spell_node<'a, A: Allocator + Copy>(
    alloc: A,
    node: &Node<'a, A>,
    reader: &mut Reader<A>,
) -> Result<Node<'a, A>, ViewFault>
    ensures { IfOk result (λ made. Spells (asked_node node.now) (asked_node made)
        (tokenizer_of reader.old) (tokenizer_of reader.new)) }
{
    match node {
        Node::Markup(text, position) => {
            reader.read(text.as_bytes())?;
            Ok(Node::Markup(*text, *position))
        }
        Node::Slot(slot) => {
            if reader.is_between_attributes() {
                return attributes(alloc, *slot);
            }
            let _standing = reader.slot();
            Ok(Node::Slot(*slot))
        }
        Node::Fragment(slot) => Ok(Node::Fragment(*slot)),
        Node::Section(opening, body, otherwise) => {
            let mut before = reader.copy(alloc)?;
            let body = spell(alloc, body, reader)?;
            let otherwise = spell(alloc, otherwise, &mut before)?;
            Ok(Node::Section(*opening, body, otherwise))
        }
    }
}

/// The nodes spelled out, which begin where the reader is. It is then behind them.
#[cycle(spell)]
pub(crate) fn spell<'a, A: Allocator + Copy>(
    alloc: A,
    nodes: &Nodes<'a, A>,
    reader: &mut Reader<A>,
) -> Result<Nodes<'a, A>, ViewFault>
    ensures { IfOk result (λ made. Spells (asked_nodes nodes.now.items) (asked_nodes made.items)
        (tokenizer_of reader.old) (tokenizer_of reader.new)) }
{
    let mut spelled = Vec::with_capacity(alloc, nodes.len())?;
    for node in nodes {
        let made = spell_node(alloc, node, reader)?;
        match spelled.push(made) {
            Ok(()) => {}
            Err(_) => return Err(ViewFault::Memory),
        }
    }
    Ok(spelled)
}
