//! The names that a view asks for.
ghost use Rattle.std.specs.Prelude.{◌≡◌, ◌++◌, ◌∷◌, [], map, OnOk};
ghost use Rattle.html_view.specs.AskedNames.{AddsNames, asked_name, names_in, opened_names};
ghost use Rattle.html_view.specs.Kept.{nodes_of, placed_node};
ghost use Rattle.html_view.specs.Names.{words_of};

use crate::node::Times;
use crate::placed::{Opened, PlacedNode};
use std::alloc::{AllocError, Allocator};

/// A name that a view asks for.
#[derive(Clone, Copy, Debug, PartialEq, Eq)]
pub enum Name<'a> {
    /// Of a slot: a text.
    Slot(&'a str),
    /// Of a slot for a fragment.
    Fragment(&'a str),
    /// Of a section: a list, named values, a flag, a text or a fragment.
    Section(&'a str),
    /// Of a slot between attributes: named values that are attributes.
    Attributes(&'a str),
}

fn add<'a, A: Allocator>(names: &mut Vec<Name<'a>, A>, name: Name<'a>) -> Result<(), AllocError>
    ensures { OnOk result (names.new.items ≡ names.old.items ++ name.entry ∷ []) }
{
    match names.push(name) {
        Ok(()) => Ok(()),
        Err(_) => Err(AllocError),
    }
}

// Adds the names of a node.
#[cycle(add_names)]
fn add_names_of<'a, A: Allocator + Copy>(
    node: &PlacedNode<'a, A>,
    names: &mut Vec<Name<'a>, A>,
) -> Result<(), AllocError>
    ensures { OnOk result (AddsNames (map asked_name names.old.items) (placed_node node.now)
        (map asked_name names.new.items)) }
{
    match node {
        PlacedNode::Markup(_) => Ok(()),
        PlacedNode::Slot(slot) => add(names, Name::Slot(slot.asked.name)),
        PlacedNode::Fragment(slot) => add(names, Name::Fragment(slot.name)),
        PlacedNode::Section(opened, body, otherwise) => {
            add_opened(opened, body, names)?;
            add_names(otherwise, names)
        }
    }
}

// Adds the names of a section, where its body stands.
#[cycle(add_names)]
fn add_opened<'a, A: Allocator + Copy>(
    opened: &Opened<'a, A>,
    body: &Vec<PlacedNode<'a, A>, A>,
    names: &mut Vec<Name<'a>, A>,
) -> Result<(), AllocError>
    ensures { OnOk result (map asked_name names.new.items ≡ map asked_name names.old.items
        ++ opened_names opened.now.times (words_of opened.now.tag.name.now) (names_in (nodes_of body.now.items))) }
{
    match opened.times {
        Times::Attributes => add(names, Name::Attributes(opened.tag.name)),
        _ => {
            add(names, Name::Section(opened.tag.name))?;
            add_names(body, names)
        }
    }
}

/// Adds the names of nodes, in their order.
#[cycle(add_names)]
pub(crate) fn add_names<'a, A: Allocator + Copy>(
    nodes: &Vec<PlacedNode<'a, A>, A>,
    names: &mut Vec<Name<'a>, A>,
) -> Result<(), AllocError>
    ensures { OnOk result (map asked_name names.new.items
        ≡ map asked_name names.old.items ++ names_in (nodes_of nodes.now.items)) }
{
    for node in nodes {
        add_names_of(node, names)?;
    }
    Ok(())
}
