//! Nodes, and the two sides of a section.
ghost use Rattle.std.specs.Prelude.{◌≡◌, ◌≢◌, ◌↔◌, ◌++◌, ◌≤◌, ℕ, List, IfErr, IfOk, IsTrue, MatchOption, OnOk, length};
ghost use Rattle.html_view.specs.Cursors.{here_of};
ghost use Rattle.html_view.specs.Kept.{asked_node, asked_nodes};
ghost use Rattle.html_view.specs.Nodes as spec;
ghost use Rattle.html_view.specs.Reading.{
  Turns,
  TurnsNot,
  all_marked,
  is_space,
  marked,
  sectioned,
  spaces_of,
  with_space,
};
ghost use Rattle.html_view.specs.declared.faults.ViewFault.TheVariants.{Memory};
ghost use Rattle.html_view.specs.declared.node.Times.TheVariants.{Once};
ghost use Rattle.html_view.specs.declared.source.tag.Sign.TheVariants.{Unless};

use crate::faults::ViewFault;
use crate::node::{Node, Opening, Times};
use crate::source::cursor::{Cursor, Piece, Tag};
use crate::source::tag::Sign;
use std::alloc::Allocator;

/// Nodes as they are written.
pub(crate) type Nodes<'a, A> = Vec<Node<'a, A>, A>;

/// The tag `{{^name}}` behind a section of its name, and the white space between them.
#[derive(Drop)]
pub(crate) struct Otherwise<'a, A: Allocator> {
    pub(crate) tag: Tag<'a>,
    pub(crate) space: Vec<Piece<'a>, A>,
}

impl<'a, A: Allocator + Copy> Otherwise<'a, A> {
    /// Passes that tag, if nothing stands before it but white space and comments.
    pub(crate) fn pass(
        alloc: A,
        cursor: &mut Cursor<'a>,
        name: &str,
    ) -> Result<Option<Otherwise<'a, A>>, ViewFault>
        ensures turns { IfOk result (λ found. MatchOption found
            (TurnsNot name.now (here_of cursor.old) × (here_of cursor.new ≡ here_of cursor.old))
            (λ otherwise. Turns name.now (here_of cursor.old) (spaces_of otherwise.space.items)
            otherwise.tag (here_of cursor.new))) }
        ensures shorter { OnOk result (length cursor.new.rest.now ≤ length cursor.old.rest.now) }
    {
        let mut space = Vec::new(alloc);
        let mut ahead = *cursor;
        loop {
            // Most sections have no other side: then what follows is read once, where it is added.
            if ahead.is_at_text() {
                return Ok(None);
            }
            let piece = ahead.next()?;
            let Some(tag) = piece.tag else {
                return Ok(None);
            };
            if !is_space(piece.markup) {
                return Ok(None);
            }
            keep_space(&mut space, piece)?;
            if tag.sign == Sign::Comment {
                continue;
            }
            if is_unless(tag, name) {
                *cursor = ahead;
                return Ok(Some(Otherwise { tag, space }));
            }
            return Ok(None);
        }
    }

    /// Adds the white space to nodes.
    pub(crate) fn add_space(&self, nodes: &mut Nodes<'a, A>) -> Result<(), ViewFault>
        ensures nodes { OnOk result ((after : spec.Nodes spec.Asked) → asked_nodes nodes.new.items after
            ≡ asked_nodes nodes.old.items (all_marked (spaces_of self.now.space.items) after)) }
        ensures fault { IfErr result (λ fault. fault ≡ Memory) }
    {
        for piece in &self.space {
            add(nodes, Node::Markup(piece.markup, piece.position))?;
        }
        Ok(())
    }

    /// The node of a section with this body. Its other nodes begin with the white space. Where the body
    /// stands, the white space stands once behind it.
    pub(crate) fn section(
        &self,
        alloc: A,
        tag: Tag<'a>,
        times: Times,
        body: Nodes<'a, A>,
        others: Nodes<'a, A>,
    ) -> Result<Node<'a, A>, ViewFault>
        requires { times ≢ Once }
        ensures section { IfOk result (λ section. (rest after : spec.Nodes spec.Asked)
            → asked_nodes others.entry.items spec.End
            ≡ all_marked (spaces_of self.now.space.items) rest
            → asked_node section after ≡ sectioned tag.entry times (spaces_of self.now.space.items)
            (asked_nodes body.entry.items spec.End) rest after) }
        ensures fault { IfErr result (λ fault. fault ≡ Memory) }
    {
        if self.space.is_empty() {
            return Ok(Node::Section(opening(tag, times), body, others));
        }
        let mut nodes = Vec::new(alloc);
        let none = Vec::new(alloc);
        add(&mut nodes, Node::Section(opening(tag, times), body, none))?;
        self.add_space(&mut nodes)?;
        Ok(Node::Section(opening(tag, Times::Whether), nodes, others))
    }
}

// Whether this is `{{^name}}`.
fn is_unless(tag: Tag<'_>, name: &str) -> bool
    ensures { IsTrue result ↔ (tag.entry.sign ≡ Unless) × (tag.entry.name.now ≡ name.now) }
{
    tag.sign == Sign::Unless && tag.name == name
}

// Whether nothing is left where white space is trimmed.
fn is_space(text: &str) -> bool
    ensures { result ≡ is_space text.now }
{
    text.trim().is_empty()
}

// Keeps white space, if there is any.
fn keep_space<'a, A: Allocator>(
    space: &mut Vec<Piece<'a>, A>,
    piece: Piece<'a>,
) -> Result<(), ViewFault>
    ensures spaces { OnOk result ((spaces : List (List ℕ)) → spaces_of space.new.items ++ spaces
        ≡ spaces_of space.old.items ++ with_space piece.entry.markup.now spaces) }
    ensures fault { IfErr result (λ fault. fault ≡ Memory) }
{
    if piece.markup.is_empty() {
        return Ok(());
    }
    let Ok(()) = space.push(piece) else {
        return Err(ViewFault::Memory);
    };
    Ok(())
}

/// The opening that this tag is.
pub(crate) fn opening(tag: Tag<'_>, times: Times) -> Opening<'_>
    ensures name { result.name.now ≡ tag.entry.name.now }
    ensures position { result.position ≡ tag.entry.position }
    ensures times { result.times ≡ times }
{
    Opening {
        name: tag.name,
        position: tag.position,
        times,
    }
}

/// Adds markup, if there is any.
#[inline(always)]
pub(crate) fn add_markup<'a, A: Allocator>(
    nodes: &mut Nodes<'a, A>,
    piece: Piece<'a>,
) -> Result<(), ViewFault>
    ensures nodes { OnOk result ((after : spec.Nodes spec.Asked) → asked_nodes nodes.new.items after
        ≡ asked_nodes nodes.old.items (marked piece.entry.markup.now after)) }
    ensures fault { IfErr result (λ fault. fault ≡ Memory) }
{
    if piece.markup.is_empty() {
        return Ok(());
    }
    add(nodes, Node::Markup(piece.markup, piece.position))
}

// So many nodes have room in a list that is begun: most have no more, and are made once.
const ROOM: usize = 8;

// Makes room in a list that is begun.
#[inline(always)]
fn begin<'a, A: Allocator>(nodes: &mut Nodes<'a, A>) -> Result<(), ViewFault>
    ensures same { nodes.new.items ≡ nodes.old.items }
    ensures fault { IfErr result (λ fault. fault ≡ Memory) }
{
    if nodes.is_empty() {
        nodes.reserve(ROOM)?;
    }
    Ok(())
}

/// Adds a node.
#[inline(always)]
pub(crate) fn add<'a, A: Allocator>(
    nodes: &mut Nodes<'a, A>,
    node: Node<'a, A>,
) -> Result<(), ViewFault>
    ensures nodes { OnOk result ((after : spec.Nodes spec.Asked) → asked_nodes nodes.new.items after
        ≡ asked_nodes nodes.old.items (asked_node node.entry after)) }
    ensures fault { IfErr result (λ fault. fault ≡ Memory) }
{
    begin(nodes)?;
    let Ok(()) = nodes.push(node) else {
        return Err(ViewFault::Memory);
    };
    Ok(())
}
