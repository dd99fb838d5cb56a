//! Following all ways through nodes, which tells where each slot stands.
ghost use Rattle.std.specs.Prelude.{◌≡◌, ◌≢◌, List, IfOk, IfSome, OnOk};
ghost use Rattle.html_view.specs.Following.{Adds, Follows, FollowsBody, ways_of};
ghost use Rattle.html_view.specs.Kept.{
  Before,
  asked_node,
  asked_nodes,
  asked_of,
  opening_of,
  placed_node,
  placed_nodes,
};
ghost use Rattle.html_view.specs.Nodes as spec;
ghost use Rattle.html_view.specs.Nodes.{written_opening, written_times};
ghost use Rattle.html_view.specs.Ways.{Way};
ghost use Rattle.html_view.specs.declared.node.Times.TheVariants.{Each};

use crate::checked::CheckedSlot;
use crate::faults::{Position, ViewFault};
use crate::heads::{Heads, Known};
use crate::history::{Entry, History};
use crate::node::{Asked, Node, Opening, Times};
use crate::placed::{Named, Opened, Placed, PlacedNode};
use crate::ways::{MOST_WAYS, Ways};
use html_template::StoredMarkup;
use std::alloc::Allocator;

/// A body as it is placed, how often it may stand, and the ways behind it.
#[derive(Drop)]
struct FollowedBody<'a, A: Allocator> {
    times: Times,
    nodes: Vec<PlacedNode<'a, A>, A>,
    ways: Ways<A>,
}

/// Follows these ways through nodes, which begin there, and behind which this markup is guessed to stand. They
/// are then those behind the nodes.
#[cycle(follow)]
pub(crate) fn follow<'a, A: Allocator + Copy>(
    alloc: A,
    entry: Entry,
    nodes: &Vec<Node<'a, A>, A>,
    next: &[u8],
    ways: &mut Ways<A>,
    heads: &mut Heads<A>,
) -> Result<Vec<PlacedNode<'a, A>, A>, ViewFault>
    ensures { IfOk result (λ placed. Follows (asked_nodes nodes.now.items)
        (placed_nodes placed.items) (ways_of ways.old) (ways_of ways.new)) }
{
    ways.enter(entry, &mut heads.history)?;
    let mut placed = Vec::with_capacity(alloc, nodes.len())?;
    let mut rest = nodes.as_slice();
    for node in nodes {
        rest = behind_first(rest);
        follow_node(
            alloc,
            node,
            first_markup(rest, next),
            ways,
            heads,
            &mut placed,
        )?;
    }
    Ok(placed)
}

// Adds a node.
#[inline(always)]
fn add<'a, A: Allocator>(
    placed: &mut Vec<PlacedNode<'a, A>, A>,
    node: PlacedNode<'a, A>,
) -> Result<(), ViewFault>
    ensures { OnOk result ((asked : Before spec.Asked) (ways next : List Way)
        → Follows asked (placed_node node.entry) ways next
        → Adds asked (placed_nodes placed.old.items) (placed_nodes placed.new.items) ways next) }
{
    let Ok(()) = placed.push(node) else {
        return Err(ViewFault::Memory);
    };
    Ok(())
}

fn behind_first<'m, 'a, A: Allocator>(nodes: &'m [Node<'a, A>]) -> &'m [Node<'a, A>] {
    match nodes {
        [_, others @ ..] => others,
        [] => nodes,
    }
}

// The markup with which nodes are guessed to begin, behind which this is guessed to stand. It tells whether a
// slot before it, with which a URL begins, is a base. No law rests on it: markup that does not go on so is
// refused.
fn first_markup<'m, 'a, A: Allocator>(nodes: &'m [Node<'a, A>], next: &'m [u8]) -> &'m [u8] {
    match nodes {
        [first, ..] => markup_in(first, next),
        [] => next,
    }
}

// The same of a node: that of the body, where it is a section whose body begins with markup.
fn markup_in<'m, 'a, A: Allocator>(node: &'m Node<'a, A>, next: &'m [u8]) -> &'m [u8] {
    match node {
        Node::Markup(text, _) => text.as_bytes(),
        Node::Slot(_) | Node::Fragment(_) => &next[..0],
        Node::Section(_, body, _) => match body.as_slice() {
            [first, ..] => own_markup(first, next),
            [] => next,
        },
    }
}

fn own_markup<'m, 'a, A: Allocator>(node: &'m Node<'a, A>, next: &'m [u8]) -> &'m [u8] {
    match node {
        Node::Markup(text, _) => text.as_bytes(),
        _ => next,
    }
}

// Follows ways through a node, behind which this markup is guessed to stand, and adds it. It is put where it stays
// as soon as it is made, and what is not markup is called: most nodes are larger than markup is, and none is moved.
#[cycle(follow)]
#[inline(always)]
fn follow_node<'a, A: Allocator + Copy>(
    alloc: A,
    node: &Node<'a, A>,
    next: &[u8],
    ways: &mut Ways<A>,
    heads: &mut Heads<A>,
    placed: &mut Vec<PlacedNode<'a, A>, A>,
) -> Result<(), ViewFault>
    ensures { OnOk result (Adds (asked_node node.now) (placed_nodes placed.old.items)
        (placed_nodes placed.new.items) (ways_of ways.old) (ways_of ways.new)) }
{
    match node {
        Node::Markup(text, position) => {
            ways.take_markup(text.as_bytes(), *position, &mut heads.history)?;
            add(placed, PlacedNode::Markup(StoredMarkup::new(*text)))
        }
        Node::Slot(slot) => follow_slot(alloc, *slot, next, ways, &mut heads.history, placed),
        Node::Fragment(slot) => follow_fragment(alloc, *slot, ways, placed),
        Node::Section(opening, body, otherwise) => {
            let number = heads.open()?;
            let passes = follow_body(alloc, number, *opening, body, next, ways, heads)?;
            let other = follow(alloc, Entry::Other(number), otherwise, next, ways, heads)?;
            add_section(alloc, *opening, passes, other, ways, placed)
        }
    }
}

// Follows ways through a slot.
#[inline(never)]
fn follow_slot<'a, A: Allocator + Copy>(
    alloc: A,
    slot: Asked<'a>,
    next: &[u8],
    ways: &mut Ways<A>,
    history: &mut History<A>,
    placed: &mut Vec<PlacedNode<'a, A>, A>,
) -> Result<(), ViewFault>
    ensures { OnOk result (Adds (λ rest. spec.Slot (asked_of slot.entry) rest)
        (placed_nodes placed.old.items) (placed_nodes placed.new.items) (ways_of ways.old)
        (ways_of ways.new)) }
{
    let found = ways.take_slot(next, slot.position, history)?;
    let asked = Named::of(alloc, slot.name, slot.position)?;
    let checked = CheckedSlot::new(found.place, found.kind);
    add(placed, PlacedNode::Slot(Placed { asked, checked }))
}

// Follows ways through a slot for a fragment.
#[inline(never)]
fn follow_fragment<'a, A: Allocator + Copy>(
    alloc: A,
    slot: Asked<'a>,
    ways: &Ways<A>,
    placed: &mut Vec<PlacedNode<'a, A>, A>,
) -> Result<(), ViewFault>
    ensures { OnOk result (Adds (λ rest. spec.Fragment (asked_of slot.entry) rest)
        (placed_nodes placed.old.items) (placed_nodes placed.new.items) (ways_of ways.now)
        (ways_of ways.now)) }
{
    if !ways.are_first() {
        return Err(ViewFault::NotInText(slot.position));
    }
    let named = Named::of(alloc, slot.name, slot.position)?;
    add(placed, PlacedNode::Fragment(named))
}

// Adds a section with this body, and with what stands where it does not, behind which these ways are.
#[inline(never)]
fn add_section<'a, A: Allocator + Copy>(
    alloc: A,
    opening: Opening<'a>,
    passes: FollowedBody<'a, A>,
    other: Vec<PlacedNode<'a, A>, A>,
    ways: &mut Ways<A>,
    placed: &mut Vec<PlacedNode<'a, A>, A>,
) -> Result<(), ViewFault>
    ensures { OnOk result ((body otherwise : Before spec.Asked) (before : List Way)
        → written_times passes.entry.times ≡ written_times opening.entry.times
        → FollowsBody body (placed_nodes passes.entry.nodes.items) passes.entry.times before
        (ways_of passes.entry.ways)
        → Follows otherwise (placed_nodes other.entry.items) before (ways_of ways.old)
        → Adds (λ rest. spec.Section (written_opening (opening_of opening.entry)) (body spec.End)
        (otherwise spec.End) rest) (placed_nodes placed.old.items) (placed_nodes placed.new.items)
        before (ways_of ways.new)) }
{
    // Of two ways that are one, that with fewer sections standing is kept.
    ways.add_all(&passes.ways, opening.position)?;
    let tag = Named::of(alloc, opening.name, opening.position)?;
    let opened = Opened {
        tag,
        times: passes.times,
    };
    add(placed, PlacedNode::Section(opened, passes.nodes, other))
}

// Follows ways through the body of a section.
#[cycle(follow)]
fn follow_body<'a, A: Allocator + Copy>(
    alloc: A,
    number: usize,
    opening: Opening<'a>,
    body: &Vec<Node<'a, A>, A>,
    next: &[u8],
    ways: &Ways<A>,
    heads: &mut Heads<A>,
) -> Result<FollowedBody<'a, A>, ViewFault>
    ensures times { IfOk result (λ f. written_times f.times ≡ written_times opening.entry.times) }
    ensures body { IfOk result (λ f. FollowsBody (asked_nodes body.now.items)
        (placed_nodes f.nodes.items) f.times (ways_of ways.now) (ways_of f.ways)) }
{
    match opening.times {
        Times::If => return follow_once(alloc, Times::If, number, body, next, ways, heads),
        Times::Whether => return follow_once(
            alloc,
            Times::Whether,
            number,
            body,
            next,
            ways,
            heads,
        ),
        Times::Given => return follow_once(alloc, Times::Given, number, body, next, ways, heads),
        Times::Attributes => return follow_once(
            alloc,
            Times::Attributes,
            number,
            body,
            next,
            ways,
            heads,
        ),
        Times::Each | Times::Once => {}
    }
    match heads.known(number) {
        Known::Nothing => follow_new(alloc, opening.position, number, body, next, ways, heads),
        Known::Repeated => follow_again(alloc, opening.position, number, body, next, ways, heads),
        Known::Once => follow_once(alloc, Times::Once, number, body, next, ways, heads),
    }
}

// Follows ways through a body that stands once.
#[cycle(follow)]
fn follow_once<'a, A: Allocator + Copy>(
    alloc: A,
    times: Times,
    number: usize,
    body: &Vec<Node<'a, A>, A>,
    next: &[u8],
    ways: &Ways<A>,
    heads: &mut Heads<A>,
) -> Result<FollowedBody<'a, A>, ViewFault>
    requires { times ≢ Each }
    ensures times { IfOk result (λ f. f.times ≡ times) }
    ensures body { IfOk result (λ f. FollowsBody (asked_nodes body.now.items)
        (placed_nodes f.nodes.items) f.times (ways_of ways.now) (ways_of f.ways)) }
{
    let mut out = ways.copy()?;
    let nodes = follow(alloc, Entry::Body(number), body, next, &mut out, heads)?;
    Ok(FollowedBody {
        times,
        nodes,
        ways: out,
    })
}

// Follows ways through a body of which nothing is known: once, and then in rounds, if it leads back.
#[cycle(follow)]
fn follow_new<'a, A: Allocator + Copy>(
    alloc: A,
    position: Position,
    number: usize,
    body: &Vec<Node<'a, A>, A>,
    next: &[u8],
    ways: &Ways<A>,
    heads: &mut Heads<A>,
) -> Result<FollowedBody<'a, A>, ViewFault>
    ensures times { IfOk result (λ f. written_times f.times ≡ Each) }
    ensures body { IfOk result (λ f. FollowsBody (asked_nodes body.now.items)
        (placed_nodes f.nodes.items) f.times (ways_of ways.now) (ways_of f.ways)) }
{
    let first = heads.next();
    let once = follow_once(alloc, Times::Once, number, body, next, ways, heads)?;
    if ways.has_all(&once.ways) {
        heads.note_repeated(number, None);
        return Ok(FollowedBody {
            times: Times::Each,
            nodes: once.nodes,
            ways: once.ways,
        });
    }
    let end = heads.next();
    let mut head = ways.copy()?;
    match head.add_all(&once.ways, position) {
        Ok(()) => {
            heads.go_to(first);
            if let Some(repeated) = follow_rounds(
                alloc, position, number, body, next, head, heads,
            )? {
                return Ok(repeated);
            }
        }
        Err(ViewFault::Memory) => return Err(ViewFault::Memory),
        Err(_) => {}
    }
    heads.go_to(end);
    heads.note_once(number);
    Ok(once)
}

// Follows ways through a body that led back before.
#[cycle(follow)]
fn follow_again<'a, A: Allocator + Copy>(
    alloc: A,
    position: Position,
    number: usize,
    body: &Vec<Node<'a, A>, A>,
    next: &[u8],
    ways: &Ways<A>,
    heads: &mut Heads<A>,
) -> Result<FollowedBody<'a, A>, ViewFault>
    ensures times { IfOk result (λ f. written_times f.times ≡ Each) }
    ensures body { IfOk result (λ f. FollowsBody (asked_nodes body.now.items)
        (placed_nodes f.nodes.items) f.times (ways_of ways.now) (ways_of f.ways)) }
{
    let first = heads.next();
    let mut head = ways.copy()?;
    let is_known = match heads.ways(number) {
        Some(known) => head.add_all(known, position),
        None => Ok(()),
    };
    match is_known {
        Ok(()) => {
            if let Some(repeated) = follow_rounds(
                alloc, position, number, body, next, head, heads,
            )? {
                return Ok(repeated);
            }
        }
        Err(ViewFault::Memory) => return Err(ViewFault::Memory),
        Err(_) => {}
    }
    heads.go_to(first);
    let once = follow_once(alloc, Times::Once, number, body, next, ways, heads)?;
    heads.note_once(number);
    Ok(once)
}

// Follows these ways through a body in rounds, until it leads back to where they begin. `None` where it
// does not.
#[cycle(follow)]
fn follow_rounds<'a, A: Allocator + Copy>(
    alloc: A,
    position: Position,
    number: usize,
    body: &Vec<Node<'a, A>, A>,
    next: &[u8],
    ways: Ways<A>,
    heads: &mut Heads<A>,
) -> Result<Option<FollowedBody<'a, A>>, ViewFault>
    ensures times { IfOk result (λ found. IfSome found (λ f. f.times ≡ Each)) }
    ensures body { IfOk result (λ found. IfSome found (λ f. FollowsBody (asked_nodes body.now.items)
        (placed_nodes f.nodes.items) f.times (ways_of ways) (ways_of f.ways))) }
{
    let first = heads.next();
    let mut head = ways;
    for _round in 0..MOST_WAYS {
        heads.go_to(first);
        let round = match follow_once(alloc, Times::Once, number, body, next, &head, heads) {
            Ok(round) => round,
            Err(ViewFault::Memory) => return Err(ViewFault::Memory),
            Err(_) => return Ok(None),
        };
        if head.has_all(&round.ways) {
            heads.note_repeated(number, Some(head));
            return Ok(Some(FollowedBody {
                times: Times::Each,
                nodes: round.nodes,
                ways: round.ways,
            }));
        }
        match head.add_all(&round.ways, position) {
            Ok(()) => {}
            Err(ViewFault::Memory) => return Err(ViewFault::Memory),
            Err(_) => return Ok(None),
        }
    }
    Ok(None)
}
