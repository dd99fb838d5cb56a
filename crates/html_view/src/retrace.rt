//! Reading one unrolling of nodes once more, which shows that they are no view.
ghost use Rattle.std.specs.Prelude.{◌≡◌, ◌∷◌, [], IfOk, IfSome, OnOk};
ghost use Rattle.html_view.specs.Frames.{BeginsWith, Leads, frame_of, once_stood, work_of};
ghost use Rattle.html_view.specs.Kept.{asked_nodes};
ghost use Rattle.html_view.specs.Nodes as node;
ghost use Rattle.html_view.specs.Nodes.{Nodes};
ghost use Rattle.html_view.specs.Following.{way_of};
ghost use Rattle.html_view.specs.Reached.{Shows, told_with};
ghost use Rattle.html_view.specs.Ways.{EndsWithin};
ghost use Rattle.html_view.specs.declared.faults.ViewFault.TheVariants as ViewFault;
ghost use Rattle.html_view.specs.declared.faults.ViewFault.TheVariants.{Unfinished};
ghost use Rattle.html_view.specs.declared.node.Opening.{Opening};

use crate::faults::{Position, Refused, ViewFault};
use crate::heads::Heads;
use crate::history::Step;
use crate::node::{Node, Opening, Times};
use crate::way::Way;
use html_template::PartFault;
use std::alloc::{AllocError, Allocator};

/// Nodes that are still to be read.
#[derive(Clone, Copy)]
struct Frame<'n, 'a, A: Allocator> {
    nodes: &'n [Node<'a, A>],
    // The first of them is this section, whose body stood: it may stand again, and nothing stands where it
    // does not.
    again: Option<usize>,
}

/// The sections that stand so far, and what is still to be read, the innermost last.
#[derive(Drop)]
struct Trace<'n, 'a, A: Allocator> {
    standing: Vec<Position, A>,
    work: Vec<Frame<'n, 'a, A>, A>,
}

impl<'n, 'a, A: Allocator + Copy> Trace<'n, 'a, A> {
    fn add(&mut self, nodes: &'n [Node<'a, A>], again: Option<usize>) -> Result<(), AllocError>
        ensures work { OnOk result (work_of self.new.work.items
            ≡ once_stood again (asked_nodes nodes.now node.End) ∷ work_of self.old.work.items) }
        ensures standing { self.new.standing ≡ self.old.standing }
    {
        match self.work.push(Frame { nodes, again }) {
            Ok(()) => Ok(()),
            Err(_) => Err(AllocError),
        }
    }

    // The body of this section stands, which is the first of the nodes.
    fn stand(
        &mut self,
        frame: Frame<'n, 'a, A>,
        opening: Opening<'a>,
        body: &'n Vec<Node<'a, A>, A>,
        rest: &'n [Node<'a, A>],
        number: usize,
    ) -> Result<(), AllocError>
        requires { (otherwise : Nodes node.Asked) × BeginsWith frame.nodes.now opening
            (asked_nodes body.now.items node.End) otherwise rest.now }
        ensures { OnOk result (Leads self.old.standing.items
            (frame_of frame.entry ∷ work_of self.old.work.items) self.new.standing.items
            (work_of self.new.work.items)) }
    {
        self.tell(opening)?;
        match opening.times {
            Times::Each | Times::Once => self.add(frame.nodes, Some(number))?,
            Times::If | Times::Whether | Times::Given | Times::Attributes => {
                self.add(rest, None)?
            }
        }
        self.add(body.as_slice(), None)
    }

    // Tells that this section stands. That around white space has the tag of the section within it.
    fn tell(&mut self, opening: Opening<'a>) -> Result<(), AllocError>
        ensures standing { OnOk result (self.new.standing.items
            ≡ told_with opening.entry.times self.old.standing.items opening.entry.position) }
        ensures work { self.new.work ≡ self.old.work }
    {
        match opening.times {
            Times::Whether | Times::Given => Ok(()),
            Times::Each | Times::Once | Times::If | Times::Attributes => match self
                .standing
                .push(opening.position)
            {
                Ok(()) => Ok(()),
                Err(_) => Err(AllocError),
            },
        }
    }

    // It does not, or not again.
    fn leave_out(
        &mut self,
        frame: Frame<'n, 'a, A>,
        otherwise: &'n Vec<Node<'a, A>, A>,
        rest: &'n [Node<'a, A>],
    ) -> Result<(), AllocError>
        requires { (opening : Opening) × (body : Nodes node.Asked) × BeginsWith frame.nodes.now
            opening body (asked_nodes otherwise.now.items node.End) rest.now }
        ensures { OnOk result (Leads self.old.standing.items
            (frame_of frame.entry ∷ work_of self.old.work.items) self.new.standing.items
            (work_of self.new.work.items)) }
    {
        self.add(rest, None)?;
        match frame.again {
            Some(_) => Ok(()),
            None => self.add(otherwise.as_slice(), None),
        }
    }

    // This node is refused.
    fn refused(self, position: Position, why: PartFault) -> Refused<A>
        ensures fault { result.fault ≡ ViewFault.Part position why }
        ensures standing { result.standing ≡ self.entry.standing }
    {
        Refused {
            fault: ViewFault::Part(position, why),
            standing: self.standing,
        }
    }
}

/// The fault with the unrolling that shows it. This is read once more, so that no fault is told that is
/// not seen.
pub(crate) fn refused<'a, A: Allocator + Copy>(
    alloc: A,
    nodes: &Vec<Node<'a, A>, A>,
    fault: ViewFault,
    heads: &Heads<A>,
) -> Refused<A>
    ensures { Shows (asked_nodes nodes.now.items node.End) result.standing.items result.fault }
{
    match fault {
        ViewFault::Part(_, _) | ViewFault::Unfinished => {}
        ViewFault::Tag(_, _) => return without(alloc, fault),
        ViewFault::Ambiguous(_) => return without(alloc, fault),
        ViewFault::NotInText(_) => return without(alloc, fault),
        ViewFault::TooManyWays(_) => return without(alloc, fault),
        ViewFault::Memory => return without(alloc, fault),
    }
    match retraced(alloc, nodes, heads) {
        Ok(Some(refused)) => refused,
        // There is one, but where the markup behind a slot with which a URL begins was guessed, and another
        // stands behind it here.
        Ok(None) => {
            let slot = heads.history.slot_of_refused();
            without(alloc, ViewFault::Ambiguous(slot))
        }
        Err(_) => without(alloc, ViewFault::Memory),
    }
}

/// A fault that no unrolling shows.
pub(crate) fn without<A: Allocator>(alloc: A, fault: ViewFault) -> Refused<A>
    ensures { result.fault ≡ fault }
{
    Refused {
        fault,
        standing: Vec::new(alloc),
    }
}

fn retraced<'a, A: Allocator + Copy>(
    alloc: A,
    nodes: &Vec<Node<'a, A>, A>,
    heads: &Heads<A>,
) -> Result<Option<Refused<A>>, AllocError>
    ensures { IfOk result (λ found. IfSome found (λ refused.
        Shows (asked_nodes nodes.now.items node.End) refused.standing.items refused.fault)) }
{
    let steps = heads.history.steps_of_refused()?;
    retrace(alloc, nodes.as_slice(), steps)
}

// Reads the unrolling of these steps, the last of which is the first one, up to its fault.
fn retrace<'n, 'a, A: Allocator + Copy>(
    alloc: A,
    nodes: &'n [Node<'a, A>],
    steps: Vec<Step, A>,
) -> Result<Option<Refused<A>>, AllocError>
    ensures { IfOk result (λ found. IfSome found (λ refused.
        Shows (asked_nodes nodes.now node.End) refused.standing.items refused.fault)) }
{
    let mut steps = steps;
    let mut way = Way::first(alloc);
    let mut trace = Trace {
        standing: Vec::new(alloc),
        work: Vec::new(alloc),
    };
    trace.add(nodes, None)?;
    for _step in 0..u64::MAX {
        let Some(frame) = trace.work.pop() else {
            return ended(&way, trace.standing);
        };
        let [node, rest @ ..] = frame.nodes else {
            continue;
        };
        match node {
            Node::Markup(text, position) => match way.turn_to_markup(text.as_bytes())? {
                Ok(()) => trace.add(rest, None)?,
                Err(why) => return Ok(Some(trace.refused(*position, why))),
            },
            // Whether it is a base is told by the markup that follows it here.
            Node::Slot(slot) => match way.take_slot(b"")? {
                Ok(_) => trace.add(rest, None)?,
                Err(why) => return Ok(Some(trace.refused(slot.position, why))),
            },
            // It may be empty.
            Node::Fragment(_) => trace.add(rest, None)?,
            Node::Section(opening, body, otherwise) => match pass(&mut steps, frame.again) {
                Some(number) => trace.stand(frame, *opening, body, rest, number)?,
                None => trace.leave_out(frame, otherwise, rest)?,
            },
        }
    }
    Ok(None)
}

// The number of the next step's section, if its body stands. A body that stood stands again by a step of its
// own section alone.
fn pass<A: Allocator>(steps: &mut Vec<Step, A>, again: Option<usize>) -> Option<usize> {
    let step = *steps.last()?;
    if let Some(number) = again {
        if step.section != number {
            return None;
        }
    }
    let _step = steps.pop();
    if step.stands {
        Some(step.section)
    } else {
        None
    }
}

// At the end of the nodes: whether a page ends there within something.
fn ended<A: Allocator + Copy>(
    way: &Way<A>,
    standing: Vec<Position, A>,
) -> Result<Option<Refused<A>>, AllocError>
    ensures within { IfOk result (λ found. IfSome found (λ refused. EndsWithin (way_of way.now))) }
    ensures told { IfOk result (λ found. IfSome found (λ refused. refused.fault ≡ Unfinished)) }
    ensures standing { IfOk result (λ found. IfSome found (λ refused. refused.standing ≡ standing)) }
{
    if !way.is_unfinished()? {
        return Ok(None);
    }
    Ok(Some(Refused {
        fault: ViewFault::Unfinished,
        standing,
    }))
}
