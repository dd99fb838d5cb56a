//! The ways that lead to a node.
ghost use Rattle.std.specs.Prelude.{◌≡◌, ◌∷◌, [], IfOk, IsTrue, Ok, OnOk, map};
ghost use Rattle.html_view.specs.Following.{MovedPast, ways_of, way_of};
ghost use Rattle.html_view.specs.Nodes.{Placed};
ghost use Rattle.html_view.specs.Takes.{Among, AreAmong, GoesOn, GoesPast};
ghost use Rattle.html_view.specs.Ways as spec;
ghost use Rattle.html_view.specs.Ways.{MayEnd, first_way, way_behind};

use crate::faults::{Position, ViewFault};
use crate::history::{Entry, History};
use crate::way::Way;
use html_template::{PlacedSlot, SlotKind};
use std::alloc::{AllocError, Allocator};

/// So many ways may lead to a node.
pub(crate) const MOST_WAYS: usize = 8;

/// The ways that lead to a node, each once. There is always one, and mostly no other.
#[derive(Drop)]
pub(crate) struct Ways<A: Allocator> {
    alloc: A,
    first: Way<A>,
    others: Vec<Way<A>, A>,
}

/// A slot's place and kind, and the ways behind it.
#[derive(Drop)]
struct Past<A: Allocator> {
    slot: PlacedSlot,
    ways: Ways<A>,
}

impl<A: Allocator + Copy> Ways<A> {
    fn only(alloc: A, way: Way<A>) -> Ways<A>
        ensures { ways_of result ≡ way_of way ∷ [] }
    {
        Ways {
            alloc,
            first: way,
            others: Vec::new(alloc),
        }
    }

    /// The one at the beginning of a page.
    pub(crate) fn first(alloc: A) -> Ways<A>
        ensures { ways_of result ≡ first_way ∷ [] }
    {
        Ways::only(alloc, Way::first(alloc))
    }

    /// The same ways once more.
    pub(crate) fn copy(&self) -> Result<Ways<A>, AllocError>
        ensures { IfOk result (λ copy. ways_of copy ≡ ways_of self.now) }
    {
        let first = self.first.copy()?;
        let others = copies(self.alloc, &self.others)?;
        Ok(Ways {
            alloc: self.alloc,
            first,
            others,
        })
    }

    /// Puts this step behind each of the ways.
    pub(crate) fn enter(&mut self, entry: Entry, history: &mut History<A>) -> Result<(), AllocError>
        ensures { OnOk result (ways_of self.new ≡ ways_of self.old) }
    {
        self.first.last = history.add(entry, self.first.last)?;
        if !self.is_one() {
            self.others = entered(self.alloc, &self.others, entry, history)?;
        }
        Ok(())
    }

    fn is_one(&self) -> bool
        ensures { IsTrue result → self.now.others.items ≡ [] }
    {
        matches!(self.others.as_slice(), [])
    }

    fn has(&self, way: &Way<A>) -> bool
        ensures { IsTrue result → Among (way_of way.now) (ways_of self.now) }
    {
        if way.is_same(&self.first) {
            return true;
        }
        for other in &self.others {
            if way.is_same(other) {
                return true;
            }
        }
        false
    }

    /// Whether each of the others is one of these.
    pub(crate) fn has_all(&self, others: &Ways<A>) -> bool
        ensures { IsTrue result → AreAmong (ways_of others.now) (ways_of self.now) }
    {
        if !self.has(&others.first) {
            return false;
        }
        for way in &others.others {
            if !self.has(way) {
                return false;
            }
        }
        true
    }

    // Adds a way, unless it is one of them.
    fn add(&mut self, way: Way<A>, position: Position) -> Result<(), ViewFault>
        ensures added { OnOk result (Among (way_of way) (ways_of self.new)) }
        ensures kept { OnOk result (AreAmong (ways_of self.old) (ways_of self.new)) }
    {
        if self.has(&way) {
            return Ok(());
        }
        if self.others.len() >= MOST_WAYS - 1 {
            return Err(ViewFault::TooManyWays(position));
        }
        let Ok(()) = self.others.push(way) else {
            return Err(ViewFault::Memory);
        };
        Ok(())
    }

    // Adds a way, which is copied if it is new.
    fn add_copy(&mut self, way: &Way<A>, position: Position) -> Result<(), ViewFault>
        ensures added { OnOk result (Among (way_of way.now) (ways_of self.new)) }
        ensures kept { OnOk result (AreAmong (ways_of self.old) (ways_of self.new)) }
    {
        if self.has(way) {
            return Ok(());
        }
        let copy = way.copy()?;
        self.add(copy, position)
    }

    /// Adds ways.
    pub(crate) fn add_all(&mut self, others: &Ways<A>, position: Position) -> Result<(), ViewFault>
        ensures added { OnOk result (AreAmong (ways_of others.now) (ways_of self.new)) }
        ensures kept { OnOk result (AreAmong (ways_of self.old) (ways_of self.new)) }
    {
        self.add_copy(&others.first, position)?;
        for way in &others.others {
            self.add_copy(way, position)?;
        }
        Ok(())
    }

    /// Reads markup on each of the ways.
    pub(crate) fn take_markup(
        &mut self,
        bytes: &[u8],
        position: Position,
        history: &mut History<A>,
    ) -> Result<(), ViewFault>
        ensures { OnOk result ((way : spec.Way) → Among way (ways_of self.old)
            → GoesOn way bytes.now (ways_of self.new)) }
    {
        if self.is_one() {
            return move_on(&mut self.first, bytes, position, history);
        }
        let next = self.behind_markup(bytes, position, history)?;
        *self = next;
        Ok(())
    }

    // The ways behind markup.
    fn behind_markup(
        &self,
        bytes: &[u8],
        position: Position,
        history: &mut History<A>,
    ) -> Result<Ways<A>, ViewFault>
        ensures { IfOk result (λ next. (way : spec.Way) → Among way (ways_of self.now)
            → GoesOn way bytes.now (ways_of next)) }
    {
        let mut first = self.first.copy()?;
        move_on(&mut first, bytes, position, history)?;
        let mut next = Ways::only(self.alloc, first);
        for way in &self.others {
            let mut moved = way.copy()?;
            move_on(&mut moved, bytes, position, history)?;
            next.add(moved, position)?;
        }
        Ok(next)
    }

    /// Reads a slot on each of the ways, and tells where it stands on all of them, if this markup follows it.
    pub(crate) fn take_slot(
        &mut self,
        next: &[u8],
        position: Position,
        history: &mut History<A>,
    ) -> Result<PlacedSlot, ViewFault>
        ensures { IfOk result (λ found. (slot : Placed) → found.place ≡ slot.place
            → found.kind ≡ slot.kind → (way : spec.Way) → Among way (ways_of self.old)
            → GoesPast way slot (ways_of self.new)) }
    {
        if self.is_one() {
            return move_past(&mut self.first, next, position, history);
        }
        let past = self.behind_slot(next, position, history)?;
        *self = past.ways;
        Ok(past.slot)
    }

    // The ways behind a slot, and where it stands on all of them.
    fn behind_slot(
        &self,
        next: &[u8],
        position: Position,
        history: &mut History<A>,
    ) -> Result<Past<A>, ViewFault>
        ensures { IfOk result (λ past. (slot : Placed) → past.slot.place ≡ slot.place
            → past.slot.kind ≡ slot.kind → (way : spec.Way) → Among way (ways_of self.now)
            → GoesPast way slot (ways_of past.ways)) }
    {
        let mut first = self.first.copy()?;
        let slot = move_past(&mut first, next, position, history)?;
        let mut ways = Ways::only(self.alloc, first);
        for way in &self.others {
            let mut moved = way.copy()?;
            let other = move_past(&mut moved, next, position, history)?;
            if !is_same_slot(slot, other) {
                return Err(ViewFault::Ambiguous(position));
            }
            ways.add(moved, position)?;
        }
        Ok(Past { slot, ways })
    }

    /// Whether each of them is where a page may begin.
    pub(crate) fn are_first(&self) -> bool
        ensures { IsTrue result → (way : spec.Way) → Among way (ways_of self.now)
            → way ≡ first_way }
    {
        if !self.first.is_first() {
            return false;
        }
        for way in &self.others {
            if !way.is_first() {
                return false;
            }
        }
        true
    }

    /// Whether a page may end on each of them.
    pub(crate) fn may_end(&self, history: &mut History<A>) -> Result<bool, AllocError>
        ensures { IfOk result (λ may. IsTrue may → (way : spec.Way) → Among way (ways_of self.now)
            → MayEnd way) }
    {
        if !self.first.may_end()? {
            history.refuse(self.first.last, self.first.slot);
            return Ok(false);
        }
        for way in &self.others {
            if !way.may_end()? {
                history.refuse(way.last, way.slot);
                return Ok(false);
            }
        }
        Ok(true)
    }
}

// The same ways once more.
fn copies<A: Allocator + Copy>(
    alloc: A,
    ways: &Vec<Way<A>, A>,
) -> Result<Vec<Way<A>, A>, AllocError>
    ensures { IfOk result (λ copies. map way_of copies.items ≡ map way_of ways.now.items) }
{
    let mut copies = Vec::new(alloc);
    for way in ways {
        let copy = way.copy()?;
        match copies.push(copy) {
            Ok(()) => {}
            Err(_) => return Err(AllocError),
        }
    }
    Ok(copies)
}

// The same ways, each with this step behind it.
fn entered<A: Allocator + Copy>(
    alloc: A,
    ways: &Vec<Way<A>, A>,
    entry: Entry,
    history: &mut History<A>,
) -> Result<Vec<Way<A>, A>, AllocError>
    ensures { IfOk result (λ entered. map way_of entered.items ≡ map way_of ways.now.items) }
{
    let mut entered = Vec::new(alloc);
    for way in ways {
        let mut copy = way.copy()?;
        copy.last = history.add(entry, way.last)?;
        match entered.push(copy) {
            Ok(()) => {}
            Err(_) => return Err(AllocError),
        }
    }
    Ok(entered)
}

// Reads markup on a way. A fault is that of this way.
fn move_on<A: Allocator + Copy>(
    way: &mut Way<A>,
    bytes: &[u8],
    position: Position,
    history: &mut History<A>,
) -> Result<(), ViewFault>
    ensures { OnOk result (way_behind (way_of way.old) bytes.now ≡ Ok (way_of way.new)) }
{
    match way.take_markup(bytes)? {
        Ok(()) => Ok(()),
        Err(why) => {
            history.refuse(way.last, way.slot);
            Err(ViewFault::Part(position, why))
        }
    }
}

// Reads a slot before this markup on a way. A fault is that of this way.
fn move_past<A: Allocator + Copy>(
    way: &mut Way<A>,
    next: &[u8],
    position: Position,
    history: &mut History<A>,
) -> Result<PlacedSlot, ViewFault>
    ensures { IfOk result (MovedPast next.now (way_of way.old) (way_of way.new)) }
{
    way.slot = position;
    match way.take_slot(next)? {
        Ok(slot) => Ok(slot),
        Err(why) => {
            history.refuse(way.last, way.slot);
            Err(ViewFault::Part(position, why))
        }
    }
}

// Whether both stand in one place, and take one kind of text.
fn is_same_slot(first: PlacedSlot, second: PlacedSlot) -> bool
    ensures place { IsTrue result → first.place ≡ second.place }
    ensures kind { IsTrue result → first.kind ≡ second.kind }
{
    first.place == second.place && is_same_kind(first.kind, second.kind)
}

fn is_same_kind(first: SlotKind, second: SlotKind) -> bool
    ensures { IsTrue result → first ≡ second }
{
    match (first, second) {
        (SlotKind::Text, SlotKind::Text)
        | (SlotKind::Literal, SlotKind::Literal)
        | (SlotKind::Json, SlotKind::Json)
        | (SlotKind::StyleValue, SlotKind::StyleValue) => true,
        (SlotKind::UrlPart(slot), SlotKind::UrlPart(other)) => {
            slot.place == other.place && slot.begins_segment == other.begins_segment
        }
        (SlotKind::Link, SlotKind::Link) | (SlotKind::OwnPath, SlotKind::OwnPath) => true,
        (SlotKind::Base(behind), SlotKind::Base(other)) => behind == other,
        (SlotKind::OwnBase(behind), SlotKind::OwnBase(other)) => behind == other,
        _ => false,
    }
}
