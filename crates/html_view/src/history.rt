//! Which sections stand on a way, and which do not.
use crate::faults::Position;
use std::alloc::{AllocError, Allocator};

/// Where nodes begin.
#[derive(Clone, Copy, Debug, PartialEq, Eq)]
pub(crate) enum Entry {
    Page,
    /// The body of the section of this number.
    Body(usize),
    /// What stands where that does not.
    Other(usize),
}

/// A step of a way: into the body of a section, or into what stands where that does not.
#[derive(Clone, Copy, Debug, PartialEq, Eq)]
pub(crate) struct Step {
    pub(crate) section: usize,
    pub(crate) stands: bool,
    before: usize,
}

/// The steps of all ways. Each has a number, counted from 1, and that of the step before it on its way,
/// which is 0 for the first. Ways have their beginnings in common, so it costs a step for each way and
/// section.
///
/// It is a hint, whose unrolling is read once more before a fault is told by it: no law rests on it.
#[derive(Drop)]
pub(crate) struct History<A: Allocator> {
    alloc: A,
    steps: Vec<Step, A>,
    refused: usize,
    slot: Position,
}

impl<A: Allocator + Copy> History<A> {
    /// No step, and no way that was refused.
    pub(crate) fn new(alloc: A) -> History<A> {
        History {
            alloc,
            steps: Vec::new(alloc),
            refused: 0,
            slot: Position { text: 0, byte: 0 },
        }
    }

    /// Adds a step of a way behind its last one, and tells the number of it.
    pub(crate) fn add(&mut self, entry: Entry, before: usize) -> Result<usize, AllocError> {
        let (section, stands) = match entry {
            Entry::Page => return Ok(before),
            Entry::Body(section) => (section, true),
            Entry::Other(section) => (section, false),
        };
        let step = Step {
            section,
            stands,
            before,
        };
        match self.steps.push(step) {
            Ok(()) => Ok(self.steps.len()),
            Err(_) => Err(AllocError),
        }
    }

    /// The way with this last step and this last slot is refused.
    pub(crate) fn refuse(&mut self, last: usize, slot: Position) {
        self.refused = last;
        self.slot = slot;
    }

    /// The last slot of the way that was refused.
    pub(crate) fn slot_of_refused(&self) -> Position {
        self.slot
    }

    /// The steps of the way that was refused, from its last one to its first one.
    pub(crate) fn steps_of_refused(&self) -> Result<Vec<Step, A>, AllocError> {
        let mut steps = Vec::new(self.alloc);
        let mut number = self.refused;
        for _step in 0..self.steps.len() {
            if number == 0 {
                return Ok(steps);
            }
            let Some(step) = self.steps.get(number - 1) else {
                return Ok(steps);
            };
            match steps.push(*step) {
                Ok(()) => {}
                Err(_) => return Err(AllocError),
            }
            number = step.before;
        }
        Ok(steps)
    }
}
