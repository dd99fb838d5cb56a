//! What was found of sections that are followed again.
use crate::history::History;
use crate::ways::Ways;
use std::alloc::{AllocError, Allocator};

/// What was found of a section.
#[derive(Drop)]
enum Head<A: Allocator> {
    Unknown,
    // Its body leads back to these ways, or to those on which it is opened.
    Repeated(Option<Ways<A>>),
    // It does not lead back.
    Once,
}

/// What is known of a section.
#[derive(Clone, Copy, Debug, PartialEq, Eq)]
pub(crate) enum Known {
    Nothing,
    Repeated,
    Once,
}

/// What was found of each section, in the order in which they are opened.
///
/// A section within one that is repeated is followed again in each round. What was found of it in the
/// round before is where it begins in the next one, so that the rounds of sections within each other add
/// up, in place of multiplying. It is a guess, which is followed once more: no law rests on it.
#[derive(Drop)]
pub(crate) struct Heads<A: Allocator> {
    heads: Vec<Head<A>, A>,
    next: usize,
    /// The steps of all ways.
    pub(crate) history: History<A>,
}

impl<A: Allocator + Copy> Heads<A> {
    /// Nothing is known of any section, and the first one is opened next.
    pub(crate) fn new(alloc: A) -> Heads<A> {
        Heads {
            heads: Vec::new(alloc),
            next: 0,
            history: History::new(alloc),
        }
    }

    /// Opens the next section, and tells its number.
    pub(crate) fn open(&mut self) -> Result<usize, AllocError> {
        let number = self.next;
        if number >= self.heads.len() {
            match self.heads.push(Head::Unknown) {
                Ok(()) => {}
                Err(_) => return Err(AllocError),
            }
        }
        self.next = number.saturating_add(1);
        Ok(number)
    }

    /// The number of the section that is opened next.
    pub(crate) fn next(&self) -> usize {
        self.next
    }

    /// The section of this number is opened next.
    pub(crate) fn go_to(&mut self, number: usize) {
        self.next = number;
    }

    /// What is known of a section.
    pub(crate) fn known(&self, number: usize) -> Known {
        match self.heads.get(number) {
            None => Known::Nothing,
            Some(Head::Unknown) => Known::Nothing,
            Some(Head::Repeated(_)) => Known::Repeated,
            Some(Head::Once) => Known::Once,
        }
    }

    /// The ways that the body of a section leads back to, where it was found that there are more than those
    /// on which it is opened.
    pub(crate) fn ways(&self, number: usize) -> Option<&Ways<A>> {
        match self.heads.get(number) {
            Some(Head::Repeated(Some(ways))) => Some(ways),
            _ => None,
        }
    }

    /// The body of a section leads back to these ways, or to those on which it is opened.
    pub(crate) fn note_repeated(&mut self, number: usize, ways: Option<Ways<A>>) {
        if let Some(head) = self.heads.get_mut(number) {
            *head = Head::Repeated(ways);
        }
    }

    /// The body of a section does not lead back. Where the sections in it lead is unknown again, as some
    /// of it was found where no page leads.
    pub(crate) fn note_once(&mut self, number: usize) {
        for later in number.saturating_add(1)..self.next {
            if let Some(head) = self.heads.get_mut(later) {
                if let Head::Repeated(_) = head {
                    *head = Head::Unknown;
                }
            }
        }
        if let Some(head) = self.heads.get_mut(number) {
            *head = Head::Once;
        }
    }
}
