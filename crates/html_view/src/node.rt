//! The nodes of a view, as the source has them.
use crate::faults::Position;
use std::alloc::Allocator;

/// How often the body of a section may stand.
#[derive(Clone, Copy, Debug, PartialEq, Eq)]
pub enum Times {
    /// Once for each item of a list: `{{#x}}`.
    Each,
    /// Once: `{{#x}}` whose body cannot be repeated. A list of two items is a fault.
    Once,
    /// Once, if the condition holds: `{{?x}}` and `{{^x}}`.
    If,
    /// The same, with nothing more around in the body than around the section.
    Whether,
    /// Once, with the value around, if there is one: also an empty text, and `false`.
    Given,
    /// Once, with named values around that are attributes. Another value is a fault.
    Attributes,
}

/// The tag that opens a section.
#[derive(Clone, Copy)]
pub struct Opening<'a> {
    pub name: &'a str,
    pub position: Position,
    pub times: Times,
}

/// A slot, as it is written.
#[derive(Clone, Copy)]
pub struct Asked<'a> {
    pub name: &'a str,
    pub position: Position,
}

/// A node, as it is written.
#[derive(Drop)]
pub enum Node<'a, A: Allocator> {
    Markup(&'a str, Position),
    Slot(Asked<'a>),
    /// A slot for a fragment.
    Fragment(Asked<'a>),
    /// A body, and what stands where it does not.
    Section(Opening<'a>, Vec<Node<'a, A>, A>, Vec<Node<'a, A>, A>),
}
