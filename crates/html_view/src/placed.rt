//! Nodes as they are placed: with markup stored and names cut, as they are rendered.
ghost use Rattle.std.specs.Prelude.{◌≡◌};
ghost use Rattle.html_view.specs.CutNames.{words_in};
ghost use Rattle.html_view.specs.Names.{words_of};

use crate::checked::CheckedSlot;
use crate::faults::Position;
use crate::node::Times;
use crate::words::Words;
use html_template::{SlotKind, StoredMarkup};
use html_tokenizer::SlotPlace;
use std::alloc::{AllocError, Allocator};

/// The name of a tag, and where the tag stands.
#[derive(Drop)]
pub struct Named<'a, A: Allocator> {
    pub name: &'a str,
    pub position: Position,
    pub(crate) words: Words<'a, A>,
    ghost cut: { words_in words ≡ words_of name.now },
}

impl<'a, A: Allocator + Copy> Named<'a, A> {
    ghost use Rattle.std.specs.Prelude.{IfOk};
    ghost use Rattle.html_view.specs.Kept.{named_of};

    /// The name, cut into its words.
    pub(crate) fn of(
        alloc: A,
        name: &'a str,
        position: Position,
    ) -> Result<Named<'a, A>, AllocError>
        ensures { IfOk result (λ named. named_of named
            ≡ record { name = words_of name.now; position = position }) }
    {
        let words = Words::of(alloc, name)?;
        Ok(Named {
            name,
            position,
            words,
        })
    }
}

/// A slot, where it stands in the page, and what its text is.
#[derive(Drop)]
pub struct Placed<'a, A: Allocator> {
    pub asked: Named<'a, A>,
    pub(crate) checked: CheckedSlot,
}

impl<'a, A: Allocator> Placed<'a, A> {
    ghost use Rattle.html_view.specs.Kept.{slot_of};

    /// Where it stands.
    pub fn place(&self) -> SlotPlace
        ensures { result ≡ (slot_of self.now).place }
    {
        self.checked.stored.place()
    }

    /// What its text is.
    pub fn kind(&self) -> SlotKind
        ensures { result ≡ (slot_of self.now).kind }
    {
        self.checked.stored.kind()
    }
}

/// The tag that opens a section, and how often the body stands.
#[derive(Drop)]
pub struct Opened<'a, A: Allocator> {
    pub tag: Named<'a, A>,
    pub times: Times,
}

/// A node, where this is known of each slot.
#[derive(Drop)]
pub enum PlacedNode<'a, A: Allocator> {
    Markup(StoredMarkup<'a>),
    Slot(Placed<'a, A>),
    /// A slot for a fragment.
    Fragment(Named<'a, A>),
    /// A body, and what stands where it does not.
    Section(Opened<'a, A>, Vec<PlacedNode<'a, A>, A>, Vec<PlacedNode<'a, A>, A>),
}
