//! What can stand in place of a page, or of what a view has.
ghost use Rattle.std.specs.Prelude.{◌≡◌};
ghost use Rattle.hesc_views.specs.Faults.{
  data_fault,
  json_fault,
  standing_at,
  status_of,
  view_fault,
};
ghost use Rattle.hesc_views.specs.Places.{texts_in};

use crate::place::{Spot, Texts, spot_of};
use html_template::PartFault;
use html_view::{DataFault, Position, Refused, TagFault, ValueFault, ViewFault};
use std::alloc::{AllocError, Allocator};

/// Why a run did not write its text. Files are counted from 0, the view being the first.
#[derive(Clone, Copy, Debug, PartialEq, Eq)]
pub enum Fault {
    /// The words name no command and view.
    Usage,
    /// This file cannot be read.
    UnreadableFile(usize),
    /// This file is not UTF-8.
    FileNotUtf8(usize),
    /// What stands here is refused.
    At(Spot, Refusal),
    /// The view may end within a tag, a reference, or an element whose content is read its own way, with
    /// these sections standing.
    Unfinished(Standing),
    /// The input cannot be read.
    UnreadableInput,
    /// The input is not UTF-8.
    InputNotUtf8,
    /// The input is not JSON.
    NotJson,
    /// The input is JSON, and an object in it has a key twice.
    RepeatedKey,
    /// No memory was found.
    Memory,
    /// The output cannot be written.
    Write,
}

/// Why what stands in a file is refused.
#[derive(Clone, Copy, Debug, PartialEq, Eq)]
pub enum Refusal {
    Tag(TagFault),
    /// With these sections standing.
    Part(PartFault, Standing),
    /// The slot stands in two places.
    Ambiguous,
    /// A slot for a fragment stands elsewhere than in text.
    NotInText,
    /// More than eight states of the tokenizer lead here.
    TooManyWays,
    /// The value for it.
    Value(ValueFault),
}

/// Which sections stand where a view is refused: none, one, or the last two behind so many others.
#[derive(Clone, Copy, Debug, PartialEq, Eq)]
pub enum Standing {
    None,
    One(Spot),
    Behind(usize, Spot, Spot),
}

// These sections of the texts, by the positions of their tags.
fn standing_of(texts: Texts<'_>, sections: &[Position]) -> Standing
    ensures { result ≡ standing_at (texts_in texts.entry) sections.now }
{
    match sections {
        [] => Standing::None,
        [one] => Standing::One(spot_of(texts, *one)),
        [before @ .., first, last] => {
            Standing::Behind(before.len(), spot_of(texts, *first), spot_of(texts, *last))
        }
    }
}

impl Fault {
    /// The status that the program ends with.
    ///
    /// `Fault::Usage.status()` is 2.
    pub fn status(&self) -> u8
        ensures { result ≡ status_of self.now }
    {
        match self {
            Fault::Usage => 2,
            Fault::UnreadableFile(_) | Fault::FileNotUtf8(_) => 1,
            Fault::At(_, _) | Fault::Unfinished(_) => 1,
            Fault::UnreadableInput | Fault::InputNotUtf8 => 1,
            Fault::NotJson | Fault::RepeatedKey => 1,
            Fault::Memory | Fault::Write => 1,
        }
    }

    /// The fault of these texts, the view being the first, that are no view.
    pub(crate) fn of_view<A: Allocator>(texts: Texts<'_>, refused: &Refused<A>) -> Fault
        ensures { result ≡ view_fault (texts_in texts.entry) refused.now.standing.items
            refused.now.fault }
    {
        let standing = standing_of(texts, refused.standing.as_slice());
        match refused.fault {
            ViewFault::Tag(position, why) => {
                Fault::At(spot_of(texts, position), Refusal::Tag(why))
            }
            ViewFault::Part(position, why) => {
                Fault::At(spot_of(texts, position), Refusal::Part(why, standing))
            }
            ViewFault::Ambiguous(position) => {
                Fault::At(spot_of(texts, position), Refusal::Ambiguous)
            }
            ViewFault::NotInText(position) => {
                Fault::At(spot_of(texts, position), Refusal::NotInText)
            }
            ViewFault::TooManyWays(position) => {
                Fault::At(spot_of(texts, position), Refusal::TooManyWays)
            }
            ViewFault::Unfinished => Fault::Unfinished(standing),
            ViewFault::Memory => Fault::Memory,
        }
    }

    /// The fault of data that has no page, for a view of these texts.
    pub(crate) fn of_data(texts: Texts<'_>, fault: DataFault) -> Fault
        ensures { result ≡ data_fault (texts_in texts.entry) fault }
    {
        match fault {
            DataFault::Value(position, why) => {
                Fault::At(spot_of(texts, position), Refusal::Value(why))
            }
            DataFault::Memory => Fault::Memory,
        }
    }

    /// The fault of an input that is no JSON.
    pub(crate) fn of_json(error: json::Error) -> Fault
        ensures { result ≡ json_fault error }
    {
        match error {
            json::Error::Invalid => Fault::NotJson,
            json::Error::DuplicateKey => Fault::RepeatedKey,
            json::Error::OutOfMemory | json::Error::TooLong => Fault::Memory,
        }
    }
}

impl From<AllocError> for Fault {
    ghost use Rattle.hesc_views.specs.declared.faults.Fault.TheVariants.{Memory};

    ghost from_gives = { λ _ fault. fault ≡ Memory };

    fn from(_refusal: AllocError) -> Fault {
        Fault::Memory
    }
}
