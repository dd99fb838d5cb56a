//! What can stand in place of a command's text.
ghost use Rattle.std.specs.Prelude.{◌≡◌};
ghost use Rattle.hesc_tool.specs.Faults.{form_refusal, line_of, place_refusal, status_of};

use hesc_places::{FormFault, PlaceFault};
use std::alloc::AllocError;

/// Why a run did not write its command's text.
#[derive(Clone, Copy, Debug, PartialEq, Eq)]
pub enum Fault {
    /// The words name no command.
    Usage,
    /// The input cannot be read.
    Read,
    /// The command wants a text, and the input is not UTF-8.
    NotUtf8,
    /// The input does not begin with a page, or with a form.
    NoPage,
    /// The encoder does not suit the place.
    NotForPlace,
    /// The text of an unquoted value is empty.
    EmptyUnquoted,
    /// The name of an attribute is no name, or that of an earlier one.
    BadName,
    /// No memory was found.
    Memory,
    /// The output cannot be written.
    Write,
}

impl Fault {
    /// The status that the program ends with.
    ///
    /// `Fault::Usage.status()` is 2.
    pub fn status(&self) -> u8
        ensures { result ≡ status_of self.now }
    {
        match self {
            Fault::Usage => 2,
            Fault::Read
            | Fault::NotUtf8
            | Fault::NoPage
            | Fault::NotForPlace
            | Fault::EmptyUnquoted
            | Fault::BadName
            | Fault::Memory
            | Fault::Write => 1,
        }
    }

    /// The line that the program prints to standard error, without its line feed.
    ///
    /// `Fault::NoPage.line()` is `hesc: no page`.
    pub fn line(&self) -> &'static str
        ensures { result.now ≡ line_of self.now }
    {
        match self {
            Fault::Usage => "usage: hesc COMMAND [ARGUMENT..]",
            Fault::Read => "hesc: input cannot be read",
            Fault::NotUtf8 => "hesc: input is not UTF-8",
            Fault::NoPage => "hesc: no page",
            Fault::NotForPlace => "hesc: encoder does not suit the place",
            Fault::EmptyUnquoted => "hesc: empty unquoted value",
            Fault::BadName => "hesc: bad attribute name",
            Fault::Memory => "hesc: out of memory",
            Fault::Write => "hesc: output cannot be written",
        }
    }
}

impl From<AllocError> for Fault {
    ghost use Rattle.hesc_tool.specs.declared.faults.Fault.TheVariants.{Memory};

    ghost from_gives = { λ _ fault. fault ≡ Memory };

    fn from(_refusal: AllocError) -> Fault {
        Fault::Memory
    }
}

impl From<PlaceFault> for Fault {
    ghost from_gives = { λ refusal fault. fault ≡ place_refusal refusal };

    fn from(refusal: PlaceFault) -> Fault {
        match refusal {
            PlaceFault::NotForPlace => Fault::NotForPlace,
            PlaceFault::EmptyUnquoted => Fault::EmptyUnquoted,
            PlaceFault::Memory => Fault::Memory,
        }
    }
}

impl From<FormFault> for Fault {
    ghost from_gives = { λ refusal fault. fault ≡ form_refusal refusal };

    fn from(refusal: FormFault) -> Fault {
        match refusal {
            FormFault::BadName(_) => Fault::BadName,
            FormFault::EmptyUnquoted(_) => Fault::EmptyUnquoted,
            FormFault::Memory => Fault::Memory,
        }
    }
}
