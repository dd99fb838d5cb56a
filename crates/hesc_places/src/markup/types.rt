//! Attributes, and why a form of them is not built.

use std::alloc::AllocError;

/// How the value of an attribute stands in its tag.
#[derive(Clone, Copy, Debug, PartialEq, Eq)]
pub enum Quoting {
    /// Without quote marks. The value may not be empty.
    Unquoted,
    /// Between single quotes.
    Single,
    /// Between double quotes.
    Double,
}

/// An attribute of a form that is to be written.
#[derive(Clone, Copy)]
pub struct Attribute<'a> {
    /// Its name: one or more lower-case ASCII letters.
    pub name: &'a str,
    /// How its value is quoted.
    pub quoting: Quoting,
    /// Its value, as it is to be read back.
    pub value: &'a str,
}

/// An attribute that was read: its name, how its value is quoted, and its value.
pub(crate) type ReadAttribute<A> = (Vec<u8, A>, Quoting, Vec<u8, A>);

/// Why a form is not built. The attributes are checked in order, at each the first two faults in
/// this order, and memory comes last. Attributes are counted from 0.
#[derive(Clone, Copy, Debug, PartialEq, Eq)]
pub enum FormFault {
    /// The name of this attribute is not one or more lower-case ASCII letters, or is that of an
    /// earlier one.
    BadName(usize),
    /// The value of this attribute is unquoted, and empty.
    EmptyUnquoted(usize),
    /// A growth was refused, or the length would pass the greatest `usize`.
    Memory,
}

impl From<AllocError> for FormFault {
    ghost use Rattle.std.specs.Prelude.{◌≡◌};
    ghost use Rattle.hesc_places.specs.declared.markup.types.FormFault.TheVariants.{Memory};

    ghost from_gives = { λ _ fault. fault ≡ Memory };

    fn from(_refusal: AllocError) -> FormFault {
        FormFault::Memory
    }
}
