//! What a URL with slots is made of, what is told of each slot, and why there are none.
use crate::place::UrlPlace;
use std::alloc::AllocError;

/// A part of a URL with slots.
#[derive(Clone, Copy, Debug)]
pub enum UrlPart<'a> {
    /// Markup, which stands in each URL as it is.
    Markup(&'a str),
    /// A slot, for one text, which is written as a component, in an opaque path as an address or a number.
    Slot,
}

/// Where a slot stands.
#[derive(Clone, Copy, Debug, PartialEq, Eq)]
pub struct UrlSlot {
    /// The part of the URL.
    pub place: UrlPlace,
    /// In a path: whether a segment begins with the slot. Its text is not empty, and neither `.` nor `..`.
    pub begins_segment: bool,
}

/// Why parts have no slots that texts may fill. Parts are counted from 0, and the first fault is
/// answered.
#[derive(Clone, Copy, Debug, PartialEq, Eq)]
pub enum UrlFault {
    /// This part is markup with an ASCII white space or control, or a `\`; or it is not the last one and
    /// ends in `%`, or in `%` and one hexadecimal digit, which with the text of a slot would be an escape.
    NotPlain(usize),
    /// This part is a slot in a scheme, a user, a host or a port, or where these are still open, or
    /// behind a scheme that is none of `http`, `https`, `mailto` and `tel`, as in `javascript:x?` and a slot,
    /// and not in the image of a `data:` URL, as behind `data:image/png;base64,`.
    /// Or it is markup behind a slot in the first segment of a relative path, and a `:` stands in this
    /// segment, as in `item-`, a slot and `:x`: with some texts that is a scheme. Or it is markup behind a
    /// slot in an opaque path, and a `/` stands in this path, as in `mailto:`, a slot and `/x`: with an empty
    /// text the path is not opaque.
    NotFixed(usize),
    /// In this part a segment of the path ends, or a slot stands in one, that with some text may
    /// read as `.` or `..`: it has no other bytes than those of dots.
    DotSegment(usize),
    /// A growth was refused.
    Memory,
}

impl From<AllocError> for UrlFault {
    ghost use Rattle.std.specs.Prelude.{◌≡◌};
    ghost use Rattle.html_urls.specs.declared.parts.UrlFault.TheVariants.{Memory};

    ghost from_gives = { λ _ fault. fault ≡ Memory };

    fn from(_refusal: AllocError) -> UrlFault {
        UrlFault::Memory
    }
}

/// Why a URL of parts and texts is not appended.
#[derive(Clone, Copy, Debug, PartialEq, Eq)]
pub enum UrlTextFault {
    /// The parts have no slots that texts may fill, for this reason.
    Parts(UrlFault),
    /// There are more texts than slots, or fewer.
    WrongCount,
    /// The text of this number, from 0 on, may not fill its slot.
    WrongText(usize),
    /// A growth was refused.
    Memory,
}
