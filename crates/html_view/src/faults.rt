//! Why nodes are no view, and why data has no page.
use html_template::{PartFault, TextFault};
use std::alloc::{AllocError, Allocator, Global};

/// Where a node stands, as it was given.
#[derive(Clone, Copy, Debug, PartialEq, Eq)]
pub struct Position {
    /// The number of a text.
    pub text: usize,
    /// A byte of that text, counted from 0.
    pub byte: usize,
}

/// Why a tag is refused.
#[derive(Clone, Copy, Debug, PartialEq, Eq)]
pub enum TagFault {
    /// No `}}` follows.
    Unclosed,
    /// A slot, a section or a block has no such name: words of ASCII letters, digits, `_` and `-` with dots
    /// between them, or `.` alone. A partial or a layout has none with white space or a brace, and none that
    /// is empty.
    BadName,
    /// `{{{` without a `}}}`.
    Raw,
    /// Another sign, with which no tag begins.
    BadTag,
    /// No section, layout or block of this name is to be ended here.
    Unopened,
    /// This section, layout or block has no end.
    Unended,
    /// No partial of this name stands before the text that asks for it.
    NoPartial,
    /// Sections, partials, layouts and blocks stand in one another more than 32 deep.
    TooDeep,
}

/// Why nodes are no view.
#[derive(Clone, Copy, Debug, PartialEq, Eq)]
pub enum ViewFault {
    /// This tag is refused, and why.
    Tag(Position, TagFault),
    /// This markup or this slot is refused in one of the unrollings, and why.
    Part(Position, PartFault),
    /// This slot stands in two places, or its text has two meanings, by what stands before it or behind it.
    Ambiguous(Position),
    /// This slot for a fragment does not stand between tags: it stands in a tag, in a value, in an element whose
    /// content is read its own way, in a `template`, or behind a reference that is open.
    NotInText(Position),
    /// More than eight states of the tokenizer lead here.
    TooManyWays(Position),
    /// Some unrolling ends within a tag, a reference, or an element whose content is read its own way.
    Unfinished,
    /// A growth was refused.
    Memory,
}

/// Why nodes are no view, and where that shows.
#[derive(Drop)]
pub struct Refused<A: Allocator = Global> {
    pub fault: ViewFault,
    /// Where the tags of the sections are that stand in the unrolling that shows the fault, in its order: one
    /// whose body stands again is told again, and one that is not told does not stand. Only `Part` and
    /// `Unfinished` have such an unrolling; of the others nothing is told here.
    pub standing: Vec<Position, A>,
}

impl From<AllocError> for ViewFault {
    ghost use Rattle.std.specs.Prelude.{◌≡◌};
    ghost use Rattle.html_view.specs.declared.faults.ViewFault.TheVariants.{Memory};

    ghost from_gives = { λ _ fault. fault ≡ Memory };

    fn from(_refusal: AllocError) -> ViewFault {
        ViewFault::Memory
    }
}

/// Why a value is refused.
#[derive(Clone, Copy, Debug, PartialEq, Eq)]
pub enum ValueFault {
    /// The name of a slot means nothing.
    Missing,
    /// The name of a slot means a list, named values or a fragment.
    NotAText,
    /// The name of a slot for JSON means a fragment, or data with a fragment in it.
    NotJson,
    /// The name of a slot for a fragment means something else.
    NotAFragment,
    /// The name of a slot between attributes means something else than named values that are attributes.
    NotAttributes,
    /// The name of a section means a list of two items or more, and its body cannot be repeated.
    Repeated,
    /// The text may not stand in its slot.
    Unfit(TextFault),
}

/// Why data has no page.
#[derive(Clone, Copy, Debug, PartialEq, Eq)]
pub enum DataFault {
    /// The value for the tag here, in the order of the page the first that is refused, and why.
    Value(Position, ValueFault),
    /// A growth was refused.
    Memory,
}

impl From<AllocError> for DataFault {
    ghost use Rattle.std.specs.Prelude.{◌≡◌};
    ghost use Rattle.html_view.specs.declared.faults.DataFault.TheVariants.{Memory};

    ghost from_gives = { λ _ fault. fault ≡ Memory };

    fn from(_refusal: AllocError) -> DataFault {
        DataFault::Memory
    }
}
