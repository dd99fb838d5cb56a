//! Why a source is no template.

use html_template::{FillFault, TemplateFault};
use std::alloc::AllocError;

/// Why a source is no template. Positions are counted in bytes from 0.
#[derive(Clone, Copy, Debug, PartialEq, Eq)]
pub enum SourceFault {
    /// No `}}` follows the `{{` at this position.
    Unclosed(usize),
    /// Between the `{{` at this position and the next `}}` stands no name, one or more ASCII letters,
    /// digits and `_`, and no `"{{"`.
    BadName(usize),
    /// The source is cut into parts, and they are no template. Markup and slots take turns, so that
    /// part `2 * i` is the markup before slot `i`; each `{{"{{"}}` makes one part more.
    NoTemplate(TemplateFault),
    /// A growth was refused.
    Memory,
}

impl From<AllocError> for SourceFault {
    ghost use Rattle.std.specs.Prelude.{◌≡◌};
    ghost use Rattle.html_template_source.specs.declared.faults.SourceFault.TheVariants.{Memory};

    ghost from_gives = { λ _ fault. fault ≡ Memory };

    fn from(_refusal: AllocError) -> SourceFault {
        SourceFault::Memory
    }
}

/// Why texts that are bound to names do not fill a template. Bindings and slots are counted from 0.
#[derive(Clone, Copy, Debug, PartialEq, Eq)]
pub enum BindFault {
    /// The name of this binding is that of no slot.
    Unknown(usize),
    /// The name of this binding is that of a later one, too.
    Doubled(usize),
    /// The name of this slot has no text.
    Missing(usize),
    /// The texts, one for each slot, do not fill the template.
    Fill(FillFault),
    /// A growth was refused.
    Memory,
}

impl From<AllocError> for BindFault {
    ghost use Rattle.std.specs.Prelude.{◌≡◌};
    ghost use Rattle.html_template_source.specs.declared.faults.BindFault.TheVariants.{Memory};

    ghost from_gives = { λ _ fault. fault ≡ Memory };

    fn from(_refusal: AllocError) -> BindFault {
        BindFault::Memory
    }
}
