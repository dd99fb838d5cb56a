//! Slots, and whether a text may fill them.
ghost use Rattle.std.specs.Prelude.{◌≡◌, ℕ, List, None, true};
ghost use Rattle.html_template.specs.FillFaults.{text_fault};
ghost use Rattle.html_view.specs.Rendered.{is_json};

use html_template::{SlotKind, StoredSlot, TextFault, text_fault};
use html_tokenizer::SlotPlace;

/// A slot, of which it is known whether any text may fill it: of most slots none has to be asked.
#[derive(Clone, Copy)]
pub(crate) struct CheckedSlot {
    pub(crate) stored: StoredSlot,
    takes_any: bool,
    ghost any: { takes_any ≡ true → (text : List ℕ)
        → text_fault stored.place stored.kind text ≡ None },
}

impl CheckedSlot {
    /// A slot of this kind at this place.
    pub(crate) fn new(place: SlotPlace, kind: SlotKind) -> CheckedSlot
        ensures place { result.stored.place ≡ place }
        ensures kind { result.stored.kind ≡ kind }
    {
        CheckedSlot {
            stored: StoredSlot::new(place, kind),
            takes_any: takes_any(place, kind),
        }
    }

    /// Whether it is a slot for JSON.
    #[inline(always)]
    pub(crate) fn is_json(&self) -> bool
        ensures { result ≡ is_json self.now.stored.kind }
    {
        matches!(self.stored.kind(), SlotKind::Json)
    }

    /// Why a text may not fill the slot.
    #[inline(always)]
    pub(crate) fn fault(&self, text: &str) -> Option<TextFault>
        ensures { result ≡ text_fault self.now.stored.place self.now.stored.kind text.now }
    {
        if self.takes_any {
            return None;
        }
        text_fault(&self.stored, text)
    }
}

fn takes_any(place: SlotPlace, kind: SlotKind) -> bool
    ensures { result ≡ true → (text : List ℕ) → text_fault place kind text ≡ None }
{
    kind == SlotKind::Text && place != SlotPlace::Unquoted
}
