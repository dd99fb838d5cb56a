//! What a template stores of its parts.
ghost use Rattle.std.specs.Prelude.{◌≡◌, ◌≤◌, ℕ, List, length, take};
ghost use Rattle.hesc_specs.specs.Text.Escaped.{escaped};
ghost use Rattle.html_escape.specs.Encoders.{encoded};
ghost use Rattle.html_template.specs.Encoders.{encoder_for};

use crate::parts::SlotKind;
use hesc_core::{Class, Replacement, Segment};
use html_tokenizer::SlotPlace;

/// A piece, as a template stores it.
#[derive(Clone, Copy)]
pub enum Stored<'a> {
    Markup(StoredMarkup<'a>),
    Slot(StoredSlot),
}

/// Markup, and its first bytes as a block: short markup is put by one copy of the block.
#[derive(Clone, Copy)]
pub struct StoredMarkup<'a> {
    pub(crate) text: &'a str,
    // The first bytes of a short text, and zeros.
    block: [u8; 16],
    ghost begins: { length text.now ≤ 16 → take (length text.now) block ≡ text.now },
}

impl<'a> StoredMarkup<'a> {
    ghost use Rattle.std.specs.Prelude.{IfSome};

    /// The markup of this text.
    pub fn new(text: &'a str) -> StoredMarkup<'a>
        ensures { result.text.now ≡ text.now }
    {
        let mut block = [0; 16];
        if text.len() <= block.len() {
            block[..text.len()].copy_from_slice(text.as_bytes());
        }
        StoredMarkup { text, block }
    }

    /// Its text.
    pub fn as_str(&self) -> &'a str
        ensures { result.now ≡ self.now.text.now }
    {
        self.text
    }

    /// A segment with this markup as its stretch, if it is short.
    #[inline(always)]
    pub(crate) fn as_stretch(&self) -> Option<Segment<'_>>
        ensures { IfSome result (λ segment. segment.kept.now ≡ self.now.text.now) }
    {
        if self.text.len() > self.block.len() {
            return None;
        }
        Some(Segment {
            start: 0,
            rest: &self.block,
            kept: self.text,
            new: Replacement::Borrowed(""),
        })
    }
}

/// A slot, and the class of the encoder for its place.
#[derive(Clone, Copy)]
pub struct StoredSlot {
    pub(crate) place: SlotPlace,
    pub(crate) kind: SlotKind,
    pub(crate) class: Class,
    pub(crate) ghost encodes: { (text : List ℕ) → escaped class text ≡ encoded (encoder_for place) text },
}

impl StoredSlot {
    /// A slot of this kind at this place.
    pub fn new(place: SlotPlace, kind: SlotKind) -> StoredSlot
        ensures place { result.place ≡ place }
        ensures kind { result.kind ≡ kind }
    {
        let class = class_for(place);
        StoredSlot { place, kind, class }
    }

    /// Where it stands.
    pub fn place(&self) -> SlotPlace
        ensures { result ≡ self.now.place }
    {
        self.place
    }

    /// What its text is.
    pub fn kind(&self) -> SlotKind
        ensures { result ≡ self.now.kind }
    {
        self.kind
    }
}

// The class of the encoder for a place.
fn class_for(place: SlotPlace) -> Class
    ensures { (text : List ℕ) → escaped result text ≡ encoded (encoder_for place) text }
{
    match place {
        SlotPlace::Text => Class::Text,
        SlotPlace::DoubleQuoted => Class::DoubleQuotedAttribute,
        SlotPlace::SingleQuoted => Class::SingleQuotedAttribute,
        SlotPlace::Unquoted => Class::UnquotedAttribute,
        SlotPlace::ScriptSingle => Class::ScriptSingleQuoted,
        SlotPlace::ScriptDouble => Class::ScriptDoubleQuoted,
        SlotPlace::StyleSingle => Class::StyleSingleQuoted,
        SlotPlace::StyleDouble => Class::StyleDoubleQuoted,
    }
}
