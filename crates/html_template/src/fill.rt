//! Whether texts fill the slots of a template.
ghost use Rattle.std.specs.Prelude.{◌≡◌, map, OnOk};
ghost use Rattle.std.specs.List.{AllByRecursion};
ghost use Rattle.std.specs.Result.{result_err};
ghost use Rattle.std.specs.Str.{IsUtf8};
ghost use Rattle.html_template.specs.FillFaults.{empty_fault, fill_fault, has_checked, is_checked, segment_fault, slot_count, text_fault};
ghost use Rattle.html_template.specs.Templates.{Fill, chunk_of};

use crate::faults::{FillFault, TextFault};
use crate::parts::SlotKind;
use crate::stored::{Stored, StoredSlot};
use crate::texts::Texts;
use html_tokenizer::{SlotPlace, is_style_value};
use html_urls::{UrlSlot, is_base, is_link, is_own_base, is_own_path, may_fill};

fn empty_fault(place: SlotPlace, text: &str) -> Option<TextFault>
    ensures { result ≡ empty_fault place text.now }
{
    if place == SlotPlace::Unquoted && text.is_empty() {
        Some(TextFault::EmptyUnquoted)
    } else {
        None
    }
}

fn segment_fault(slot: UrlSlot, text: &str) -> Option<TextFault>
    ensures { result ≡ segment_fault slot text.now }
{
    if may_fill(slot, text) {
        None
    } else if text.is_empty() {
        Some(TextFault::EmptySegment)
    } else {
        Some(TextFault::DotSegment)
    }
}

/// The fault of a text in its slot.
pub fn text_fault(slot: &StoredSlot, text: &str) -> Option<TextFault>
    ensures { result ≡ text_fault slot.now.place slot.now.kind text.now }
{
    match slot.kind {
        SlotKind::Text => empty_fault(slot.place, text),
        SlotKind::UrlPart(url_slot) => segment_fault(url_slot, text),
        SlotKind::Link if is_link(text) => None,
        SlotKind::Link => Some(TextFault::NotALink),
        SlotKind::OwnPath if is_own_path(text) => None,
        SlotKind::OwnPath => Some(TextFault::NotAnOwnPath),
        SlotKind::Base(behind) if is_base(behind, text) => None,
        SlotKind::Base(_) => Some(TextFault::NotABase),
        SlotKind::OwnBase(behind) if is_own_base(behind, text) => None,
        SlotKind::OwnBase(_) => Some(TextFault::NotAnOwnBase),
        SlotKind::StyleValue if is_style_value(text.as_bytes()) => None,
        SlotKind::StyleValue => Some(TextFault::NotAStyleValue),
        SlotKind::Literal | SlotKind::Json => None,
    }
}

// Whether some text may not fill the slot.
fn is_checked(slot: &StoredSlot) -> bool
    ensures { result ≡ is_checked slot.now.place slot.now.kind }
{
    match slot.kind {
        SlotKind::Text => slot.place == SlotPlace::Unquoted,
        SlotKind::UrlPart(url_slot) => url_slot.begins_segment,
        SlotKind::Literal | SlotKind::Json => false,
        SlotKind::Link | SlotKind::OwnPath | SlotKind::Base(_) | SlotKind::OwnBase(_) => true,
        SlotKind::StyleValue => true,
    }
}

/// What is known of pieces before there are texts.
#[derive(Clone, Copy)]
pub(crate) struct Summary {
    slots: usize,
    // Whether some text may not fill one of the slots.
    has_checked: bool,
    /// The length of all markup.
    pub(crate) markup: usize,
}

impl Summary {
    /// The summary of these pieces.
    pub(crate) fn of(pieces: &[Stored]) -> Summary
        ensures slots { result.slots ≡ slot_count (map chunk_of pieces.now) }
        ensures checked { result.has_checked ≡ has_checked (map chunk_of pieces.now) }
    {
        let mut slots: usize = 0;
        let mut has_checked = false;
        let mut markup: usize = 0;
        let mut rest = pieces;
        'pieces: while let [piece, others @ ..] = rest {
            rest = others;
            match piece {
                Stored::Markup(piece) => markup = markup.saturating_add(piece.text.len()),
                Stored::Slot(slot) => {
                    slots += 1;
                    has_checked = has_checked || is_checked(slot);
                }
            }
        }
        Summary {
            slots,
            has_checked,
            markup,
        }
    }
}

/// Whether the texts fill the slots of these pieces.
#[inline(always)]
#[tactic(auto, using(crate::proofs::FillFaults::ok_fills))]
pub(crate) fn check<T: Texts>(
    pieces: &[Stored],
    summary: Summary,
    texts: &T,
) -> Result<(), FillFault>
    requires slots { summary.slots ≡ slot_count (map chunk_of pieces.now) }
    requires checked { summary.has_checked ≡ has_checked (map chunk_of pieces.now) }
    ensures faults { result_err result ≡ fill_fault (map chunk_of pieces.now) (T.list texts.now) }
    ensures full { OnOk result (Fill (map chunk_of pieces.now) (T.list texts.now)) }
    ensures utf8 { OnOk result (AllByRecursion IsUtf8 (T.list texts.now)) }
{
    // For the proof alone that all are UTF-8: no code is left of a sum that no one reads.
    let _length = total_length(texts);
    if !summary.has_checked && texts.count() == summary.slots {
        return Ok(());
    }
    check_each(pieces, texts)
}

/// The lengths of the texts together.
#[inline(always)]
pub fn total_length<T: Texts>(texts: &T) -> usize
    ensures { AllByRecursion IsUtf8 (T.list texts.now) }
{
    let mut sum: usize = 0;
    let mut left = *texts;
    'texts: while let Some((text, more)) = left.take_first() {
        sum = sum.saturating_add(length_of(text));
        left = more;
    }
    sum
}

// A `str` is UTF-8.
#[inline(always)]
fn length_of(text: &str) -> usize
    ensures { IsUtf8 text.now }
{
    text.len()
}

// Whether the texts fill the slots, slot by slot.
fn check_each<T: Texts>(pieces: &[Stored], texts: &T) -> Result<(), FillFault>
    ensures { result_err result ≡ fill_fault (map chunk_of pieces.now) (T.list texts.now) }
{
    let mut rest = pieces;
    let mut left = *texts;
    'pieces: while let [piece, others @ ..] = rest {
        rest = others;
        let Stored::Slot(slot) = piece else {
            continue 'pieces;
        };
        let Some((text, more)) = left.take_first() else {
            return Err(FillFault::WrongCount);
        };
        if let Some(why) = text_fault(slot, text) {
            return Err(FillFault::Text(texts.count() - left.count(), why));
        }
        left = more;
    }
    if left.count() == 0 {
        Ok(())
    } else {
        Err(FillFault::WrongCount)
    }
}
