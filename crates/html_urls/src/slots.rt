//! The slots of a URL's parts: where each stands, and which texts may fill it.
ghost use Rattle.std.specs.Prelude.{◌≡◌, ℕ, List, Some, map};
ghost use Rattle.html_urls.specs.SlotFaults.{AnswersSlots, TakesPart};
ghost use Rattle.html_urls.specs.Slots as spec;
ghost use Rattle.html_urls.specs.Slots.{bare, given};
ghost use Rattle.html_urls.specs.declared.place.UrlPlace.{UrlPlace};

use crate::open_part::{OpenPart, after_markup, after_text, is_unfixed, open_of, slot_at};
use crate::parts::{UrlFault, UrlPart, UrlSlot};
use crate::segment::may_be_segment;
use std::alloc::{AllocError, Allocator};

/// Whether the text may fill the slot: any may, but where a segment begins with the slot neither an
/// empty one nor `.` nor `..`.
///
/// `..` may fill the slot of `/a?q=` and a slot, and not the one of `/items/`, a slot and `/edit`.
pub fn may_fill(slot: UrlSlot, text: &str) -> bool
    ensures { result ≡ spec.may_fill slot text.now }
{
    !slot.begins_segment || (!text.is_empty() && may_be_segment(text))
}

/// The slots of these parts, or the first fault, part by part.
///
/// Of `/items/`, a slot, `?q=` and a slot, the first stands in the path and a segment begins with it,
/// and the second stands in the query. Of `//`, a slot and `/` the fault is `NotFixed(1)`, and so it is
/// of `javascript:x?` and a slot. Of `?q=%4` and a slot it is `NotPlain(0)`: the text would end an escape.
#[tactic(auto, using(crate::proofs::SlotsTaken::given_slots))]
pub fn slots_of<A: Allocator + Copy>(
    alloc: A,
    parts: &[UrlPart<'_>],
) -> Result<Vec<UrlSlot, A>, UrlFault>
    ensures { AnswersSlots (λ slots. slots.items) (spec.slots_of (given parts.now)) result }
{
    bare_slots(alloc, parts)
}

/// The same of the parts without their places, which it does not ask for.
#[tactic(auto, using(crate::proofs::SlotsTaken::answered))]
pub(crate) fn bare_slots<A: Allocator + Copy>(
    alloc: A,
    parts: &[UrlPart<'_>],
) -> Result<Vec<UrlSlot, A>, UrlFault>
    ensures { AnswersSlots (λ slots. slots.items) (spec.slots_of (map bare parts.now)) result }
{
    let mut front = Vec::new(alloc);
    let mut slots = Vec::new(alloc);
    let mut open_part = None;
    let mut rest = parts;
    'parts: while let [part, others @ ..] = rest {
        let number = parts.len() - rest.len();
        match take_part(&mut front, &mut slots, open_part, *part, others, number) {
            Ok(after) => open_part = after,
            Err(fault) => return Err(fault),
        }
        rest = others;
    }
    if open_part == Some(OpenPart::DotSegment) {
        return Err(UrlFault::DotSegment(parts.len().saturating_sub(1)));
    }
    Ok(slots)
}

// Takes one part more, which has this number, before the others.
#[tactic(auto, using(crate::proofs::SlotsTaken::none_left))]
fn take_part<A: Allocator>(
    front: &mut Vec<u8, A>,
    slots: &mut Vec<UrlSlot, A>,
    open_part: Option<OpenPart>,
    part: UrlPart<'_>,
    others: &[UrlPart<'_>],
    number: usize,
) -> Result<Option<OpenPart>, UrlFault>
    ensures { TakesPart number front.old.items open_part slots.old.items (bare part.entry)
        (map bare others.now) front.new.items slots.new.items result }
{
    match (part, open_part) {
        (UrlPart::Markup(markup), None) => {
            if !is_plain(markup.as_bytes(), others.is_empty()) {
                return Err(UrlFault::NotPlain(number));
            }
            front.extend_from_slice(markup.as_bytes())?;
            Ok(None)
        }
        (UrlPart::Markup(markup), Some(open_part)) => {
            if !is_plain(markup.as_bytes(), others.is_empty()) {
                return Err(UrlFault::NotPlain(number));
            }
            if is_unfixed(open_part, markup.as_bytes()) {
                return Err(UrlFault::NotFixed(number));
            }
            match after_markup(open_part, markup.as_bytes()) {
                Some(after) => Ok(Some(after)),
                None => Err(UrlFault::DotSegment(number)),
            }
        }
        (UrlPart::Slot, None) => match open_of(front) {
            Some(open_part) => take_slot(slots, open_part, number),
            None => Err(UrlFault::NotFixed(number)),
        },
        (UrlPart::Slot, Some(open_part)) => take_slot(slots, open_part, number),
    }
}

// Takes one slot more, where this is open.
fn take_slot<A: Allocator>(
    slots: &mut Vec<UrlSlot, A>,
    open_part: OpenPart,
    number: usize,
) -> Result<Option<OpenPart>, UrlFault>
    ensures { (at : UrlPlace) (front : List ℕ) (parts : List spec.Given)
        → TakesPart number front (Some open_part) slots.old.items (spec.Slot at)
        parts front slots.new.items result }
{
    match slot_at(open_part) {
        Some(slot) => match slots.push(slot) {
            Ok(()) => Ok(Some(after_text(open_part))),
            Err(_) => Err(UrlFault::Memory),
        },
        None => Err(UrlFault::DotSegment(number)),
    }
}

/// Whether the markup has no ASCII white space, no control and no `\`, and ends in no open escape unless
/// it is the last part: other markup `slots_of` refuses as `NotPlain`.
///
/// Of `/items/` it is `true`, and of `/a b` and `/\` it is `false`. Of `?q=%4` it is `true` of the last
/// part alone.
pub fn is_plain(markup: &[u8], is_last: bool) -> bool
    ensures { result ≡ spec.is_plain markup.now is_last }
{
    are_plain(markup) && (is_last || !ends_in_escape(markup))
}

fn are_plain(bytes: &[u8]) -> bool
    ensures { result ≡ spec.are_plain bytes.now }
{
    bytes.iter().all(|b| is_plain_byte(*b))
}

// Whether the bytes end in `%`, or in `%` and one hexadecimal digit.
#[tactic(auto, using(crate::proofs::OpenEscapes::ends_by_places))]
fn ends_in_escape(bytes: &[u8]) -> bool
    ensures { result ≡ spec.ends_in_escape bytes.now }
{
    match bytes {
        [.., b'%'] => true,
        [.., b'%', digit] => (*digit as char).is_digit(16),
        _ => false,
    }
}

fn is_plain_byte(b: u8) -> bool
    ensures { result ≡ spec.is_plain_byte b }
{
    b > b' ' && b != 127 && b != b'\\'
}
