//! A URL of parts and texts, appended.
ghost use Rattle.std.specs.Prelude.{◌≡◌, ◌==◌, IfOk, OnOk, Option, if◌then◌else◌, map};
ghost use Rattle.std.specs.Option.{option_map};
ghost use Rattle.std.specs.Result.{result_err};
ghost use Rattle.std.specs.String.{string_bytes};
ghost use Rattle.hesc_engine.specs.Forms.{Appended};
ghost use Rattle.html_urls.specs.Slots.{FillUrl, bare, given, in_opaque, is_opaque_path, opaque_count, slots_of, texts_of, url_of};
ghost use Rattle.html_urls.specs.TextFaults.{AnswersTexts, first_refused, texts_fault, url_fault};
ghost use Rattle.html_urls.specs.declared.place.UrlPlace.TheVariants.{Path, OpaquePath};
ghost use Rattle.html_urls.specs.declared.parts.UrlTextFault.TheVariants.{WrongText};

use crate::address::put_component_at;
use crate::parts::{UrlFault, UrlPart, UrlSlot, UrlTextFault};
use crate::place::UrlPlace;
use crate::slots::{bare_slots, may_fill};
use hesc_engine::Sink;
use hesc_engine::forms::{Parts, append_parts};
use std::alloc::Allocator;

// The parts with their texts, as they are put.
#[derive(Clone, Copy)]
struct FilledParts<'p> {
    parts: &'p [UrlPart<'p>],
    // How many of the first slots stand in an opaque path.
    opaque: usize,
    texts: &'p [&'p str],
}

impl Parts for FilledParts<'_> {
    ghost text = { λ filled. url_of (in_opaque filled.opaque (map bare filled.parts.now))
        (texts_of filled.texts.now) };

    fn put_into<S: Sink>(&self, sink: &mut S) -> Result<(), S::Fault> {
        let mut rest = self.parts;
        let mut opaque = self.opaque;
        let mut left = self.texts;
        'parts: while let [part, others @ ..] = rest {
            rest = others;
            match *part {
                UrlPart::Markup(markup) => sink.put(markup)?,
                UrlPart::Slot => {
                    let place = place_of(opaque);
                    opaque = opaque.saturating_sub(1);
                    let [text, more @ ..] = left else {
                        continue 'parts;
                    };
                    put_component_at(place, text, sink)?;
                    left = more;
                }
            }
        }
        Ok(())
    }
}

// The place of a slot, where so many from it on stand in an opaque path: else the text is a component.
fn place_of(opaque: usize) -> UrlPlace
    ensures { result ≡ (if opaque == 0 then Path else OpaquePath) }
{
    if opaque == 0 {
        UrlPlace::Path
    } else {
        UrlPlace::OpaquePath
    }
}

fn is_opaque(slot: UrlSlot) -> bool
    ensures { result ≡ is_opaque_path slot.place }
{
    slot.place == UrlPlace::OpaquePath
}

// How many of the first slots stand in an opaque path.
fn opaque_count(slots: &[UrlSlot]) -> usize
    ensures { result ≡ opaque_count slots.now }
{
    let mut rest = slots;
    'slots: while let [slot, others @ ..] = rest {
        if !is_opaque(*slot) {
            return slots.len() - rest.len();
        }
        rest = others;
    }
    slots.len()
}

// The number of the first text that may not fill its slot.
fn first_refused(slots: &[UrlSlot], texts: &[&str]) -> Option<usize>
    ensures { option_map WrongText result ≡ first_refused 0 slots.now (texts_of texts.now) }
{
    let mut rest = slots;
    let mut left = texts;
    'slots: while let [slot, others @ ..] = rest {
        let [text, more @ ..] = left else {
            return None;
        };
        if !may_fill(*slot, text) {
            return Some(texts.len() - left.len());
        }
        rest = others;
        left = more;
    }
    None
}

// How many of the first slots of the parts, which the texts fill, stand in an opaque path.
#[tactic(auto, using(crate::proofs::SlotsTaken::opaque_first))]
fn check<A: Allocator + Copy>(
    alloc: A,
    parts: &[UrlPart<'_>],
    texts: &[&str],
) -> Result<usize, UrlTextFault>
    ensures faults { AnswersTexts (texts_fault (slots_of (map bare parts.now)) (texts_of texts.now))
        result }
    ensures fills { OnOk result (FillUrl (given parts.now) (texts_of texts.now)) }
    ensures opaque { IfOk result (λ opaque. url_of (in_opaque opaque (map bare parts.now)) (texts_of texts.now)
        ≡ url_of (given parts.now) (texts_of texts.now)) }
{
    let slots = match bare_slots(alloc, parts) {
        Ok(slots) => slots,
        Err(UrlFault::Memory) => return Err(UrlTextFault::Memory),
        Err(fault) => return Err(UrlTextFault::Parts(fault)),
    };
    if slots.len() != texts.len() {
        return Err(UrlTextFault::WrongCount);
    }
    match first_refused(&slots, texts) {
        Some(number) => Err(UrlTextFault::WrongText(number)),
        None => Ok(opaque_count(&slots)),
    }
}

/// Appends the URL of these parts and texts: markup as it is, and each text as a component in its slot, in
/// an opaque path with `@` and `+` as they are. On a fault `output` is as it was: where `slots_of` refuses the
/// parts, where there are more or fewer texts than slots, and by the number of the first text that may not
/// fill its slot.
///
/// Of `/items/`, a slot, `?q=` and a slot, with the texts `1/../2` and `a&b`, it appends
/// `/items/1%2F..%2F2?q=a%26b`. With the texts `..` and `a` the fault is `WrongText(0)`.
#[tactic(auto, using(crate::proofs::SlotsTaken::given_fault))]
pub fn append_url<A: Allocator>(
    output: &mut String<A>,
    parts: &[UrlPart<'_>],
    texts: &[&str],
) -> Result<(), UrlTextFault>
    ensures appended { Appended (string_bytes output.old) (string_bytes output.new)
        (url_of (given parts.now) (texts_of texts.now)) result }
    ensures faults { AnswersTexts (url_fault (given parts.now) (texts_of texts.now)) result }
    ensures fills { OnOk result (FillUrl (given parts.now) (texts_of texts.now)) }
{
    let opaque = match check(output.allocator(), parts, texts) {
        Ok(opaque) => opaque,
        Err(fault) => return Err(fault),
    };
    let filled = FilledParts {
        parts,
        opaque,
        texts,
    };
    match append_parts(output, &filled) {
        Ok(()) => Ok(()),
        Err(_) => Err(UrlTextFault::Memory),
    }
}
