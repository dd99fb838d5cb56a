//! URLs that hold slots: what is open of one, and what a slot and markup are in it.
pub(crate) mod markup;

ghost use Rattle.std.specs.Prelude.{◌≡◌, IfOk, Some, option_map};
ghost use Rattle.html_template.specs.OpenUrls.{
  after_base,
  before,
  behind_base_text,
  behind_front,
  behind_link,
  behind_part,
  behind_value,
  first_slot,
  in_part,
  is_slash,
  open_at,
  part_markup,
  url_end,
  url_markup,
  url_slot,
  whole_slot,
  within,
};
ghost use Rattle.html_template.specs.declared.open_url.OpenUrl.TheVariants.{Front, Listed};
ghost use Rattle.html_template.specs.Slots.{base_kind, is_quoted, whole_kind};

use crate::faults::PartFault;
use crate::open_url::markup::{after_last, ends_listed, ends_value, plain_text, url_length};
use crate::parts::SlotKind;
use html_tokenizer::{SlotPlace, is_style_byte};
use html_urls::{
    BehindBase, OpenPart, after_markup, after_text, behind_base, goes_as, is_image_front,
    is_unfixed, may_be_dots, open_behind, open_of, slot_at,
};
use std::alloc::{AllocError, Allocator};

/// What is open of a URL or of a declaration that holds a slot.
#[derive(Clone, Copy, Debug, PartialEq, Eq)]
pub enum OpenUrl {
    /// Nothing: the last slot stands in no URL, or its URL has ended.
    Outside,
    /// In a value at this place, this part of a URL.
    Within(SlotPlace, OpenPart),
    /// In a list of URLs at this place, this part of one.
    Listed(SlotPlace, OpenPart),
    /// In a value at this place, a URL that is all of it.
    Whole(SlotPlace),
    /// In a value at this place, a base with which the URL begins, and which goes on so.
    Front(SlotPlace, BehindBase),
    /// In a value at this place no URL, but the value of a declaration of a `style`.
    Declaration(SlotPlace),
}

/// A slot, and what is open behind it.
#[derive(Clone, Copy)]
pub struct PlacedSlot {
    pub place: SlotPlace,
    pub kind: SlotKind,
    pub url: OpenUrl,
}

fn is_quoted(place: SlotPlace) -> bool
    ensures { result ≡ is_quoted place }
{
    matches!(place, SlotPlace::DoubleQuoted | SlotPlace::SingleQuoted)
}

// This part of a URL is open, by whether it is one of a list.
fn within(is_listed: bool, place: SlotPlace, open_part: OpenPart) -> OpenUrl
    ensures { result ≡ within is_listed place open_part }
{
    if is_listed {
        OpenUrl::Listed(place, open_part)
    } else {
        OpenUrl::Within(place, open_part)
    }
}

// A slot where this part of a URL is open.
fn in_part(
    is_listed: bool,
    place: SlotPlace,
    open_part: Option<OpenPart>,
) -> Result<PlacedSlot, PartFault>
    ensures { result ≡ in_part is_listed place open_part }
{
    let Some(open_part) = open_part else {
        return Err(PartFault::NotFixed);
    };
    let Some(slot) = slot_at(open_part) else {
        return Err(PartFault::DotSegment);
    };
    Ok(PlacedSlot {
        place,
        kind: SlotKind::UrlPart(slot),
        url: within(is_listed, place, after_text(open_part)),
    })
}

// The kind of a slot that is a whole URL, by whether its element only shows or follows it.
fn whole_kind(is_followed: bool) -> SlotKind
    ensures { result ≡ whole_kind is_followed }
{
    if is_followed {
        SlotKind::Link
    } else {
        SlotKind::OwnPath
    }
}

// A slot that is a whole URL, if it stands in quotes and is none of a list.
fn whole_slot(is_listed: bool, place: SlotPlace, is_followed: bool) -> Result<PlacedSlot, PartFault>
    ensures { result ≡ whole_slot is_listed place is_followed }
{
    if is_listed || !is_quoted(place) {
        return Err(PartFault::NotFixed);
    }
    Ok(PlacedSlot {
        place,
        kind: whole_kind(is_followed),
        url: OpenUrl::Whole(place),
    })
}

// The kind of a slot with which a URL begins that goes on so behind it.
fn base_kind(behind: BehindBase, kind: SlotKind) -> SlotKind
    ensures { result ≡ base_kind behind kind }
{
    match kind {
        SlotKind::Link => SlotKind::Base(behind),
        SlotKind::OwnPath => SlotKind::OwnBase(behind),
        other => other,
    }
}

/// The slot before this markup: one that is a whole URL is a base where the markup goes on with it.
///
/// Before `/items/` a `Link` is a `Base(Slash)`, and before `"` it is a `Link`.
pub fn before(next: &[u8], slot: PlacedSlot) -> PlacedSlot
    ensures { result ≡ before next.now slot }
{
    let OpenUrl::Whole(place) = slot.url else {
        return slot;
    };
    match behind_base(next) {
        Some(behind) => PlacedSlot {
            place: slot.place,
            kind: base_kind(behind, slot.kind),
            url: OpenUrl::Front(place, behind),
        },
        None => slot,
    }
}

// What is open behind this text: the image of a `data:` URL only where its element only shows or follows
// the URL.
fn open_at(is_followed: bool, text: &[u8]) -> Option<OpenPart>
    ensures { result ≡ open_at is_followed text.now }
{
    if !is_followed && is_image_front(text) {
        return None;
    }
    open_of(text)
}

// The first slot of a URL, behind this markup.
#[tactic(auto, using(crate::proofs::Walks::some_front))]
fn first_slot<A: Allocator>(
    alloc: A,
    is_listed: bool,
    place: SlotPlace,
    is_followed: bool,
    markup: Option<&[u8]>,
) -> Result<Result<PlacedSlot, PartFault>, AllocError>
    ensures { IfOk result (λ slot. slot
        ≡ first_slot is_listed place is_followed (option_map (λ bytes. bytes.now) markup.entry)) }
{
    match markup {
        None => Ok(Err(PartFault::NotFixed)),
        Some([]) => Ok(whole_slot(is_listed, place, is_followed)),
        Some(markup) => match plain_text(alloc, markup, false)? {
            None => Ok(Err(PartFault::NotPlain)),
            Some(text) => {
                let open_part = open_at(is_followed, text.as_bytes());
                Ok(in_part(is_listed, place, open_part))
            }
        },
    }
}

// A slot behind a base.
fn behind_front(place: SlotPlace, behind: BehindBase) -> Result<PlacedSlot, PartFault>
    ensures { result ≡ behind_front place behind }
{
    match behind {
        BehindBase::Segment => in_part(false, place, Some(OpenPart::NewSegment)),
        BehindBase::Slash | BehindBase::Tail => Err(PartFault::AfterLink),
    }
}

/// A slot in a URL, or in one of a list, where this is the part before it. It is the markup before that is not plain.
pub fn url_slot<A: Allocator>(
    alloc: A,
    is_listed: bool,
    place: SlotPlace,
    is_followed: bool,
    markup: &[u8],
    url: OpenUrl,
) -> Result<Result<PlacedSlot, PartFault>, AllocError>
    ensures { IfOk result (λ slot. slot
        ≡ url_slot is_listed place is_followed markup.now url) }
{
    match url {
        OpenUrl::Outside => {
            let front = after_last(is_listed, place, markup);
            first_slot(alloc, is_listed, place, is_followed, front)
        }
        OpenUrl::Within(_, open_part) | OpenUrl::Listed(_, open_part) => {
            Ok(in_part(is_listed, place, Some(open_part)))
        }
        OpenUrl::Whole(_) => Ok(Err(PartFault::AfterLink)),
        OpenUrl::Front(_, behind) => Ok(behind_front(place, behind)),
        OpenUrl::Declaration(_) => Ok(Err(PartFault::AfterStyleValue)),
    }
}

// At the end of the URL, or of the markup before.
fn url_end(
    is_listed: bool,
    place: SlotPlace,
    is_ended: bool,
    open_part: OpenPart,
) -> Result<OpenUrl, PartFault>
    ensures { result ≡ url_end is_listed place is_ended open_part }
{
    if !is_ended {
        Ok(within(is_listed, place, open_part))
    } else if may_be_dots(open_part) {
        Err(PartFault::DotSegment)
    } else {
        Ok(OpenUrl::Outside)
    }
}

// Behind a slot that is a whole URL.
fn behind_link(place: SlotPlace, markup: &[u8]) -> Result<OpenUrl, PartFault>
    ensures { result ≡ behind_link place markup.now }
{
    match markup {
        [] => Ok(OpenUrl::Whole(place)),
        [byte, ..] if ends_value(place, *byte) => Ok(OpenUrl::Outside),
        _ => Err(PartFault::AfterLink),
    }
}

// Behind markup in the part of a URL that is open, unless a dot segment ends in it.
fn behind_part(
    is_listed: bool,
    place: SlotPlace,
    is_ended: bool,
    open_part: Option<OpenPart>,
) -> Result<OpenUrl, PartFault>
    ensures { result ≡ behind_part is_listed place is_ended open_part }
{
    match open_part {
        None => Err(PartFault::DotSegment),
        Some(open_part) => url_end(is_listed, place, is_ended, open_part),
    }
}

// Behind a base and this text.
fn after_base(
    place: SlotPlace,
    behind: BehindBase,
    is_ended: bool,
    text: &[u8],
) -> Result<OpenUrl, PartFault>
    ensures { result ≡ after_base place behind is_ended (Some text.now) }
{
    if !goes_as(behind, text) {
        return Err(PartFault::AfterLink);
    }
    if !is_ended && text == b"/".as_slice() {
        return Ok(OpenUrl::Front(place, BehindBase::Segment));
    }
    let after = after_markup(open_behind(behind), text);
    behind_part(false, place, is_ended, after)
}

// What is open after markup, where this part of a URL was.
fn part_markup<A: Allocator>(
    alloc: A,
    is_listed: bool,
    place: SlotPlace,
    open_part: OpenPart,
    markup: &[u8],
) -> Result<Result<OpenUrl, PartFault>, AllocError>
    ensures { IfOk result (λ opened. opened ≡ part_markup is_listed place open_part markup.now) }
{
    let end = url_length(is_listed, place, markup);
    let is_ended = end < markup.len();
    let Some(text) = plain_text(alloc, &markup[..end], is_ended)? else {
        return Ok(Err(PartFault::NotPlain));
    };
    if is_unfixed(open_part, text.as_bytes()) {
        return Ok(Err(PartFault::NotFixed));
    }
    let after = after_markup(open_part, text.as_bytes());
    Ok(behind_part(is_listed, place, is_ended, after))
}

// The same of a URL of a list.
fn listed_markup<A: Allocator>(
    alloc: A,
    place: SlotPlace,
    open_part: OpenPart,
    markup: &[u8],
) -> Result<Result<OpenUrl, PartFault>, AllocError>
    ensures { IfOk result (λ opened. opened ≡ url_markup (Listed place open_part) markup.now) }
{
    let end = url_length(true, place, markup);
    if !ends_listed(place, &markup[end..]) {
        return Ok(Err(PartFault::NotPlain));
    }
    part_markup(alloc, true, place, open_part, markup)
}

// And where a base was.
fn front_markup<A: Allocator>(
    alloc: A,
    place: SlotPlace,
    behind: BehindBase,
    markup: &[u8],
) -> Result<Result<OpenUrl, PartFault>, AllocError>
    ensures { IfOk result (λ opened. opened ≡ url_markup (Front place behind) markup.now) }
{
    let end = url_length(false, place, markup);
    let is_ended = end < markup.len();
    let Some(text) = plain_text(alloc, &markup[..end], is_ended)? else {
        return Ok(Err(PartFault::NotPlain));
    };
    Ok(after_base(place, behind, is_ended, text.as_bytes()))
}

// Behind a slot in the value of a declaration.
fn behind_value(place: SlotPlace, markup: &[u8]) -> Result<OpenUrl, PartFault>
    ensures { result ≡ behind_value place markup.now }
{
    let mut rest = markup;
    'bytes: while let [byte, others @ ..] = rest {
        if *byte == b';' || ends_value(place, *byte) {
            return Ok(OpenUrl::Outside);
        }
        if !is_style_byte(*byte) && *byte != b'!' {
            return Err(PartFault::AfterStyleValue);
        }
        rest = others;
    }
    Ok(OpenUrl::Declaration(place))
}

/// What is open after markup.
pub fn url_markup<A: Allocator>(
    alloc: A,
    url: OpenUrl,
    markup: &[u8],
) -> Result<Result<OpenUrl, PartFault>, AllocError>
    ensures { IfOk result (λ opened. opened ≡ url_markup url markup.now) }
{
    match url {
        OpenUrl::Outside => Ok(Ok(OpenUrl::Outside)),
        OpenUrl::Within(place, open_part) => part_markup(alloc, false, place, open_part, markup),
        OpenUrl::Listed(place, open_part) => listed_markup(alloc, place, open_part, markup),
        OpenUrl::Whole(place) => Ok(behind_link(place, markup)),
        OpenUrl::Front(place, behind) => front_markup(alloc, place, behind, markup),
        OpenUrl::Declaration(place) => Ok(behind_value(place, markup)),
    }
}
