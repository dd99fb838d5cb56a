//! What was read of the parts of a template.
ghost use Rattle.std.specs.Prelude.{◌≡◌, IfOk, List};
ghost use Rattle.html_template.specs.TemplateFaults.{
  TakesPart,
  at_beginning,
  faulty_part,
  next_markup,
  slot_at,
  walk_of,
};
ghost use Rattle.html_template.specs.Templates.{Given, GivenMarkup, GivenSlot, Markup, Slot};
ghost use Rattle.html_tokenizer.specs.Standing.{may_end};

use crate::faults::{PartFault, TemplateFault};
use crate::open_url::{OpenUrl, PlacedSlot, before, url_markup, url_slot};
use crate::parts::SlotKind;
use html_tokenizer::{Reader, SlotPlace, Standing};
use std::alloc::{AllocError, Allocator};

/// The tokenizer, the last part, if it is markup, and what is open of a URL or of a declaration that holds a slot.
#[derive(Drop)]
pub(crate) struct Walk<'a, A: Allocator> {
    alloc: A,
    reader: Reader<A>,
    markup: &'a str,
    url: OpenUrl,
}

/// A slot that stands so, behind this markup.
pub fn placed<A: Allocator>(
    alloc: A,
    markup: &[u8],
    url: OpenUrl,
    standing: Standing,
) -> Result<Result<PlacedSlot, PartFault>, AllocError>
    ensures { IfOk result (λ slot. slot ≡ slot_at markup.now url standing) }
{
    match standing {
        Standing::Stands(place) => Ok(Ok(PlacedSlot {
            place,
            kind: SlotKind::Text,
            url: OpenUrl::Outside,
        })),
        Standing::InUrl(place) => url_slot(alloc, false, place, false, markup, url),
        Standing::InLink(place) => url_slot(alloc, false, place, true, markup, url),
        Standing::InListedUrl(place) => url_slot(alloc, true, place, false, markup, url),
        Standing::InDeclaration(place) => Ok(Ok(PlacedSlot {
            place,
            kind: SlotKind::StyleValue,
            url: OpenUrl::Declaration(place),
        })),
        Standing::InScript => Ok(Ok(PlacedSlot {
            place: SlotPlace::ScriptDouble,
            kind: SlotKind::Literal,
            url: OpenUrl::Outside,
        })),
        Standing::InJson => Ok(Ok(PlacedSlot {
            place: SlotPlace::Text,
            kind: SlotKind::Json,
            url: OpenUrl::Outside,
        })),
        Standing::Barred => Ok(Err(PartFault::Forbidden)),
        Standing::Nowhere => Ok(Err(PartFault::NoPlace)),
    }
}

// The part that the fault of a slot is of: markup that is not plain is that before the slot.
fn faulty_part(slot: usize, why: PartFault) -> usize
    ensures { result ≡ faulty_part slot why }
{
    match why {
        PartFault::NotPlain => slot.saturating_sub(1),
        _ => slot,
    }
}

impl<'a, A: Allocator + Copy> Walk<'a, A> {
    /// At the beginning of a page.
    pub(crate) fn new(alloc: A) -> Walk<'a, A>
        ensures { walk_of result ≡ at_beginning }
    {
        Walk {
            alloc,
            reader: Reader::new(alloc),
            markup: "",
            url: OpenUrl::Outside,
        }
    }

    /// Reads markup, which is the part of this number.
    #[inline(always)]
    pub(crate) fn take_markup(&mut self, text: &'a str, number: usize) -> Result<(), TemplateFault>
        ensures { (parts : List Given) → TakesPart (λ done. Markup text.now) number
            (walk_of self.old) (GivenMarkup text.now) parts (walk_of self.new) result }
    {
        self.reader.read(text.as_bytes())?;
        if self.reader.is_refused() {
            return Err(TemplateFault::Part(number, PartFault::Malformed));
        }
        match url_markup(self.alloc, self.url, text.as_bytes())? {
            Ok(url) => self.url = url,
            Err(why) => return Err(TemplateFault::Part(number, why)),
        }
        self.markup = text;
        Ok(())
    }

    /// Reads a slot before this markup, which is the part of this number.
    pub(crate) fn take_slot(
        &mut self,
        next: &[u8],
        number: usize,
    ) -> Result<PlacedSlot, TemplateFault>
        ensures { (parts : List Given) → next_markup parts ≡ next.now
            → TakesPart (λ slot. Slot slot.place slot.kind) number (walk_of self.old) GivenSlot
            parts (walk_of self.new) result }
    {
        let standing = self.reader.slot();
        let markup = self.markup.as_bytes();
        match placed(self.alloc, markup, self.url, standing)? {
            Ok(found) => {
                let slot = before(next, found);
                self.markup = "";
                self.url = slot.url;
                Ok(slot)
            }
            Err(why) => Err(TemplateFault::Part(faulty_part(number, why), why)),
        }
    }

    /// Whether the parts may end here.
    pub(crate) fn may_end(&self) -> bool
        ensures { result ≡ may_end (walk_of self.now).tokenizer }
    {
        self.reader.may_end()
    }
}
