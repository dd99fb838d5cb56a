//! A way: what may have been read where a node stands.
ghost use Rattle.std.specs.Prelude.{◌≡◌, IfOk, IsTrue};
ghost use Rattle.html_view.specs.Following.{Moves, MovesPast, way_of};
ghost use Rattle.html_urls.specs.Bases.{behind_base};
ghost use Rattle.html_view.specs.Ways.{EndsWithin, MayEnd, first_way, turned, url_as, way_behind};

use crate::faults::Position;
use html_template::{OpenUrl, PartFault, PlacedSlot, before, placed, url_markup};
use html_tokenizer::Reader;
use html_urls::behind_base;
use std::alloc::{AllocError, Allocator};

/// The tokenizer, in a URL or a list of them the markup since the last slot, and what was open of a URL or a declaration at that slot.
#[derive(Drop)]
pub(crate) struct Way<A: Allocator> {
    alloc: A,
    reader: Reader<A>,
    markup: Vec<u8, A>,
    url: OpenUrl,
    /// The number of its last step.
    pub(crate) last: usize,
    /// Where its last slot stands.
    pub(crate) slot: Position,
}

fn is_same_url(first: OpenUrl, second: OpenUrl) -> bool
    ensures { IsTrue result → first ≡ second }
{
    match (first, second) {
        (OpenUrl::Outside, OpenUrl::Outside) => true,
        (OpenUrl::Within(place, part), OpenUrl::Within(other, another)) => {
            place == other && part == another
        }
        (OpenUrl::Listed(place, part), OpenUrl::Listed(other, another)) => {
            place == other && part == another
        }
        (OpenUrl::Whole(place), OpenUrl::Whole(other)) => place == other,
        (OpenUrl::Declaration(place), OpenUrl::Declaration(other)) => place == other,
        (OpenUrl::Front(place, behind), OpenUrl::Front(other, another)) => {
            place == other && behind == another
        }
        _ => false,
    }
}

// A slot that is a whole URL is a base before markup that goes on with it.
fn url_as(url: OpenUrl, next: &[u8]) -> OpenUrl
    ensures { result ≡ url_as url (behind_base next.now) }
{
    let OpenUrl::Whole(place) = url else {
        return url;
    };
    match behind_base(next) {
        Some(behind) => OpenUrl::Front(place, behind),
        None => url,
    }
}

impl<A: Allocator + Copy> Way<A> {
    /// At the beginning of a page.
    pub(crate) fn first(alloc: A) -> Way<A>
        ensures { way_of result ≡ first_way }
    {
        Way {
            alloc,
            reader: Reader::new(alloc),
            markup: Vec::new(alloc),
            url: OpenUrl::Outside,
            last: 0,
            slot: Position { text: 0, byte: 0 },
        }
    }

    /// The same way once more.
    pub(crate) fn copy(&self) -> Result<Way<A>, AllocError>
        ensures { IfOk result (λ copy. way_of copy ≡ way_of self.now) }
    {
        let mut markup = Vec::new(self.alloc);
        markup.extend_from_slice(&self.markup)?;
        let reader = self.reader.copy(self.alloc)?;
        Ok(Way {
            alloc: self.alloc,
            reader,
            markup,
            url: self.url,
            last: self.last,
            slot: self.slot,
        })
    }

    /// Whether a page may begin here.
    pub(crate) fn is_first(&self) -> bool
        ensures { IsTrue result → way_of self.now ≡ first_way }
    {
        matches!(self.url, OpenUrl::Outside) && self.markup.is_empty() && self.reader.may_end()
    }

    /// Whether both are one way, by whatever steps.
    pub(crate) fn is_same(&self, other: &Way<A>) -> bool
        ensures { IsTrue result → way_of self.now ≡ way_of other.now }
    {
        if !self.reader.is_same(&other.reader) {
            return false;
        }
        if !is_same_url(self.url, other.url) {
            return false;
        }
        self.markup.as_slice() == other.markup.as_slice()
    }

    /// Reads markup. A refusal of memory leaves no way.
    pub(crate) fn take_markup(&mut self, bytes: &[u8]) -> Result<Result<(), PartFault>, AllocError>
        ensures { IfOk result (Moves (way_behind (way_of self.old) bytes.now) (way_of self.new)) }
    {
        self.reader.read(bytes)?;
        if self.reader.is_refused() {
            return Ok(Err(PartFault::Malformed));
        }
        if self.reader.is_in_url() {
            self.markup.extend_from_slice(bytes)?;
            return Ok(Ok(()));
        }
        // Most markup stands outside of URLs, and is let go.
        if let OpenUrl::Outside = self.url {
            self.markup.clear();
            return Ok(Ok(()));
        }
        self.markup.extend_from_slice(bytes)?;
        match url_markup(self.alloc, self.url, &self.markup)? {
            Ok(OpenUrl::Outside) => {
                self.markup.clear();
                self.url = OpenUrl::Outside;
                Ok(Ok(()))
            }
            Ok(_) => Ok(Ok(())),
            Err(why) => Ok(Err(why)),
        }
    }

    // Whether the slot before is a base is told by this markup, with which a URL goes on that it begins.
    fn turn(&mut self, bytes: &[u8])
        ensures { way_of self.new ≡ turned (way_of self.old) bytes.now }
    {
        if self.markup.is_empty() {
            self.url = url_as(self.url, bytes);
        }
    }

    /// Reads markup, where it was open whether the slot before is a base.
    pub(crate) fn turn_to_markup(
        &mut self,
        bytes: &[u8],
    ) -> Result<Result<(), PartFault>, AllocError>
        ensures { IfOk result (Moves (way_behind (turned (way_of self.old) bytes.now) bytes.now)
            (way_of self.new)) }
    {
        self.turn(bytes);
        self.take_markup(bytes)
    }

    /// Reads a slot before this markup.
    pub(crate) fn take_slot(
        &mut self,
        next: &[u8],
    ) -> Result<Result<PlacedSlot, PartFault>, AllocError>
        ensures { IfOk result (MovesPast next.now (way_of self.old) (way_of self.new)) }
    {
        if self.reader.is_refused() {
            return Ok(Err(PartFault::Malformed));
        }
        let url = match url_markup(self.alloc, self.url, &self.markup)? {
            Ok(url) => url,
            Err(why) => return Ok(Err(why)),
        };
        let standing = self.reader.slot();
        match placed(self.alloc, &self.markup, url, standing)? {
            Ok(found) => {
                let slot = before(next, found);
                self.markup.clear();
                self.url = slot.url;
                Ok(Ok(slot))
            }
            Err(why) => Ok(Err(why)),
        }
    }

    /// Whether a page would end here within a tag, a reference or an element.
    pub(crate) fn is_unfinished(&self) -> Result<bool, AllocError>
        ensures { IfOk result (λ is. IsTrue is → EndsWithin (way_of self.now)) }
    {
        if self.reader.is_refused() || self.reader.may_end() {
            return Ok(false);
        }
        let url = url_markup(self.alloc, self.url, &self.markup)?;
        Ok(url.is_ok())
    }

    /// Whether a page may end here, with no fault of the markup since the last slot.
    pub(crate) fn may_end(&self) -> Result<bool, AllocError>
        ensures { IfOk result (λ may. IsTrue may → MayEnd (way_of self.now)) }
    {
        if self.reader.is_refused() || !self.reader.may_end() {
            return Ok(false);
        }
        let url = url_markup(self.alloc, self.url, &self.markup)?;
        Ok(url.is_ok())
    }
}
