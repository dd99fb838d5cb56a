//! The markup of a URL: where it begins and ends, and what it adds to the URL.
ghost use Rattle.std.specs.Prelude.{◌≡◌, ◌≤◌, ◌<◌, ◌+◌, ◌++◌, ◌∷◌, [], IfOk, IfSome, IsTrue, None, OnOk, bytes_eq, codes, drop, length, option_map, take};
ghost use Rattle.std.specs.List.{position_or_len};
ghost use Rattle.std.specs.Option.{ForSome};
ghost use Rattle.html_tokenizer.specs.Tokenizer.Tags.{is_space};
ghost use Rattle.html_tokenizer.specs.UrlValues as spec;
ghost use Rattle.html_template.specs.OpenUrls as open_urls;
ghost use Rattle.html_template.specs.OpenUrls.PlainTexts.{bytes_of};
ghost use Rattle.html_template.specs.OpenUrls.UrlTexts.{Takes};

use html_tokenizer::{SlotPlace, is_list_mark};
use html_urls::is_plain;
use std::alloc::{AllocError, Allocator};

fn is_space(byte: u8) -> bool
    ensures { result ≡ is_space byte }
{
    matches!(byte, b'\t' | b'\n' | b'\x0c' | b' ' | b'\r')
}

// Whether a value at this place begins after the byte.
fn begins_value(place: SlotPlace, byte: u8) -> bool
    ensures { result ≡ spec.begins_value place byte }
{
    match place {
        SlotPlace::DoubleQuoted => byte == b'"',
        SlotPlace::SingleQuoted => byte == b'\'',
        _ => byte == b'=' || is_space(byte),
    }
}

// Whether a URL begins after the byte, by whether it is one of a list.
fn begins_url(is_listed: bool, place: SlotPlace, byte: u8) -> bool
    ensures { result ≡ spec.begins_url is_listed place byte }
{
    if is_listed {
        begins_value(place, byte) || is_list_mark(byte)
    } else {
        begins_value(place, byte)
    }
}

/// Whether a value at this place ends before the byte.
pub(crate) fn ends_value(place: SlotPlace, byte: u8) -> bool
    ensures { result ≡ spec.ends_value place byte }
{
    match place {
        SlotPlace::DoubleQuoted => byte == b'"',
        SlotPlace::SingleQuoted => byte == b'\'',
        _ => is_space(byte) || byte == b'>',
    }
}

/// Whether a URL ends before the byte, by whether it is one of a list.
pub(crate) fn closes_url(is_listed: bool, place: SlotPlace, byte: u8) -> bool
    ensures { result ≡ spec.closes_url is_listed place byte }
{
    if is_listed {
        ends_value(place, byte) || is_list_mark(byte)
    } else {
        ends_value(place, byte)
    }
}

/// What stands after the last byte that a URL begins after.
#[tactic(auto, using(crate::proofs::Markup::none_at_end, crate::proofs::Markup::none_one_before, crate::proofs::Markup::last_before, crate::proofs::Markup::none_at_all))]
pub(crate) fn after_last(is_listed: bool, place: SlotPlace, markup: &[u8]) -> Option<&[u8]>
    ensures { option_map (λ bytes. bytes.now) result
        ≡ spec.after_last (spec.begins_url is_listed place) markup.now }
{
    let mut start = markup.len();
    'bytes: while start > 0 {
        if begins_url(is_listed, place, markup[start - 1]) {
            return Some(&markup[start..]);
        }
        start -= 1;
    }
    None
}

/// How many of the bytes are of a URL, by whether it is one of a list.
pub(crate) fn url_length(is_listed: bool, place: SlotPlace, markup: &[u8]) -> usize
    ensures value { result ≡ position_or_len (spec.closes_url is_listed place) markup.now }
    ensures within { result ≤ length markup.now }
{
    let mut rest = markup;
    'bytes: while let [byte, others @ ..] = rest {
        if closes_url(is_listed, place, *byte) {
            return markup.len() - rest.len();
        }
        rest = others;
    }
    markup.len()
}

// Behind a comma that ends a URL of a list: whether white space or the end of the value comes, but for other commas.
fn behind_comma(place: SlotPlace, markup: &[u8]) -> bool
    ensures { result ≡ open_urls.behind_comma place markup.now }
{
    let mut rest = markup;
    'commas: while let [byte, others @ ..] = rest {
        if *byte != b',' {
            return closes_url(true, place, *byte);
        }
        rest = others;
    }
    false
}

/// Behind a URL of a list: whether a comma ends it, if one comes.
pub(crate) fn ends_listed(place: SlotPlace, markup: &[u8]) -> bool
    ensures { result ≡ open_urls.ends_listed place markup.now }
{
    match markup {
        [b',', others @ ..] => behind_comma(place, others),
        _ => true,
    }
}

/// What markup adds to a URL.
#[derive(Drop)]
pub(crate) enum PlainText<'m, A: Allocator> {
    /// The markup itself.
    Same(&'m [u8]),
    /// Markup with a `&`, as it is read.
    Read(Vec<u8, A>),
}

impl<A: Allocator> PlainText<'_, A> {
    /// Its bytes.
    pub(crate) fn as_bytes(&self) -> &[u8]
        ensures { result.now ≡ bytes_of self.now }
    {
        match self {
            PlainText::Same(bytes) => bytes,
            PlainText::Read(bytes) => bytes,
        }
    }
}

/// What the markup adds to a URL, which ends behind it or goes on, if it is plain.
#[tactic(auto, using(crate::proofs::Markup::read_as_it_is))]
pub(crate) fn plain_text<'m, A: Allocator>(
    alloc: A,
    markup: &'m [u8],
    is_ended: bool,
) -> Result<Option<PlainText<'m, A>>, AllocError>
    ensures { IfOk result (λ text. option_map bytes_of text
        ≡ open_urls.plain_text is_ended markup.now) }
{
    let text = if markup.contains(&b'&') {
        match read_text(alloc, markup, is_ended)? {
            Some(text) => PlainText::Read(text),
            None => return Ok(None),
        }
    } else {
        PlainText::Same(markup)
    };
    if is_plain(text.as_bytes(), is_ended) {
        Ok(Some(text))
    } else {
        Ok(None)
    }
}

// Reads the references of the markup.
#[tactic(auto, using(crate::proofs::Markup::nothing_read, crate::proofs::Markup::ended_text, crate::proofs::Markup::open_text))]
fn read_text<A: Allocator>(
    alloc: A,
    markup: &[u8],
    is_ended: bool,
) -> Result<Option<Vec<u8, A>>, AllocError>
    ensures { IfOk result (λ text. option_map (λ bytes. bytes.items) text
        ≡ spec.url_text is_ended markup.now) }
{
    let mut read = UrlText {
        text: Vec::with_capacity(alloc, markup.len())?,
        ampersand: None,
    };
    let mut rest = markup;
    'bytes: while let [byte, others @ ..] = rest {
        if !read.take(*byte)? {
            return Ok(None);
        }
        rest = others;
    }
    if is_ended || read.ampersand.is_none() {
        Ok(Some(read.text))
    } else {
        Ok(None)
    }
}

// The text so far, and where a `&` stands in it of which it is open what it is.
#[derive(Drop)]
struct UrlText<A: Allocator> {
    text: Vec<u8, A>,
    ampersand: Option<usize>,
    ghost within: { ForSome ampersand (λ start. start < length text.items) },
}

impl<A: Allocator> UrlText<A> {
    // Takes one byte more of the markup, unless it makes another reference than `&amp;`. A `&` that begins none stands for itself.
    #[tactic(auto, using(crate::proofs::Markup::letter_takes, crate::proofs::Markup::ended_reference, crate::proofs::Markup::number_refused, crate::proofs::Markup::ampersand_takes, crate::proofs::Markup::kept_takes, crate::proofs::Markup::stands_takes))]
    fn take(&mut self, byte: u8) -> Result<bool, AllocError>
        ensures { IfOk result (λ is_taken. Takes is_taken self.old.ampersand self.old.text.items byte
            self.new.ampersand self.new.text.items) }
    {
        match self.ampersand {
            _ if byte == b'&' => {
                let start = self.text.len();
                self.add(byte, Some(start))?;
            }
            None => self.add(byte, None)?,
            Some(start) if byte.is_ascii_alphanumeric() => self.add(byte, Some(start))?,
            Some(start) if byte == b';' => return Ok(self.end_reference(start)),
            Some(start) if byte == b'#' && start + 1 == self.text.len() => return Ok(false),
            Some(_) => self.add(byte, None)?,
        }
        Ok(true)
    }

    // Adds the byte, behind which it is open what this `&` is.
    fn add(&mut self, byte: u8, ampersand: Option<usize>) -> Result<(), AllocError>
        requires { IfSome ampersand (λ start. start ≤ length self.old.text.items) }
        ensures text { OnOk result (self.new.text.items ≡ self.old.text.items ++ byte ∷ []) }
        ensures ampersand { OnOk result (self.new.ampersand ≡ ampersand) }
    {
        self.text.push(byte)?;
        self.ampersand = ampersand;
        Ok(())
    }

    // At a `;` behind this `&`: whether it is `&amp;`, which is a `&`.
    fn end_reference(&mut self, start: usize) -> bool
        requires { start < length self.old.text.items }
        ensures is { result ≡ bytes_eq (drop (start + 1) self.old.text.items) (codes "amp") }
        ensures text { IsTrue result → self.new.text.items ≡ take (start + 1) self.old.text.items }
        ensures ampersand { IsTrue result → self.new.ampersand ≡ None }
    {
        if &self.text[start + 1..] != b"amp".as_slice() {
            return false;
        }
        self.text.truncate(start + 1);
        self.ampersand = None;
        true
    }
}
