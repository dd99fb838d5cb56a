//! A text as one component of a URL, put into any sink.
ghost use Rattle.std.specs.Prelude.{◌≤◌, ◌↔◌, IsTrue, length};
ghost use Rattle.hesc_sinks.specs.Took.{Took};
ghost use Rattle.html_urls.specs.Components.{IsUnreservedText, component};

pub(crate) mod blocks;
pub(crate) mod lanes;
pub(crate) mod picks;
pub(crate) mod rows;
pub(crate) mod unreserved;

use crate::component::blocks::{MadeBlock, SHORT_ROOM, first_block, kept_block, made_block};
use crate::component::lanes::LANES;
use crate::component::unreserved::is_unreserved_block;
use crate::length::component_length;
use hesc_engine::forms::Parts;
use hesc_engine::{CountOverflow, Sink};
use percent_encoding::{AsciiSet, NON_ALPHANUMERIC, ascii_set};

/// The ASCII bytes that are percent-encoded: all but letters, digits, `-`, `.`, `_` and `~`.
pub const COMPONENT: AsciiSet = ascii_set!(
    NON_ALPHANUMERIC
        .remove(b'-')
        .remove(b'.')
        .remove(b'_')
        .remove(b'~')
);

/// The same without `@` and `+`, which stand in the addresses of `mailto:` URLs, the numbers of `tel:` URLs and
/// the base64 of images as they are.
pub const ADDRESS: AsciiSet = ascii_set!(COMPONENT.remove(b'@').remove(b'+'));

/// The component of a text, as parts that are put: for a page that is made of several of them.
///
/// Of `Component("a&b")` the parts are `a`, `%26` and `b`.
#[derive(Clone, Copy)]
pub struct Component<'t>(pub &'t str);

impl Parts for Component<'_> {
    ghost text = { λ parts. component parts.0.now };

    #[inline(always)]
    fn put_into<S: Sink>(&self, sink: &mut S) -> Result<(), S::Fault> {
        put_component(self.0, sink)
    }

    #[inline(always)]
    fn room_for(&self, _spare: usize) -> Result<usize, CountOverflow> {
        component_length(self.0).ok_or(CountOverflow)
    }

    // Each byte becomes three at most.
    #[inline(always)]
    fn most(&self) -> usize {
        self.0.len().saturating_mul(3)
    }
}

/// Hands the component of `text` to the sink, piece by piece.
///
/// On success the sink took exactly that. On the sink's fault, which is handed on at once, it took
/// a beginning of it.
///
/// Of `a&b` the sink takes `a%26b`.
pub fn put_component<S: Sink>(text: &str, sink: &mut S) -> Result<(), S::Fault>
    ensures { Took (S.seen sink.old) (S.seen sink.new) (component text.now) result }
{
    put_bytes(text.as_bytes(), sink)
}

/// The same of bytes.
pub(crate) fn put_bytes<S: Sink>(bytes: &[u8], sink: &mut S) -> Result<(), S::Fault>
    ensures { Took (S.seen sink.old) (S.seen sink.new) (component bytes.now) result }
{
    let mut rest = bytes;
    'putting: while !rest.is_empty() {
        let (block, later) = first_block(rest);
        put_block(block, sink)?;
        rest = later;
    }
    Ok(())
}

#[inline(always)]
fn put_block<S: Sink>(block: &[u8], sink: &mut S) -> Result<(), S::Fault>
    requires { length block.now ≤ 64 }
    ensures { Took (S.seen sink.old) (S.seen sink.new) (component block.now) result }
{
    if is_unreserved_block(block) {
        return sink.put(kept_block(block));
    }
    if block.len() < LANES {
        let mut short = [0; SHORT_ROOM];
        return sink.put(made_block(block, &mut short));
    }
    put_long_block(block, sink)
}

// A call of its own, so that a block that stays as it is takes no more registers than it needs.
#[inline(never)]
fn put_long_block<S: Sink>(block: &[u8], sink: &mut S) -> Result<(), S::Fault>
    requires { length block.now ≤ 64 }
    ensures { Took (S.seen sink.old) (S.seen sink.new) (component block.now) result }
{
    sink.put_in_place(&MadeBlock { bytes: block })
}

/// Whether no byte of `text` is percent-encoded, so that the text is its own component.
///
/// Of `a-b` it is `true`, and of `a b` it is `false`.
pub(crate) fn is_unreserved(text: &str) -> bool
    ensures { IsTrue result ↔ IsUnreservedText text.now }
{
    let mut rest = text.as_bytes();
    'looking: while !rest.is_empty() {
        let (block, later) = first_block(rest);
        if !is_unreserved_block(block) {
            return false;
        }
        rest = later;
    }
    true
}
