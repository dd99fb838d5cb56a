//! Short texts stored into a slice by a store or two of a constant length.
ghost use Rattle.std.specs.Prelude.{◌≡◌, ◌≤◌, ◌+◌, ◌++◌, ℕ, Bool, length, take};
ghost use Rattle.std.specs.Str.{IsCharBoundary};
ghost use Rattle.hesc_sinks.specs.Hits.{AreHits, StoredHits, ascii_rows};
ghost use Rattle.hesc_sinks.specs.Stores.{Stored};
ghost use Rattle.hesc_sinks.specs.Text.{small_text_bytes};

use crate::ascii_texts::AsciiTexts;
use crate::in_place::Storing;
use crate::segment::Segment;
use crate::small_text::SmallText;
use std::simd::Simd;

/// A piece, which needs as much room as it has bytes.
impl Storing for &str {
    ghost text = { λ piece. piece.now };

    ghost needed = { λ piece. length piece.now };

    #[inline(always)]
    fn store_at(&self, room: &mut [u8], place: usize) -> usize {
        store(room, place, self.as_bytes())
    }
}

/// A short text, which needs a block.
impl Storing for SmallText {
    ghost text = { small_text_bytes };

    ghost needed = { λ _. 8 };

    #[inline(always)]
    fn store_at(&self, room: &mut [u8], place: usize) -> usize {
        store_block::<8>(room, place, &self.block());
        place + self.len()
    }
}

/// The stretch of a segment, which fits into a block.
#[derive(Clone, Copy)]
pub(crate) struct Stretch<'t, const N: usize> {
    pub(crate) segment: Segment<'t>,
    pub(crate) ghost few: { length segment.kept.now ≤ N },
}

impl<const N: usize> Storing for Stretch<'_, N> {
    ghost text = { λ stretch. stretch.segment.kept.now };

    ghost needed = { λ _. N };

    #[inline(always)]
    fn store_at(&self, room: &mut [u8], place: usize) -> usize {
        let kept = self.segment.kept.as_bytes();
        store_short::<N>(room, place, self.segment.rest, kept.len())
    }
}

/// Such a stretch and a short text, each of which needs a block.
#[derive(Clone, Copy)]
pub(crate) struct Both<'t, const N: usize> {
    pub(crate) segment: Segment<'t>,
    pub(crate) text: SmallText,
    pub(crate) ghost few: { length segment.kept.now ≤ N },
}

impl<const N: usize> Storing for Both<'_, N> {
    ghost text = { λ both. both.segment.kept.now ++ small_text_bytes both.text };

    ghost needed = { λ _. N + 8 };

    #[inline(always)]
    fn store_at(&self, room: &mut [u8], place: usize) -> usize {
        let kept = self.segment.kept.as_bytes();
        store_both::<N>(room, place, self.segment.rest, kept.len(), self.text)
    }
}

/// Stores a text from `from` on, with the bytes replaced that `hits` tells of, at a place of the room:
/// as many of them as stand near enough to one another and find room for a block of each. Answers
/// the place after what was stored, and how far in the text it came. What stands there afterwards is
/// lost.
#[inline(always)]
pub(crate) fn store_hits(
    room: &mut [u8],
    place: usize,
    text: &str,
    from: usize,
    hits: u64,
    texts: AsciiTexts,
) -> (usize, usize)
    requires boundary { IsCharBoundary text.now from }
    requires within { place ≤ length room.old }
    ensures stored { StoredHits (ascii_rows texts) text.now from hits result.1
        room.old room.new place result.0 }
    ensures ordered { from ≤ result.1 }
    ensures boundary { IsCharBoundary text.now result.1 }
{
    let (end, reached, left) = store_hits_by_blocks(room, place, text, from, hits, texts);
    if left == 0 || text.len() - reached >= 16 {
        return (end, reached);
    }
    store_last_hits(room, end, text, reached, left, texts)
}

// The same of those hits before which a block of the text is left. Answers the other hits, too.
#[inline(always)]
fn store_hits_by_blocks(
    room: &mut [u8],
    place: usize,
    text: &str,
    from: usize,
    hits: u64,
    texts: AsciiTexts,
) -> (usize, usize, u64)
    requires boundary { IsCharBoundary text.now from }
    requires within { place ≤ length room.old }
    ensures stored { StoredHits (ascii_rows texts) text.now from hits result.1
        room.old room.new place result.0 }
    ensures ordered { from ≤ result.1 }
    ensures boundary { IsCharBoundary text.now result.1 }
    ensures left { (is_sought : ℕ → Bool) → AreHits is_sought text.now from hits
        → AreHits is_sought text.now result.1 result.2 }
{
    let bytes = text.as_bytes();
    let (mut end, mut reached, mut left) = (place, from, hits);
    'storing: while left != 0 && bytes.len() - reached >= 16 && room.len() - end >= 24 {
        let count = left.trailing_zeros() as usize;
        if count >= 16 {
            break;
        }
        let Some(small) = texts.text_for(bytes[reached + count]) else {
            break;
        };
        end = store_both::<16>(room, end, &bytes[reached..], count, small);
        reached += count + 1;
        left = (left >> count) >> 1;
    }
    (end, reached, left)
}

// The same of the last bytes of a text, of which no block is left. A call of its own: it is the same for
// all rooms.
#[inline(never)]
fn store_last_hits(
    room: &mut [u8],
    place: usize,
    text: &str,
    from: usize,
    hits: u64,
    texts: AsciiTexts,
) -> (usize, usize)
    requires boundary { IsCharBoundary text.now from }
    requires within { place ≤ length room.old }
    ensures stored { StoredHits (ascii_rows texts) text.now from hits result.1
        room.old room.new place result.0 }
    ensures ordered { from ≤ result.1 }
    ensures boundary { IsCharBoundary text.now result.1 }
{
    let bytes = text.as_bytes();
    let (mut end, mut reached, mut last) = (place, from, hits);
    'ending: while last != 0 && room.len() - end >= 24 {
        let count = last.trailing_zeros() as usize;
        if count >= (bytes.len() - reached).min(16) {
            break;
        }
        let Some(small) = texts.text_for(bytes[reached + count]) else {
            break;
        };
        end = store_both::<16>(room, end, &bytes[reached..], count, small);
        reached += count + 1;
        last = (last >> count) >> 1;
    }
    (end, reached)
}

/// Stores the first `count` of the bytes, and after them the text, at a place where a block of each
/// fits, and answers the place after both. What stands there afterwards is lost.
#[inline(always)]
pub(crate) fn store_both<const N: usize>(
    room: &mut [u8],
    place: usize,
    bytes: &[u8],
    count: usize,
    text: SmallText,
) -> usize
    requires few { count ≤ N }
    requires there { count ≤ length bytes.now }
    requires fits { place + (N + 8) ≤ length room.old }
    ensures { Stored room.old room.new place (take count bytes.now ++ small_text_bytes text) result }
{
    let middle = store_short::<N>(room, place, bytes, count);
    text.store_at(room, middle)
}

/// Stores the bytes at a place, and answers the place after them.
#[inline(always)]
pub(crate) fn store(room: &mut [u8], place: usize, bytes: &[u8]) -> usize
    requires { place + length bytes.now ≤ length room.old }
    ensures { Stored room.old room.new place bytes.now result }
{
    let count = bytes.len();
    if count > 64 {
        let end = place + count;
        room[place..end].copy_from_slice(bytes);
        end
    } else if count >= 32 {
        store_ends::<32>(room, place, bytes)
    } else if count >= 16 {
        store_ends::<16>(room, place, bytes)
    } else if count >= 8 {
        store_ends::<8>(room, place, bytes)
    } else if count >= 4 {
        store_ends::<4>(room, place, bytes)
    } else if count >= 2 {
        store_ends::<2>(room, place, bytes)
    } else if count == 1 {
        store_block::<1>(room, place, bytes)
    } else {
        place
    }
}

/// Stores the first `count` of the bytes, no more than a block has, at a place where a block fits, and
/// answers the place after them.
#[inline(always)]
pub(crate) fn store_short<const N: usize>(
    room: &mut [u8],
    place: usize,
    bytes: &[u8],
    count: usize,
) -> usize
    requires few { count ≤ N }
    requires there { count ≤ length bytes.now }
    requires fits { place + N ≤ length room.old }
    ensures { Stored room.old room.new place (take count bytes.now) result }
{
    // A block for all short stretches, empty ones too, needs no guess of how long the next is.
    if bytes.len() >= N {
        store_block::<N>(room, place, bytes);
        return place + count;
    }
    if count == 0 {
        return place;
    }
    store(room, place, &bytes[..count])
}

// As many bytes as a block has, or up to twice as many: the last ones overlap the first.
#[inline(always)]
fn store_ends<const N: usize>(room: &mut [u8], place: usize, bytes: &[u8]) -> usize
    requires one { N ≤ length bytes.now }
    requires both { length bytes.now ≤ N + N }
    requires fits { place + length bytes.now ≤ length room.old }
    ensures { Stored room.old room.new place bytes.now result }
{
    let last = bytes.len() - N;
    store_block::<N>(room, place, bytes);
    store_block::<N>(room, place + last, &bytes[last..])
}

// The first bytes, as many as a block has, by one load and one store.
#[inline(always)]
fn store_block<const N: usize>(room: &mut [u8], place: usize, bytes: &[u8]) -> usize
    requires there { N ≤ length bytes.now }
    requires fits { place + N ≤ length room.old }
    ensures { Stored room.old room.new place (take N bytes.now) result }
{
    Simd::<u8, N>::from_slice(bytes).copy_to_slice(&mut room[place..]);
    place + N
}
