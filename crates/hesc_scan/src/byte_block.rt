//! The search for the next bytes of one value, as a mask of them.
ghost use Rattle.std.specs.Prelude.{◌≡◌, ◌≤◌, ◌<◌, ◌+◌, ℕ, Bool, length};
ghost use Rattle.memchr.specs.Find.{is_byte};
ghost use Rattle.hesc_scan.specs.Blocks.{IsFirstBlock, mask_from};

use crate::block::Block;
use crate::find::first_byte_far;
use crate::lanes::{block_hits_of_one, hits_of_one, hits_of_one_at};
use crate::lookup::Lookup;
use crate::scan::{first_by_chunks, first_by_pairs};
use std::simd::prelude::*;

/// The class of this byte alone.
#[derive(Clone, Copy)]
struct OneByte(u8);

impl Lookup for OneByte {
    ghost has = { λ lookup. is_byte lookup.0 };

    #[inline(always)]
    fn hits(&self, v: u8x32) -> u64 {
        hits_of_one(self.0, v)
    }
}

/// How far 64 bytes at a time are searched before `memchr` is called, which is faster on long ways and
/// slower on short ones.
const NEAR: usize = 256;

/// The mask of the first bytes at or after `from` among which one is this byte, 32 of them or as
/// many as there are, and the place where they begin. Where there is none, the length and an empty
/// mask.
///
/// `first_byte_block(b'<', b"ab<c<", 1)` is `(1, 0b1010)`.
#[inline(always)]
pub fn first_byte_block(byte: u8, bytes: &[u8], from: usize) -> (usize, u64)
    requires { from ≤ length bytes.now }
    ensures { IsFirstBlock (is_byte byte) bytes.now from result.0 result.1 }
{
    let (chunks, _) = bytes[from..].as_chunks::<32>();
    if chunks.is_empty() {
        return last_byte_block(byte, bytes, from);
    }
    let mask = hits_of_one(byte, u8x32::from_array(chunks[0]));
    if mask != 0 {
        return (from, mask);
    }
    if bytes.len() - from <= 64 {
        let mask = mask_of_last::<32>(byte, bytes, from + 32);
        return block_or_end(mask, bytes, from + 32);
    }
    later_byte_block(byte, bytes, from + 32)
}

// A call of its own: most blocks are found among the first bytes.
#[inline(never)]
fn later_byte_block(byte: u8, bytes: &[u8], from: usize) -> (usize, u64)
    requires { from ≤ length bytes.now }
    ensures { IsFirstBlock (is_byte byte) bytes.now from result.0 result.1 }
{
    let lookup = OneByte(byte);
    let near = from + (bytes.len() - from).min(NEAR);
    let (reached, mask) = first_by_pairs(&lookup, bytes, from, near);
    if mask != 0 {
        return (reached, mask);
    }
    if bytes.len() - reached < 64 {
        return first_by_chunks(&lookup, bytes, reached);
    }
    far_byte_block(byte, bytes, reached)
}

#[inline(never)]
fn far_byte_block(byte: u8, bytes: &[u8], from: usize) -> (usize, u64)
    requires { from ≤ length bytes.now }
    ensures { IsFirstBlock (is_byte byte) bytes.now from result.0 result.1 }
{
    let place = first_byte_far(byte, bytes, from);
    if place == bytes.len() {
        return (place, 0);
    }
    (place, mask_at(byte, bytes, place))
}

#[inline(always)]
fn mask_at(byte: u8, bytes: &[u8], place: usize) -> u64
    requires { place ≤ length bytes.now }
    ensures { result ≡ mask_from (is_byte byte) bytes.now place }
{
    let (chunks, _) = bytes[place..].as_chunks::<32>();
    if chunks.is_empty() {
        return mask_of_rest(byte, bytes, place);
    }
    hits_of_one(byte, u8x32::from_array(chunks[0]))
}

// Where 32 bytes or fewer are left.
#[inline(never)]
fn last_byte_block(byte: u8, bytes: &[u8], from: usize) -> (usize, u64)
    requires within { from ≤ length bytes.now }
    requires few { length bytes.now ≤ from + 32 }
    ensures { IsFirstBlock (is_byte byte) bytes.now from result.0 result.1 }
{
    block_or_end(mask_of_rest(byte, bytes, from), bytes, from)
}

// The block of this mask, or the end where the mask is empty.
#[inline(always)]
fn block_or_end(mask: u64, bytes: &[u8], from: usize) -> (usize, u64)
    requires within { from ≤ length bytes.now }
    requires few { length bytes.now ≤ from + 32 }
    ensures { (test : ℕ → Bool) → mask ≡ mask_from test bytes.now from
        → IsFirstBlock test bytes.now from result.0 result.1 }
{
    if mask == 0 {
        return (bytes.len(), 0);
    }
    (from, mask)
}

// Of 32 bytes or fewer.
#[inline(always)]
fn mask_of_rest(byte: u8, bytes: &[u8], place: usize) -> u64
    requires within { place ≤ length bytes.now }
    requires few { length bytes.now ≤ place + 32 }
    ensures { result ≡ mask_from (is_byte byte) bytes.now place }
{
    if bytes.len() - place >= 16 {
        return mask_of_halves(byte, bytes, place);
    }
    if bytes.len() >= 16 {
        return mask_of_last::<16>(byte, bytes, place);
    }
    block_hits_of_one(byte, &Block::rest(bytes, place))
}

// By two halves of 16 bytes, of which the second may begin within the first.
#[inline(always)]
fn mask_of_halves(byte: u8, bytes: &[u8], place: usize) -> u64
    requires one { place + 16 ≤ length bytes.now }
    requires both { length bytes.now ≤ place + 32 }
    ensures { result ≡ mask_from (is_byte byte) bytes.now place }
{
    let last = bytes.len() - 16;
    let skip = last - place;
    let front = hits_of_one_at::<16>(byte, bytes, place) & ((1 << skip) - 1);
    (hits_of_one_at::<16>(byte, bytes, last) << skip) | front
}

// The mask of the last 16 or 32 bytes, without those before `place`.
#[inline(always)]
fn mask_of_last<const N: usize>(byte: u8, bytes: &[u8], place: usize) -> u64
    requires small { N ≤ 32 }
    requires long { N ≤ length bytes.now }
    requires within { place ≤ length bytes.now }
    requires few { length bytes.now ≤ place + N }
    ensures { result ≡ mask_from (is_byte byte) bytes.now place }
{
    let start = bytes.len() - N;
    hits_of_one_at::<N>(byte, bytes, start) >> (place - start)
}
