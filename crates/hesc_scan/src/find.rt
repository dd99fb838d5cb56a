//! The search for the next of one or two bytes.
ghost use Rattle.std.specs.Prelude.{◌≡◌, ◌≤◌, ◌<◌, ◌+◌, ℕ, Bool, drop, length, map};
ghost use Rattle.std.specs.Simd.Lanes.{mask_l};
ghost use Rattle.memchr.specs.Find.{is_byte, is_byte2};
ghost use Rattle.hesc_specs.specs.Text.FirstPlace.{IsFirstPlace};

use crate::block::Block;
use crate::lanes::{
    block_hits_of_one, block_hits_of_two, hits_of_one, hits_of_one_at, hits_of_two,
};
use memchr::{memchr, memchr2};
use std::simd::prelude::*;

/// The least place at or after `from` with this byte, or the length where there is none.
///
/// `first_byte(b'<', b"a<b", 0)` is 1, and from 2 on it is 3.
#[inline(always)]
pub fn first_byte(byte: u8, bytes: &[u8], from: usize) -> usize
    requires { from ≤ length bytes.now }
    ensures { IsFirstPlace (is_byte byte) bytes.now from result }
{
    // Where there are many, the next is often near, and no call is made for it. The first byte is not
    // looked at by itself where there are 32: their load would be made of pieces.
    let (chunks, _) = bytes[from..].as_chunks::<32>();
    if chunks.is_empty() {
        if from < bytes.len() && bytes[from] == byte {
            return from;
        }
        return first_byte_near(byte, bytes, from);
    }
    let mask = hits_of_one(byte, u8x32::from_array(chunks[0]));
    if mask != 0 {
        return from + mask.trailing_zeros() as usize;
    }
    if bytes.len() - from <= 64 {
        return first_byte_near(byte, bytes, from + 32);
    }
    first_byte_far(byte, bytes, from)
}

// Where 32 bytes or fewer are left, they are looked at as two halves that overlap, among the last 16
// of the text, or, in a shorter one, as one block.
#[inline(never)]
fn first_byte_near(byte: u8, bytes: &[u8], from: usize) -> usize
    requires within { from ≤ length bytes.now }
    requires few { length bytes.now ≤ from + 32 }
    ensures { IsFirstPlace (is_byte byte) bytes.now from result }
{
    if bytes.len() - from >= 16 {
        return first_byte_of_halves(byte, bytes, from);
    }
    if bytes.len() >= 16 {
        return first_byte_of_last(byte, bytes, from);
    }
    let mask = block_hits_of_one(byte, &Block::rest(bytes, from));
    first_set(mask, bytes, from)
}

// No mask is put together of the halves' masks: most texts have none of the bytes.
#[inline(always)]
fn first_byte_of_halves(byte: u8, bytes: &[u8], from: usize) -> usize
    requires one { from + 16 ≤ length bytes.now }
    requires both { length bytes.now ≤ from + 32 }
    ensures { IsFirstPlace (is_byte byte) bytes.now from result }
{
    let mask = hits_of_one_at::<16>(byte, bytes, from);
    if mask != 0 {
        return from + mask.trailing_zeros() as usize;
    }
    let last = bytes.len() - 16;
    let mask = hits_of_one_at::<16>(byte, bytes, last);
    if mask != 0 {
        return last + mask.trailing_zeros() as usize;
    }
    bytes.len()
}

// The mask of the last 16 bytes, without those before `from`.
#[inline(always)]
fn first_byte_of_last(byte: u8, bytes: &[u8], from: usize) -> usize
    requires long { 16 ≤ length bytes.now }
    requires within { from ≤ length bytes.now }
    requires few { length bytes.now ≤ from + 16 }
    ensures { IsFirstPlace (is_byte byte) bytes.now from result }
{
    let start = bytes.len() - 16;
    let hits = hits_of_one_at::<16>(byte, bytes, start);
    first_set(hits >> (from - start), bytes, from)
}

#[inline(never)]
pub(crate) fn first_byte_far(byte: u8, bytes: &[u8], from: usize) -> usize
    requires { from ≤ length bytes.now }
    ensures { IsFirstPlace (is_byte byte) bytes.now from result }
{
    match memchr(byte, &bytes[from..]) {
        Some(distance) => from + distance,
        None => bytes.len(),
    }
}

/// The least place at or after `from` with one of these bytes, or the length where there is none.
///
/// `first_of_two(b'&', b';', b"a;b&", 0)` is 1, and from 2 on it is 3.
#[inline(always)]
pub fn first_of_two(one: u8, other: u8, bytes: &[u8], from: usize) -> usize
    requires { from ≤ length bytes.now }
    ensures { IsFirstPlace (is_byte2 one other) bytes.now from result }
{
    let (chunks, _) = bytes[from..].as_chunks::<32>();
    if chunks.is_empty() {
        return first_of_two_near(one, other, bytes, from);
    }
    let mask = hits_of_two(one, other, u8x32::from_array(chunks[0]));
    if mask != 0 {
        return from + mask.trailing_zeros() as usize;
    }
    first_of_two_far(one, other, bytes, from)
}

#[inline(never)]
fn first_of_two_near(one: u8, other: u8, bytes: &[u8], from: usize) -> usize
    requires within { from ≤ length bytes.now }
    requires few { length bytes.now < from + 32 }
    ensures { IsFirstPlace (is_byte2 one other) bytes.now from result }
{
    let mask = block_hits_of_two(one, other, &Block::rest(bytes, from));
    first_set(mask, bytes, from)
}

#[inline(never)]
fn first_of_two_far(one: u8, other: u8, bytes: &[u8], from: usize) -> usize
    requires { from ≤ length bytes.now }
    ensures { IsFirstPlace (is_byte2 one other) bytes.now from result }
{
    match memchr2(one, other, &bytes[from..]) {
        Some(distance) => from + distance,
        None => bytes.len(),
    }
}

// The place of the first byte whose bit is set in the mask of all bytes from `from` on.
#[inline(always)]
fn first_set(mask: u64, bytes: &[u8], from: usize) -> usize
    requires within { from ≤ length bytes.now }
    requires few { length bytes.now < from + 32 }
    ensures { (test : ℕ → Bool) → mask ≡ mask_l (map test (drop from bytes.now))
        → IsFirstPlace test bytes.now from result }
{
    if mask == 0 {
        return bytes.len();
    }
    from + mask.trailing_zeros() as usize
}
