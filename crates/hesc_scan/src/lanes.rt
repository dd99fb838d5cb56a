//! Which of 32 bytes are a given one, or one of two, for all of them at once.
ghost use Rattle.std.specs.Prelude.{◌≡◌, ◌≤◌, ◌<◌, ◌+◌, drop, length, map, take};
ghost use Rattle.std.specs.Simd.Lanes.{Each1, mask_l};
ghost use Rattle.memchr.specs.Find.{is_byte, is_byte2};
ghost use Rattle.hesc_scan.specs.Blocks.{block_bytes};

use crate::block::Block;
use std::simd::prelude::*;

/// Bit `k` of the answer is set exactly if byte `k` is this one.
#[inline(always)]
pub(crate) fn hits_of_one(byte: u8, v: u8x32) -> u64
    requires { Each1 (λ b. b < 256) v }
    ensures { result ≡ mask_l (map (is_byte byte) v) }
{
    v.simd_eq(u8x32::splat(byte)).to_bitmask()
}

/// The same for the bytes of a block.
#[inline(always)]
pub(crate) fn block_hits_of_one(byte: u8, block: &Block) -> u64
    ensures { result ≡ mask_l (map (is_byte byte) (block_bytes block.now)) }
{
    block.mask_of(hits_of_one(byte, block.lanes()))
}

/// The same for so many bytes from a place on, 16 or 32.
#[inline(always)]
pub(crate) fn hits_of_one_at<const N: usize>(byte: u8, bytes: &[u8], place: usize) -> u64
    requires few { N ≤ 32 }
    requires there { place + N ≤ length bytes.now }
    ensures { result ≡ mask_l (map (is_byte byte) (take N (drop place bytes.now))) }
{
    let lanes = Simd::<u8, N>::from_slice(&bytes[place..]);
    lanes.simd_eq(Simd::<u8, N>::splat(byte)).to_bitmask()
}

/// Bit `k` of the answer is set exactly if byte `k` is one of the two.
#[inline(always)]
pub(crate) fn hits_of_two(one: u8, other: u8, v: u8x32) -> u64
    requires { Each1 (λ b. b < 256) v }
    ensures { result ≡ mask_l (map (is_byte2 one other) v) }
{
    (v.simd_eq(u8x32::splat(one)) | v.simd_eq(u8x32::splat(other))).to_bitmask()
}

/// The same for the bytes of a block.
#[inline(always)]
pub(crate) fn block_hits_of_two(one: u8, other: u8, block: &Block) -> u64
    ensures { result ≡ mask_l (map (is_byte2 one other) (block_bytes block.now)) }
{
    block.mask_of(hits_of_two(one, other, block.lanes()))
}
