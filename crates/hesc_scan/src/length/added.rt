//! How long an encoding is that adds bytes to each byte by itself, summed 32 bytes at a time with no
//! branch: whether 32 bytes hold something to replace is often guessed wrongly.
ghost use Rattle.std.specs.Prelude.{◌≡◌, ◌≤◌, ◌<◌, ◌+◌, ◌*◌, ◌%◌, ◌^◌, ℕ, length, map, IfSome, IsSome};
ghost use Rattle.std.specs.List.{sum_by};
ghost use Rattle.std.specs.Simd.Lanes.{Each1};
ghost use Rattle.hesc_scan.specs.Blocks.{block_bytes};

use crate::block::Block;
use std::simd::prelude::*;

/// How many bytes an encoding adds to each byte, five at most.
pub(crate) trait AddedLength {
    ghost of_byte: { Self → ℕ → ℕ };

    /// How many it adds to each of 32 bytes.
    fn of_lanes(&self, v: u8x32) -> u8x32
        requires { Each1 (λ b. b < 256) v }
        ensures added { result ≡ map (of_byte self.now) v }
        ensures few { Each1 (λ a. a ≤ 5) result };
}

/// The length of the bytes and of what is added to them, or `None` where it would pass the greatest
/// `usize`.
#[inline(always)]
pub(crate) fn total_length<L: AddedLength>(added: &L, bytes: &[u8]) -> Option<usize>
    ensures count { IfSome result (λ count.
        count ≡ length bytes.now + sum_by (L.of_byte added.now) bytes.now) }
    ensures fits { length bytes.now + sum_by (L.of_byte added.now) bytes.now < 2 ^ 64
        → IsSome result }
{
    let mut count = bytes.len();
    let mut place = 0;
    'counting: while bytes.len() - place >= 32 {
        let blocks = ((bytes.len() - place) / 32).min(48);
        let end = place + 32 * blocks;
        count = count.checked_add(added_to_blocks(added, &bytes[place..end]) as usize)?;
        place = end;
    }
    if place == bytes.len() {
        return Some(count);
    }
    count.checked_add(added_to_block(added, &Block::rest(bytes, place)) as usize)
}

// What is added to at most 48 blocks, so that each lane's sum is a byte.
#[inline(always)]
fn added_to_blocks<L: AddedLength>(added: &L, bytes: &[u8]) -> u16
    requires whole { length bytes.now % 32 ≡ 0 }
    requires few { length bytes.now ≤ 32 * 48 }
    ensures { result ≡ sum_by (L.of_byte added.now) bytes.now }
{
    let (chunks, _) = bytes.as_chunks::<32>();
    let mut sums = u8x32::splat(0);
    for chunk in chunks {
        sums = sums.strict_add(added.of_lanes(u8x32::from_array(*chunk)));
    }
    sums.cast::<u16>().strict_reduce_sum()
}

#[inline(always)]
fn added_to_block<L: AddedLength>(added: &L, block: &Block) -> u16
    ensures { result ≡ sum_by (L.of_byte added.now) (block_bytes block.now) }
{
    let kept = block.kept(added.of_lanes(block.lanes()));
    kept.cast::<u16>().strict_reduce_sum()
}
