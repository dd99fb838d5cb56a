//! Up to 32 bytes in the lanes of one vector: a chunk, or what a text has after its chunks.
ghost use Rattle.std.specs.Prelude.{◌≡◌, ◌≤◌, ◌<◌, ◌+◌, ◌-◌, ◌*◌, ℕ, [], drop, length, slice_index, take};

use std::simd::prelude::*;

/// Bytes that stand in the first `front` lanes, and in those from `skip` on.
#[derive(Clone, Copy)]
pub(crate) struct Block {
    lanes: u8x32,
    front: usize,
    skip: usize,
    ghost long: { length lanes ≡ 32 },
    ghost within: { (front ≤ skip) × (skip ≤ 32) },
    ghost below: { (k : ℕ) → slice_index lanes k < 256 },
}

impl Block {
    ghost use Rattle.std.specs.Prelude.{Bool, map};
    ghost use Rattle.std.specs.List.{sum_by};
    ghost use Rattle.std.specs.Simd.Lanes.{Each1, mask_l, sum_l};
    ghost use Rattle.hesc_scan.specs.Blocks.{block_bytes, block_lanes};

    /// The 32 bytes of a chunk.
    #[inline(always)]
    pub(crate) fn full(chunk: &[u8; 32]) -> Block
        requires { Each1 (λ b. b < 256) chunk.now }
        ensures { block_bytes result ≡ chunk.now }
    {
        Block {
            lanes: u8x32::from_array(*chunk),
            front: 0,
            skip: 0,
        }
    }

    /// The bytes from a place on, fewer than 32.
    #[inline(always)]
    pub(crate) fn rest(bytes: &[u8], place: usize) -> Block
        requires within { place ≤ length bytes.now }
        requires few { length bytes.now < place + 32 }
        ensures { block_bytes result ≡ drop place bytes.now }
    {
        if bytes.len() >= 32 {
            // The last 32 bytes of the text, where those before the place do not count.
            let start = bytes.len() - 32;
            return Block {
                lanes: u8x32::from_slice(&bytes[start..]),
                front: 0,
                skip: place - start,
            };
        }
        Block::short(&bytes[place..])
    }

    // Fewer than 32 bytes.
    #[inline(always)]
    fn short(bytes: &[u8]) -> Block
        requires { length bytes.now < 32 }
        ensures { block_bytes result ≡ bytes.now }
    {
        if bytes.len() >= 16 {
            Block::halves::<16>(bytes)
        } else if bytes.len() >= 8 {
            Block::halves::<8>(bytes)
        } else if bytes.len() >= 4 {
            Block::halves::<4>(bytes)
        } else if bytes.len() >= 2 {
            Block::halves::<2>(bytes)
        } else if bytes.len() == 1 {
            Block::halves::<1>(bytes)
        } else {
            Block::empty()
        }
    }

    // No bytes.
    #[inline(always)]
    fn empty() -> Block
        ensures { block_bytes result ≡ [] }
    {
        Block {
            lanes: u8x32::from_array(no_bytes()),
            front: 0,
            skip: 32,
        }
    }

    // As many bytes as a half has, or up to twice as many: the last ones overlap the first.
    #[inline(always)]
    fn halves<const N: usize>(bytes: &[u8]) -> Block
        requires small { N ≤ 16 }
        requires one { N ≤ length bytes.now }
        requires both { length bytes.now ≤ 2 * N }
        ensures { block_bytes result ≡ bytes.now }
    {
        Block {
            lanes: u8x32::from_array(ends::<N>(bytes)),
            front: N,
            skip: 32 - (bytes.len() - N),
        }
    }

    /// The lanes.
    #[inline(always)]
    pub(crate) fn lanes(&self) -> u8x32
        ensures lanes { result ≡ block_lanes self.now }
        ensures below { Each1 (λ b. b < 256) result }
    {
        self.lanes
    }

    /// The mask of the bytes, from that of the lanes: bit `k` for byte `k`.
    #[inline(always)]
    pub(crate) fn mask_of(&self, mask: u64) -> u64
        ensures { (test : ℕ → Bool) → mask ≡ mask_l (map test (block_lanes self.now))
            → result ≡ mask_l (map test (block_bytes self.now)) }
    {
        let front = mask & ((1 << self.front) - 1);
        ((mask >> self.skip) << self.front) | front
    }

    /// The values of the lanes that hold the bytes, and 0 for the other lanes.
    #[inline(always)]
    pub(crate) fn kept(&self, values: u8x32) -> u8x32
        ensures sum { (f : ℕ → ℕ) → values ≡ map f (block_lanes self.now)
            → sum_l result ≡ sum_by f (block_bytes self.now) }
        ensures few { (most : ℕ) → Each1 (λ a. a ≤ most) values → Each1 (λ a. a ≤ most) result }
    {
        let lane = u8x32::from_array(LANES);
        let held = lane.simd_lt(u8x32::splat(self.front as u8))
            | lane.simd_ge(u8x32::splat(self.skip as u8));
        held.select(values, u8x32::splat(0))
    }
}

const LANES: [u8; 32] = [
    0, 1, 2, 3, 4, 5, 6, 7, 8, 9, 10, 11, 12, 13, 14, 15, //
    16, 17, 18, 19, 20, 21, 22, 23, 24, 25, 26, 27, 28, 29, 30, 31, //
];

// The first bytes at the front and the last ones at the back, as many as a half has of each, by one load
// and one store each.
#[inline(always)]
fn ends<const N: usize>(bytes: &[u8]) -> [u8; 32]
    requires small { N ≤ 16 }
    requires one { N ≤ length bytes.now }
    ensures front { take N result ≡ take N bytes.now }
    ensures back { drop (32 - N) result ≡ drop (length bytes.now - N) bytes.now }
{
    let last = &bytes[bytes.len() - N..];
    let mut lanes = beginning::<N>(bytes);
    Simd::<u8, N>::from_slice(last).copy_to_slice(&mut lanes[32 - N..]);
    lanes
}

// The first bytes at the front.
#[inline(always)]
fn beginning<const N: usize>(bytes: &[u8]) -> [u8; 32]
    requires small { N ≤ 16 }
    requires there { N ≤ length bytes.now }
    ensures { take N result ≡ take N bytes.now }
{
    let mut lanes = no_bytes();
    Simd::<u8, N>::from_slice(bytes).copy_to_slice(&mut lanes);
    lanes
}

// Lanes that hold no byte.
#[inline(always)]
fn no_bytes() -> [u8; 32]
    ensures { drop 32 result ≡ [] }
{
    [0; 32]
}
