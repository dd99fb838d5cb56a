//! A class of bytes, looked up for 32 of them at once.
pub(crate) mod entries;
pub(crate) mod groups;
pub(crate) mod symbols;

ghost use Rattle.std.specs.Prelude.{◌≡◌, ◌<◌, ℕ, Bool, map};
ghost use Rattle.std.specs.Simd.Lanes.{Each1, mask_l};
ghost use Rattle.hesc_scan.specs.Blocks.{block_bytes};

use crate::block::Block;
use std::simd::prelude::*;

/// A class with what its bytes are looked up by.
pub(crate) trait Lookup {
    ghost has: { Self → ℕ → Bool };

    /// Bit `k` of the answer is set exactly if byte `k` is in the class.
    fn hits(&self, v: u8x32) -> u64
        requires { Each1 (λ b. b < 256) v }
        ensures { result ≡ mask_l (map (has self.now) v) };
}

/// The same for the bytes of a block.
#[inline(always)]
pub(crate) fn hits_in<L: Lookup>(lookup: &L, block: &Block) -> u64
    ensures { result ≡ mask_l (map (L.has lookup.now) (block_bytes block.now)) }
{
    block.mask_of(lookup.hits(block.lanes()))
}
