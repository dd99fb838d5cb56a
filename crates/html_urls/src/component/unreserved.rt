//! Whether bytes stand in a component as they are, 16 of them at a time.
ghost use Rattle.std.specs.Prelude.{◌≡◌, ◌≤◌, ◌+◌, ◌-◌, ◌++◌, ◌↔◌, ◌==◌, IsTrue, drop, length, map, take};
ghost use Rattle.std.specs.Simd.Lanes.{mask_l};
ghost use Rattle.html_urls.specs.Components.{IsUnreservedText, is_encoded};

use crate::component::rows::is_kept;
use std::simd::prelude::*;

/// The unreserved bytes are those whose halves have a group in common: `-` and `.`, the digits, the
/// letters up to `O`, those from `P` on with `_`, and from `p` on with `~`.
const GROUPS_BY_LOW_HALF: [u8; 16] = [26, 30, 30, 30, 30, 30, 30, 30, 30, 30, 28, 4, 4, 5, 21, 12];

const GROUP_BY_HIGH_HALF: [u8; 16] = [0, 0, 1, 2, 4, 8, 4, 16, 0, 0, 0, 0, 0, 0, 0, 0];

/// Whether none of the bytes, at most 64, is percent-encoded.
#[inline(always)]
pub(crate) fn is_unreserved_block(bytes: &[u8]) -> bool
    requires { length bytes.now ≤ 64 }
    ensures { IsTrue result ↔ IsUnreservedText bytes.now }
{
    if bytes.len() >= 32 {
        is_unreserved_by_halves(bytes)
    } else if bytes.len() >= 16 {
        is_unreserved_by_sixteen(bytes)
    } else if bytes.len() >= 8 {
        is_unreserved_by_eight(bytes)
    } else {
        bytes.iter().all(|b| is_kept(*b))
    }
}

// The first 32, and the last 32, which overlap the first.
#[inline(always)]
fn is_unreserved_by_halves(bytes: &[u8]) -> bool
    requires one { 32 ≤ length bytes.now }
    requires both { length bytes.now ≤ 64 }
    ensures { IsTrue result ↔ IsUnreservedText bytes.now }
{
    if !is_unreserved_by_sixteen(&bytes[..32]) {
        return false;
    }
    is_unreserved_by_sixteen(&bytes[bytes.len() - 32..])
}

#[inline(always)]
fn is_unreserved_by_sixteen(bytes: &[u8]) -> bool
    requires one { 16 ≤ length bytes.now }
    requires both { length bytes.now ≤ 32 }
    ensures { IsTrue result ↔ IsUnreservedText bytes.now }
{
    let first = encoded_mask(bytes, 0);
    let last = encoded_mask(bytes, bytes.len() - 16);
    are_empty(first, last)
}

#[inline(always)]
fn are_empty(one: u64, other: u64) -> bool
    ensures { IsTrue result ↔ (one ≡ 0) × (other ≡ 0) }
{
    one == 0 && other == 0
}

#[inline(always)]
fn is_unreserved_by_eight(bytes: &[u8]) -> bool
    requires one { 8 ≤ length bytes.now }
    requires both { length bytes.now ≤ 16 }
    ensures { IsTrue result ↔ IsUnreservedText bytes.now }
{
    encoded_lanes(first_and_last_eight(bytes)) == 0
}

#[inline(always)]
fn first_and_last_eight(bytes: &[u8]) -> u8x16
    requires { 8 ≤ length bytes.now }
    ensures { result ≡ take 8 bytes.now ++ drop (length bytes.now - 8) bytes.now }
{
    let first = u8x8::from_slice(bytes);
    let last = u8x8::from_slice(&bytes[bytes.len() - 8..]);
    first.shuffle(last, [0, 1, 2, 3, 4, 5, 6, 7, 8, 9, 10, 11, 12, 13, 14, 15])
}

/// Bit `k` is set exactly if byte `place + k` is percent-encoded, of 16 bytes.
#[inline(always)]
pub(crate) fn encoded_mask(bytes: &[u8], place: usize) -> u64
    requires { place + 16 ≤ length bytes.now }
    ensures { result ≡ mask_l (map is_encoded (take 16 (drop place bytes.now))) }
{
    encoded_lanes(u8x16::from_slice(&bytes[place..]))
}

#[inline(always)]
fn encoded_lanes(v: u8x16) -> u64
    requires { length v ≡ 16 }
    ensures { result ≡ mask_l (map is_encoded v) }
{
    shared_groups(v).simd_eq(u8x16::splat(0)).to_bitmask()
}

/// The groups that the halves of each byte have in common: none where it is percent-encoded.
#[inline(always)]
pub(crate) fn shared_groups(v: u8x16) -> u8x16
    requires { length v ≡ 16 }
    ensures { map (λ groups. groups == 0) result ≡ map is_encoded v }
{
    let low = u8x16::from_array(GROUPS_BY_LOW_HALF).swizzle_dyn_within::<16>(v & u8x16::splat(15));
    let high = u8x16::from_array(GROUP_BY_HIGH_HALF).swizzle_dyn_within::<16>(v >> u8x16::splat(4));
    low & high
}
