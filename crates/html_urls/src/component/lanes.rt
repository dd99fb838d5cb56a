//! Sixteen bytes of a text, encoded by lanes: eight of them by one look-up.
ghost use Rattle.std.specs.Prelude.{◌≡◌, ℕ, ◌+◌, ◌≤◌, ◌<◌, List, drop, length, map, take};
ghost use Rattle.std.specs.List.{AllPass};
ghost use Rattle.std.specs.Simd.Lanes.{mask_l};
ghost use Rattle.hesc_sinks.specs.Stores.{Stored};
ghost use Rattle.html_urls.specs.Components.{component, is_encoded};
ghost use Rattle.html_urls.specs.Components.Lanes.{high_digit, is_pick, lanes_of, low_digit, picked_from, with_signs};

use crate::component::picks::picks_for;
use crate::component::unreserved::{encoded_mask, shared_groups};
use std::simd::prelude::*;

/// The bytes that are encoded by lanes.
pub(crate) const LANES: usize = 16;

/// Stores what the first bytes become, at most 16 of them, at a place where a row for each of 16 fits, and
/// answers the place after it. What stands there afterwards is lost.
#[inline(always)]
pub(crate) fn store_lanes(room: &mut [u8], place: usize, bytes: &[u8], count: usize) -> usize
    requires few { count ≤ 16 }
    requires there { 16 ≤ length bytes.now }
    requires fits { place + 64 ≤ length room.old }
    ensures { Stored room.old room.new place (component (take count bytes.now)) result }
{
    let mask = encoded_mask(bytes, 0);
    let _end = store_sixteen(room, place, u8x16::from_slice(bytes), mask);
    place + count + 2 * (mask % (1 << count)).count_ones() as usize
}

// Stores the component of all lanes, of which the mask tells those that are encoded.
#[inline(always)]
fn store_sixteen(room: &mut [u8], place: usize, v: u8x16, mask: u64) -> usize
    requires long { length v ≡ 16 }
    requires mask { mask ≡ mask_l (map is_encoded v) }
    requires fits { place + 64 ≤ length room.old }
    ensures { Stored room.old room.new place (component v) result }
{
    // So it is in a text that is not ASCII.
    if mask == 0xFFFF {
        return store_escapes(room, place, v);
    }
    let (first, last) = eights_of(v);
    let end = store_picked(room, place, first, mask % 256);
    store_picked(room, end, last, mask / 256)
}

// The same where all are encoded.
#[inline(always)]
fn store_escapes(room: &mut [u8], place: usize, v: u8x16) -> usize
    requires long { length v ≡ 16 }
    requires all { mask_l (map is_encoded v) ≡ 65535 }
    requires fits { place + 48 ≤ length room.old }
    ensures { Stored room.old room.new place (component v) result }
{
    let (high, low) = digits_of(v);
    let (early, late) = high.interleave(low);
    let end = store_eight(room, place, early);
    store_eight(room, end, late)
}

// Stores the escapes of eight bytes, whose digits these are.
#[inline(always)]
fn store_eight(room: &mut [u8], place: usize, digits: u8x16) -> usize
    requires long { length digits ≡ 16 }
    requires fits { place + 24 ≤ length room.old }
    ensures { Stored room.old room.new place (with_signs digits) result }
{
    let signs = u8x16::splat(b'%');
    let front: u8x16 = digits.shuffle(
        signs,
        [16, 0, 1, 16, 2, 3, 16, 4, 5, 16, 6, 7, 16, 8, 9, 16],
    );
    let back: u8x8 = digits.shuffle(signs, [10, 11, 16, 12, 13, 16, 14, 15]);
    front.copy_to_slice(&mut room[place..]);
    back.copy_to_slice(&mut room[place + 16..]);
    place + 24
}

// Stores the component of eight bytes, whose lanes these are, and of which the mask tells those that are
// encoded.
#[inline(always)]
fn store_picked(room: &mut [u8], place: usize, lanes: u8x16, mask: u64) -> usize
    requires long { length lanes ≡ 16 }
    requires mask { mask < 256 }
    requires fits { place + 32 ≤ length room.old }
    ensures { (bytes : List ℕ) → length bytes ≡ 8
        → lanes ≡ lanes_of bytes → mask ≡ mask_l (map is_encoded bytes)
        → Stored room.old room.new place (component bytes) result }
{
    let (front, back) = picks_for(mask);
    picked_lanes(lanes, front).copy_to_slice(&mut room[place..]);
    picked_lanes(lanes, back).copy_to_slice(&mut room[place + 16..]);
    place + 8 + 2 * mask.count_ones() as usize
}

// The lanes that are picked, and a `%` for none: no digit is less, and no byte that stays.
#[inline(always)]
fn picked_lanes(lanes: u8x16, picks: u8x16) -> u8x16
    requires long { length lanes ≡ 16 }
    requires row { length picks ≡ 16 }
    requires picks { AllPass is_pick picks }
    ensures { result ≡ map (picked_from lanes) picks }
{
    lanes
        .swizzle_dyn_within::<16>(picks)
        .simd_max(u8x16::splat(b'%'))
}

// The lanes of the first eight bytes, and those of the last.
#[inline(always)]
fn eights_of(v: u8x16) -> (u8x16, u8x16)
    requires { length v ≡ 16 }
    ensures first { result.0 ≡ lanes_of (take 8 v) }
    ensures last { result.1 ≡ lanes_of (drop 8 v) }
{
    let (high, low) = digits_of(v);
    let heads = shared_groups(v).simd_eq(u8x16::splat(0)).select(high, v);
    (
        heads.shuffle(
            low,
            [0, 1, 2, 3, 4, 5, 6, 7, 16, 17, 18, 19, 20, 21, 22, 23],
        ),
        heads.shuffle(
            low,
            [8, 9, 10, 11, 12, 13, 14, 15, 24, 25, 26, 27, 28, 29, 30, 31],
        ),
    )
}

// The two hexadecimal digits of each lane.
#[inline(always)]
fn digits_of(v: u8x16) -> (u8x16, u8x16)
    requires { length v ≡ 16 }
    ensures high { result.0 ≡ map high_digit v }
    ensures low { result.1 ≡ map low_digit v }
{
    let digits = u8x16::from_array(*b"0123456789ABCDEF");
    (
        digits.swizzle_dyn_within::<16>(v >> u8x16::splat(4)),
        digits.swizzle_dyn_within::<16>(v & u8x16::splat(15)),
    )
}
