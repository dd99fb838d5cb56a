//! The component of a block of a text.
ghost use Rattle.std.specs.Prelude.{◌≡◌, ◌≤◌, ◌<◌, ◌+◌, ◌*◌, ◌++◌, ◌↔◌, length};
ghost use Rattle.hesc_sinks.specs.Stores.{Stored};
ghost use Rattle.html_urls.specs.Components.{IsUnreservedText, component};

use crate::component::lanes::{LANES, store_lanes};
use crate::component::rows::store_encoded;
use hesc_engine::in_place::{InPlace, Storing};
use percent_encoding::ascii_str;

/// The bytes of a text that are encoded at once.
pub(crate) const BLOCK: usize = 64;

/// Room for what fewer bytes than are encoded by lanes become, and for padding.
pub(crate) const SHORT_ROOM: usize = 64;

/// Room for what as many bytes become as are encoded at once, each of them three, and for padding.
pub(crate) const BLOCK_ROOM: usize = 208;

/// The first bytes, as many as are encoded at once, and the others.
#[inline(always)]
pub(crate) fn first_block(bytes: &[u8]) -> (&[u8], &[u8])
    requires { 0 < length bytes.now }
    ensures parts { component bytes.now ≡ component result.0.now ++ component result.1.now }
    ensures unreserved { IsUnreservedText bytes.now
        ↔ IsUnreservedText result.0.now × IsUnreservedText result.1.now }
    ensures few { length result.0.now ≤ 64 }
    ensures shorter { length result.1.now < length bytes.now }
{
    bytes.split_at(bytes.len().min(BLOCK))
}

/// The component of bytes that stay as they are, which they are themselves.
#[inline(always)]
pub(crate) fn kept_block(bytes: &[u8]) -> &str
    requires { IsUnreservedText bytes.now }
    ensures { result.now ≡ component bytes.now }
{
    ascii_str(bytes)
}

/// The component of bytes that change, which is made where it is to stand.
#[derive(Clone, Copy)]
pub(crate) struct MadeBlock<'b> {
    pub(crate) bytes: &'b [u8],
    pub(crate) ghost few: { length bytes.now ≤ 64 },
}

impl Storing for MadeBlock<'_> {
    ghost text = { λ block. component block.bytes.now };

    ghost needed = { λ block. length block.bytes.now * 3 + 16 };

    #[inline(always)]
    fn store_at(&self, room: &mut [u8], place: usize) -> usize {
        store_block(room, place, self.bytes)
    }
}

impl InPlace for MadeBlock<'_> {
    // Each byte becomes three at most, and the last ones have padding.
    #[inline(always)]
    fn needed_room(&self) -> usize {
        self.bytes.len() * 3 + 16
    }
}

/// The component of the bytes, made at the front of the room.
#[inline(always)]
pub(crate) fn made_block<'r>(bytes: &[u8], room: &'r mut [u8]) -> &'r str
    requires { length bytes.now * 3 + 16 ≤ length room.now }
    ensures { result.now ≡ component bytes.now }
{
    let end = store_block(room, 0, bytes);
    ascii_str(&room[..end])
}

// Stores the component of the bytes at a place, and answers the place after it. What stands behind it
// afterwards is lost.
#[inline(always)]
fn store_block(room: &mut [u8], place: usize, bytes: &[u8]) -> usize
    requires { place + length bytes.now * 3 + 16 ≤ length room.old }
    ensures { Stored room.old room.new place (component bytes.now) result }
{
    let mut end = place;
    let mut from = 0;
    // So few at first that all others are encoded by lanes.
    let mut count = (bytes.len() + LANES - 1) % LANES + 1;
    'storing: while bytes.len() - from >= LANES {
        end = store_lanes(room, end, &bytes[from..], count);
        from += count;
        count = LANES;
    }
    store_each(room, end, &bytes[from..])
}

// One by one.
#[inline(always)]
fn store_each(room: &mut [u8], place: usize, bytes: &[u8]) -> usize
    requires { place + length bytes.now * 3 + 1 ≤ length room.old }
    ensures { Stored room.old room.new place (component bytes.now) result }
{
    let mut end = place;
    for b in bytes {
        end = store_encoded(room, end, *b);
    }
    end
}
