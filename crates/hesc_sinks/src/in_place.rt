//! A text that is made where it is to stand.
ghost use Rattle.std.specs.Prelude.{◌≡◌, ◌≤◌, ◌+◌, ℕ, List, length};
ghost use Rattle.std.specs.Str.{IsUtf8};
ghost use Rattle.hesc_sinks.specs.Stores.{Stored};

use std::str;

/// The most room that a short text asks for.
pub(crate) const IN_PLACE_ROOM: usize = 208;

/// A text that stores itself where it is to stand, so that it is not copied there.
pub trait Storing {
    ghost text: { Self → List ℕ };

    ghost needed: { Self → ℕ };

    /// Stores the text at a place with as much room as it needs, and answers the place after it. What
    /// stands there afterwards is lost.
    ///
    /// Of the component of `a b` it stores `a%20b` and answers the place 5 bytes on.
    fn store_at(&self, room: &mut [u8], place: usize) -> usize
        requires { place + needed self.now ≤ length room.old }
        ensures stored { Stored room.old room.new place (text self.now) result }
        ensures utf8 { IsUtf8 (text self.now) };
}

/// A short one.
pub trait InPlace: Storing {
    /// How many bytes of room the text is made in, padding included: at most 208.
    ///
    /// Of the component of `a b` it is 25.
    fn needed_room(&self) -> usize
        ensures needed { result ≡ Self.needed self.now }
        ensures most { result ≤ 208 };
}

/// The text, made at the front of the room.
#[inline(always)]
pub(crate) fn made_in<'r, T: InPlace>(text: &T, room: &'r mut [u8]) -> &'r str
    requires { 208 ≤ length room.now }
    ensures { result.now ≡ T.text text.now }
{
    let _enough = text.needed_room();
    let end = text.store_at(room, 0);
    // What is made in place is UTF-8.
    unsafe { str::from_utf8_unchecked(&room[..end]) }
}
