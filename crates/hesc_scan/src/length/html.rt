//! The length of an HTML encoding.
ghost use Rattle.std.specs.Prelude.{◌≡◌, ◌<◌, ◌^◌, length, IfSome, IsSome};
ghost use Rattle.hesc_specs.specs.Text.Classes.{IsHtml};
ghost use Rattle.hesc_specs.specs.Html.{encoding};

use crate::length::added::total_length;
use crate::lookup::entries::Entries;
use crate::lookup::symbols::Symbols;
use hesc_specs::Class;

/// The length of the HTML encoding of these bytes, or `None` where it would pass the greatest
/// `usize`.
///
/// `encoded_length(Class::Text, b"a<b")` is `Some(6)`.
pub fn encoded_length(class: Class, bytes: &[u8]) -> Option<usize>
    requires { IsHtml class }
    ensures count { IfSome result (λ count. count ≡ length (encoding class bytes.now)) }
    ensures fits { length (encoding class bytes.now) < 2 ^ 64 → IsSome result }
{
    match class {
        Class::UnquotedAttribute => total_length(&Symbols, bytes),
        _ => total_length(&Entries::of(class), bytes),
    }
}
