//! An upper bound of the length of a body encoding.
ghost use Rattle.std.specs.Prelude.{◌≡◌, ◌≤◌, ◌==◌, [], length, if◌then◌else◌, IfSome};
ghost use Rattle.hesc_specs.specs.Text.Ascii.{less_than};
ghost use Rattle.hesc_specs.specs.Bodies.Encoding.{body_encoding};
ghost use Rattle.hesc_specs.specs.declared.elements.Element.{Element};

use crate::length::added::{AddedLength, total_length};
use std::simd::prelude::*;

/// As many bytes as the body encoding of these bytes has or more, for each element, and 0 where it
/// has none; `None` where the count would pass the greatest `usize`.
///
/// `body_bound(b"</script>")` is `Some(10)`: a byte more for each `<`.
pub fn body_bound(bytes: &[u8]) -> Option<usize>
    ensures enough { (element : Element) →
        IfSome result (λ bound. length (body_encoding element bytes.now) ≤ bound) }
    ensures empty { (element : Element) →
        IfSome result (λ bound. body_encoding element bytes.now ≡ [] → bound ≡ 0) }
{
    total_length(&OneForEachLess, bytes)
}

// Each opening begins with `<`, and is one byte longer in the encoding.
struct OneForEachLess;

impl AddedLength for OneForEachLess {
    ghost of_byte = { λ added b. if b == less_than then 1 else 0 };

    #[inline(always)]
    fn of_lanes(&self, v: u8x32) -> u8x32 {
        v.simd_eq(u8x32::splat(b'<'))
            .select(u8x32::splat(1), u8x32::splat(0))
    }
}
