//! Upper bounds of the length of an encoding by the length of its text alone.
ghost use Rattle.std.specs.Prelude.{◌≡◌, ◌≤◌, [], length, IfSome};
ghost use Rattle.hesc_specs.specs.Bodies.Encoding.{body_encoding};
ghost use Rattle.hesc_specs.specs.Text.Escaped.{escaped};
ghost use Rattle.hesc_specs.specs.declared.elements.Element.{Element};

use hesc_specs::Class;

/// As many bytes as the encoding by the class has or more, for any text of this length, and 0 where
/// it has none; `None` where they would pass the greatest `usize`.
///
/// Of `Class::Text` and `a<b` it is 18, where the encoding has 6 bytes.
#[inline(always)]
pub fn longest_escaped(class: Class, text: &str) -> Option<usize>
    ensures enough { IfSome result (λ longest. length (escaped class text.now) ≤ longest) }
    ensures empty { IfSome result (λ longest. escaped class text.now ≡ [] → longest ≡ 0) }
{
    let _class = class;
    // A reference has six bytes at most. No byte becomes more than four of an escape.
    text.len().checked_mul(6)
}

/// The same for the body encoding of these bytes, for each element.
///
/// Of `</b>` it is 8, where the encoding has 4 bytes.
#[inline(always)]
pub fn longest_body(bytes: &[u8]) -> Option<usize>
    ensures enough { (element : Element) →
        IfSome result (λ longest. length (body_encoding element bytes.now) ≤ longest) }
    ensures empty { (element : Element) →
        IfSome result (λ longest. body_encoding element bytes.now ≡ [] → longest ≡ 0) }
{
    bytes.len().checked_mul(2)
}
