//! An upper bound of the length of a string encoding.
ghost use Rattle.std.specs.Prelude.{◌≡◌, ◌≢◌, ◌≤◌, [], None, length, IfSome};
ghost use Rattle.hesc_specs.specs.Text.Classes.{string_class};
ghost use Rattle.hesc_specs.specs.Text.Escaped.{escaped};

use crate::length::added::total_length;
use crate::lookup::groups::Groups;
use hesc_specs::Class;

/// As many bytes as the string encoding of the text has or more, and 0 where it has none; `None`
/// where the count would pass the greatest `usize`.
///
/// It is more only where a style's string holds NUL, and where a script's holds characters other than
/// the separators that begin with their first byte, E2.
///
/// `string_bound(Class::ScriptQuoted, "it's")` is `Some(5)`.
pub fn string_bound(class: Class, text: &str) -> Option<usize>
    requires { string_class class ≢ None }
    ensures enough { IfSome result (λ bound. length (escaped class text.now) ≤ bound) }
    ensures empty { IfSome result (λ bound. escaped class text.now ≡ [] → bound ≡ 0) }
{
    total_length(&Groups::of(class), text.as_bytes())
}
