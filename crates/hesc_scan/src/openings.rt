//! The openings of a body: `<!--`, or `</` and the element's name where it ends.
ghost use Rattle.std.specs.Prelude.{◌≡◌};
ghost use Rattle.hesc_specs.specs.Text.Elements.{element_name};
ghost use Rattle.hesc_specs.specs.Bodies.Openings.{completes_opening, ends_name};
ghost use Rattle.hesc_specs.specs.Text.Words.{begins_in_any_case};

use hesc_specs::Element;

/// Whether the bytes right after a `<` complete an opening.
///
/// `completes_opening(Element::Script, b"/script>")`, and not `completes_opening(Element::Script, b"/b>")`.
#[inline(always)]
pub fn completes_opening(element: Element, rest: &[u8]) -> bool
    ensures { result ≡ completes_opening element rest.now }
{
    match rest {
        [b'!', b'-', b'-', ..] => true,
        [b'/', tag @ ..] => is_named(element, tag),
        _ => false,
    }
}

/// Whether the bytes begin with the element's name, in any ASCII case, and the name ends there.
///
/// `is_named(Element::Script, b"SCRIPT>")`, and not `is_named(Element::Script, b"scripts>")`.
pub fn is_named(element: Element, tag: &[u8]) -> bool
    ensures { result ≡ begins_in_any_case (element_name element) ends_name tag.now }
{
    let name = name_of(element);
    for (i, letter) in name.iter().enumerate() {
        match tag.get(i) {
            Some(byte) if byte.to_ascii_lowercase() == *letter => {}
            _ => return false,
        }
    }
    ends_name(&tag[name.len()..])
}

fn ends_name(rest: &[u8]) -> bool
    ensures { result ≡ ends_name rest.now }
{
    match rest {
        [] => true,
        [byte, ..] => matches!(*byte, b'/' | b'>' | 9..=13 | 28..=32),
    }
}

/// The element's name, in lower case.
///
/// `name_of(Element::Script)` is `b"script"`.
pub fn name_of(element: Element) -> &'static [u8]
    ensures { result.now ≡ element_name element }
{
    match element {
        Element::Script => b"script",
        Element::Style => b"style",
    }
}
