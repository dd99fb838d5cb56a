//! The search for the end of a text that is partial: only what follows it decides whether an
//! opening begins there.
ghost use Rattle.std.specs.Prelude.{◌≡◌, ◌≤◌, ◌∷◌, length};
ghost use Rattle.hesc_specs.specs.Text.Ascii.{slash};
ghost use Rattle.hesc_specs.specs.Text.Elements.{element_name};
ghost use Rattle.hesc_specs.specs.Text.FirstPlace.{IsFirstAt};
ghost use Rattle.hesc_specs.specs.Bodies.Sessions.{is_partial as partial};
ghost use Rattle.hesc_specs.specs.Bodies.DecidedChanges.{partial_at};
ghost use Rattle.hesc_specs.specs.Text.Words.{is_beginning_in_any_case};

use hesc_core::Element;
use hesc_core::find::first_byte;

/// The most bytes that can be partial: `<`, `/` and the longer name.
pub(crate) const MOST_UNDECIDED: usize = 8;

/// The least place at or after `from` from which on the bytes are partial, or the length where
/// there is none. It goes from `<` to `<` among the last bytes alone.
pub(crate) fn first_partial(element: Element, bytes: &[u8], from: usize) -> usize
    requires { from ≤ length bytes.now }
    ensures { IsFirstAt (partial_at element bytes.now) from (length bytes.now) result }
{
    let start = from.max(bytes.len().saturating_sub(MOST_UNDECIDED));
    let mut place = first_byte(b'<', bytes, start);
    'seeking: while place < bytes.len() {
        if is_partial(element, &bytes[place..]) {
            return place;
        }
        place = first_byte(b'<', bytes, place + 1);
    }
    place
}

/// Whether only what follows the bytes decides if an opening begins at the first of them.
pub(crate) fn is_partial(element: Element, bytes: &[u8]) -> bool
    ensures { result ≡ partial element bytes.now }
{
    match bytes {
        [] => true,
        [b'<', after @ ..] => {
            if is_beginning(after, b"!-") {
                return true;
            }
            is_beginning(after, slash_and_name(element))
        }
        _ => false,
    }
}

fn is_beginning(bytes: &[u8], word: &[u8]) -> bool
    ensures { result ≡ is_beginning_in_any_case word.now bytes.now }
{
    for (i, byte) in bytes.iter().enumerate() {
        if i >= word.len() {
            return false;
        }
        if byte.to_ascii_lowercase() != word[i] {
            return false;
        }
    }
    true
}

fn slash_and_name(element: Element) -> &'static [u8]
    ensures { result.now ≡ slash ∷ element_name element }
{
    match element {
        Element::Script => b"/script",
        Element::Style => b"/style",
    }
}
