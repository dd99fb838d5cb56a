//! One step of a place's grammar: what begins at a position, and the mode after it.
ghost use Rattle.std.specs.Prelude.{◌≡◌};
ghost use Rattle.hesc_grammars.specs.Places.{first_mode, step_of};

use crate::bodies::{script_body_step, style_body_step};
use crate::html::{marked_step, unquoted_step};
use crate::place::{Place, end_byte};
use crate::script_strings::script_string_step;
use crate::style_strings::style_string_step;

/// How far a reading is.
#[derive(Clone, Copy, Debug, PartialEq, Eq)]
pub enum Mode {
    /// No item has been read, and at least one must be.
    Empty,
    /// Any item or the end may follow; in a script's body no comment is open.
    Plain,
    /// In a script's body: a comment is open.
    Escaped,
    /// In a script's body: a comment is open, and a script within it.
    DoubleEscaped,
}

/// What begins at a position of a place: its end, an item, or nothing that its grammar knows.
#[derive(Clone, Copy, Debug, PartialEq, Eq)]
pub enum Step {
    /// The closing mark.
    Close,
    /// An item that is read as one byte: how many bytes it has after its first, the byte, and the
    /// mode after it.
    Byte(usize, u8, Mode),
    /// An item that is read as one character: how many bytes it has after its first, the
    /// character, and the mode after it.
    Character(usize, char, Mode),
    /// There is no reading.
    Nothing,
}

/// What begins at a position of a place.
///
/// `step_of(Place::Text, Mode::Plain, b"&lt;b")` is `Step::Character(3, '<', Mode::Plain)`.
#[inline(always)]
pub fn step_of(place: Place, mode: Mode, bytes: &[u8]) -> Step
    ensures { result ≡ step_of place mode bytes.now }
{
    match place {
        Place::Text => marked_step(b'<', mode, bytes),
        Place::DoubleAttribute => marked_step(b'"', mode, bytes),
        Place::SingleAttribute => marked_step(b'\'', mode, bytes),
        Place::UnquotedAttribute(end) => unquoted_step(end_byte(end), mode, bytes),
        Place::ScriptSingle => script_string_step(b'\'', mode, bytes),
        Place::ScriptDouble => script_string_step(b'"', mode, bytes),
        Place::StyleSingle => style_string_step(b'\'', mode, bytes),
        Place::StyleDouble => style_string_step(b'"', mode, bytes),
        Place::ScriptBody => script_body_step(mode, bytes),
        Place::StyleBody => style_body_step(mode, bytes),
    }
}

/// The mode at the opening mark.
///
/// `first_mode(Place::Text)` is `Mode::Plain`.
pub fn first_mode(place: Place) -> Mode
    ensures { result ≡ first_mode place }
{
    match place {
        Place::UnquotedAttribute(_) => Mode::Empty,
        _ => Mode::Plain,
    }
}
