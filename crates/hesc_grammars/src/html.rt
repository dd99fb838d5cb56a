//! Steps of text and of attributes' values.
ghost use Rattle.std.specs.Prelude.{◌≡◌};
ghost use Rattle.hesc_grammars.specs.Html.{
  ends_unquoted,
  is_unquoted_error,
  marked_step,
  unquoted_step,
};

use crate::references::reference;
use crate::step::{Mode, Step};

/// The step of text and of quoted values, which the byte `mark` ends.
#[tactic(auto, unfolding(crate::specs::Html::marked_step))]
#[inline(always)]
pub fn marked_step(mark: u8, mode: Mode, bytes: &[u8]) -> Step
    ensures { result ≡ marked_step mark mode bytes.now }
{
    let Some((first, rest)) = bytes.split_first() else {
        return Step::Nothing;
    };
    if *first == mark {
        return Step::Close;
    }
    match *first {
        b'&' => reference(rest),
        byte => Step::Byte(0, byte, Mode::Plain),
    }
}

/// The step of unquoted values, which the byte `end` ends where an item stands before it.
#[tactic(auto, unfolding(crate::specs::Html::unquoted_step))]
pub fn unquoted_step(end: u8, mode: Mode, bytes: &[u8]) -> Step
    ensures { result ≡ unquoted_step end mode bytes.now }
{
    let Some((first, rest)) = bytes.split_first() else {
        return Step::Nothing;
    };
    match *first {
        b'\t' | b'\n' | b'\x0c' | b' ' | b'>' => {
            if *first == end && mode != Mode::Empty {
                Step::Close
            } else {
                Step::Nothing
            }
        }
        b'&' => reference(rest),
        b'"' | b'\'' | b'<' | b'=' | b'`' => Step::Nothing,
        byte => Step::Byte(0, byte, Mode::Plain),
    }
}
