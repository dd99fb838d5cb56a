//! How far the bytes of a place are read as they stand.
ghost use Rattle.std.specs.Prelude.{◌≡◌, ◌==◌, ◌||◌};
ghost use Rattle.hesc_specs.specs.Text.Ascii.{less_than};
ghost use Rattle.hesc_specs.specs.Text.FirstPlace.{IsFirstPlace};
ghost use Rattle.hesc_grammars.specs.Places.{step_of};
ghost use Rattle.hesc_grammars.specs.Stretches.{
  IsStretch,
  ends_plain,
  ends_stretch,
  hyphen,
  is_special,
};
ghost use Rattle.hesc_grammars.specs.declared.step.Mode.TheVariants.{Plain};

use crate::place::Place;
use crate::step::Mode;
use hesc_scan::find::{first_byte, first_of_two};
use hesc_scan::scan::first_in;
use hesc_specs::Class;

/// How many bytes at the front are each read as themselves and leave the mode as it is: all up to the
/// first byte that may not, whatever follows it.
///
/// `stretch(Place::Text, Mode::Plain, b"ab&lt;c")` is 2.
#[inline(always)]
pub(crate) fn stretch(place: Place, mode: Mode, bytes: &[u8]) -> usize
    ensures stays { IsStretch (step_of place) mode bytes.now result }
    ensures whole { IsFirstPlace (ends_stretch place mode) bytes.now 0 result }
{
    match mode {
        Mode::Empty => 0,
        Mode::Plain => plain_stretch(place, bytes),
        Mode::Escaped | Mode::DoubleEscaped => match place {
            Place::ScriptBody => next_in_comment(bytes),
            _ => 0,
        },
    }
}

#[inline(always)]
fn plain_stretch(place: Place, bytes: &[u8]) -> usize
    ensures stays { IsStretch (step_of place) Plain bytes.now result }
    ensures whole { IsFirstPlace (ends_plain place) bytes.now 0 result }
{
    match place {
        Place::Text => next_of_two(b'<', b'&', bytes),
        Place::DoubleAttribute => next_of_two(b'"', b'&', bytes),
        Place::SingleAttribute => next_of_two(b'\'', b'&', bytes),
        Place::UnquotedAttribute(_) => first_special(bytes),
        Place::ScriptSingle => first_in(Class::ScriptSingleQuoted, bytes, 0),
        Place::ScriptDouble => first_in(Class::ScriptDoubleQuoted, bytes, 0),
        Place::StyleSingle => first_in(Class::StyleSingleQuoted, bytes, 0),
        Place::StyleDouble => first_in(Class::StyleDoubleQuoted, bytes, 0),
        Place::ScriptBody | Place::StyleBody => next_less_than(bytes),
    }
}

// A body may be `<` alone, which one look each ends sooner than a search. The search is not inlined:
// after the look its load would be made of pieces.
#[inline(always)]
fn next_less_than(bytes: &[u8]) -> usize
    ensures { IsFirstPlace (λ b. b == less_than) bytes.now 0 result }
{
    match bytes.first() {
        Some(b'<') => 0,
        _ => first_less_than(bytes),
    }
}

#[inline(never)]
fn first_less_than(bytes: &[u8]) -> usize
    ensures { IsFirstPlace (λ b. b == less_than) bytes.now 0 result }
{
    first_byte(b'<', bytes, 0)
}

// In a comment of a script, where a `-` may begin its end.
#[inline(always)]
fn next_in_comment(bytes: &[u8]) -> usize
    ensures { IsFirstPlace (λ b. b == less_than || b == hyphen) bytes.now 0 result }
{
    match bytes.first() {
        Some(b'<' | b'-') => 0,
        _ => first_in_comment(bytes),
    }
}

#[inline(never)]
fn first_in_comment(bytes: &[u8]) -> usize
    ensures { IsFirstPlace (λ b. b == less_than || b == hyphen) bytes.now 0 result }
{
    first_of_two(b'<', b'-', bytes, 0)
}

// Among few bytes the search costs more than one look at the first of them, which often ends the
// stretch. Where there are 32 the search loads them at once, which a look at one would split.
#[inline(always)]
fn next_of_two(one: u8, other: u8, bytes: &[u8]) -> usize
    ensures { IsFirstPlace (λ b. b == one || b == other) bytes.now 0 result }
{
    match bytes.first() {
        Some(first) if bytes.len() < 32 && (*first == one || *first == other) => 0,
        _ => first_of_two(one, other, bytes, 0),
    }
}

// The search stops at every symbol, of which most are read as themselves.
fn first_special(bytes: &[u8]) -> usize
    ensures { IsFirstPlace is_special bytes.now 0 result }
{
    let mut place = first_in(Class::UnquotedAttribute, bytes, 0);
    'symbols: while place < bytes.len() && !is_special(bytes[place]) {
        place = first_in(Class::UnquotedAttribute, bytes, place + 1);
    }
    place
}

fn is_special(byte: u8) -> bool
    ensures { result ≡ is_special byte }
{
    matches!(
        byte,
        b'\t' | b'\n' | b'\x0c' | b' ' | b'>' | b'&' | b'"' | b'\'' | b'<' | b'=' | b'`'
    )
}
