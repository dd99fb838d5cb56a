//! Lines and columns.
ghost use Rattle.std.specs.Prelude.{◌≡◌, map, take};
ghost use Rattle.hesc_views.specs.Places.{
  begins_character,
  column_behind,
  line_behind,
  spot_at,
  text_at,
  texts_in,
};

use html_view::Position;

/// A file, counted from 0, the view being the first, and a place there, whose line and column are
/// counted from 1. The column counts characters.
#[derive(Clone, Copy, Debug, PartialEq, Eq)]
pub struct Spot {
    pub file: usize,
    pub line: usize,
    pub column: usize,
}

/// The text of a view and those of its partials.
#[derive(Clone, Copy, Debug)]
pub struct Texts<'t> {
    pub view: &'t str,
    pub partials: &'t [&'t str],
}

/// The line and the column of a position in one of the texts. Behind their end it is the end, and of a
/// text that there is not, the beginning.
///
/// Of the text `a`, a line feed and `éb`, byte 4 stands in line 2 and column 2.
pub fn spot_of(texts: Texts<'_>, position: Position) -> Spot
    ensures { result ≡ spot_at (texts_in texts.entry) position }
{
    let text = text_at(texts, position.text);
    let before = front(text.as_bytes(), position.byte);
    Spot {
        file: position.text,
        line: line_behind(before),
        column: column_behind(before),
    }
}

fn text_at<'t>(texts: Texts<'t>, number: usize) -> &'t str
    ensures { result.now ≡ text_at (texts_in texts.entry) number }
{
    if number == 0 {
        return texts.view;
    }
    at(texts.partials, number - 1)
}

/// The text of this number, counted from 0, and the empty text where there is none.
pub(crate) fn at<'t>(texts: &[&'t str], number: usize) -> &'t str
    ensures { result.now ≡ text_at (map (λ text. text.now) texts.now) number }
{
    match texts.get(number) {
        Some(text) => *text,
        None => "",
    }
}

// The first bytes, or all where there are no more.
fn front(bytes: &[u8], count: usize) -> &[u8]
    ensures { result.now ≡ take count bytes.now }
{
    if bytes.len() <= count {
        return bytes;
    }
    &bytes[..count]
}

fn line_behind(before: &[u8]) -> usize
    ensures { result ≡ line_behind before.now }
{
    before.iter().filter(|byte| **byte == b'\n').count() + 1
}

fn column_behind(before: &[u8]) -> usize
    ensures { result ≡ column_behind before.now }
{
    let line = before.iter().rev().take_while(|byte| **byte != b'\n');
    line.filter(|byte| begins_character(**byte)).count() + 1
}

// The bytes that go on with a character are those from 128 to 191.
fn begins_character(byte: u8) -> bool
    ensures { result ≡ begins_character byte }
{
    byte < 128 || 192 <= byte
}
