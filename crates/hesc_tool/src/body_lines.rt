//! The encoding of a body that a session gets line by line.
ghost use Rattle.std.specs.Prelude.{◌≡◌, ◌≤◌, ◌<◌, ◌++◌, length, OnOk};
ghost use Rattle.std.specs.Str.{IsCharBoundary};
ghost use Rattle.std.specs.String.{string_bytes};
ghost use Rattle.hesc_specs.specs.Bodies.Encoding.{body_encoding};

use hesc_core::find::first_byte;
use html_escape::{BodyEncoder, BodyKind};
use std::alloc::{AllocError, Allocator};

/// Appends all that one session adds, which gets each line with its line feed as a piece.
pub fn append_lines<A: Allocator>(
    output: &mut String<A>,
    kind: BodyKind,
    text: &str,
) -> Result<(), AllocError>
    ensures { OnOk result
        (string_bytes output.new ≡ string_bytes output.old ++ body_encoding kind text.now) }
{
    let mut session = BodyEncoder::new(kind);
    let mut from = 0;
    'pushing: while from < text.len() {
        let end = end_of_line(text, from);
        BodyEncoder::append_piece(output, &mut session, &text[from..end])?;
        from = end;
    }
    BodyEncoder::append_rest(output, &mut session)?;
    Ok(())
}

// Where the line that begins at `from` ends, after its line feed if it has one.
fn end_of_line(text: &str, from: usize) -> usize
    requires { from < length text.now }
    ensures after { from < result }
    ensures within { result ≤ length text.now }
    ensures boundary { IsCharBoundary text.now result }
{
    let bytes = text.as_bytes();
    let place = first_byte(b'\n', bytes, from);
    if place == bytes.len() {
        return place;
    }
    place + 1
}
