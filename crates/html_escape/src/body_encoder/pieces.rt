//! A body that is given in pieces, encoded by one session.
ghost use Rattle.std.specs.Prelude.{◌≡◌, ℕ, List, ◌++◌, IfOk, OnOk};
ghost use Rattle.std.specs.Borrow.{sem};
ghost use Rattle.std.specs.List.{flat_map};
ghost use Rattle.std.specs.String.{string_bytes};
ghost use Rattle.hesc_specs.specs.Bodies.Encoding.{body_encoding};
ghost use Rattle.hesc_engine.specs.Forms.{Appended, StringAppended};

use crate::body_encoder::session::BodyEncoder;
use hesc_core::Element;
use std::alloc::{AllocError, Allocator};

/// Appends the encoding of the body that the pieces, joined, are, and answers that part. They may be
/// cut anywhere. On a refusal `output` is as it was.
///
/// `encode_pieces(&mut page, BodyKind::Script, &["</scr", "ipt>"])?` answers `<\/script>`.
pub fn encode_pieces<'o, A: Allocator>(
    output: &'o mut String<A>,
    kind: Element,
    pieces: &[&str],
) -> Result<&'o str, AllocError>
    ensures part { IfOk result
        (λ part. part.now ≡ body_encoding kind (flat_map (λ piece. piece.now) pieces.now)) }
    ensures* appended { sem 𝓛 (StringAppended A.row A.Allocator output.entry
        (body_encoding kind (flat_map (λ piece. piece.now) pieces.now)) result) }
{
    let start = output.as_str().len();
    add_pieces(output, kind, pieces)?;
    Ok(&output.as_str()[start..])
}

fn add_pieces<A: Allocator>(
    output: &mut String<A>,
    kind: Element,
    pieces: &[&str],
) -> Result<(), AllocError>
    ensures { Appended (string_bytes output.old) (string_bytes output.new)
        (body_encoding kind (flat_map (λ piece. piece.now) pieces.now)) result }
{
    let start = output.as_str().len();
    let outcome = push_pieces(output, kind, pieces);
    if outcome.is_err() {
        output.truncate(start);
    }
    outcome
}

// Where a growth is refused, some of the pieces may stand in the output.
fn push_pieces<A: Allocator>(
    output: &mut String<A>,
    kind: Element,
    pieces: &[&str],
) -> Result<(), AllocError>
    ensures all { OnOk result (string_bytes output.new ≡ string_bytes output.old
        ++ body_encoding kind (flat_map (λ piece. piece.now) pieces.now)) }
    ensures kept { (added : List ℕ) × (string_bytes output.new ≡ string_bytes output.old ++ added) }
{
    let mut session = BodyEncoder::new(kind);
    for piece in pieces {
        BodyEncoder::append_piece(output, &mut session, piece)?;
    }
    BodyEncoder::append_rest(output, &mut session)?;
    Ok(())
}
