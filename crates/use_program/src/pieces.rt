//! A script that comes in pieces, cut anywhere, as from a stream.
ghost use Rattle.std.specs.Prelude.{◌≡◌, IfOk};
ghost use Rattle.std.specs.List.{flat_map};
ghost use Rattle.std.specs.String.{string_bytes};
ghost use Rattle.hesc_specs.specs.Bodies.Encoding.{body_encoding};
ghost use Rattle.hesc_specs.specs.declared.elements.Element.TheVariants.{Script};

use html_escape::{BodyEncoder, BodyKind, encode_pieces};
use std::alloc::{AllocError, Global};

/// The body of a script that is there in pieces: one call, and no proof file.
pub(crate) fn script(alloc: Global, pieces: &[&str]) -> Result<String, AllocError>
    ensures { IfOk result (λ page. string_bytes page
        ≡ body_encoding Script (flat_map (λ piece. piece.now) pieces.now)) }
{
    let mut page = String::new(alloc);
    encode_pieces(&mut page, BodyKind::Script, pieces)?;
    Ok(page)
}

/// The same with a session of one's own: its invariant is one line.
pub(crate) fn script_by_session(alloc: Global, pieces: &[&str]) -> Result<String, AllocError>
    ensures { IfOk result (λ page. string_bytes page
        ≡ body_encoding Script (flat_map (λ piece. piece.now) pieces.now)) }
{
    let mut page = String::new(alloc);
    let mut session = BodyEncoder::new(BodyKind::Script);
    for piece in pieces {
        BodyEncoder::append_piece(&mut page, &mut session, piece)?;
    }
    BodyEncoder::append_rest(&mut page, &mut session)?;
    Ok(page)
}
