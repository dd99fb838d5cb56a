//! Bodies of scripts and styles that come in pieces.

use crate::digest::Digest;
use crate::kinds::{MARKUP, SCRIPT, STYLE};
use crate::numbers::Numbers;
use crate::texts::{any_piece, cut, text_of};
use html_escape::{BodyEncoder, BodyKind, encode_pieces};
use std::alloc::{AllocError, Global};

pub(crate) fn encode_bodies(
    alloc: Global,
    numbers: &mut Numbers,
    rounds: usize,
    digest: &mut Digest,
) -> Result<(), AllocError> {
    let script = text_of(alloc, &SCRIPT, numbers, 400_000)?;
    let style = text_of(alloc, &STYLE, numbers, 400_000)?;
    let prose = text_of(alloc, &MARKUP, numbers, 400_000)?;
    let mut page = String::new(alloc);
    for _ in 0..rounds {
        for (kind, text) in [
            (BodyKind::Script, script.as_str()),
            (BodyKind::Style, style.as_str()),
            (BodyKind::Script, prose.as_str()),
        ] {
            let length = numbers.length(1_000, 300_000);
            let body = any_piece(text, numbers, length);
            page.clear();
            by_lines(body, kind, &mut page)?;
            digest.add(page.as_bytes());
            page.clear();
            by_chunks(body, kind, numbers, &mut page)?;
            digest.add(page.as_bytes());
            page.clear();
            all_at_once(alloc, body, kind, numbers, &mut page)?;
            digest.add(page.as_bytes());
        }
    }
    Ok(())
}

// A push for each line, which ends in a line feed, and one for the line feed.
fn by_lines(body: &str, kind: BodyKind, page: &mut String) -> Result<(), AllocError> {
    let mut session = BodyEncoder::new(kind);
    for line in body.lines() {
        session.push(line, page)?;
        session.push("\n", page)?;
    }
    session.finish(page)?;
    Ok(())
}

// Chunks of 4 to 64 KB, cut anywhere.
fn by_chunks(
    body: &str,
    kind: BodyKind,
    numbers: &mut Numbers,
    page: &mut String,
) -> Result<(), AllocError> {
    let mut session = BodyEncoder::new(kind);
    let mut start = 0usize;
    'chunks: for _ in 0..body.len() {
        if start >= body.len() {
            break 'chunks;
        }
        let chunk = cut(body, start, numbers.from(4_096, 60_000));
        session.push(chunk, page)?;
        start = start.saturating_add(chunk.len());
    }
    session.finish(page)?;
    Ok(())
}

// Pieces of 20 to 80 bytes in one call.
fn all_at_once(
    alloc: Global,
    body: &str,
    kind: BodyKind,
    numbers: &mut Numbers,
    page: &mut String,
) -> Result<(), AllocError> {
    let mut pieces = Vec::new(alloc);
    let mut start = 0usize;
    'pieces: for _ in 0..body.len() {
        if start >= body.len() {
            break 'pieces;
        }
        let piece = cut(body, start, numbers.from(20, 60));
        pieces.push(piece)?;
        start = start.saturating_add(piece.len());
    }
    encode_pieces(page, kind, pieces.as_slice())?;
    Ok(())
}
