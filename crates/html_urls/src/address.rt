//! A text as it is written in a part of a URL: as a component, and in an opaque path as an address or a
//! number.
ghost use Rattle.std.specs.Prelude.{◌≡◌, ◌≤◌, ◌<◌, ◌++◌, MatchOption, length};
ghost use Rattle.std.specs.List.{position_or_len};
ghost use Rattle.hesc_sinks.specs.Took.{Took};
ghost use Rattle.html_urls.specs.Components as spec;
ghost use Rattle.html_urls.specs.Components.{IsPiece, address, component, component_at};

use crate::component::{put_bytes, put_component};
use crate::place::UrlPlace;
use hesc_engine::Sink;

/// Hands the text to the sink as it is written in this part of a URL: as a component, and in an opaque path
/// as one in which `@` and `+` stand as they are.
///
/// On success the sink took exactly that. On the sink's fault, which is handed on at once, it took
/// a beginning of it.
///
/// Of `a+b@c?d` the sink takes `a+b@c%3Fd` in an opaque path, and `a%2Bb%40c%3Fd` in a query.
pub fn put_component_at<S: Sink>(place: UrlPlace, text: &str, sink: &mut S) -> Result<(), S::Fault>
    ensures { Took (S.seen sink.old) (S.seen sink.new) (component_at place text.now) result }
{
    match place {
        UrlPlace::OpaquePath => put_address(text.as_bytes(), sink),
        UrlPlace::Path | UrlPlace::Query | UrlPlace::Fragment => put_component(text, sink),
    }
}

// Its signs, and the components between them.
fn put_address<S: Sink>(bytes: &[u8], sink: &mut S) -> Result<(), S::Fault>
    ensures { Took (S.seen sink.old) (S.seen sink.new) (address bytes.now) result }
{
    let mut rest = bytes;
    'putting: while !rest.is_empty() {
        let (piece, later) = first_piece(rest);
        put_piece(piece, sink)?;
        rest = later;
    }
    Ok(())
}

// The bytes before the first sign, or this sign, and the others.
#[tactic(auto, using(crate::proofs::Addresses::address_parts, crate::proofs::Addresses::first_is))]
fn first_piece(bytes: &[u8]) -> (&[u8], &[u8])
    requires { 0 < length bytes.now }
    ensures parts { address bytes.now ≡ address result.0.now ++ address result.1.now }
    ensures piece { IsPiece result.0.now }
    ensures shorter { length result.1.now < length bytes.now }
{
    bytes.split_at(sign_at(bytes).max(1))
}

fn put_piece<S: Sink>(piece: &[u8], sink: &mut S) -> Result<(), S::Fault>
    requires { IsPiece piece.now }
    ensures { Took (S.seen sink.old) (S.seen sink.new) (address piece.now) result }
{
    match sign_of(piece) {
        Some(sign) => sink.put(sign),
        None => put_bytes(piece, sink),
    }
}

// The sign that the piece is, if it is one: another piece is written as a component.
#[tactic(auto, using(crate::proofs::Addresses::sign_piece, crate::proofs::Addresses::other_piece))]
fn sign_of(piece: &[u8]) -> Option<&'static str>
    requires { IsPiece piece.now }
    ensures { MatchOption result (address piece.now ≡ component piece.now)
        (λ sign. sign.now ≡ address piece.now) }
{
    if piece == b"@".as_slice() {
        Some("@")
    } else if piece == b"+".as_slice() {
        Some("+")
    } else {
        None
    }
}

// Where the first sign stands.
fn sign_at(bytes: &[u8]) -> usize
    ensures value { result ≡ position_or_len spec.is_sign bytes.now }
    ensures within { result ≤ length bytes.now }
{
    bytes
        .iter()
        .position(|b| is_sign(*b))
        .unwrap_or(bytes.len())
}

pub(crate) fn is_sign(b: u8) -> bool
    ensures { result ≡ spec.is_sign b }
{
    b == b'@' || b == b'+'
}
