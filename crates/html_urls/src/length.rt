//! How long the component of a text is.
ghost use Rattle.std.specs.Prelude.{◌≡◌, ◌≤◌, ◌<◌, ◌^◌, length, IfSome, IsSome};
ghost use Rattle.html_urls.specs.Components as spec;

use crate::address::is_sign;
use crate::component::rows::is_kept;
use crate::component::unreserved::encoded_mask;
use crate::place::UrlPlace;

/// The length of the component of `text`, in bytes, or `None` where it would pass the greatest `usize`.
///
/// `component_length("a&b")` is `Some(5)`.
#[tactic(auto, using(crate::proofs::Components::component_length_is))]
pub fn component_length(text: &str) -> Option<usize>
    ensures count { IfSome result (λ count. count ≡ length (spec.component text.now)) }
    ensures fits { length (spec.component text.now) < 2 ^ 64 → IsSome result }
{
    // `%` and a digit more for each byte that is encoded.
    let added = encoded_count(text.as_bytes()).checked_mul(2)?;
    text.len().checked_add(added)
}

/// The length of `text` as it is written in this part of a URL, in bytes, or `None` where it would pass the
/// greatest `usize`.
///
/// Of `a+b@c?d` it is `Some(9)` in an opaque path, and `Some(13)` in a query.
pub fn component_length_at(place: UrlPlace, text: &str) -> Option<usize>
    ensures count { IfSome result (λ count. count ≡ length (spec.component_at place text.now)) }
    ensures fits { length (spec.component_at place text.now) < 2 ^ 64 → IsSome result }
{
    match place {
        UrlPlace::OpaquePath => address_length(text.as_bytes()),
        UrlPlace::Path | UrlPlace::Query | UrlPlace::Fragment => component_length(text),
    }
}

#[tactic(auto, using(crate::proofs::Addresses::address_length_is, crate::proofs::Addresses::signs_are_encoded))]
fn address_length(bytes: &[u8]) -> Option<usize>
    ensures count { IfSome result (λ count. count ≡ length (spec.address bytes.now)) }
    ensures fits { length (spec.address bytes.now) < 2 ^ 64 → IsSome result }
{
    // The signs are not encoded.
    let added = (encoded_count(bytes) - sign_count(bytes)).checked_mul(2)?;
    bytes.len().checked_add(added)
}

fn sign_count(bytes: &[u8]) -> usize
    ensures { result ≡ spec.sign_count bytes.now }
{
    let mut count = 0;
    for b in bytes {
        count += usize::from(is_sign(*b));
    }
    count
}

// How many of the bytes are percent-encoded, counted 16 at a time.
fn encoded_count(bytes: &[u8]) -> usize
    ensures { result ≡ spec.encoded_count bytes.now }
{
    let mut count = 0;
    let mut place = 0;
    'counting: while bytes.len() - place >= 16 {
        count += encoded_mask(bytes, place).count_ones() as usize;
        place += 16;
    }
    count + encoded_among(&bytes[place..])
}

fn encoded_among(bytes: &[u8]) -> usize
    ensures count { result ≡ spec.encoded_count bytes.now }
    ensures few { result ≤ length bytes.now }
{
    let mut count = 0;
    for b in bytes {
        count += usize::from(!is_kept(*b));
    }
    count
}
