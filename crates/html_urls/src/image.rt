//! The URL of an image that holds its bytes: a `data:` URL whose front fixes type and encoding.
ghost use Rattle.std.specs.Prelude.{◌≡◌, ◌≤◌, length};
ghost use Rattle.html_urls.specs.Images as spec;

use crate::link::{has_scheme, mark_at};

/// Whether markup begins as the URL of an image that holds its bytes: with `data:`, one of the types
/// `image/png`, `image/jpeg`, `image/gif`, `image/webp` and `image/avif`, `;base64` and `,`, in any case. What
/// follows is only the data of the image, whatever it is. An `image/svg+xml` is a document, and may run scripts.
///
/// Of `data:image/png;base64,` and `DATA:image/PNG;base64,iVBO` it is `true`, and of `data:image/png;base64`,
/// `data:image/png,` and `data:image/svg+xml;base64,` it is `false`.
pub fn is_image_front(front: &[u8]) -> bool
    ensures { result ≡ spec.is_image_front front.now }
{
    has_scheme(front) && is_image(&front[..mark_at(front)], &front[mark_at(front) + 1..])
}

fn is_image(scheme: &[u8], body: &[u8]) -> bool
    ensures { result ≡ spec.is_image scheme.now body.now }
{
    scheme.eq_ignore_ascii_case(b"data") && has_image_type(body)
}

// Whether such a type and `;base64` stand before the first `,`.
fn has_image_type(body: &[u8]) -> bool
    ensures { result ≡ spec.has_image_type body.now }
{
    let at = comma_at(body);
    at < body.len() && body[at] == b',' && is_image_type(&body[..at])
}

fn comma_at(body: &[u8]) -> usize
    ensures value { result ≡ spec.comma_at body.now }
    ensures within { result ≤ length body.now }
{
    body.iter().position(|b| *b == b',').unwrap_or(body.len())
}

fn is_image_type(kind: &[u8]) -> bool
    ensures { result ≡ spec.is_image_type kind.now }
{
    kind.eq_ignore_ascii_case(b"image/png;base64")
        || kind.eq_ignore_ascii_case(b"image/jpeg;base64")
        || kind.eq_ignore_ascii_case(b"image/gif;base64")
        || kind.eq_ignore_ascii_case(b"image/webp;base64")
        || kind.eq_ignore_ascii_case(b"image/avif;base64")
}
