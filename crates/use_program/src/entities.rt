//! A text with references by any of HTML's names, decoded.
ghost use Rattle.std.specs.Prelude.{◌≡◌, IfOk};
ghost use Rattle.std.specs.Cow.{cow_str_bytes};
ghost use Rattle.html_escape.specs.Words.{decoded};
ghost use Rattle.html_entities.specs.NamedReferences.{named_references};

use html_entities::html_entities;
use html_escape::decode_html_entities_with;
use std::alloc::{AllocError, Global};
use std::borrow::CowStr;

/// The text with each reference replaced that has a value in HTML.
pub(crate) fn decode<'t>(alloc: Global, text: &'t str) -> Result<CowStr<'t>, AllocError>
    ensures { IfOk result (λ made. cow_str_bytes made ≡ decoded named_references text.now) }
{
    decode_html_entities_with(alloc, &html_entities(), text)
}
