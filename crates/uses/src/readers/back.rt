//! A caller: texts that are encoded and decoded again, one for each decoder that undoes an encoder.
ghost use Rattle.std.specs.Prelude.{◌≡◌, IfOk};
ghost use Rattle.std.specs.String.{string_bytes};
ghost use Rattle.hesc_specs.specs.Bodies.Openings.{HasNoEscapedOpening};
ghost use Rattle.hesc_specs.specs.declared.elements.Element.TheVariants.{Script};

use html_escape::{
    BodyKind, Class, EntityTable, Quotes, decode_html_entities, decode_script,
    decode_script_single_quoted_text, encode_quoted_attribute, encode_script,
    encode_script_single_quoted_text, laws,
};
use std::alloc::{AllocError, Global};

/// By references.
pub fn by_references(alloc: Global, text: &str) -> Result<String, AllocError>
    ensures { IfOk result (λ back. string_bytes back ≡ text.now) }
{
    let encoded = encode_quoted_attribute(alloc, text)?;
    laws::references_undo_encoders(Class::QuotedAttribute, &EntityTable::built_in(), text, "");
    decode_html_entities(alloc, &encoded)?.into_owned(alloc)
}

/// By the escapes of a script's strings.
pub fn by_escapes(alloc: Global, text: &str) -> Result<String, AllocError>
    ensures { IfOk result (λ back. string_bytes back ≡ text.now) }
{
    let encoded = encode_script_single_quoted_text(alloc, text)?;
    laws::string_round_trip(BodyKind::Script, Quotes::Single, text, b"");
    decode_script_single_quoted_text(alloc, &encoded)?.into_owned(alloc)
}

/// A script's body, which has no escaped opening.
pub fn by_openings(alloc: Global, body: &str) -> Result<String, AllocError>
    requires { HasNoEscapedOpening Script body.now }
    ensures { IfOk result (λ back. string_bytes back ≡ body.now) }
{
    let encoded = encode_script(alloc, body)?;
    laws::repeated_body(BodyKind::Script, body);
    decode_script(alloc, &encoded)?.into_owned(alloc)
}
