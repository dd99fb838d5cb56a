//! The body decoders, four forms of each.
ghost use Rattle.std.specs.Borrow.{sem};
ghost use Rattle.hesc_specs.specs.Bodies.Encoding.{body_decoding};
ghost use Rattle.hesc_specs.specs.Bodies.Changes.{body_decoding_changes};
ghost use Rattle.hesc_specs.specs.declared.elements.Element.TheVariants.{Script, Style};
ghost use Rattle.hesc_engine.specs.Forms.{AnswersPart, AnswersText, StringAppended, VecAppended, WritesText, string_room, vec_room};

use crate::appends::{decode_body_onto_string, decode_body_onto_vec};
use hesc_core::Element;
use hesc_core::forms::{to_cow, to_writer};
use hesc_core::rules::DecodeBody;
use std::alloc::{AllocError, Allocator};
use std::borrow::CowStr;
use std::io::{self, Write};

// `decode_script`: each escaped opening of a script's body loses its `\`. So `<\!--` becomes
// `<!--`, and `<\/script`, in any case where the name ends, becomes `</script`.

/// `text` decoded. Where it has no escaped opening it is `text` itself, and takes no memory.
///
/// `decode_script(alloc, r"<\/script>")?` is `</script>`.
#[inline(always)]
pub fn decode_script<'t, A: Allocator>(alloc: A, text: &'t str) -> Result<CowStr<'t, A>, AllocError>
    ensures { AnswersText text.now (body_decoding Script text.now)
        (body_decoding_changes Script text.now 0) result }
{
    to_cow(alloc, &DecodeBody(Element::Script), text)
}

/// Appends `text` decoded to `output`, and answers the part that was added. On a refusal
/// `output` is as it was.
///
/// `decode_script_to_string(r"<\/script>", &mut page)?` appends and answers `</script>`.
#[inline(always)]
pub fn decode_script_to_string<'o, A: Allocator>(
    text: &str,
    output: &'o mut String<A>,
) -> Result<&'o str, AllocError>
    ensures part { AnswersPart (string_room output.old)
        (body_decoding Script text.now) result }
    ensures* appended { sem 𝓛 (StringAppended A.row A.Allocator output.entry
        (body_decoding Script text.now) result) }
{
    decode_body_onto_string(output, Element::Script, text)
}

/// Appends `text` decoded to `output`, and answers the part that was added. On a refusal
/// `output` is as it was.
///
/// `decode_script_to_vec(r"<\/script>", &mut bytes)?` appends and answers the bytes of `</script>`.
#[inline(always)]
pub fn decode_script_to_vec<'o, A: Allocator>(
    text: &str,
    output: &'o mut Vec<u8, A>,
) -> Result<&'o [u8], AllocError>
    ensures part { AnswersPart (vec_room output.old)
        (body_decoding Script text.now) result }
    ensures* appended { sem 𝓛 (VecAppended A.row A.Allocator output.entry
        (body_decoding Script text.now) result) }
{
    decode_body_onto_vec(output, Element::Script, text)
}

/// Writes `text` decoded to `output`, or a beginning of it and then the writer's fault.
///
/// `decode_script_to_writer(r"<\/script>", &mut writer)?` writes `</script>`.
pub fn decode_script_to_writer<W: Write>(text: &str, output: &mut W) -> Result<(), io::Error>
    ensures { WritesText (W.contents output.old) (W.contents output.new)
        (body_decoding Script text.now) result }
{
    to_writer(&DecodeBody(Element::Script), text, output)
}

// `decode_style`: each escaped opening of a style's body loses its `\`. So `<\!--` becomes `<!--`,
// and `<\/style`, in any case where the name ends, becomes `</style`.

/// `text` decoded. Where it has no escaped opening it is `text` itself, and takes no memory.
///
/// `decode_style(alloc, r"<\/style>")?` is `</style>`.
#[inline(always)]
pub fn decode_style<'t, A: Allocator>(alloc: A, text: &'t str) -> Result<CowStr<'t, A>, AllocError>
    ensures { AnswersText text.now (body_decoding Style text.now)
        (body_decoding_changes Style text.now 0) result }
{
    to_cow(alloc, &DecodeBody(Element::Style), text)
}

/// Appends `text` decoded to `output`, and answers the part that was added. On a refusal
/// `output` is as it was.
///
/// `decode_style_to_string(r"<\/style>", &mut page)?` appends and answers `</style>`.
#[inline(always)]
pub fn decode_style_to_string<'o, A: Allocator>(
    text: &str,
    output: &'o mut String<A>,
) -> Result<&'o str, AllocError>
    ensures part { AnswersPart (string_room output.old)
        (body_decoding Style text.now) result }
    ensures* appended { sem 𝓛 (StringAppended A.row A.Allocator output.entry
        (body_decoding Style text.now) result) }
{
    decode_body_onto_string(output, Element::Style, text)
}

/// Appends `text` decoded to `output`, and answers the part that was added. On a refusal
/// `output` is as it was.
///
/// `decode_style_to_vec(r"<\/style>", &mut bytes)?` appends and answers the bytes of `</style>`.
#[inline(always)]
pub fn decode_style_to_vec<'o, A: Allocator>(
    text: &str,
    output: &'o mut Vec<u8, A>,
) -> Result<&'o [u8], AllocError>
    ensures part { AnswersPart (vec_room output.old)
        (body_decoding Style text.now) result }
    ensures* appended { sem 𝓛 (VecAppended A.row A.Allocator output.entry
        (body_decoding Style text.now) result) }
{
    decode_body_onto_vec(output, Element::Style, text)
}

/// Writes `text` decoded to `output`, or a beginning of it and then the writer's fault.
///
/// `decode_style_to_writer(r"<\/style>", &mut writer)?` writes `</style>`.
pub fn decode_style_to_writer<W: Write>(text: &str, output: &mut W) -> Result<(), io::Error>
    ensures { WritesText (W.contents output.old) (W.contents output.new)
        (body_decoding Style text.now) result }
{
    to_writer(&DecodeBody(Element::Style), text, output)
}
