//! The body encoders, four forms of each.
ghost use Rattle.std.specs.Borrow.{sem};
ghost use Rattle.hesc_specs.specs.Bodies.Encoding.{body_encoding};
ghost use Rattle.hesc_specs.specs.Bodies.Changes.{body_encoding_changes};
ghost use Rattle.hesc_specs.specs.declared.elements.Element.TheVariants.{Script, Style};
ghost use Rattle.hesc_engine.specs.Forms.{AnswersPart, AnswersText, StringAppended, VecAppended, WritesText, string_room, vec_room};

use crate::appends::{encode_body_onto_string, encode_body_onto_vec};
use hesc_core::Element;
use hesc_core::forms::{to_cow, to_writer};
use hesc_core::rules::EncodeBody;
use std::alloc::{AllocError, Allocator};
use std::borrow::CowStr;
use std::io::{self, Write};

// `encode_script`: a `\` goes into each opening of a script's body, after its `<`. An opening is
// `<!--`, or `</script` in any case where the name ends.

/// The encoding of `text`. Where nothing changes it is `text` itself, and takes no memory.
///
/// `encode_script(alloc, "</script>")?` is `<\/script>`.
#[inline(always)]
pub fn encode_script<'t, A: Allocator>(alloc: A, text: &'t str) -> Result<CowStr<'t, A>, AllocError>
    ensures { AnswersText text.now (body_encoding Script text.now)
        (body_encoding_changes Script text.now 0) result }
{
    to_cow(alloc, &EncodeBody(Element::Script), text)
}

/// Appends the encoding of `text` to `output`, and answers the part that was added. On a refusal
/// `output` is as it was.
///
/// `encode_script_to_string("</script>", &mut page)?` appends and answers `<\/script>`.
#[inline(always)]
pub fn encode_script_to_string<'o, A: Allocator>(
    text: &str,
    output: &'o mut String<A>,
) -> Result<&'o str, AllocError>
    ensures part { AnswersPart (string_room output.old)
        (body_encoding Script text.now) result }
    ensures* appended { sem 𝓛 (StringAppended A.row A.Allocator output.entry
        (body_encoding Script text.now) result) }
{
    encode_body_onto_string(output, Element::Script, text)
}

/// Appends the encoding of `text` to `output`, and answers the part that was added. On a refusal
/// `output` is as it was.
///
/// `encode_script_to_vec("</script>", &mut bytes)?` appends and answers the bytes of `<\/script>`.
#[inline(always)]
pub fn encode_script_to_vec<'o, A: Allocator>(
    text: &str,
    output: &'o mut Vec<u8, A>,
) -> Result<&'o [u8], AllocError>
    ensures part { AnswersPart (vec_room output.old)
        (body_encoding Script text.now) result }
    ensures* appended { sem 𝓛 (VecAppended A.row A.Allocator output.entry
        (body_encoding Script text.now) result) }
{
    encode_body_onto_vec(output, Element::Script, text)
}

/// Writes the encoding of `text` to `output`, or a beginning of it and then the writer's fault.
///
/// `encode_script_to_writer("</script>", &mut writer)?` writes `<\/script>`.
pub fn encode_script_to_writer<W: Write>(text: &str, output: &mut W) -> Result<(), io::Error>
    ensures { WritesText (W.contents output.old) (W.contents output.new)
        (body_encoding Script text.now) result }
{
    to_writer(&EncodeBody(Element::Script), text, output)
}

// `encode_style`: a `\` goes into each opening of a style's body, after its `<`. An opening is
// `<!--`, or `</style` in any case where the name ends.

/// The encoding of `text`. Where nothing changes it is `text` itself, and takes no memory.
///
/// `encode_style(alloc, "</style>")?` is `<\/style>`.
#[inline(always)]
pub fn encode_style<'t, A: Allocator>(alloc: A, text: &'t str) -> Result<CowStr<'t, A>, AllocError>
    ensures { AnswersText text.now (body_encoding Style text.now)
        (body_encoding_changes Style text.now 0) result }
{
    to_cow(alloc, &EncodeBody(Element::Style), text)
}

/// Appends the encoding of `text` to `output`, and answers the part that was added. On a refusal
/// `output` is as it was.
///
/// `encode_style_to_string("</style>", &mut page)?` appends and answers `<\/style>`.
#[inline(always)]
pub fn encode_style_to_string<'o, A: Allocator>(
    text: &str,
    output: &'o mut String<A>,
) -> Result<&'o str, AllocError>
    ensures part { AnswersPart (string_room output.old)
        (body_encoding Style text.now) result }
    ensures* appended { sem 𝓛 (StringAppended A.row A.Allocator output.entry
        (body_encoding Style text.now) result) }
{
    encode_body_onto_string(output, Element::Style, text)
}

/// Appends the encoding of `text` to `output`, and answers the part that was added. On a refusal
/// `output` is as it was.
///
/// `encode_style_to_vec("</style>", &mut bytes)?` appends and answers the bytes of `<\/style>`.
#[inline(always)]
pub fn encode_style_to_vec<'o, A: Allocator>(
    text: &str,
    output: &'o mut Vec<u8, A>,
) -> Result<&'o [u8], AllocError>
    ensures part { AnswersPart (vec_room output.old)
        (body_encoding Style text.now) result }
    ensures* appended { sem 𝓛 (VecAppended A.row A.Allocator output.entry
        (body_encoding Style text.now) result) }
{
    encode_body_onto_vec(output, Element::Style, text)
}

/// Writes the encoding of `text` to `output`, or a beginning of it and then the writer's fault.
///
/// `encode_style_to_writer("</style>", &mut writer)?` writes `<\/style>`.
pub fn encode_style_to_writer<W: Write>(text: &str, output: &mut W) -> Result<(), io::Error>
    ensures { WritesText (W.contents output.old) (W.contents output.new)
        (body_encoding Style text.now) result }
{
    to_writer(&EncodeBody(Element::Style), text, output)
}
