//! What the decoder of a class, or of a body, makes of a text, appended with the output first: the order
//! in which the checker follows a loan by itself. The functions of the ported order hand on to these.
ghost use Rattle.std.specs.Borrow.{sem};
ghost use Rattle.hesc_specs.specs.Bodies.Encoding.{body_decoding};
ghost use Rattle.hesc_specs.specs.Text.Escaped.{unescaped};
ghost use Rattle.hesc_engine.specs.Forms.{AnswersPart, StringAppended, VecAppended, string_room, vec_room};

use hesc_core::forms::{onto_string, onto_vec};
use hesc_core::rules::{DecodeBody, Unescape};
use hesc_core::{Class, Element};
use std::alloc::{AllocError, Allocator};

#[inline(always)]
pub(crate) fn decode_onto_string<'o, A: Allocator>(
    output: &'o mut String<A>,
    class: Class,
    text: &str,
) -> Result<&'o str, AllocError>
    ensures part { AnswersPart (string_room output.old) (unescaped class text.now) result }
    ensures* appended { sem 𝓛 (StringAppended A.row A.Allocator output.entry
        (unescaped class text.now) result) }
{
    onto_string(output, &Unescape(class), text)
}

#[inline(always)]
pub(crate) fn decode_onto_vec<'o, A: Allocator>(
    output: &'o mut Vec<u8, A>,
    class: Class,
    text: &str,
) -> Result<&'o [u8], AllocError>
    ensures part { AnswersPart (vec_room output.old) (unescaped class text.now) result }
    ensures* appended { sem 𝓛 (VecAppended A.row A.Allocator output.entry
        (unescaped class text.now) result) }
{
    onto_vec(output, &Unescape(class), text)
}

#[inline(always)]
pub(crate) fn decode_body_onto_string<'o, A: Allocator>(
    output: &'o mut String<A>,
    element: Element,
    text: &str,
) -> Result<&'o str, AllocError>
    ensures part { AnswersPart (string_room output.old) (body_decoding element text.now) result }
    ensures* appended { sem 𝓛 (StringAppended A.row A.Allocator output.entry
        (body_decoding element text.now) result) }
{
    onto_string(output, &DecodeBody(element), text)
}

#[inline(always)]
pub(crate) fn decode_body_onto_vec<'o, A: Allocator>(
    output: &'o mut Vec<u8, A>,
    element: Element,
    text: &str,
) -> Result<&'o [u8], AllocError>
    ensures part { AnswersPart (vec_room output.old) (body_decoding element text.now) result }
    ensures* appended { sem 𝓛 (VecAppended A.row A.Allocator output.entry
        (body_decoding element text.now) result) }
{
    onto_vec(output, &DecodeBody(element), text)
}
