//! What the encoder of a class, or of a body, makes of a text, borrowed, or appended with the output
//! first: the order in which the checker follows a loan by itself. The functions of the ported order
//! hand on to these. The class is a constant in each call, so that the first search is compiled for it.
ghost use Rattle.std.specs.Borrow.{sem};
ghost use Rattle.hesc_specs.specs.Bodies.Encoding.{body_encoding};
ghost use Rattle.hesc_specs.specs.Text.Escaped.{escape_changes, escaped};
ghost use Rattle.hesc_engine.specs.Forms.{AnswersPart, AnswersText, StringAppended, VecAppended, string_room, vec_room};

use hesc_core::forms::{onto_string, onto_vec, to_cow};
use hesc_core::rules::{EncodeBody, Escape};
use hesc_core::{Class, Element};
use std::alloc::{AllocError, Allocator};
use std::borrow::CowStr;

#[inline(always)]
pub(crate) fn encode_to_cow<'t, A: Allocator>(
    alloc: A,
    class: Class,
    text: &'t str,
) -> Result<CowStr<'t, A>, AllocError>
    ensures { AnswersText text.now (escaped class text.now)
        (escape_changes class text.now 0) result }
{
    to_cow(alloc, &Escape(class), text)
}

#[inline(always)]
pub(crate) fn encode_onto_string<'o, A: Allocator>(
    output: &'o mut String<A>,
    class: Class,
    text: &str,
) -> Result<&'o str, AllocError>
    ensures part { AnswersPart (string_room output.old) (escaped class text.now) result }
    ensures* appended { sem 𝓛 (StringAppended A.row A.Allocator output.entry
        (escaped class text.now) result) }
{
    onto_string(output, &Escape(class), text)
}

#[inline(always)]
pub(crate) fn encode_onto_vec<'o, A: Allocator>(
    output: &'o mut Vec<u8, A>,
    class: Class,
    text: &str,
) -> Result<&'o [u8], AllocError>
    ensures part { AnswersPart (vec_room output.old) (escaped class text.now) result }
    ensures* appended { sem 𝓛 (VecAppended A.row A.Allocator output.entry
        (escaped class text.now) result) }
{
    onto_vec(output, &Escape(class), text)
}

#[inline(always)]
pub(crate) fn encode_body_onto_string<'o, A: Allocator>(
    output: &'o mut String<A>,
    element: Element,
    text: &str,
) -> Result<&'o str, AllocError>
    ensures part { AnswersPart (string_room output.old) (body_encoding element text.now) result }
    ensures* appended { sem 𝓛 (StringAppended A.row A.Allocator output.entry
        (body_encoding element text.now) result) }
{
    onto_string(output, &EncodeBody(element), text)
}

#[inline(always)]
pub(crate) fn encode_body_onto_vec<'o, A: Allocator>(
    output: &'o mut Vec<u8, A>,
    element: Element,
    text: &str,
) -> Result<&'o [u8], AllocError>
    ensures part { AnswersPart (vec_room output.old) (body_encoding element text.now) result }
    ensures* appended { sem 𝓛 (VecAppended A.row A.Allocator output.entry
        (body_encoding element text.now) result) }
{
    onto_vec(output, &EncodeBody(element), text)
}
