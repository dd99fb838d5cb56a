//! What an operation makes of a text, appended, with the output first.
//!
//! The checker follows a loan by itself where the lender is the first parameter. So a proof that
//! calls these learns the answered part and all of the output.
ghost use Rattle.std.specs.Borrow.{sem};
ghost use Rattle.hesc_engine.specs.Forms.{
  AnswersPart,
  StringAppended,
  VecAppended,
  string_room,
  vec_room,
};

use hesc_core::Rule;
use hesc_core::forms::{onto_string, onto_vec};
use std::alloc::{AllocError, Allocator};

/// Appends what `operation` makes of `text`, and answers the part that was added. On a refusal
/// `output` is as it was.
///
/// The operation is any rule: an [`Encoder`](crate::Encoder), a [`Decoder`](crate::Decoder), an
/// [`Operation`](crate::Operation), or `References` over a table of one's own.
///
/// `append(&mut page, &Encoder::Text, "a<b")?` appends and answers `a&lt;b`.
#[inline(always)]
pub fn append<'o, R: Rule, A: Allocator>(
    output: &'o mut String<A>,
    operation: &R,
    text: &str,
) -> Result<&'o str, AllocError>
    ensures part { AnswersPart (string_room output.old) (R.made operation.now text.now) result }
    ensures* appended { sem 𝓛 (StringAppended A.row A.Allocator output.entry
        (R.made operation.now text.now) result) }
{
    onto_string(output, operation, text)
}

/// The same for a vector of bytes.
///
/// `append_to_vec(&mut bytes, &Encoder::Text, "a<b")?` appends and answers `a&lt;b`.
#[inline(always)]
pub fn append_to_vec<'o, R: Rule, A: Allocator>(
    output: &'o mut Vec<u8, A>,
    operation: &R,
    text: &str,
) -> Result<&'o [u8], AllocError>
    ensures part { AnswersPart (vec_room output.old) (R.made operation.now text.now) result }
    ensures* appended { sem 𝓛 (VecAppended A.row A.Allocator output.entry
        (R.made operation.now text.now) result) }
{
    onto_vec(output, operation, text)
}
