//! An operation as a value, and its pieces.
ghost use Rattle.std.specs.Prelude.{◌≡◌, ◌≤◌, ◌*◌, ◌+◌, length};
ghost use Rattle.hesc_specs.specs.Text.Parts.{joined, parts};
ghost use Rattle.hesc_engine.specs.Pieces.{parts_left};
ghost use Rattle.html_escape.specs.Operations.{
  applied-operation_changes,
  operates_at,
  operation_changes,
  operation_rows,
  operation_sought,
  operation_text,
};

use crate::decoder::Decoder;
use crate::encoder::Encoder;
use hesc_core::{Found, Length, Pieces, Rule, Seek};

/// An operation: an encoder or a decoder. References are decoded by the built-in table.
#[derive(Clone, Copy, Debug, PartialEq, Eq)]
pub enum Operation {
    Encode(Encoder),
    Decode(Decoder),
}

impl Rule for Operation {
    ghost changes_from = { operation_changes };

    ghost made = { operation_text };

    ghost begins_at = { operates_at };

    ghost is_sought = { operation_sought };

    ghost rows = { operation_rows };

    #[inline(always)]
    fn seeks(&self) -> Seek {
        match self {
            Operation::Encode(encoder) => encoder.seeks(),
            Operation::Decode(decoder) => decoder.seeks(),
        }
    }

    #[inline(always)]
    fn change_at(&self, text: &str, place: usize) -> Option<Found<'_>> {
        match self {
            Operation::Encode(encoder) => encoder.change_at(text, place),
            Operation::Decode(decoder) => decoder.change_at(text, place),
        }
    }

    #[inline(always)]
    fn length(&self, text: &str) -> Length {
        match self {
            Operation::Encode(encoder) => encoder.length(text),
            Operation::Decode(decoder) => decoder.length(text),
        }
    }

    #[inline(always)]
    fn longest(&self, text: &str) -> Option<usize> {
        match self {
            Operation::Encode(encoder) => encoder.longest(text),
            Operation::Decode(decoder) => decoder.longest(text),
        }
    }

    ghost makes = { applied-operation_changes };
}

/// The pieces of what the operation makes of `text`, in order and none of them empty: the stretches
/// of `text` around the changes, as slices, and the changes' replacements. No memory is taken.
///
/// Of `Encoder::Text` and `a<b` the pieces are the kept `a`, the new `&lt;` and the kept `b`.
pub fn pieces<'t>(operation: &'t Operation, text: &'t str) -> Pieces<'t, Operation>
    ensures pieces { parts_left result
        ≡ parts text.now 0 (operation_changes operation.now text.now 0) }
    ensures joined { joined (parts text.now 0 (operation_changes operation.now text.now 0))
        ≡ operation_text operation.now text.now }
    ensures few { length (parts text.now 0 (operation_changes operation.now text.now 0))
        ≤ 2 * length (operation_changes operation.now text.now 0) + 1 }
{
    Pieces::new(operation, text)
}
