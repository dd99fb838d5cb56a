//! Rules: an operation as what it seeks, a table, and the exceptions.
ghost use Rattle.std.specs.Prelude.{◌≡◌, ◌≤◌, ◌<◌, ℕ, Bool, true, false, List, [], length, slice_index, IfNone, IfSome};
ghost use Rattle.std.specs.Str.{IsUtf8};
ghost use Rattle.hesc_specs.specs.Text.Changes.{Change, applied};
ghost use Rattle.hesc_sinks.specs.AsciiRows.{HasText, Rows};
ghost use Rattle.hesc_sinks.specs.Hits.{ascii_rows};
ghost use Rattle.hesc_engine.specs.Lengths.{IsLengthOf};
ghost use Rattle.hesc_engine.specs.Next.{IsChangeAt};
ghost use Rattle.hesc_engine.specs.Rules.{BeginsAtSought, EndsWhereNoneBegins, ReplacesByRows};
ghost use Rattle.hesc_engine.specs.Sought.{in_sought};

use crate::length::Length;
use crate::sought::Seek;
use hesc_sinks::found::Found;

/// An operation on texts. It holds no state and takes no memory.
///
/// The rule's text of a source is `made`, and its changes from a place on are `changes_from`. The
/// rule's text from a place is the source from there with those changes made (`applied`). Changes
/// begin only where `begins_at` tells, at bytes that are sought; of those, each that has a row in
/// the table becomes the text of its row.
pub trait Rule {
    ghost changes_from: { Self → List ℕ → ℕ → List Change };

    ghost made: { Self → List ℕ → List ℕ };

    ghost begins_at: { Self → List ℕ → ℕ → Bool };

    ghost is_sought: { Self → ℕ → Bool };

    ghost rows: { Self → Rows };

    /// The bytes at which a change may begin, and the table: a text for each of those of ASCII that
    /// always become the same.
    ///
    /// Of the encoder of text the bytes are those of `Class::Text`, and the text for `<` is `&lt;`.
    fn seeks(&self) -> Seek
        ensures sought { is_sought self.now ≡ in_sought result.sought }
        ensures begins { BeginsAtSought (begins_at self.now) (is_sought self.now) }
        ensures ends { EndsWhereNoneBegins (begins_at self.now) (changes_from self.now) }
        ensures none { IfNone result.texts (rows self.now ≡ []) }
        ensures some { IfSome result.texts (λ texts. rows self.now ≡ ascii_rows texts) }
        ensures replaces { IfSome result.texts (λ texts. ReplacesByRows (ascii_rows texts)
            (begins_at self.now) (is_sought self.now) (changes_from self.now)) };

    /// The change that begins at a sought byte without a text in the table, or `None` where none does.
    ///
    /// Of the decoder of references, in `a&lt;b` at 1, the bytes 1 to 5 become `<`.
    fn change_at(&self, text: &str, place: usize) -> Option<Found<'_>>
        requires within { place < length text.now }
        requires sought { is_sought self.now (slice_index text.now place) ≡ true }
        requires without_text { HasText (rows self.now) (slice_index text.now place) → ⊥ }
        ensures none { IfNone result (begins_at self.now text.now place ≡ false) }
        ensures found { IfSome result
            (IsChangeAt (begins_at self.now text.now) text.now (changes_from self.now text.now) place) };

    /// How long the rule's text is, computed without a scan for changes.
    ///
    /// Of the encoder of text and `a<b` it is exactly 6.
    #[inline(always)]
    fn length(&self, text: &str) -> Length
        ensures { IsLengthOf (made self.now text.now) result }
    {
        match self.longest(text) {
            Some(longest) => Length::AtMost(longest),
            None => Length::Unknown,
        }
    }

    /// An upper bound of that length, for which no byte of the text is looked at, and 0 where the
    /// rule's text is empty; `None` where the rule knows none.
    ///
    /// Of the encoder of text and `a<b` it is 18.
    fn longest(&self, text: &str) -> Option<usize>
        ensures enough { IfSome result (λ longest. length (made self.now text.now) ≤ longest) }
        ensures empty { IfSome result (λ longest. made self.now text.now ≡ [] → longest ≡ 0) };

    // The changes, made, are the rule's text.
    ghost makes: { (rule : Self) (source : List ℕ) → IsUtf8 source →
        applied source 0 (changes_from rule source 0) ≡ made rule source };
}
