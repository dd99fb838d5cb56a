//! A body that is encoded piece by piece. What a piece ends with is held back where only the next
//! one decides whether an opening begins there.
ghost use Rattle.std.specs.Prelude.{◌≡◌, ◌≤◌, ℕ, List, true, [], ◌++◌, length, IfOk, IsOk, OnErr, OnOk};
ghost use Rattle.std.specs.Borrow.{sem};
ghost use Rattle.std.specs.String.{string_bytes};
ghost use Rattle.hesc_specs.specs.Bodies.Encoding.{body_encoding};
ghost use Rattle.hesc_specs.specs.Bodies.DecidedChanges.{partial_at};
ghost use Rattle.hesc_specs.specs.Bodies.Sessions.{IsStep, is_partial as partial, partial_end};
ghost use Rattle.hesc_specs.specs.Text.FirstPlace.{IsFirstAt};
ghost use Rattle.hesc_specs.specs.declared.elements.Element.{Element};
ghost use Rattle.hesc_engine.specs.Forms.{AnswersPart, Appended, StringAppended, string_room};
ghost use Rattle.html_escape.specs.Held.{carry_bytes};

use crate::body_encoder::carry::Carry;
use crate::body_encoder::flush::{Flushed, is_opened};
use crate::body_encoder::partial::{first_partial, is_partial};
use hesc_core::Element;
use hesc_core::forms::{append_parts, append_to_string};
use hesc_core::rules::EncodeBody;
use std::alloc::{AllocError, Allocator};
use std::str;

/// The encoder of one body that comes piece by piece, and may be cut anywhere.
///
/// From one call to the next it holds back the end of what it was given, where only what follows
/// decides whether an opening begins there: `<`, `<!`, `<!-`, or `</` and a beginning of the
/// element's name. That is at most 8 bytes, which it keeps in itself.
#[derive(Drop)]
pub struct BodyEncoder {
    kind: Element,
    held: Carry,
    pub ghost partial: { partial kind (carry_bytes held) ≡ true },
}

impl BodyEncoder {
    ghost use Rattle.html_escape.specs.BodyEncoders.{HasEncoded, added_with, held_by, kind_of};

    /// A session of this kind, which holds nothing.
    ///
    /// `BodyEncoder::new(BodyKind::Script).finish(&mut page)?` appends nothing.
    #[tactic(auto, using(crate::proofs::Sessions::begun))]
    pub fn new(kind: Element) -> BodyEncoder
        ensures kind { kind_of result ≡ kind }
        ensures nothing { held_by result ≡ [] }
        ensures begun { HasEncoded result kind [] [] }
    {
        BodyEncoder {
            kind,
            held: Carry::first_of(b"", b""),
        }
    }

    /// Appends what is decided of the body with this piece, and answers that part. On a refusal the
    /// session and `output` are as they were, and the call can be made again.
    ///
    /// After `push("</scr", &mut page)?`, which answers nothing yet, `push("ipt>", &mut page)?`
    /// appends and answers `<\/script>`.
    pub fn push<'o, A: Allocator>(
        &mut self,
        piece: &str,
        output: &'o mut String<A>,
    ) -> Result<&'o str, AllocError>
        ensures part { AnswersPart (string_room output.old) (added_with self.old piece.now) result }
        ensures* appended { sem 𝓛 (StringAppended A.row A.Allocator output.entry
            (added_with self.old piece.now) result) }

        ensures step { IfOk result (λ part. IsStep (kind_of self.old)
            (held_by self.old) piece.now (held_by self.new) part.now) }
        ensures goes_on { OnOk result ((element : Element) (given added : List ℕ)
            → HasEncoded self.old element given added → HasEncoded self.new element
            (given ++ piece.now) (added ++ added_with self.old piece.now)) }
        ensures held { OnOk result
            (held_by self.new ≡ partial_end (kind_of self.old) (held_by self.old ++ piece.now)) }
        ensures few { length (held_by self.new) ≤ 8 }
        ensures kind { kind_of self.new ≡ kind_of self.old }
        ensures refused { OnErr result (self.new ≡ self.old) }
    {
        Self::append_piece(output, self, piece)
    }

    /// Ends the body: appends the encoding of what is held, and answers that part. The session is
    /// then as new. On a refusal the session and `output` are as they were, and the call can be made
    /// again.
    ///
    /// After `push("a<", &mut page)?`, `finish(&mut page)?` appends and answers `<`.
    pub fn finish<'o, A: Allocator>(
        &mut self,
        output: &'o mut String<A>,
    ) -> Result<&'o str, AllocError>
        ensures part { AnswersPart (string_room output.old)
            (body_encoding (kind_of self.old) (held_by self.old)) result }
        ensures* appended { sem 𝓛 (StringAppended A.row A.Allocator output.entry
            (body_encoding (kind_of self.old) (held_by self.old)) result) }

        ensures whole { (element : Element) (given added : List ℕ)
            → HasEncoded self.old element given added
            → added ++ body_encoding (kind_of self.old) (held_by self.old) ≡ body_encoding element given }
        ensures nothing { OnOk result (held_by self.new ≡ []) }
        ensures kind { kind_of self.new ≡ kind_of self.old }
        ensures refused { OnErr result (self.new ≡ self.old) }
    {
        Self::append_rest(output, self)
    }

    /// [`push`](Self::push) with the output first: a caller's proof learns the answered part, and
    /// all of what `output` holds afterwards.
    ///
    /// Given `</scr`, it appends nothing yet; given then `ipt>`, it appends and answers
    /// `<\/script>`.
    pub fn append_piece<'o, A: Allocator>(
        output: &'o mut String<A>,
        session: &mut BodyEncoder,
        piece: &str,
    ) -> Result<&'o str, AllocError>
        ensures part { AnswersPart (string_room output.old) (added_with session.old piece.now) result }
        ensures* appended { sem 𝓛 (StringAppended A.row A.Allocator output.entry
            (added_with session.old piece.now) result) }

        ensures step { IfOk result (λ part. IsStep (kind_of session.old)
            (held_by session.old) piece.now (held_by session.new) part.now) }
        ensures goes_on { OnOk result ((element : Element) (given added : List ℕ)
            → HasEncoded session.old element given added → HasEncoded session.new element
            (given ++ piece.now) (added ++ added_with session.old piece.now)) }
        ensures held { OnOk result
            (held_by session.new ≡ partial_end (kind_of session.old) (held_by session.old ++ piece.now)) }
        ensures few { length (held_by session.new) ≤ 8 }
        ensures kind { kind_of session.new ≡ kind_of session.old }
        ensures refused { OnErr result (session.new ≡ session.old) }
    {
        let start = output.as_str().len();
        session.add_piece(piece, output)?;
        Ok(&output.as_str()[start..])
    }

    /// [`finish`](Self::finish) with the output first.
    ///
    /// After the piece `a<` it appends and answers `<`.
    pub fn append_rest<'o, A: Allocator>(
        output: &'o mut String<A>,
        session: &mut BodyEncoder,
    ) -> Result<&'o str, AllocError>
        ensures part { AnswersPart (string_room output.old)
            (body_encoding (kind_of session.old) (held_by session.old)) result }
        ensures* appended { sem 𝓛 (StringAppended A.row A.Allocator output.entry
            (body_encoding (kind_of session.old) (held_by session.old)) result) }

        ensures whole { (element : Element) (given added : List ℕ)
            → HasEncoded session.old element given added
            → added ++ body_encoding (kind_of session.old) (held_by session.old) ≡ body_encoding element given }
        ensures nothing { OnOk result (held_by session.new ≡ []) }
        ensures kind { kind_of session.new ≡ kind_of session.old }
        ensures refused { OnErr result (session.new ≡ session.old) }
    {
        let start = output.as_str().len();
        session.add_rest(output)?;
        Ok(&output.as_str()[start..])
    }

    // Appends what is decided with this piece, and answers nothing.
    fn add_piece<A: Allocator>(
        &mut self,
        piece: &str,
        output: &mut String<A>,
    ) -> Result<(), AllocError>
        ensures appended { Appended (string_bytes output.old) (string_bytes output.new)
            (added_with self.old piece.now) result }
        ensures fits { length (added_with self.old piece.now) ≤ string_room output.old
            → IsOk result }

        ensures step { OnOk result (IsStep (kind_of self.old)
            (held_by self.old) piece.now (held_by self.new) (added_with self.old piece.now)) }
        ensures goes_on { OnOk result ((element : Element) (given added : List ℕ)
            → HasEncoded self.old element given added → HasEncoded self.new element
            (given ++ piece.now) (added ++ added_with self.old piece.now)) }
        ensures held { OnOk result
            (held_by self.new ≡ partial_end (kind_of self.old) (held_by self.old ++ piece.now)) }
        ensures few { length (held_by self.new) ≤ 8 }
        ensures kind { kind_of self.new ≡ kind_of self.old }
        ensures refused { OnErr result (self.new ≡ self.old) }
    {
        let end = first_partial(self.kind, piece.as_bytes(), 0);
        if self.held.as_slice().is_empty() && end == piece.len() {
            return append_body(output, self.kind, piece);
        }
        self.add_to_held(piece, end, output)
    }

    // The same, where the piece is partial from `end` on, its length where it has no partial end.
    fn add_to_held<A: Allocator>(
        &mut self,
        piece: &str,
        end: usize,
        output: &mut String<A>,
    ) -> Result<(), AllocError>
        requires { IsFirstAt (partial_at (kind_of self.old) piece.now) 0 (length piece.now) end }
        ensures appended { Appended (string_bytes output.old) (string_bytes output.new)
            (added_with self.old piece.now) result }
        ensures fits { length (added_with self.old piece.now) ≤ string_room output.old
            → IsOk result }

        ensures held { OnOk result
            (held_by self.new ≡ partial_end (kind_of self.old) (held_by self.old ++ piece.now)) }
        ensures kind { kind_of self.new ≡ kind_of self.old }
        ensures refused { OnErr result (self.new ≡ self.old) }
    {
        let front = Carry::first_of(self.held.as_slice(), piece.as_bytes());
        if is_partial(self.kind, front.as_slice()) {
            self.held = front;
            return Ok(());
        }
        let opens = is_opened(self.kind, self.held.as_slice(), front.as_slice());
        let flushed = Flushed {
            element: self.kind,
            held: self.held_text(),
            opens,
            piece,
        };
        append_parts(output, &flushed)?;
        let bytes = piece.as_bytes();
        self.held = Carry::first_of(b"", &bytes[end..]);
        Ok(())
    }

    // Appends the encoding of what is held, and answers nothing.
    #[tactic(auto, using(crate::proofs::Sessions::ended))]
    fn add_rest<A: Allocator>(&mut self, output: &mut String<A>) -> Result<(), AllocError>
        ensures appended { Appended (string_bytes output.old) (string_bytes output.new)
            (body_encoding (kind_of self.old) (held_by self.old)) result }
        ensures fits { length (body_encoding (kind_of self.old) (held_by self.old))
            ≤ string_room output.old → IsOk result }

        ensures whole { (element : Element) (given added : List ℕ)
            → HasEncoded self.old element given added
            → added ++ body_encoding (kind_of self.old) (held_by self.old) ≡ body_encoding element given }
        ensures nothing { OnOk result (held_by self.new ≡ []) }
        ensures kind { kind_of self.new ≡ kind_of self.old }
        ensures refused { OnErr result (self.new ≡ self.old) }
    {
        append_body(output, self.kind, self.held_text())?;
        self.held = Carry::first_of(b"", b"");
        Ok(())
    }

    fn held_text(&self) -> &str
        ensures { result.now ≡ held_by self.now }
    {
        // What is partial is ASCII.
        unsafe { str::from_utf8_unchecked(self.held.as_slice()) }
    }
}

// Appends the encoding of a whole body.
fn append_body<A: Allocator>(
    output: &mut String<A>,
    kind: Element,
    body: &str,
) -> Result<(), AllocError>
    ensures appended { Appended (string_bytes output.old) (string_bytes output.new)
        (body_encoding kind body.now) result }
    ensures fits { length (body_encoding kind body.now) ≤ string_room output.old → IsOk result }
{
    append_to_string(output, &EncodeBody(kind), body)
}
