//! Templates.
ghost use Rattle.std.specs.Prelude.{◌≡◌, ◌≢◌, ◌++◌, ◌∷◌, [], ◌≤◌, ℕ, List, None, IfErr, IfOk, IsOk, Ok, OnErr, OnOk, length, map};
ghost use Rattle.std.specs.Io.KnownBytes.{Appends};
ghost use Rattle.std.specs.String.{string_bytes};
ghost use Rattle.hesc_specs.specs.Text.Beginning.{AppendsBeginning};
ghost use Rattle.hesc_engine.specs.Forms.{Appended, string_room};
ghost use Rattle.html_template.specs.Fragments.{markup_in};
ghost use Rattle.html_template.specs.FillFaults.{AnswersFill, fill_fault, has_checked, slot_count};
ghost use Rattle.html_tokenizer.specs.Tokenizer.States.{data_state};
ghost use Rattle.html_template.specs.Structure.{IsPageOf, IsReadAs, JoinsWritten};
ghost use Rattle.html_template.specs.Writing.{AnswersWriting};
ghost use Rattle.html_template.specs.declared.faults.TemplateFault.TheVariants.{Memory};
ghost use Rattle.html_template.specs.FilledUrls.{HasUrlsOf};
ghost use Rattle.html_template.specs.PageUrls.{urls_of};
ghost use Rattle.html_template.specs.TemplateFaults.{
  Answers,
  TakesMore,
  next_markup,
  placed,
  template_of,
  walk_of,
};
ghost use Rattle.html_template.specs.Templates.{
  Fill,
  Given,
  chunk_of,
  given,
  page,
  part_of,
  state_after_all,
  texts_of,
};

use crate::faults::{FillFault, TemplateFault, WriteFault};
use crate::fill::{Summary, check};
use crate::fragment::FragmentBuf;
use crate::page::{Page, write_page};
use crate::parts::Part;
use crate::stored::{Stored, StoredMarkup, StoredSlot};
use crate::texts::Texts;
use crate::walk::Walk;
use hesc_core::forms::append_parts;
use std::alloc::{Allocator, Global};
use std::io::Write;

/// A page with slots, each of which stands where a text may stand.
#[derive(Drop)]
pub struct Template<'a, A: Allocator = Global> {
    pieces: Vec<Stored<'a>, A>,
    summary: Summary,
    ghost slots: { summary.slots ≡ slot_count (map chunk_of pieces.items) },
    ghost checked: { summary.has_checked ≡ has_checked (map chunk_of pieces.items) },
    ghost sound: { state_after_all data_state (map chunk_of pieces.items) ≡ data_state },
    ghost told: { template_of (map part_of (map chunk_of pieces.items)) ≡ Ok (map chunk_of pieces.items) },
}

impl<'a, A: Allocator + Copy> Template<'a, A> {
    ghost use Rattle.html_template.specs.TemplatePieces.{pieces_of};

    /// The template of these parts. On a fault it is the first, part by part; `Unfinished` comes
    /// where each part alone has none.
    ///
    /// Of `<p title="`, a slot and `">` it stands in a value in double quotes; of `<p `, a slot and `>`
    /// the fault is `Part(1, NoPlace)`.
    #[tactic(auto, using(crate::proofs::Pieces::unfinished, crate::proofs::Pieces::all_told, crate::proofs::Pieces::is_template))]
    pub fn new(alloc: A, parts: &[Part<'a>]) -> Result<Template<'a, A>, TemplateFault>
        ensures parts { IfOk result (λ template.
            map part_of (pieces_of template) ≡ map given parts.now) }
        ensures told { Answers pieces_of (template_of (map given parts.now)) result }
        ensures placed { IfOk result (λ template. pieces_of template ≡ placed (map given parts.now)) }
    {
        let mut walk = Walk::new(alloc);
        let mut pieces = Vec::with_capacity(alloc, parts.len())?;
        let mut rest = parts;
        'parts: while let [part, others @ ..] = rest {
            let number = parts.len() - rest.len();
            take_part(&mut walk, &mut pieces, *part, others, number)?;
            rest = others;
        }
        if !walk.may_end() {
            return Err(TemplateFault::Unfinished);
        }
        let summary = Summary::of(&pieces);
        Ok(Template { pieces, summary })
    }

    /// Appends the page of these texts, one for each slot. On a fault `output` is as it was.
    ///
    /// Whatever follows the page, it is tokenized as the template is, with each text handed to its
    /// slot whole. Its URLs are those of the template, filled by the texts of its slots in URLs, as
    /// `laws::page_urls_law` says; they and those of any page are alike, as `laws::url_law` says.
    /// Behind a page it makes a page of the joined parts, whose URLs are those of both.
    ///
    /// Of `<p title="`, a slot and `">`, the page of `a"` is `<p title="a&quot;">`.
    pub fn append<B: Allocator>(
        &self,
        output: &mut String<B>,
        texts: &[&str],
    ) -> Result<(), FillFault>
        ensures appended { Appended (string_bytes output.old) (string_bytes output.new)
            (page (pieces_of self.now) (texts_of texts.now)) result }
        ensures full { OnOk result (Fill (pieces_of self.now) (texts_of texts.now)) }
        ensures faults { AnswersFill (fill_fault (pieces_of self.now) (texts_of texts.now)) result }
        ensures fits { fill_fault (pieces_of self.now) (texts_of texts.now) ≡ None
            → length (page (pieces_of self.now) (texts_of texts.now)) ≤ string_room output.old
            → IsOk result }
        ensures read { OnOk result (IsReadAs (pieces_of self.now) (texts_of texts.now)
            (page (pieces_of self.now) (texts_of texts.now))) }
        ensures filled { OnOk result (HasUrlsOf (pieces_of self.now) (texts_of texts.now)) }
        ensures joins { OnOk result ((parts : List Given) (before : List (List ℕ))
            → IsPageOf parts before (string_bytes output.old)
            → IsPageOf (parts ++ map part_of (pieces_of self.now)) (before ++ texts_of texts.now)
            (string_bytes output.new)) }
        ensures joined_urls { OnOk result ((parts : List Given) (before : List (List ℕ))
            → IsPageOf parts before (string_bytes output.old)
            → urls_of (string_bytes output.new) ≡ urls_of (string_bytes output.old)
            ++ urls_of (page (pieces_of self.now) (texts_of texts.now))) }
    {
        self.append_texts(output, &texts)
    }

    /// The same as [`Template::append`], for texts that are kept in another way than a slice.
    ///
    /// Of `<p title="`, a slot and `">`, the page of `a"` is `<p title="a&quot;">`.
    #[inline(always)]
    #[tactic(auto, using(crate::proofs::Structure::is_read_as, crate::proofs::PageUrls::Law::has_urls_of, crate::proofs::Joined::urls_after))]
    pub fn append_texts<T: Texts, B: Allocator>(
        &self,
        output: &mut String<B>,
        texts: &T,
    ) -> Result<(), FillFault>
        ensures appended { Appended (string_bytes output.old) (string_bytes output.new)
            (page (pieces_of self.now) (T.list texts.now)) result }
        ensures full { OnOk result (Fill (pieces_of self.now) (T.list texts.now)) }
        ensures faults { AnswersFill (fill_fault (pieces_of self.now) (T.list texts.now)) result }
        ensures fits { fill_fault (pieces_of self.now) (T.list texts.now) ≡ None
            → length (page (pieces_of self.now) (T.list texts.now)) ≤ string_room output.old
            → IsOk result }
        ensures read { OnOk result (IsReadAs (pieces_of self.now) (T.list texts.now)
            (page (pieces_of self.now) (T.list texts.now))) }
        ensures filled { OnOk result (HasUrlsOf (pieces_of self.now) (T.list texts.now)) }
        ensures joins { OnOk result ((parts : List Given) (before : List (List ℕ))
            → IsPageOf parts before (string_bytes output.old)
            → IsPageOf (parts ++ map part_of (pieces_of self.now)) (before ++ T.list texts.now)
            (string_bytes output.new)) }
        ensures joined_urls { OnOk result ((parts : List Given) (before : List (List ℕ))
            → IsPageOf parts before (string_bytes output.old)
            → urls_of (string_bytes output.new) ≡ urls_of (string_bytes output.old)
            ++ urls_of (page (pieces_of self.now) (T.list texts.now))) }
    {
        if let Err(fault) = check(&self.pieces, self.summary, texts) {
            return Err(fault);
        }
        append_parts(output, &self.page_of(texts))?;
        Ok(())
    }

    /// The page of these texts, one for each slot, as a fragment.
    ///
    /// Of `<b>`, a slot and `</b>`, the fragment of `a` is `<b>a</b>`.
    pub fn fragment<B: Allocator>(
        &self,
        alloc: B,
        texts: &[&str],
    ) -> Result<FragmentBuf<B>, FillFault>
        ensures page { IfOk result (λ fragment.
            markup_in fragment ≡ page (pieces_of self.now) (texts_of texts.now)) }
        ensures faults { AnswersFill (fill_fault (pieces_of self.now) (texts_of texts.now)) result }
    {
        let mut made = String::new(alloc);
        self.append(&mut made, texts)?;
        Ok(FragmentBuf::of_page(made))
    }

    /// Writes the page of these texts, one for each slot: markup as it stands, and each text as it is
    /// encoded. No page is made in memory, and nothing is flushed. Where the texts do not fill the
    /// template nothing is written. On the writer's own fault a beginning of the page was.
    ///
    /// Of `<p title="`, a slot and `">` and the text `a"` it writes `<p title="a&quot;">`.
    pub fn append_to_writer<W: Write>(
        &self,
        output: &mut W,
        texts: &[&str],
    ) -> Result<(), WriteFault<FillFault>>
        ensures written { OnOk result (Appends (W.contents output.old) (W.contents output.new)
            (page (pieces_of self.now) (texts_of texts.now))) }
        ensures began { OnErr result (AppendsBeginning (W.contents output.old)
            (W.contents output.new) (page (pieces_of self.now) (texts_of texts.now))) }
        ensures kept { fill_fault (pieces_of self.now) (texts_of texts.now) ≢ None
            → output.new ≡ output.old }
        ensures full { OnOk result (Fill (pieces_of self.now) (texts_of texts.now)) }
        ensures faults { AnswersWriting (fill_fault (pieces_of self.now) (texts_of texts.now))
            result }
        ensures empty { fill_fault (pieces_of self.now) (texts_of texts.now) ≡ None
            → page (pieces_of self.now) (texts_of texts.now) ≡ [] → IsOk result }
        ensures read { OnOk result (IsReadAs (pieces_of self.now) (texts_of texts.now)
            (page (pieces_of self.now) (texts_of texts.now))) }
        ensures filled { OnOk result (HasUrlsOf (pieces_of self.now) (texts_of texts.now)) }
        ensures joins { OnOk result (JoinsWritten (map part_of (pieces_of self.now)) (texts_of texts.now)
            (W.contents output.old) (W.contents output.new)) }
    {
        self.append_texts_to_writer(output, &texts)
    }

    /// The same as [`Template::append_to_writer`], for texts that are kept in another way than a slice.
    ///
    /// Of `<p title="`, a slot and `">` and the text `a"` it writes `<p title="a&quot;">`.
    #[inline(always)]
    #[tactic(auto, using(crate::proofs::Structure::is_read_as, crate::proofs::PageUrls::Law::has_urls_of, crate::proofs::Joined::written_after))]
    pub fn append_texts_to_writer<T: Texts, W: Write>(
        &self,
        output: &mut W,
        texts: &T,
    ) -> Result<(), WriteFault<FillFault>>
        ensures written { OnOk result (Appends (W.contents output.old) (W.contents output.new)
            (page (pieces_of self.now) (T.list texts.now))) }
        ensures began { OnErr result (AppendsBeginning (W.contents output.old)
            (W.contents output.new) (page (pieces_of self.now) (T.list texts.now))) }
        ensures kept { fill_fault (pieces_of self.now) (T.list texts.now) ≢ None
            → output.new ≡ output.old }
        ensures full { OnOk result (Fill (pieces_of self.now) (T.list texts.now)) }
        ensures faults { AnswersWriting (fill_fault (pieces_of self.now) (T.list texts.now))
            result }
        ensures empty { fill_fault (pieces_of self.now) (T.list texts.now) ≡ None
            → page (pieces_of self.now) (T.list texts.now) ≡ [] → IsOk result }
        ensures read { OnOk result (IsReadAs (pieces_of self.now) (T.list texts.now)
            (page (pieces_of self.now) (T.list texts.now))) }
        ensures filled { OnOk result (HasUrlsOf (pieces_of self.now) (T.list texts.now)) }
        ensures joins { OnOk result (JoinsWritten (map part_of (pieces_of self.now)) (T.list texts.now)
            (W.contents output.old) (W.contents output.new)) }
    {
        if let Err(fault) = check(&self.pieces, self.summary, texts) {
            return Err(WriteFault::Texts(fault));
        }
        match write_page(output, &self.page_of(texts)) {
            Ok(()) => Ok(()),
            Err(fault) => Err(WriteFault::Writer(fault)),
        }
    }

    // The page of these texts, which fill the slots.
    #[inline(always)]
    fn page_of<T: Texts>(&self, texts: &T) -> Page<'_, T>
        ensures pieces { map chunk_of result.pieces.now ≡ pieces_of self.now }
        ensures texts { result.texts ≡ texts.now }
    {
        Page {
            pieces: &self.pieces,
            texts: *texts,
            markup: self.summary.markup,
        }
    }
}

// The markup that follows directly.
fn next_markup<'a>(parts: &[Part<'a>]) -> &'a [u8]
    ensures { result.now ≡ next_markup (map given parts.now) }
{
    match parts {
        [Part::Markup(text), ..] => text.as_bytes(),
        _ => b"",
    }
}

// Takes one part more, which has this number, and behind which these follow.
#[inline(always)]
fn take_part<'a, A: Allocator + Copy>(
    walk: &mut Walk<'a, A>,
    pieces: &mut Vec<Stored<'a>, A>,
    part: Part<'a>,
    others: &[Part<'a>],
    number: usize,
) -> Result<(), TemplateFault>
    ensures { TakesMore number (map chunk_of pieces.old.items) (walk_of walk.old) (given part.entry)
        (map given others.now) (map chunk_of pieces.new.items) (walk_of walk.new) result }
{
    match part {
        Part::Markup(text) => match walk.take_markup(text, number) {
            Ok(()) => push_piece(pieces, Stored::Markup(StoredMarkup::new(text))),
            Err(fault) => Err(fault),
        },
        Part::Slot => match walk.take_slot(next_markup(others), number) {
            Ok(slot) => push_piece(pieces, Stored::Slot(StoredSlot::new(slot.place, slot.kind))),
            Err(fault) => Err(fault),
        },
    }
}

#[inline(always)]
fn push_piece<'a, A: Allocator>(
    pieces: &mut Vec<Stored<'a>, A>,
    piece: Stored<'a>,
) -> Result<(), TemplateFault>
    ensures pushed { OnOk result (pieces.new.items ≡ pieces.old.items ++ piece.entry ∷ []) }
    ensures memory { IfErr result (λ fault. fault ≡ Memory) }
{
    match pieces.push(piece) {
        Ok(()) => Ok(()),
        Err(_) => Err(TemplateFault::Memory),
    }
}
