//! Templates whose slots have names.
ghost use Rattle.std.specs.Prelude.{◌≡◌, ◌≢◌, ◌++◌, ℕ, List, None, IfOk, OnErr, OnOk, map};
ghost use Rattle.std.specs.Io.KnownBytes.{Appends};
ghost use Rattle.std.specs.String.{string_bytes};
ghost use Rattle.hesc_specs.specs.Text.Beginning.{AppendsBeginning};
ghost use Rattle.hesc_engine.specs.Forms.{Appended};
ghost use Rattle.html_template.specs.FilledUrls.{HasUrlsOf};
ghost use Rattle.html_template.specs.PageUrls.{urls_of};
ghost use Rattle.html_template.specs.Structure.{IsPageOf, IsReadAs, JoinsWritten};
ghost use Rattle.html_template.specs.TemplateFaults.{placed};
ghost use Rattle.html_template.specs.Templates.{Given, page, part_of, texts_of};
ghost use Rattle.html_template_source.specs.Bindings.{
  AnswersBind,
  AnswersBinding,
  AnswersEarly,
  bind_fault,
  bindings_of,
  early_fault,
  of_fill,
  text_of,
};
ghost use Rattle.html_template_source.specs.Places.{AreListed, listed, texts_by};
ghost use Rattle.html_template_source.specs.SourceFaults.{AnswersSource};
ghost use Rattle.html_template_source.specs.Sources.{IsSourceOf, TakeTurns};

use crate::bound::Bound;
use crate::faults::{BindFault, SourceFault};
use crate::first_fault::{find_fault, search_fault};
use crate::names::Names;
use crate::places::{BLOCK, NOWHERE, Places};
use crate::source::Source;
use html_template::{FillFault, Template, TemplateFault, WriteFault};
use std::alloc::{Allocator, Global};
use std::io::Write;

/// A template and the names of its slots.
#[derive(Drop)]
pub struct NamedTemplate<'a, A: Allocator = Global> {
    alloc: A,
    template: Template<'a, A>,
    names: Names<'a, A>,
}

impl<'a, A: Allocator + Copy> NamedTemplate<'a, A> {
    ghost use Rattle.html_template_source.specs.NamedTemplates.{chunks_of, names_of};

    /// The template of a source, in which a slot is a name between `{{` and `}}`, and `{{"{{"}}` is a
    /// `{{` of the markup. A name may stand more than once.
    ///
    /// Of `<p>{{name}}</p>` it has one slot, `name`; of `<p {{name}}>` the fault is
    /// `NoTemplate(Part(1, NoPlace))`.
    pub fn parse(alloc: A, source: &'a str) -> Result<NamedTemplate<'a, A>, SourceFault>
        ensures source { IfOk result (λ t.
            IsSourceOf (map part_of (chunks_of t)) (names_of t) source.now) }
        ensures turns { IfOk result (λ t. TakeTurns (map part_of (chunks_of t))) }
        ensures placed { IfOk result (λ t. chunks_of t ≡ placed (map part_of (chunks_of t))) }
        ensures faults { AnswersSource source.now result }
    {
        let Source { parts, names } = Source::cut(alloc, source)?;
        let Ok(names) = Names::of(alloc, &names) else {
            return Err(SourceFault::Memory);
        };
        match Template::new(alloc, &parts) {
            Ok(template) => Ok(NamedTemplate {
                alloc,
                template,
                names,
            }),
            Err(TemplateFault::Memory) => Err(SourceFault::Memory),
            Err(fault) => Err(SourceFault::NoTemplate(fault)),
        }
    }

    /// Appends the page of these texts, each with the name of its slots. On a fault `output` is as it
    /// was: first come faults of the bindings, one by one, then of the slots.
    ///
    /// Whatever follows the page, it is tokenized as the template is, with each text handed to its
    /// slots whole, in a part of a URL as its component. Its URLs are those of the template, filled
    /// by the texts of its slots in URLs, as `html_template::laws::page_urls_law` says; they and those
    /// of any page are alike, as `html_template::laws::url_law` says.
    ///
    /// Of `<p>{{name}}</p>`, the page of `a<b` for `name` is `<p>a&lt;b</p>`.
    #[tactic(auto, using(crate::proofs::FirstFaults::early_answers, crate::proofs::FirstFaults::late_answers, crate::proofs::FirstFaults::no_fault))]
    pub fn append<B: Allocator>(
        &self,
        output: &mut String<B>,
        bindings: &[(&str, &str)],
    ) -> Result<(), BindFault>
        ensures appended { Appended (string_bytes output.old) (string_bytes output.new)
            (page (chunks_of self.now)
            (map (text_of (bindings_of bindings.now)) (names_of self.now))) result }
        ensures faults { AnswersBind (bindings_of bindings.now) (names_of self.now)
            (chunks_of self.now) result }
        ensures read { OnOk result (IsReadAs (chunks_of self.now)
            (map (text_of (bindings_of bindings.now)) (names_of self.now))
            (page (chunks_of self.now)
            (map (text_of (bindings_of bindings.now)) (names_of self.now)))) }
        ensures filled { OnOk result (HasUrlsOf (chunks_of self.now)
            (map (text_of (bindings_of bindings.now)) (names_of self.now))) }
        ensures joins { OnOk result ((parts : List Given) (before : List (List ℕ))
            → IsPageOf parts before (string_bytes output.old)
            → IsPageOf (parts ++ map part_of (chunks_of self.now))
            (before ++ map (text_of (bindings_of bindings.now)) (names_of self.now))
            (string_bytes output.new)) }
        ensures joined_urls { OnOk result ((parts : List Given) (before : List (List ℕ))
            → IsPageOf parts before (string_bytes output.old)
            → urls_of (string_bytes output.new) ≡ urls_of (string_bytes output.old)
            ++ urls_of (page (chunks_of self.now)
            (map (text_of (bindings_of bindings.now)) (names_of self.now)))) }
    {
        let mut places = Places::InOrder;
        let texts = match self.bind(bindings, &mut places) {
            Ok(texts) => texts,
            Err(fault) => return Err(fault),
        };
        match self.template.append_texts(output, &texts) {
            Ok(()) => Ok(()),
            Err(fault) => Err(bind_fault_of(fault)),
        }
    }

    /// Writes the page of these texts, each with the name of its slots: markup as it stands, and each
    /// text as it is encoded. No page is made in memory, and nothing is flushed. Where the texts do not
    /// fill the template nothing is written. On the writer's own fault a beginning of the page was.
    ///
    /// Of `<p>{{name}}</p>` and `a<b` for `name` it writes `<p>a&lt;b</p>`.
    #[tactic(auto, using(crate::proofs::FirstFaults::early_writes, crate::proofs::FirstFaults::late_writes, crate::proofs::FirstFaults::no_fault))]
    pub fn append_to_writer<W: Write>(
        &self,
        output: &mut W,
        bindings: &[(&str, &str)],
    ) -> Result<(), WriteFault<BindFault>>
        ensures written { OnOk result (Appends (W.contents output.old) (W.contents output.new)
            (page (chunks_of self.now)
            (map (text_of (bindings_of bindings.now)) (names_of self.now)))) }
        ensures began { OnErr result (AppendsBeginning (W.contents output.old)
            (W.contents output.new) (page (chunks_of self.now)
            (map (text_of (bindings_of bindings.now)) (names_of self.now)))) }
        ensures kept { bind_fault (bindings_of bindings.now) (names_of self.now)
            (chunks_of self.now) ≢ None → output.new ≡ output.old }
        ensures faults { AnswersBinding (bindings_of bindings.now) (names_of self.now)
            (chunks_of self.now) result }
        ensures read { OnOk result (IsReadAs (chunks_of self.now)
            (map (text_of (bindings_of bindings.now)) (names_of self.now))
            (page (chunks_of self.now)
            (map (text_of (bindings_of bindings.now)) (names_of self.now)))) }
        ensures filled { OnOk result (HasUrlsOf (chunks_of self.now)
            (map (text_of (bindings_of bindings.now)) (names_of self.now))) }
        ensures joins { OnOk result (JoinsWritten (map part_of (chunks_of self.now))
            (map (text_of (bindings_of bindings.now)) (names_of self.now))
            (W.contents output.old) (W.contents output.new)) }
    {
        let mut places = Places::InOrder;
        let texts = match self.bind(bindings, &mut places) {
            Ok(texts) => texts,
            Err(fault) => return Err(WriteFault::Texts(fault)),
        };
        match self.template.append_texts_to_writer(output, &texts) {
            Ok(()) => Ok(()),
            Err(WriteFault::Texts(fault)) => Err(WriteFault::Texts(bind_fault_of(fault))),
            Err(WriteFault::Writer(fault)) => Err(WriteFault::Writer(fault)),
        }
    }

    // The text of each slot. Where the bindings stand is put down, if it is not in the order of the names.
    #[inline(always)]
    fn bind<'t>(
        &'t self,
        bindings: &'t [(&'t str, &'t str)],
        places: &'t mut Places<A>,
    ) -> Result<Bound<'t>, BindFault>
        ensures texts { IfOk result (λ texts. texts_by texts.places (bindings_of texts.bindings.now)
            texts.numbers.now ≡ map (text_of (bindings_of bindings.now)) (names_of self.now)) }
        ensures faults { AnswersEarly (early_fault (bindings_of bindings.now) (names_of self.now)) result }
    {
        if self.names.are_in_order(bindings) {
            return Ok(Bound {
                numbers: &self.names.numbers,
                bindings,
                places: None,
            });
        }
        self.put_places(bindings, places)?;
        Ok(Bound {
            numbers: &self.names.numbers,
            bindings,
            places: places.as_slice(),
        })
    }

    // Puts down where the bindings of the names stand. The block is set up in this function and no other.
    #[inline(never)]
    fn put_places(&self, bindings: &[(&str, &str)], places: &mut Places<A>) -> Result<(), BindFault>
        ensures placed { OnOk result (AreListed (listed places.new) (bindings_of bindings.now)
            (texts_of self.now.names.distinct.items)) }
        ensures faults { AnswersEarly (early_fault (bindings_of bindings.now) (names_of self.now)) result }
    {
        let count = self.names.distinct.len();
        if count <= BLOCK {
            let mut block = [NOWHERE; BLOCK];
            return match find_fault(&self.names, bindings, &mut block) {
                Some(fault) => Err(fault),
                None => {
                    *places = Places::Block(block);
                    Ok(())
                }
            };
        }
        let Ok(mut many) = vec![in self.alloc; NOWHERE; count] else {
            return Err(search_fault(&self.names, bindings).unwrap_or(BindFault::Memory));
        };
        match find_fault(&self.names, bindings, &mut many) {
            Some(fault) => Err(fault),
            None => {
                *places = Places::Many(many);
                Ok(())
            }
        }
    }
}

// The same fault, of bound texts.
fn bind_fault_of(fault: FillFault) -> BindFault
    ensures { result ≡ of_fill fault }
{
    match fault {
        FillFault::Memory => BindFault::Memory,
        other => BindFault::Fill(other),
    }
}
