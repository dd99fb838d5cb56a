//! A caller of templates: an item of a log, written to any writer without making it in memory. The
//! contract says what went out, on a fault too.
ghost use Rattle.std.specs.Prelude.{◌≡◌, ◌∷◌, [], ℕ, List, OnErr, OnOk};
ghost use Rattle.html_escape.specs.Words.{Appends, AppendsBeginning};
ghost use Rattle.html_template.specs.Words.{page, pieces_of};
ghost use Rattle.uses.specs.Writers.LogItems.{item_text};

use html_template::{FillFault, Part, Template, TemplateFault, WriteFault};
use std::alloc::Global;
use std::io::Write;

/// The template of an item, which is made once.
#[derive(Drop)]
pub struct LogItem {
    item: Template<'static>,
    ghost says: { (time message : List ℕ) → page (pieces_of item) (time ∷ message ∷ [])
        ≡ item_text time message },
}

impl LogItem {
    /// Makes the template.
    #[tactic(auto, unfolding(html_tokenizer::specs::Tokenizer::Tokenization::consume))]
    pub fn new(alloc: Global) -> Result<LogItem, TemplateFault> {
        let parts = [
            Part::Markup("<li title=\""),
            Part::Slot,
            Part::Markup("\">"),
            Part::Slot,
            Part::Markup("</li>"),
        ];
        let item = Template::new(alloc, &parts)?;
        Ok(LogItem { item })
    }

    /// Writes the item of a message and its time, or a beginning of it and then the writer's fault.
    ///
    /// Of `9:00` and `a<b` it writes `<li title="9:00">a&lt;b</li>`.
    pub fn write<W: Write>(
        &self,
        output: &mut W,
        time: &str,
        message: &str,
    ) -> Result<(), WriteFault<FillFault>>
        ensures all { OnOk result (Appends (W.contents output.old) (W.contents output.new)
            (item_text time.now message.now)) }
        ensures began { OnErr result (AppendsBeginning (W.contents output.old)
            (W.contents output.new) (item_text time.now message.now)) }
    {
        self.item.append_to_writer(output, &[time, message])
    }
}
