//! A caller of templates: data of a page for search engines, as JSON in a script of its own. The contract says what
//! is appended, byte by byte, that no text ends the script, and that what stands in it is JSON of the same value.
ghost use Rattle.std.specs.Prelude.{◌≡◌, ◌++◌, ◌∷◌, [], IfErr, OnOk, Some};
ghost use Rattle.std.specs.String.{string_bytes};
ghost use Rattle.json.specs.Json.{Json, document};
ghost use Rattle.html_template.specs.Words.{IsReadAs, pieces_of};
ghost use Rattle.html_template.specs.declared.faults.FillFault.TheVariants.{Memory};
ghost use Rattle.uses.specs.Templates.DataBlocks.{block_pieces, block_text, content};

use html_template::{FillFault, Part, Template, TemplateFault, laws};
use std::alloc::Global;

/// The template of the block, which is made once.
#[derive(Drop)]
pub struct DataBlock {
    block: Template<'static>,
    ghost told: { pieces_of block ≡ block_pieces },
}

impl DataBlock {
    /// Makes the template.
    #[tactic(auto, unfolding(html_tokenizer::specs::Tokenizer::Tokenization::consume))]
    pub fn new(alloc: Global) -> Result<DataBlock, TemplateFault> {
        let parts = [
            Part::Markup("<script type=\"application/ld+json\">"),
            Part::Slot,
            Part::Markup("</script>"),
        ];
        let block = Template::new(alloc, &parts)?;
        Ok(DataBlock { block })
    }

    /// Appends the block. Any text may be handed in.
    pub fn append(&self, page: &mut String, json: &str) -> Result<(), FillFault>
        ensures text { OnOk result
            (string_bytes page.new ≡ string_bytes page.old ++ block_text json.now) }
        ensures read { OnOk result (IsReadAs block_pieces (json.now ∷ []) (block_text json.now)) }
        ensures same { (value : Json) → document json.now ≡ Some value
            → document (content json.now) ≡ Some value }
        ensures any { IfErr result (λ fault. fault ≡ Memory) }
    {
        laws::json_law();
        self.block.append(page, &[json])?;
        Ok(())
    }
}
