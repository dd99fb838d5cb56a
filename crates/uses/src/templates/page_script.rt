//! A caller of templates: a script that starts with two values of the page. The contract says what is
//! appended, byte by byte, and that the script is read so whatever the values are: a string literal for each.
ghost use Rattle.std.specs.Prelude.{◌≡◌, ◌++◌, ◌∷◌, [], IfErr, OnOk};
ghost use Rattle.std.specs.String.{string_bytes};
ghost use Rattle.html_template.specs.Words.{IsReadAs, pieces_of};
ghost use Rattle.html_template.specs.declared.faults.FillFault.TheVariants.{Memory};
ghost use Rattle.uses.specs.Templates.PageScripts.{script_pieces, script_text};

use html_template::{FillFault, Part, Template, TemplateFault};
use std::alloc::Global;

/// The template of the script, which is made once.
#[derive(Drop)]
pub struct PageScript {
    script: Template<'static>,
    ghost told: { pieces_of script ≡ script_pieces },
}

impl PageScript {
    /// Makes the template.
    #[tactic(auto, unfolding(html_tokenizer::specs::Tokenizer::Tokenization::consume))]
    pub fn new(alloc: Global) -> Result<PageScript, TemplateFault> {
        let parts = [
            Part::Markup("<script>var user = "),
            Part::Slot,
            Part::Markup("; show(JSON.parse("),
            Part::Slot,
            Part::Markup("));</script>"),
        ];
        let script = Template::new(alloc, &parts)?;
        Ok(PageScript { script })
    }

    /// Appends the script. Any user and any JSON may be handed in.
    pub fn append(&self, page: &mut String, user: &str, json: &str) -> Result<(), FillFault>
        ensures text { OnOk result
            (string_bytes page.new ≡ string_bytes page.old ++ script_text user.now json.now) }
        ensures read { OnOk result
            (IsReadAs script_pieces (user.now ∷ json.now ∷ []) (script_text user.now json.now)) }
        ensures any { IfErr result (λ fault. fault ≡ Memory) }
    {
        self.script.append(page, &[user, json])?;
        Ok(())
    }
}
