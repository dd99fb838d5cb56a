//! A caller of templates: a bar of a chart, whose width and colour are told by texts. The contract says what
//! the page is, and that its `style` has the two declarations of the template, whatever the texts.
ghost use Rattle.std.specs.Prelude.{◌≡◌, ◌∷◌, [], IfOk, OnOk, codes};
ghost use Rattle.std.specs.String.{string_bytes};
ghost use Rattle.html_template.specs.Words.{IsPageOf, pieces_of};
ghost use Rattle.html_tokenizer.specs.Declarations.{declarations};
ghost use Rattle.uses.specs.Templates.Bars.{bar_parts, bar_pieces, bar_style, bar_texts};

use html_template::{FillFault, Part, Template, TemplateFault, laws};
use html_tokenizer::laws::style_law;
use std::alloc::Global;

/// How wide a bar is, in percent, and of which colour.
#[derive(Clone, Copy)]
pub struct Bar<'b> {
    pub width: &'b str,
    pub color: &'b str,
}

/// The template, which is made once.
#[derive(Drop)]
pub struct BarTemplate {
    bar: Template<'static>,
    ghost told: { pieces_of bar ≡ bar_pieces },
}

impl BarTemplate {
    /// Makes the template.
    #[tactic(auto, unfolding(html_tokenizer::specs::Tokenizer::Tokenization::consume))]
    pub fn new(alloc: Global) -> Result<BarTemplate, TemplateFault> {
        let bar = [
            Part::Markup("<div style=\"width: "),
            Part::Slot,
            Part::Markup("%; background: "),
            Part::Slot,
            Part::Markup("\"></div>"),
        ];
        Ok(BarTemplate {
            bar: Template::new(alloc, &bar)?,
        })
    }

    /// The page of a bar. The fault is `Text(0, NotAStyleValue)` where the width has another byte than a piece of a
    /// style's value, as in `1; top: 0`, and `Text(1, NotAStyleValue)` where the colour has.
    pub fn page(&self, alloc: Global, bar: Bar) -> Result<String, FillFault>
        ensures page { IfOk result (λ page. IsPageOf bar_parts (bar_texts bar.entry) (string_bytes page)) }
        ensures names { OnOk result ((declarations (bar_style bar.entry)).names
            ≡ codes "width" ∷ codes "background" ∷ []) }
    {
        laws::pages_law();
        style_law();
        let mut page = String::new(alloc);
        self.bar.append(&mut page, &[bar.width, bar.color])?;
        Ok(page)
    }
}
