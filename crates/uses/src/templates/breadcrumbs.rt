//! A caller of templates: the way to a page, as links. The contract says what is appended, byte by byte,
//! which URL a browser finds in it, and which path is a fault.
ghost use Rattle.std.specs.Prelude.{◌≡◌, ◌↔◌, ◌++◌, ◌∷◌, [], IsErrOf, OnOk, codes};
ghost use Rattle.std.specs.String.{string_bytes};
ghost use Rattle.html_template.specs.FilledUrls.{piece_urls};
ghost use Rattle.html_template.specs.Words.{pieces_of, urls_of};
ghost use Rattle.html_template.specs.declared.faults.FillFault.TheVariants.{Text};
ghost use Rattle.html_template.specs.declared.faults.TextFault.TheVariants.{EmptySegment};
ghost use Rattle.html_urls.specs.Words.{component};
ghost use Rattle.uses.specs.Templates.Breadcrumbs.{crumb_pieces, crumb_text, crumb_urls};

use html_template::{FillFault, Part, Template, TemplateFault, laws};
use std::alloc::Global;

/// A page on the way: the one segment of its path, and its name.
#[derive(Clone, Copy)]
pub struct Crumb<'c> {
    pub path: &'c str,
    pub name: &'c str,
}

/// The template of a crumb, which is made once.
#[derive(Drop)]
pub struct Breadcrumbs {
    crumb: Template<'static>,
    ghost told: { pieces_of crumb ≡ crumb_pieces },
    ghost urls: { piece_urls (pieces_of crumb) ≡ crumb_urls },
}

impl Breadcrumbs {
    /// Makes the template.
    #[tactic(auto, unfolding(html_tokenizer::specs::Tokenizer::Tokenization::consume))]
    pub fn new(alloc: Global) -> Result<Breadcrumbs, TemplateFault> {
        let parts = [
            Part::Markup("<a href=\"/"),
            Part::Slot,
            Part::Markup("\">"),
            Part::Slot,
            Part::Markup("</a> / "),
        ];
        let crumb = Template::new(alloc, &parts)?;
        Ok(Breadcrumbs { crumb })
    }

    /// Appends a crumb. A path that is empty, `.` or `..` is a fault.
    pub fn append(&self, page: &mut String, crumb: Crumb) -> Result<(), FillFault>
        ensures text { OnOk result
            (string_bytes page.new ≡ string_bytes page.old ++ crumb_text crumb.entry) }
        ensures url { OnOk result (urls_of (crumb_text crumb.entry)
            ≡ (codes "/" ++ component crumb.entry.path.now) ∷ []) }
        ensures empty { IsErrOf result (Text 0 EmptySegment) ↔ (crumb.entry.path.now ≡ []) }
    {
        laws::fill_faults_law();
        self.crumb.append(page, &[crumb.path, crumb.name])
    }
}
