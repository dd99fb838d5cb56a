//! A caller of templates: the name of a stranger, with a link to the home page that the stranger gave, if
//! it is a link. Neither can change the page's structure, and the contract says so.
ghost use Rattle.std.specs.Prelude.{◌≡◌, ◌↔◌, ◌∷◌, [], IfOk, IsErrOf, OnOk, false, map, true};
ghost use Rattle.std.specs.String.{string_bytes};
ghost use Rattle.html_template.specs.Words.{IsPageOf, part_of, pieces_of};
ghost use Rattle.html_template.specs.declared.faults.FillFault.TheVariants.{Text};
ghost use Rattle.html_template.specs.declared.faults.TextFault.TheVariants.{NotALink};
ghost use Rattle.html_urls.specs.Words.{is_link};
ghost use Rattle.uses.specs.Templates.HomePages.{IsStranger, link_parts, link_pieces, name_parts};

use html_template::{FillFault, Part, Template, TemplateFault, TextFault, laws};
use std::alloc::Global;

/// Who wrote something, and where this is said to be at home.
#[derive(Clone, Copy)]
pub struct Stranger<'s> {
    pub name: &'s str,
    pub url: &'s str,
}

/// The templates with the link and without it, which are made once.
#[derive(Drop)]
pub struct StrangerTemplates {
    link: Template<'static>,
    name: Template<'static>,
    ghost link_told: { pieces_of link ≡ link_pieces },
    ghost name_is: { map part_of (pieces_of name) ≡ name_parts },
}

impl StrangerTemplates {
    /// Makes the templates.
    #[tactic(auto, unfolding(html_tokenizer::specs::Tokenizer::Tokenization::consume))]
    pub fn new(alloc: Global) -> Result<StrangerTemplates, TemplateFault> {
        let link = [
            Part::Markup("<a rel=\"nofollow\" href=\""),
            Part::Slot,
            Part::Markup("\">"),
            Part::Slot,
            Part::Markup("</a>"),
        ];
        let name = [Part::Markup("<b>"), Part::Slot, Part::Markup("</b>")];
        Ok(StrangerTemplates {
            link: Template::new(alloc, &link)?,
            name: Template::new(alloc, &name)?,
        })
    }

    /// The stranger's name, with the link if the URL is one.
    pub fn page(&self, alloc: Global, stranger: Stranger) -> Result<String, FillFault>
        ensures { IfOk result (λ page. IsStranger stranger.entry (string_bytes page)) }
    {
        match self.linked(alloc, stranger) {
            Err(FillFault::Text(0, TextFault::NotALink)) => self.named(alloc, stranger.name),
            answer => answer,
        }
    }

    fn linked(&self, alloc: Global, stranger: Stranger) -> Result<String, FillFault>
        ensures link { OnOk result (is_link stranger.entry.url.now ≡ true) }
        ensures page { IfOk result (λ page. IsPageOf link_parts
            (stranger.entry.url.now ∷ stranger.entry.name.now ∷ []) (string_bytes page)) }
        ensures no_link { IsErrOf result (Text 0 NotALink) ↔ (is_link stranger.entry.url.now ≡ false) }
    {
        laws::pages_law();
        laws::fill_faults_law();
        let mut page = String::new(alloc);
        self.link.append(&mut page, &[stranger.url, stranger.name])?;
        Ok(page)
    }

    fn named(&self, alloc: Global, name: &str) -> Result<String, FillFault>
        ensures { IfOk result (λ page. IsPageOf name_parts (name.now ∷ []) (string_bytes page)) }
    {
        laws::pages_law();
        let mut page = String::new(alloc);
        self.name.append(&mut page, &[name])?;
        Ok(page)
    }
}
