//! A caller of templates: a link to an item, below the address under which a program stands. The contract says
//! what is appended, byte by byte, which URL a browser finds in it, that the address alone decides where that
//! leads, and that it is a base.
ghost use Rattle.std.specs.Prelude.{◌≡◌, ◌++◌, ◌∷◌, [], OnOk, Option, true};
ghost use Rattle.std.specs.String.{string_bytes};
ghost use Rattle.html_template.specs.FilledUrls.{piece_urls};
ghost use Rattle.html_template.specs.Words.{pieces_of, urls_of};
ghost use Rattle.html_urls.specs.Words.{IsWebPage, head_of, is_base};
ghost use Rattle.html_urls.specs.declared.base.BehindBase.TheVariants.{Slash};
ghost use Rattle.url.specs.Parser.{parse_url};
ghost use Rattle.url.specs.Parts.{Parts};
ghost use Rattle.uses.specs.Templates.ItemLinks.{item_pieces, item_text, item_url, item_urls};

use html_template::{FillFault, Part, Template, TemplateFault};
use html_urls::{BehindBase, UrlPart};
use std::alloc::Global;

/// The address under which the program stands, as `/shop` or `https://a.example`, and an item.
#[derive(Clone, Copy)]
pub struct Item<'i> {
    pub base: &'i str,
    pub id: &'i str,
    pub name: &'i str,
}

/// The template of a link, which is made once.
#[derive(Drop)]
pub struct ItemLinks {
    link: Template<'static>,
    ghost told: { pieces_of link ≡ item_pieces },
    ghost urls: { piece_urls (pieces_of link) ≡ item_urls },
}

impl ItemLinks {
    /// Makes the template.
    #[tactic(auto, unfolding(html_tokenizer::specs::Tokenizer::Tokenization::consume))]
    pub fn new(alloc: Global) -> Result<ItemLinks, TemplateFault> {
        let parts = [
            Part::Markup("<a href=\""),
            Part::Slot,
            Part::Markup("/items/"),
            Part::Slot,
            Part::Markup("\">"),
            Part::Slot,
            Part::Markup("</a>"),
        ];
        let link = Template::new(alloc, &parts)?;
        Ok(ItemLinks { link })
    }

    /// Appends a link. The fault is `Text(0, NotABase)` where the address is none, as `//a.example` and
    /// `javascript:f()`.
    pub fn append(&self, page: &mut String, item: Item) -> Result<(), FillFault>
        ensures text { OnOk result
            (string_bytes page.new ≡ string_bytes page.old ++ item_text item.entry) }
        ensures url { OnOk result (urls_of (item_text item.entry) ≡ item_url item.entry ∷ []) }
        ensures base { OnOk result (is_base Slash item.entry.base.now ≡ true) }
        ensures head { OnOk result ((page : Option Parts) → IsWebPage page
            → head_of (parse_url page (item_url item.entry))
            ≡ head_of (parse_url page item.entry.base.now)) }
    {
        self.link.append(page, &[item.base, item.id, item.name])?;
        let parts = [UrlPart::Markup("/items/"), UrlPart::Slot];
        html_urls::laws::base_law(BehindBase::Slash, item.base, &parts);
        Ok(())
    }
}
