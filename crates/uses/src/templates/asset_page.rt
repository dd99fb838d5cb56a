//! A caller of templates: the head of a page whose style sheet and script are told by paths, as those of a
//! theme. Both lead to the page's own host, and the page has no other URL: the contract says so.
ghost use Rattle.std.specs.Prelude.{◌≡◌, ◌∷◌, [], IfOk, OnOk, true};
ghost use Rattle.std.specs.String.{string_bytes};
ghost use Rattle.html_template.specs.Words.{IsPageOf, IsReadAs, placed, pieces_of, urls_of};
ghost use Rattle.html_urls.specs.Words.{is_own_path};
ghost use Rattle.uses.specs.Templates.AssetPages.{asset_parts, asset_pieces, asset_texts};

use html_template::{FillFault, Part, Template, TemplateFault, laws};
use std::alloc::Global;

/// The title of a page, and the paths of its style sheet and its script.
#[derive(Clone, Copy)]
pub struct Assets<'s> {
    pub title: &'s str,
    pub style: &'s str,
    pub script: &'s str,
}

/// The template, which is made once.
#[derive(Drop)]
pub struct AssetTemplate {
    head: Template<'static>,
    ghost told: { pieces_of head ≡ asset_pieces },
}

impl AssetTemplate {
    /// Makes the template.
    #[tactic(auto, unfolding(html_tokenizer::specs::Tokenizer::Tokenization::consume))]
    pub fn new(alloc: Global) -> Result<AssetTemplate, TemplateFault> {
        let head = [
            Part::Markup("<!DOCTYPE html><title>"),
            Part::Slot,
            Part::Markup("</title><link rel=stylesheet href=\""),
            Part::Slot,
            Part::Markup("\"><script src=\""),
            Part::Slot,
            Part::Markup("\"></script>"),
        ];
        Ok(AssetTemplate {
            head: Template::new(alloc, &head)?,
        })
    }

    /// The head of a page. The fault is `Text(1, NotAnOwnPath)` where the style sheet's path leads elsewhere,
    /// and `Text(2, NotAnOwnPath)` where the script's does.
    #[tactic(auto, unfolding(html_tokenizer::specs::Tokenizer::Tokenization::consume))]
    pub fn page(&self, alloc: Global, assets: Assets) -> Result<String, FillFault>
        ensures page { IfOk result (λ page. IsPageOf asset_parts (asset_texts assets.entry) (string_bytes page)) }
        ensures read { IfOk result (λ page. IsReadAs (placed asset_parts) (asset_texts assets.entry) (string_bytes page)) }
        ensures urls { IfOk result (λ page. urls_of (string_bytes page)
            ≡ assets.entry.style.now ∷ assets.entry.script.now ∷ []) }
        ensures style { OnOk result (is_own_path assets.entry.style.now ≡ true) }
        ensures script { OnOk result (is_own_path assets.entry.script.now ≡ true) }
    {
        laws::pages_law();
        laws::template_law();
        laws::page_urls_law();
        let mut page = String::new(alloc);
        self.head
            .append(&mut page, &[assets.title, assets.style, assets.script])?;
        Ok(page)
    }
}
