//! A caller of templates: the page of a search that found nothing. No query can change its
//! structure, and the contract says so.
ghost use Rattle.std.specs.Prelude.{◌≡◌, IfOk, map};
ghost use Rattle.std.specs.String.{string_bytes};
ghost use Rattle.html_template.specs.Words.{part_of, pieces_of};
ghost use Rattle.html_template.proofs.PagesAreProps.{IsPageOf-prop};
ghost use Rattle.uses.specs.Templates.SearchPages.{HasOneStructure, IsSearchPage, four, search_parts};

use html_template::{FillFault, Part, Template, TemplateFault, laws};
use std::alloc::Global;

/// The template, which is made once.
pub fn search_template(alloc: Global) -> Result<Template<'static>, TemplateFault>
    ensures { IfOk result (λ template. map part_of (pieces_of template) ≡ search_parts) }
{
    let parts = [
        Part::Markup("<!DOCTYPE html><title>"),
        Part::Slot,
        Part::Markup("</title><form action=/search><input name=q value=\""),
        Part::Slot,
        Part::Markup("\"></form><script>log('"),
        Part::Slot,
        Part::Markup("');</script><p>Nothing was found for "),
        Part::Slot,
        Part::Markup(".</p>"),
    ];
    Template::new(alloc, &parts)
}

/// A query and its page.
#[derive(Drop)]
pub struct SearchPage {
    pub query: String,
    pub page: String,
    ghost made: { IsSearchPage (string_bytes query) (string_bytes page) } by { IsPageOf-prop search_parts (four (string_bytes query)) (string_bytes page) },
}

/// The page for this query.
pub fn search_page(
    alloc: Global,
    template: &Template,
    query: String,
) -> Result<SearchPage, FillFault>
    requires { map part_of (pieces_of template.now) ≡ search_parts }
    ensures query { IfOk result (λ found. string_bytes found.query ≡ string_bytes query) }
    ensures structure { IfOk result (λ found. HasOneStructure (string_bytes found.page)) }
{
    laws::pages_law();
    laws::structure_law();
    let mut page = String::new(alloc);
    let text = query.as_str();
    template.append(&mut page, &[text, text, text, text])?;
    Ok(SearchPage { query, page })
}
