//! A caller of URLs with slots: the link to a page of what was found. The contract says which pairs the
//! query of its URL has, whatever the texts are.
ghost use Rattle.std.specs.Prelude.{◌≡◌, ◌++◌, ◌∷◌, [], IfOk, OnOk, Option, codes, unwrap_or};
ghost use Rattle.std.specs.String.{string_bytes};
ghost use Rattle.form_urlencoded.specs.Form.{parse};
ghost use Rattle.url.specs.Parser.{parse_url};
ghost use Rattle.url.specs.Parts.{Parts};
ghost use Rattle.html_urls.specs.Hosts.{IsWebBase};
ghost use Rattle.html_urls.specs.Words.{url_of};
ghost use Rattle.uses.specs.Urls.SearchLinks.{search_parts};

use html_urls::{UrlPart, UrlTextFault, append_url, laws};

/// Appends the link to a page of what was found, `/search?q=` and the sought text, `&page=` and the page.
pub fn append_search_link(output: &mut String, sought: &str, page: &str) -> Result<(), UrlTextFault>
    ensures text { OnOk result (string_bytes output.new
        ≡ string_bytes output.old ++ url_of search_parts (sought.now ∷ page.now ∷ [])) }
    ensures pairs { OnOk result ((base : Option Parts) → IsWebBase base
        → IfOk (parse_url base (url_of search_parts (sought.now ∷ page.now ∷ [])))
        (λ url. parse (unwrap_or url.query [])
        ≡ (codes "q", sought.now) ∷ (codes "page", page.now) ∷ [])) }
{
    let parts = [
        UrlPart::Markup("/search?q="),
        UrlPart::Slot,
        UrlPart::Markup("&page="),
        UrlPart::Slot,
    ];
    let texts = [sought, page];
    append_url(output, &parts, &texts)?;
    laws::url_pairs_law(&parts, &texts);
    Ok(())
}
