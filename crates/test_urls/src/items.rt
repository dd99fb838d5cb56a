//! A caller of a law: what is proved of one URL with slots, for all texts.
ghost use Rattle.std.specs.Prelude.{◌≡◌, [], ◌∷◌, IfOk, Option, codes, unwrap_or};
ghost use Rattle.form_urlencoded.specs.Form.{parse};
ghost use Rattle.url.specs.Parser.{parse_url};
ghost use Rattle.url.specs.Parts.{Parts};
ghost use Rattle.html_urls.specs.Hosts.{IsWebBase};
ghost use Rattle.html_urls.specs.Slots.{FillUrl, url_of};
ghost use Rattle.test_urls.specs.Items.{item_parts};

use html_urls::{UrlPart, laws};

/// The URL of an item has one pair in its query, `q` and the second text.
///
/// For instance with the texts `../../logout` and `1&admin=1` it is `q` and `1&admin=1`.
pub fn item_law(id: &str, query: &str)
    requires { FillUrl item_parts (id.now ∷ query.now ∷ []) }
    ensures { (base : Option Parts) → IsWebBase base
        → IfOk (parse_url base (url_of item_parts (id.now ∷ query.now ∷ [])))
        (λ url. parse (unwrap_or url.query []) ≡ (codes "q", query.now) ∷ []) }
{
    let parts = [
        UrlPart::Markup("/items/"),
        UrlPart::Slot,
        UrlPart::Markup("?q="),
        UrlPart::Slot,
    ];
    laws::url_pairs_law(&parts, &[id, query]);
}
