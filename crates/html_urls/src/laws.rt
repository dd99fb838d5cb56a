//! The laws of texts in URLs: each is a function that does nothing and whose contract is the law.
//!
//! A URL is the bytes of a front, a text as a component, and the bytes of a rest. It is read by
//! `parse_url`, the URL Standard's parser, against the bases that a law names: none and any web page,
//! at least.
ghost use Rattle.std.specs.Prelude.{◌≡◌, ◌++◌, ◌∷◌, ℕ, [], IfOk, IfSome, List, Ok, Option, Some, codes, false, map, true, unwrap_or};
ghost use Rattle.form_urlencoded.specs.Form.{parse};
ghost use Rattle.percent_encoding.specs.Percent.{percent_decode, percent_encode};
ghost use Rattle.url.specs.declared.sets.TheConstants.{PATH};
ghost use Rattle.url.specs.Ascii.{slash};
ghost use Rattle.url.specs.Head.{head_only};
ghost use Rattle.url.specs.Parser.{parse_url};
ghost use Rattle.url.specs.Parts.{Parts};
ghost use Rattle.url.specs.Relative.{segments};
ghost use Rattle.html_urls.specs.Bases.{FillBehind, IsWebPage, given_behind, goes_on_so, is_base, is_own_base};
ghost use Rattle.html_urls.specs.Components.{component, component_at};
ghost use Rattle.html_urls.specs.Decoded.{AreBytes, decoded_segments, has_pairs, query_pairs};
ghost use Rattle.html_urls.specs.Heads.{head_of, on_ok};
ghost use Rattle.html_urls.specs.Hosts.{IsWebBase};
ghost use Rattle.html_urls.specs.Images.{IsImage, is_image_front};
ghost use Rattle.html_urls.specs.Links.{HasLinkOrPageScheme, HasLinkScheme, is_link};
ghost use Rattle.html_urls.specs.OwnPaths.{is_own_path};
ghost use Rattle.html_urls.specs.Pieces.{filled_pieces, open_path, pieces};
ghost use Rattle.html_urls.specs.Places.{EndsIn, Fits, SuitsPlace, goes_on};
ghost use Rattle.html_urls.specs.Shapes.{HasShape, fill, front_of, shape_of};
ghost use Rattle.html_urls.specs.declared.place.UrlPlace.{UrlPlace};
ghost use Rattle.html_urls.specs.Slots.{FillUrl, Markup, begins_in_path, given, slots_of, texts_of, url_of};

use crate::base::BehindBase;
use crate::parts::UrlPart;
use crate::place::UrlPlace;

/// A component is decoded to its text, and so is a text as it is written in any part of a URL.
///
/// For instance the component of `a&b` is `a%26b`, which is decoded to `a&b`.
pub fn decode_law(text: &str)
    ensures component { percent_decode (component text.now) ≡ text.now }
    ensures any { (place : UrlPlace) → percent_decode (component_at place text.now) ≡ text.now }
{}

/// The URL of a front, a text and a rest is the URL of the front, of which the part that the front
/// ends in goes on with the text and the rest. Nothing else of it changes, and where one is refused
/// so is the other.
///
/// For instance the URL of `/a?q=`, the text `1&admin=1` and the rest `#top` is that of `/a?q=` with
/// the query `q=1%26admin%3D1` and the fragment `top`.
pub fn url_law(place: UrlPlace, front: &[u8], text: &str, rest: &[u8])
    requires ends { EndsIn place front.now }
    requires fits { Fits place front.now text.now rest.now }
    ensures { (base : Option Parts) → SuitsPlace place base
        → parse_url base (front.now ++ component_at place text.now ++ rest.now)
        ≡ on_ok (goes_on place text.now rest.now) (parse_url base front.now) }
{}

/// The URL of texts that fill the slots of a URL is one shape with the texts in its slots, the same
/// shape for all such texts, or it is refused with all of them. The shape is what the parser makes of
/// the parts: markup as it writes it, and the slots. Where there is a slot, the scheme is `http`,
/// `https`, `mailto` or that of the page; behind the front of an image it is `data`, and the type and the
/// encoding are those of the front, whatever the texts; behind other markup that is no link it is `tel`.
///
/// For instance `/items/`, a slot, `?q=` and a slot have, on a page of `https://h/`, the path `/items/`
/// and a slot, and the query `q=` and a slot.
pub fn url_shape_law(parts: &[UrlPart<'_>])
    ensures one { (base : Option Parts) → IsWebBase base → HasShape base (given parts.now) }
    ensures shape { (base : Option Parts) (texts : List (List ℕ)) → IsWebBase base
        → FillUrl (given parts.now) texts
        → parse_url base (url_of (given parts.now) texts)
        ≡ fill (shape_of base (given parts.now)) texts }
    ensures scheme { (base : Option Parts) (text : List ℕ) (texts : List (List ℕ)) → IsWebBase base
        → is_link (front_of (given parts.now)) ≡ true
        → FillUrl (given parts.now) (text ∷ texts)
        → IfOk (parse_url base (url_of (given parts.now) (text ∷ texts)))
        (HasLinkOrPageScheme base) }
    ensures number { (base : Option Parts) (text : List ℕ) (texts : List (List ℕ)) → IsWebBase base
        → is_link (front_of (given parts.now)) ≡ false
        → is_image_front (front_of (given parts.now)) ≡ false
        → FillUrl (given parts.now) (text ∷ texts)
        → IfOk (parse_url base (url_of (given parts.now) (text ∷ texts)))
        (λ url. url.scheme ≡ codes "tel") }
    ensures image { (base : Option Parts) (text : List ℕ) (texts : List (List ℕ)) → IsWebBase base
        → is_image_front (front_of (given parts.now)) ≡ true
        → FillUrl (given parts.now) (text ∷ texts)
        → IfOk (parse_url base (url_of (given parts.now) (text ∷ texts))) IsImage }
{}

/// The segments of the path of a URL whose first slot stands in the path: some that are the same for all
/// texts, and then those of the parts from the open one on, each text in its place. Decoded they are the
/// markup, decoded, and the texts as they are.
///
/// For instance the URL of `/items/`, a slot and `/edit` has behind `items` the text and `edit`.
pub fn url_segments_law(parts: &[UrlPart<'_>])
    requires { begins_in_path (slots_of (given parts.now)) ≡ true }
    ensures segments { (base : Option Parts) → IsWebBase base
        → (before : List (List ℕ))
        × ((texts : List (List ℕ)) → FillUrl (given parts.now) texts
        → IfOk (parse_url base (url_of (given parts.now) texts))
        (λ url. segments url.path
        ≡ before
        ++ map (percent_encode PATH)
        (filled_pieces (pieces slash (open_path (given parts.now))) texts))) }
    ensures decoded { (base : Option Parts) → IsWebBase base
        → (before : List (List ℕ))
        × ((texts : List (List ℕ)) → FillUrl (given parts.now) texts → AreBytes texts
        → IfOk (parse_url base (url_of (given parts.now) texts))
        (λ url. map percent_decode (segments url.path)
        ≡ before ++ decoded_segments (pieces slash (open_path (given parts.now))) texts)) }
{}

/// The pairs of the query of a URL with slots are those of the query that its parts have behind their
/// first `?`, each text in its place, whatever texts fill the slots: where each string between `&` has
/// markup, as `q=` and a slot. Of parts that are written out they are computed.
///
/// For instance the URL of `/items/`, a slot, `?q=` and a slot has one pair, `q` and the second text.
pub fn url_pairs_law(parts: &[UrlPart<'_>], texts: &[&str])
    requires fills { FillUrl (given parts.now) (texts_of texts.now) }
    requires bytes { AreBytes (texts_of texts.now) }
    requires pairs { has_pairs (given parts.now) ≡ true }
    ensures { (base : Option Parts) → IsWebBase base
        → IfOk (parse_url base (url_of (given parts.now) (texts_of texts.now)))
        (λ url. parse (unwrap_or url.query [])
        ≡ query_pairs (given parts.now) (texts_of texts.now)) }
{}

/// The URL of a text that is a link has the scheme `http`, `https` or `mailto`, on each page whose own
/// scheme is one of these, and on any other page one of these or that of the page. Its host may be any.
///
/// For instance `//a.example` is a link, and has the scheme of the page; ` javascript:x` and
/// `java\tscript:x` are none.
pub fn link_law(text: &str)
    requires { is_link text.now ≡ true }
    ensures link { (base : Option Parts) → IfSome base HasLinkScheme
        → IfOk (parse_url base text.now) HasLinkScheme }
    ensures page { (base : Option Parts) → IfOk (parse_url base text.now) (HasLinkOrPageScheme base) }
{}

/// A URL that begins with a base. Texts that fill the parts behind the base fill the URL's parts, of which
/// the base is the first markup: so what the laws above say of parts holds of it. Its scheme, user,
/// password, host and port are those of the base alone, whatever stands behind it.
///
/// For instance behind `https://a.example/b` and `/items/` the text `../c` stands in
/// `https://a.example/b/items/..%2Fc`, whose host is that of `https://a.example/b`.
pub fn base_law(behind: BehindBase, base: &str, parts: &[UrlPart<'_>])
    requires { is_base behind base.now ≡ true }
    ensures fills { (texts : List (List ℕ)) → FillBehind behind (given_behind behind parts.now) texts
        → FillUrl (Markup base.now ∷ given_behind behind parts.now) texts }
    ensures head { (page : Option Parts) (texts : List (List ℕ)) → IsWebPage page
        → goes_on_so behind (front_of (given_behind behind parts.now)) ≡ true
        → FillUrl (Markup base.now ∷ given_behind behind parts.now) texts
        → head_of (parse_url page (base.now ++ url_of (given_behind behind parts.now) texts))
        ≡ head_of (parse_url page base.now) }
{}

/// An own base is a base of the page's own host: on each page of the web it has the page's scheme, user,
/// password, host and port, and so have, by [`base_law`], the URLs that begin with it. Any two own bases have
/// the same, or are both refused, where there is no page.
///
/// For instance on a page of `https://h:8080/d/f` behind `/b` and `/items/` the text `../c` stands in
/// `https://h:8080/b/items/..%2Fc`.
pub fn own_base_law(behind: BehindBase, base: &str)
    requires { is_own_base behind base.now ≡ true }
    ensures base { is_base behind base.now ≡ true }
    ensures page { (page : Parts) → IsWebPage (Some page)
        → head_of (parse_url (Some page) base.now) ≡ Ok (head_only page) }
    ensures alike { (other : List ℕ) (before : BehindBase) → is_own_base before other ≡ true
        → (page : Option Parts) → IsWebPage page
        → head_of (parse_url page base.now) ≡ head_of (parse_url page other) }
{}

/// An own path is a URL on each page of the web, and has its scheme, user, password, host and port. Any two
/// own paths have the same, or are both refused, where there is no page. An own path is a URL of one part of
/// markup, with no slot: what the laws above say of parts holds of it.
///
/// For instance on a page of `https://h:8080/d/f` the URL of `/a.js?v=1` is `https://h:8080/a.js?v=1`. What
/// the server of `h` keeps under that path is not said.
pub fn own_path_law(text: &str)
    requires { is_own_path text.now ≡ true }
    ensures page { (page : Parts) → IsWebPage (Some page)
        → head_of (parse_url (Some page) text.now) ≡ Ok (head_only page) }
    ensures alike { (other : List ℕ) → is_own_path other ≡ true → (base : Option Parts)
        → IsWebBase base → head_of (parse_url base text.now) ≡ head_of (parse_url base other) }
    ensures parts { FillUrl (Markup text.now ∷ []) [] }
{}
