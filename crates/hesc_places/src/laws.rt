//! The laws of places: each is a function that does nothing and whose contract is the law.
ghost use Rattle.std.specs.Prelude.{◌≡◌, ◌≢◌, ◌↔◌, ◌++◌, ℕ, List, false, length, map, IsTrue, None, Some};
ghost use Rattle.hesc_specs.specs.Bodies.Encoding.{body_encoding};
ghost use Rattle.html_escape.specs.Encoders.{encoded};
ghost use Rattle.hesc_places.specs.Pages.FormFaults.{first_fault};
ghost use Rattle.hesc_places.specs.Pages.FormReadings.{form_reading};
ghost use Rattle.hesc_places.specs.Pages.FormTexts.{AreGood, IsReadAsForm, form_back, form_text, written};
ghost use Rattle.hesc_places.specs.Places.Marks.{closing};
ghost use Rattle.hesc_places.specs.Pages.PageReadings.{page_reading};
ghost use Rattle.hesc_places.specs.Pages.PageTexts.{IsReadAsPage, page_back, page_text};
ghost use Rattle.hesc_grammars.specs.Places.{body_of, reading};
ghost use Rattle.hesc_places.specs.Places.Suits.{suits, MayHold};
ghost use Rattle.hesc_places.specs.Places.ReadBack.{read_back};
ghost use Rattle.hesc_places.specs.Places.Trials.{PassesTrial};
ghost use Rattle.hesc_grammars.specs.Words.{is_end_tag};

use crate::markup::types::Attribute;
use hesc_core::Element;
use hesc_grammars::Place;
use html_escape::Encoder;

/// Where an encoder suits a place, what it writes for a text ends exactly at the closing mark,
/// whatever follows, and is read as the text (with U+FFFD for NUL where `read_back` says so, and a
/// body as its encoding).
///
/// For instance `a<b` is written as `a&lt;b` in text, which before any `<` is read as `a<b` and
/// ends at byte 6.
pub fn place_law(encoder: Encoder, place: Place, text: &str, rest: &[u8])
    requires suits { IsTrue (suits encoder place) }
    requires may_hold { MayHold place text.now }
    ensures { reading place (encoded encoder text.now ++ (closing place ++ rest.now))
        ≡ Some (read_back encoder text.now, length (encoded encoder text.now)) }
{}

/// [`place_law`] for every rest at once.
///
/// For instance `a&lt;b` in text is read as `a<b` and ends at byte 6, before `</p>` and before any
/// other bytes that begin with `<`.
pub fn place_law_for_any_rest(encoder: Encoder, place: Place, text: &str)
    requires suits { IsTrue (suits encoder place) }
    requires may_hold { MayHold place text.now }
    ensures { (rest : List ℕ) → reading place (encoded encoder text.now ++ (closing place ++ rest))
        ≡ Some (read_back encoder text.now, length (encoded encoder text.now)) }
{}

/// An encoded body ends exactly at any end tag of its element that follows it, in any ASCII case and
/// whatever ends the tag's name, and whatever follows that.
///
/// For instance the encoding of `<!--` in a script is `<\!--`, which ends at byte 5 where
/// `</SCRIPT >` follows.
pub fn end_tag_law(element: Element, text: &str, tag: &[u8])
    requires { IsTrue (is_end_tag element tag.now) }
    ensures { reading (body_of element) (body_encoding element text.now ++ tag.now)
        ≡ Some (body_encoding element text.now, length (body_encoding element text.now)) }
{}

/// Only an encoder that suits a place passes the place's trial: what another one writes for the
/// trial text does not end exactly at the closing mark, or is not read as the text.
///
/// For instance `Encoder::Text` keeps a `"`, so what it writes for one ends at byte 0 in
/// `Place::DoubleAttribute`.
pub fn no_other_pair(encoder: Encoder, place: Place)
    requires { suits encoder place ≡ false }
    ensures { PassesTrial encoder place → ⊥ }
{}

/// The text of a page of three texts, the first not empty, is read back as the three (the first with
/// U+FFFD for NUL), whatever follows it, and ends exactly where it ends.
///
/// For instance the page of `a`, `b` and `c` is read back as these three.
pub fn page_law(a: &str, b: &str, c: &str, rest: &[u8])
    requires { length a.now ≢ 0 }
    ensures { page_reading (page_text a.now b.now c.now ++ rest.now)
        ≡ Some (page_back a.now b.now c.now) }
{}

/// [`page_law`] for every rest at once.
///
/// For instance the page of `a`, `b` and `c` is read back as these three, before `</html>` and
/// before any other bytes.
pub fn page_law_for_any_rest(a: &str, b: &str, c: &str)
    requires { length a.now ≢ 0 }
    ensures { IsReadAsPage a.now b.now c.now (page_text a.now b.now c.now) }
{}

/// The text of a form with good attributes is read back as these attributes in order (an unquoted
/// value with U+FFFD for NUL) and the script's string, whatever follows it, and ends exactly where it
/// ends.
///
/// For instance the form of the one attribute `value`, which is `a b` without quotes, and of the
/// string `x` is read back as these.
pub fn form_law(attributes: &[Attribute], script: &str, rest: &[u8])
    requires { AreGood (map written attributes.now) }
    ensures { form_reading (form_text (map written attributes.now) script.now ++ rest.now)
        ≡ Some (form_back (map written attributes.now) script.now) }
{}

/// [`form_law`] for every rest at once.
///
/// For instance the form of the one attribute `value`, which is `a b` without quotes, and of the
/// string `x` is read back as these, before `</html>` and before any other bytes.
pub fn form_law_for_any_rest(attributes: &[Attribute], script: &str)
    requires { AreGood (map written attributes.now) }
    ensures { IsReadAsForm (map written attributes.now) script.now
        (form_text (map written attributes.now) script.now) }
{}

/// Attributes have no fault exactly where they are good.
///
/// For instance two attributes `value` are not good, and have the fault `BadName(1)`.
pub fn good_attributes_law(attributes: &[Attribute])
    ensures { (first_fault (map written attributes.now) ≡ None)
        ↔ AreGood (map written attributes.now) }
{}
