//! The laws of templates. They speak of pages as contracts do: `IsPageOf parts texts page` says that the
//! page is that of a template of these parts, filled by these texts.
ghost use Rattle.std.specs.Prelude.{◌≡◌, ◌≢◌, ◌↔◌, ◌++◌, ℕ, All, IsErrOf, List, None, Result, Some, [], true};
ghost use Rattle.html_template.specs.FirstFault.{AreNone, IsFirst};
ghost use Rattle.html_tokenizer.specs.Tokenizer.States.{data_state};
ghost use Rattle.html_tokenizer.specs.Tokenizer.Tokenization.{actions_of};
ghost use Rattle.html_tokenizer.specs.Tokens.{skeleton, tokens};
ghost use Rattle.html_template.specs.FillFaults.{AnswersFill, count_fault, fill_fault, text_fault, text_faults};
ghost use Rattle.html_template.specs.FilledUrls.{FillUrls, HasUrls, HasUrlsOf, filled_urls, template_urls, url_texts};
ghost use Rattle.html_template.specs.PageUrls.{AllAlike, LeadsAsAny, urls_of, first_texts};
ghost use Rattle.html_template.specs.Structure.{IsPageOf, IsReadAs, IsWhole, structure};
ghost use Rattle.html_template.specs.TemplateFaults.{is_template, placed};
ghost use Rattle.hesc_specs.specs.Text.Ascii.{less_than};
ghost use Rattle.json.specs.Json.{Json as Value, document};
ghost use Rattle.html_template.specs.Templates.{Chunk, Fill, Given, MayFill, written};
ghost use Rattle.html_template.specs.Writing.{AnswersWriting};
ghost use Rattle.html_template.specs.declared.faults.FillFault.{FillFault};
ghost use Rattle.html_template.specs.declared.faults.FillFault.TheVariants.{Text, WrongCount};
ghost use Rattle.html_template.specs.declared.faults.TextFault.{TextFault};
ghost use Rattle.html_template.specs.declared.faults.WriteFault.{WriteFault};
ghost use Rattle.html_template.specs.declared.faults.WriteFault.TheVariants.{Texts};
ghost use Rattle.html_template.specs.declared.parts.SlotKind.{SlotKind};
ghost use Rattle.html_template.specs.declared.parts.SlotKind.TheVariants.{Json};
ghost use Rattle.html_tokenizer.specs.declared.slot_place.SlotPlace.{SlotPlace};

pub use html_tokenizer::laws::agreement_law;

/// A page of a template: whatever follows it, the tokenizer's actions are those at the template, where
/// each text is handed to its slot whole, and then those at what follows, from the state in which a
/// page begins.
///
/// For instance in the page `<p>&lt;</p>` of `<p>`, a slot and `</p>`, the slot is handed `<`, and
/// whatever follows the page is tokenized as it would be alone.
#[tactic(auto, using(crate::proofs::Pages::page_reads))]
pub fn template_law()
    ensures { (parts : List Given) (texts : List (List ℕ)) (page : List ℕ)
        → IsPageOf parts texts page → IsReadAs (placed parts) texts page }
{}

/// Two pages of the same parts have one structure, which is all of the tokenizer's actions but the
/// bytes of texts and values.
///
/// For instance the pages of `<p>`, a slot and `</p>` for `a` and for `</p>` both have one start
/// tag and one end tag.
#[tactic(auto, using(crate::proofs::Pages::same_structure))]
pub fn structure_law()
    ensures { (parts : List Given) (texts others : List (List ℕ)) (first second : List ℕ)
        → IsPageOf parts texts first → IsPageOf parts others second
        → structure (actions_of data_state first) ≡ structure (actions_of data_state second) }
{}

/// Two pages of the same parts have the same tokens, but for characters and for the values of
/// attributes and strings: the same doctypes, comments, tags, names and code, in the same order.
///
/// For instance the tags of `<p title="`, a slot and `">` are one `p` with a `title`, for any text.
#[tactic(auto, using(crate::proofs::Pages::same_tokens))]
pub fn token_law()
    ensures { (parts : List Given) (texts others : List (List ℕ)) (first second : List ℕ)
        → IsPageOf parts texts first → IsPageOf parts others second
        → skeleton (tokens (actions_of data_state first))
        ≡ skeleton (tokens (actions_of data_state second)) }
{}

/// The URLs of two pages of the same parts, which are the values of their attributes that hold one, as
/// the tokenizer reads them: they are as many, and one by one each two lead alike, or are those of a slot with
/// which a URL begins. Each text of such a slot is met once, in the order of the slots. A whole URL is this
/// text: both are links, or where the slot is an own path both are own paths, which
/// `html_urls::laws::own_path_law` says to lead to the scheme, user, password, host and port of the page. A URL
/// that begins with a base has those of the base alone, whatever stands behind it; two own bases have those of
/// the page, as `own_base_law` says. Where the two texts are the same, the two URLs lead alike.
///
/// Two URLs lead alike if on any page of the web, and on none, both are refused or have one scheme,
/// user, password, host and port, as many segments and as many strings between `&`.
///
/// For instance `<a href="/?q=`, a slot and `&amp;p=1">` has for `a` and for `b&p=2` the URLs
/// `/?q=a&p=1` and `/?q=b%26p%3D2&p=1`: both have two strings.
///
/// So it is of pieces by what `append` says of them, `HasUrlsOf`.
#[tactic(auto, using(crate::proofs::Pages::same_urls, crate::proofs::PageUrls::Law::leads_as_any))]
pub fn url_law()
    ensures pages { (parts : List Given) (texts others : List (List ℕ)) (first second : List ℕ)
        → IsPageOf parts texts first → IsPageOf parts others second
        → AllAlike (first_texts (placed parts) texts) (first_texts (placed parts) others)
        (urls_of first) (urls_of second) }
    ensures pieces { (pieces : List Chunk) (texts : List (List ℕ)) → HasUrlsOf pieces texts
        → LeadsAsAny pieces texts }
{}

/// The URLs of a page, as the tokenizer reads them, are those of its template, `template_urls parts`,
/// filled by the texts of its slots in URLs, in order: a part of a URL is the component of its text, a
/// whole URL is its text, which is a link or an own path as its slot asks, one that begins with a base is its
/// text, which is a base, and then the parts behind it, and no text is left. So what `html_urls::laws` say of a
/// URL's parts, of bases and of their texts holds of the URLs of a page.
///
/// For instance `<a href="/?q=`, a slot and `&amp;p=1">` has one URL, of the parts `/?q=`, a slot and
/// `&p=1`. In the page of `b&p=2` it is `/?q=b%26p%3D2&p=1`.
#[tactic(auto, using(crate::proofs::Pages::page_urls, crate::proofs::Pages::urls_fill, crate::proofs::Pages::parts_have_urls))]
pub fn page_urls_law()
    ensures page { (parts : List Given) (texts : List (List ℕ)) (page : List ℕ)
        → IsPageOf parts texts page
        → urls_of page ≡ filled_urls (template_urls parts) (url_texts (placed parts) texts) }
    ensures full { (parts : List Given) (texts : List (List ℕ)) (page : List ℕ)
        → IsPageOf parts texts page
        → FillUrls (template_urls parts) (url_texts (placed parts) texts) }
    ensures any { (parts : List Given) → is_template parts ≡ true → HasUrls (placed parts) }
{}

/// What is written for JSON in its slot is JSON of the same value, and no `<` stands in what is written there
/// for any text.
///
/// For instance `["</b>"]` is written as `["\u003C/b>"]`, which is the same array.
pub fn json_law()
    ensures same { (place : SlotPlace) (text : List ℕ) (value : Value) → document text ≡ Some value
        → document (written place Json text) ≡ Some value }
    ensures no_less { (place : SlotPlace) (text : List ℕ)
        → All (λ b. b ≢ less_than) (written place Json text) }
{}

/// Templates join: the parts of two, one after the other, are a template's, and each slot stands where
/// it stood.
///
/// For instance `<p>`, a slot and `</p>`, twice, are a template of two slots in text.
pub fn joined_law()
    ensures template { (first second : List Given) → is_template first ≡ true
        → is_template second ≡ true → is_template (first ++ second) ≡ true }
    ensures placed { (first second : List Given) → is_template first ≡ true
        → is_template second ≡ true → placed (first ++ second) ≡ placed first ++ placed second }
{}

/// Pages join: what is a page of some parts, and after it one of others, is a page of these parts
/// and then the others, filled by the texts of both. Its URLs are those of both. No part and no text
/// make an empty page. Each page is whole, as a [`Fragment`](crate::Fragment) is.
///
/// For instance `<p>a</p><p>b</p>` is a page of `<p>`, a slot and `</p>`, twice, filled by `a` and
/// `b`.
pub fn pages_law()
    ensures none { IsPageOf [] [] [] }
    ensures both { (first second : List Given) (texts others : List (List ℕ)) (front following : List ℕ)
        → IsPageOf first texts front → IsPageOf second others following
        → IsPageOf (first ++ second) (texts ++ others) (front ++ following) }
    ensures whole { (parts : List Given) (texts : List (List ℕ)) (page : List ℕ)
        → IsPageOf parts texts page → IsWhole page }
    ensures urls { (parts : List Given) (texts : List (List ℕ)) (front following : List ℕ)
        → IsPageOf parts texts front
        → urls_of (front ++ following) ≡ urls_of front ++ urls_of following }
{}

/// The fault of a text is answered exactly where it is the first: `text_faults` is the fault of each text in
/// its slot, in order. `WrongCount` is answered where no text has one, and a slot or a text is left over.
/// There is none exactly where the texts fill the template, and a text has none exactly where it may fill
/// its slot.
///
/// For instance of `<p title=`, a slot and `>`, the empty text has the fault `Text(0, EmptyUnquoted)`.
pub fn fill_faults_law()
    ensures answered { (chunks : List Chunk) (texts : List (List ℕ)) (result : Result (Unit {0}) FillFault)
        (number : ℕ) (why : TextFault) → AnswersFill (fill_fault chunks texts) result
        → IsErrOf result (Text number why) ↔ IsFirst number why (text_faults chunks texts) }
    ensures written { (chunks : List Chunk) (texts : List (List ℕ))
        (result : Result (Unit {0}) (WriteFault FillFault)) (number : ℕ) (why : TextFault)
        → AnswersWriting (fill_fault chunks texts) result
        → IsErrOf result (Texts (Text number why)) ↔ IsFirst number why (text_faults chunks texts) }
    ensures count { (chunks : List Chunk) (texts : List (List ℕ)) (result : Result (Unit {0}) FillFault)
        → AnswersFill (fill_fault chunks texts) result → IsErrOf result WrongCount
        ↔ (AreNone (text_faults chunks texts) × (count_fault chunks texts ≡ Some WrongCount)) }
    ensures written_count { (chunks : List Chunk) (texts : List (List ℕ))
        (result : Result (Unit {0}) (WriteFault FillFault))
        → AnswersWriting (fill_fault chunks texts) result → IsErrOf result (Texts WrongCount)
        ↔ (AreNone (text_faults chunks texts) × (count_fault chunks texts ≡ Some WrongCount)) }
    ensures none { (chunks : List Chunk) (texts : List (List ℕ))
        → (fill_fault chunks texts ≡ None) ↔ Fill chunks texts }
    ensures fits { (place : SlotPlace) (kind : SlotKind) (text : List ℕ)
        → (text_fault place kind text ≡ None) ↔ MayFill place kind text }
{}
