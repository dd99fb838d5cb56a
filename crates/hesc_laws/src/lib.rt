//! The laws of the operations: each is a function that does nothing and whose contract is the law.
#![tactic(auto)]

ghost use Rattle.std.specs.List.{concat};
ghost use Rattle.std.specs.Prelude.{◌≡◌, ◌≢◌, ◌↔◌, ◌++◌, false, true, map, [], IsTrue};
ghost use Rattle.hesc_specs.specs.Bodies.Encoding.{
  EndsWithoutLessThan,
  body_decoding,
  body_encoding,
};
ghost use Rattle.hesc_specs.specs.Text.Classes.{IsHtml, is_of_style};
ghost use Rattle.hesc_specs.specs.Text.Escaped.{escaped};
ghost use Rattle.hesc_specs.specs.Html.{encoding};
ghost use Rattle.hesc_specs.specs.References.KeptControls.{with_kept_controls};
ghost use Rattle.hesc_specs.specs.Text.Nul.{nul};
ghost use Rattle.hesc_specs.specs.Bodies.Openings.{HasNoEscapedOpening, HasNoOpening};
ghost use Rattle.hesc_specs.specs.References.Decoding.{decoded};
ghost use Rattle.hesc_specs.specs.Bodies.SameBody.{IsSameBody};
ghost use Rattle.hesc_specs.specs.Bodies.Sessions.{IsSession, IsTextSession};
ghost use Rattle.hesc_specs.specs.Strings.Encoding.{IsPlain, string_encoding, string_value};
ghost use Rattle.hesc_specs.specs.Strings.Tokens.{knows, string_decoding};
ghost use Rattle.hesc_specs.specs.declared.elements.Element.TheVariants.{Style};
ghost use Rattle.hesc_specs.specs.declared.quotes.Quotes.TheVariants.{Both};
ghost use Rattle.hesc_table.specs.Table.{rows_of};

use hesc_specs::{Class, Element, Quotes};
use hesc_table::EntityTable;

/// The encoding of joined texts is their encodings, joined.
///
/// For instance those of `a<` and `b` are `a&lt;` and `b`, so that of `a<b` is `a&lt;b`.
pub fn joined_texts(class: Class, a: &str, b: &str)
    ensures { escaped class (a.now ++ b.now) ≡ escaped class a.now ++ escaped class b.now }
{}

/// Different texts have different encodings by the encoders of HTML and of a script's strings.
///
/// For instance those of `<` and `&lt;` are `&lt;` and `&amp;lt;`.
pub fn different_texts(class: Class, a: &str, b: &str)
    requires { is_of_style class ≡ false }
    ensures { escaped class a.now ≡ escaped class b.now → a.now ≡ b.now }
{}

/// Two texts have equal encodings by an encoder of a style's strings exactly if they are equal but
/// for NUL and U+FFFD.
///
/// For instance NUL and U+FFFD both have the encoding U+FFFD.
pub fn same_style_strings(quotes: Quotes, a: &str, b: &str)
    ensures { (string_encoding Style quotes a.now ≡ string_encoding Style quotes b.now)
        ↔ (nul a.now ≡ nul b.now) }
{}

/// By the encoders of HTML and of a script's strings different texts have different encodings; by
/// those of a style's strings two texts have equal encodings exactly if they are equal but for NUL
/// and U+FFFD.
///
/// For instance NUL and U+FFFD have the encodings `\x00` and U+FFFD in a script, and both U+FFFD in
/// a style.
pub fn different_encodings(class: Class, a: &str, b: &str)
    ensures kept { is_of_style class ≡ false → escaped class a.now ≡ escaped class b.now
        → a.now ≡ b.now }
    ensures of_style { is_of_style class ≡ true
        → (escaped class a.now ≡ escaped class b.now) ↔ (nul a.now ≡ nul b.now) }
{}

/// The encoding of a string holds no `<` and no C0 control.
///
/// For instance that of `<` and a line feed is `\x3C\x0A` in a script.
pub fn plain_string_encoding(element: Element, quotes: Quotes, text: &str)
    ensures { IsPlain (string_encoding element quotes text.now) }
{}

/// Decoding by any table undoes the HTML encoders other than the unquoted one, whatever follows.
///
/// For instance `a<` has the encoding `a&lt;`; with `&amp;` after it, that is decoded to `a<&`.
pub fn references_undo_encoders(class: Class, table: &EntityTable, text: &str, rest: &str)
    requires html { IsHtml class }
    requires other { class ≢ Class.UnquotedAttribute }
    ensures { decoded (rows_of table.now) (encoding class text.now ++ rest.now)
        ≡ text.now ++ decoded (rows_of table.now) rest.now }
{}

/// Decoding by any table undoes the unquoted encoder, whatever follows, but for the controls that
/// no reference stands for: each is left as its own reference.
///
/// For instance a space and the byte 1 have the encoding `&#x20;&#x01;`, which is decoded to a
/// space and `&#x01;`.
pub fn references_undo_unquoted_encoder(table: &EntityTable, text: &str, rest: &str)
    ensures { decoded (rows_of table.now) (encoding Class.UnquotedAttribute text.now ++ rest.now)
        ≡ with_kept_controls text.now ++ decoded (rows_of table.now) rest.now }
{}

/// A string decoder that knows the quote marks of an encoder undoes it, whatever follows. Of a
/// style the text comes back with each NUL replaced by U+FFFD.
///
/// For instance `it's` is encoded for single marks as `it\'s`, which the decoder of both reads as
/// `it's`.
pub fn string_decoders_undo_encoders(
    element: Element,
    encoder: Quotes,
    decoder: Quotes,
    text: &str,
    rest: &[u8],
)
    requires { IsTrue (knows decoder encoder) }
    ensures { string_decoding element decoder (string_encoding element encoder text.now ++ rest.now)
        ≡ string_value element text.now ++ string_decoding element decoder rest.now }
{}

/// The decoder of an encoder's own quote marks undoes it, and so does that of both marks, whatever
/// follows. Of a style the text comes back with each NUL replaced by U+FFFD.
///
/// For instance `it's` is encoded for single marks as `it\'s`, and both decoders read that as
/// `it's`.
pub fn string_round_trip(element: Element, quotes: Quotes, text: &str, rest: &[u8])
    ensures same_marks { string_decoding element quotes (string_encoding element quotes text.now ++ rest.now)
        ≡ string_value element text.now ++ string_decoding element quotes rest.now }
    ensures both_marks { string_decoding element Both (string_encoding element quotes text.now ++ rest.now)
        ≡ string_value element text.now ++ string_decoding element Both rest.now }
{}

/// The canonical form of bodies: no encoding has an opening and no decoding an escaped one, and each
/// is the same body as its text; two texts are the same body exactly if their encodings are equal,
/// and exactly if their decodings are; the later of two alone decides what they give; decoding
/// undoes encoding exactly where the text has no escaped opening.
///
/// For instance `<!--` and `<\!--` are the same body of a script: both are encoded as `<\!--`, and
/// decoded as `<!--`.
pub fn canonical_bodies(element: Element, text: &str, other: &str)
    ensures no_opening { HasNoOpening element (body_encoding element text.now) }
    ensures no_escaped_opening { HasNoEscapedOpening element (body_decoding element text.now) }
    ensures encoding_same { IsSameBody element (body_encoding element text.now) text.now }
    ensures decoding_same { IsSameBody element (body_decoding element text.now) text.now }
    ensures by_encoding { IsSameBody element text.now other.now
        ↔ (body_encoding element text.now ≡ body_encoding element other.now) }
    ensures by_decoding { IsSameBody element text.now other.now
        ↔ (body_decoding element text.now ≡ body_decoding element other.now) }
    ensures encode_twice { body_encoding element (body_encoding element text.now)
        ≡ body_encoding element text.now }
    ensures decode_twice { body_decoding element (body_decoding element text.now)
        ≡ body_decoding element text.now }
    ensures encode_decoding { body_encoding element (body_decoding element text.now)
        ≡ body_encoding element text.now }
    ensures decode_encoding { body_decoding element (body_encoding element text.now)
        ≡ body_decoding element text.now }
    ensures undone { (body_decoding element (body_encoding element text.now) ≡ text.now)
        ↔ HasNoEscapedOpening element text.now }
{}

/// The encoding of a body has no opening and its decoding no escaped one, and each is the same body
/// as the text.
///
/// For instance `<!--` is encoded as `<\!--`, and `<\!--` is decoded as `<!--`.
pub fn canonical_body(element: Element, text: &str)
    ensures no_opening { HasNoOpening element (body_encoding element text.now) }
    ensures no_escaped_opening { HasNoEscapedOpening element (body_decoding element text.now) }
    ensures encoding_same { IsSameBody element (body_encoding element text.now) text.now }
    ensures decoding_same { IsSameBody element (body_decoding element text.now) text.now }
{}

/// Encoding and decoding again, or one after the other, gives what the last of them gives alone.
/// Decoding undoes encoding exactly where the text has no escaped opening.
///
/// For instance `<!--` is encoded as `<\!--`; that is encoded as itself, and decoded as `<!--`.
pub fn repeated_body(element: Element, text: &str)
    ensures encode_twice { body_encoding element (body_encoding element text.now)
        ≡ body_encoding element text.now }
    ensures decode_twice { body_decoding element (body_decoding element text.now)
        ≡ body_decoding element text.now }
    ensures encode_decoding { body_encoding element (body_decoding element text.now)
        ≡ body_encoding element text.now }
    ensures decode_encoding { body_decoding element (body_encoding element text.now)
        ≡ body_decoding element text.now }
    ensures undone { (body_decoding element (body_encoding element text.now) ≡ text.now)
        ↔ HasNoEscapedOpening element text.now }
{}

/// Two texts are the same body exactly if their encodings are equal, and exactly if their decodings
/// are equal.
///
/// For instance `<!--` and `<\!--` are the same body: the encoding of both is `<\!--`.
pub fn same_bodies(element: Element, text: &str, other: &str)
    ensures by_encoding { IsSameBody element text.now other.now
        ↔ (body_encoding element text.now ≡ body_encoding element other.now) }
    ensures by_decoding { IsSameBody element text.now other.now
        ↔ (body_decoding element text.now ≡ body_decoding element other.now) }
{}

/// The encoding of joined bodies is their encodings, joined, where the first has no `<` so near its
/// end that an opening could reach into the second.
///
/// For instance those of `a` and `<!--` are `a` and `<\!--`, so that of `a<!--` is `a<\!--`.
pub fn joined_bodies(element: Element, a: &str, b: &str)
    requires { EndsWithoutLessThan element a.now }
    ensures { body_encoding element (a.now ++ b.now)
        ≡ body_encoding element a.now ++ body_encoding element b.now }
{}

/// All that a session adds, joined, is the encoding of its joined pieces, however they were cut:
/// for any list of steps, also the empty one, that begins with nothing held, and a finish after
/// them.
///
/// For instance, given `</scr` and then `ipt>`, a session of a script adds `<\/script>` in all.
pub fn joined_pieces(element: Element, pieces: &[&str], added: &str)
    requires { IsSession element [] (map (λ piece. piece.now) pieces.now) added.now }
    ensures { added.now ≡ body_encoding element (concat (map (λ piece. piece.now) pieces.now)) }
{}

/// The same where each step is known only over the texts that may follow, and not over all bytes.
///
/// For instance, given `</scr` and then `ipt>`, a session of a script adds `<\/script>` in all.
pub fn joined_text_pieces(element: Element, pieces: &[&str], added: &str)
    requires { IsTextSession element [] (map (λ piece. piece.now) pieces.now) added.now }
    ensures { added.now ≡ body_encoding element (concat (map (λ piece. piece.now) pieces.now)) }
{}
