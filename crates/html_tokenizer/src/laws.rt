//! The laws of the tokenizer.
ghost use Rattle.std.specs.Prelude.{◌≡◌, ℕ, List};
ghost use Rattle.hesc_grammars.specs.declared.place.End.{End};
ghost use Rattle.hesc_grammars.specs.declared.place.Place.TheVariants as place;
ghost use Rattle.hesc_specs.specs.Text.Ascii.{carriage_return, double_quote, less_than, line_feed, single_quote};
ghost use Rattle.html_tokenizer.specs.Styles.{HasSameDeclarations};
ghost use Rattle.html_tokenizer.specs.Agreement.{AgreesInString, AgreesUnquoted, AgreesWith};
ghost use Rattle.html_tokenizer.specs.Tokenizer.States.{BeforeValue, In, at};
ghost use Rattle.html_tokenizer.specs.Tokenizer.Tokenization.{consume};
ghost use Rattle.html_tokenizer.specs.declared.slot_place.SlotPlace.TheVariants as slot;

use crate::elements::Content;

/// The tokenizer agrees with the grammars of the places in `hesc_grammars`: up to the mark at which a
/// place's reading ends it stays in the value, and it reads the same value.
///
/// In a value without quotes a carriage return, which the grammar keeps, is a line feed, which ends
/// the value. A string it may give up, but only at a `<!` of a script or a `\<` of a style, behind which
/// no slot stands; and the end tag of its element ends it, and the code.
///
/// For instance both read `a&lt;b` before `<`, in text, as `a<b`.
pub fn agreement_law(content: Content, bytes: &[u8])
    ensures text { AgreesWith slot.Text content place.Text less_than bytes.now }
    ensures double { AgreesWith slot.DoubleQuoted content place.DoubleAttribute
        double_quote bytes.now }
    ensures single { AgreesWith slot.SingleQuoted content place.SingleAttribute
        single_quote bytes.now }
    ensures unquoted { (end : End) → AgreesUnquoted content end bytes.now }
    ensures carriage_return { consume (at (In slot.Unquoted) content) carriage_return
        ≡ consume (at (In slot.Unquoted) content) line_feed }
    ensures first_carriage_return { consume (at BeforeValue content) carriage_return
        ≡ consume (at BeforeValue content) line_feed }
    ensures script_single { AgreesInString slot.ScriptSingle content place.ScriptSingle
        single_quote bytes.now }
    ensures script_double { AgreesInString slot.ScriptDouble content place.ScriptDouble
        double_quote bytes.now }
    ensures style_single { AgreesInString slot.StyleSingle content place.StyleSingle
        single_quote bytes.now }
    ensures style_double { AgreesInString slot.StyleDouble content place.StyleDouble
        double_quote bytes.now }
{}

/// Slots in declarations of a `style` attribute: with any texts that they take the attribute has the same
/// declarations, so as many, of the same names in the same order, by CSS Syntax.
///
/// It is so of a value with this front and this markup behind each slot, where a slot stands behind the front at
/// `Standing::InDeclaration`, and so one behind each markup but the last; and each markup goes on with the declaration
/// of its slot, up to the `;`, by no other bytes than those of a style's value and `!`.
///
/// For instance `width: `, a slot, `%; color: ` and a slot have with `5` and `red` and with `0 auto` and an empty text the
/// names `width` and `color`.
#[tactic(auto, using(crate::proofs::Declarations::same_declarations))]
pub fn style_law()
    ensures { (front : List ℕ) (markups : List (List ℕ)) → HasSameDeclarations front markups }
{}
