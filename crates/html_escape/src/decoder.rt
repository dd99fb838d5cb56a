//! The decoders by name.
ghost use Rattle.std.specs.Prelude.{◌≡◌, [], IfNone, IfSome};
ghost use Rattle.std.specs.Str.{IsCharBoundary};
ghost use Rattle.hesc_engine.specs.Next.{IsNext};
ghost use Rattle.html_escape.specs.Decoders.{applied-decoder_changes, decoder_changes, decoder_text};
ghost use Rattle.html_escape.specs.Restored.{
  restored_changes,
  restored_of,
  restored_sought,
  restores_at,
};

use hesc_core::rules::{
    DecodeBody, Names, References, Unescape, body_unescape_at, reference_at, unescape_at,
};
use hesc_core::{Class, Element, EntityTable, Found, Rule, Seek};
use hesc_engine::search::change_from;

/// A decoder by its name.
#[derive(Clone, Copy, Debug, PartialEq, Eq)]
pub enum Decoder {
    /// Replaces each reference that has a value by the built-in table.
    HtmlEntities,
    /// Drops the `\` of each escaped opening of a script's body.
    Script,
    /// Drops the `\` of each escaped opening of a style's body.
    Style,
    /// Replaces the escapes of a script string, `\'` among them.
    ScriptSingleQuoted,
    /// Replaces the escapes of a script string, `\"` among them.
    ScriptDoubleQuoted,
    /// Replaces the escapes of a script string, both `\'` and `\"` among them.
    ScriptQuoted,
    /// Replaces the escapes of a style string, `\'` among them.
    StyleSingleQuoted,
    /// Replaces the escapes of a style string, `\"` among them.
    StyleDoubleQuoted,
    /// Replaces the escapes of a style string, both `\'` and `\"` among them.
    StyleQuoted,
}

impl Rule for Decoder {
    ghost changes_from = { decoder_changes };

    ghost made = { decoder_text };

    ghost begins_at = { λ decoder. restores_at (restored_of decoder) };

    ghost is_sought = { λ decoder. restored_sought (restored_of decoder) };

    ghost rows = { λ decoder. [] };

    #[inline(always)]
    fn seeks(&self) -> Seek {
        match restored_by(*self) {
            Restored::References => References(&EntityTable::built_in()).seeks(),
            Restored::Openings(element) => DecodeBody(element).seeks(),
            Restored::Characters(class) => Unescape(class).seeks(),
        }
    }

    #[inline(always)]
    fn change_at(&self, text: &str, place: usize) -> Option<Found<'_>> {
        match restored_by(*self) {
            Restored::References => reference_at(Names::BuiltIn, text, place),
            Restored::Openings(element) => body_unescape_at(element, text, place),
            Restored::Characters(class) => unescape_at(class, text, place),
        }
    }

    /// The source's length: no decoder lengthens a text.
    #[inline(always)]
    fn longest(&self, text: &str) -> Option<usize> {
        Some(text.len())
    }

    ghost makes = { λ decoder source _. applied-decoder_changes decoder source };
}

// What a decoder restores: characters from references, the openings of a body, or the characters of
// a class.
#[derive(Clone, Copy)]
enum Restored {
    References,
    Openings(Element),
    Characters(Class),
}

// What the decoder restores.
fn restored_by(decoder: Decoder) -> Restored
    ensures is { result ≡ restored_of decoder }
    ensures changes { decoder_changes decoder ≡ restored_changes result }
{
    match decoder {
        Decoder::HtmlEntities => Restored::References,
        Decoder::Script => Restored::Openings(Element::Script),
        Decoder::Style => Restored::Openings(Element::Style),
        Decoder::ScriptSingleQuoted => Restored::Characters(Class::ScriptSingleQuoted),
        Decoder::ScriptDoubleQuoted => Restored::Characters(Class::ScriptDoubleQuoted),
        Decoder::ScriptQuoted => Restored::Characters(Class::ScriptQuoted),
        Decoder::StyleSingleQuoted => Restored::Characters(Class::StyleSingleQuoted),
        Decoder::StyleDoubleQuoted => Restored::Characters(Class::StyleDoubleQuoted),
        Decoder::StyleQuoted => Restored::Characters(Class::StyleQuoted),
    }
}

/// The first change of the decoder at or after `from`, a character boundary, where a string
/// decoder's reading begins.
///
/// In `a&lt;b` from 0, of `Decoder::HtmlEntities`, it is the bytes 1 to 5, which become `<`.
pub fn next_decoded(decoder: Decoder, text: &str, from: usize) -> Option<Found<'static>>
    requires { IsCharBoundary text.now from }
    ensures none { IfNone result (decoder_changes decoder text.now from ≡ []) }
    ensures found { IfSome result (IsNext text.now from (decoder_changes decoder text.now)) }
{
    change_from(constant(decoder), text, from)
}

// The decoder as a constant, so that what is found outlives the call.
fn constant(decoder: Decoder) -> &'static Decoder
    ensures { result.now ≡ decoder }
{
    match decoder {
        Decoder::HtmlEntities => &Decoder::HtmlEntities,
        Decoder::Script => &Decoder::Script,
        Decoder::Style => &Decoder::Style,
        Decoder::ScriptSingleQuoted => &Decoder::ScriptSingleQuoted,
        Decoder::ScriptDoubleQuoted => &Decoder::ScriptDoubleQuoted,
        Decoder::ScriptQuoted => &Decoder::ScriptQuoted,
        Decoder::StyleSingleQuoted => &Decoder::StyleSingleQuoted,
        Decoder::StyleDoubleQuoted => &Decoder::StyleDoubleQuoted,
        Decoder::StyleQuoted => &Decoder::StyleQuoted,
    }
}
