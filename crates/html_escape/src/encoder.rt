//! The encoders by name.
ghost use Rattle.std.specs.Prelude.{◌≡◌, [], IfNone, IfSome};
ghost use Rattle.std.specs.Str.{IsCharBoundary};
ghost use Rattle.hesc_engine.specs.Next.{IsNext};
ghost use Rattle.html_escape.specs.Encoders.{applied-encoder_changes, encoded, encoder_changes};
ghost use Rattle.html_escape.specs.Replaced.{
  replaced_changes,
  replaced_of,
  replaced_rows,
  replaced_sought,
  replaced_text,
  replaces_at,
};

use hesc_core::rules::{EncodeBody, Escape, body_escape_at, escape_at};
use hesc_core::{Class, Element, Found, Length, Rule, Seek};
use hesc_engine::search::change_from;

/// An encoder by its name.
#[derive(Clone, Copy, Debug, PartialEq, Eq)]
pub enum Encoder {
    /// Replaces `&` and `<`.
    TextMinimal,
    /// Replaces `&`, `<` and `>`.
    Text,
    /// Replaces those of `Text`, and `"`.
    DoubleQuotedAttribute,
    /// Replaces those of `Text`, and `'`.
    SingleQuotedAttribute,
    /// Replaces those of `Text`, and both `"` and `'`.
    QuotedAttribute,
    /// Replaces those of `QuotedAttribute`, and `/`.
    Safe,
    /// Replaces all of ASCII but letters and digits.
    UnquotedAttribute,
    /// Puts a `\` into each opening of a script's body.
    Script,
    /// Puts a `\` into each opening of a style's body.
    Style,
    /// Replaces `'`, `\`, `<`, C0 controls, U+2028 and U+2029 by escapes of a JavaScript string literal.
    ScriptSingleQuoted,
    /// Replaces `"`, `\`, `<`, C0 controls, U+2028 and U+2029 by those escapes.
    ScriptDoubleQuoted,
    /// Replaces those of both.
    ScriptQuoted,
    /// Replaces `'`, `\`, `<` and C0 controls by escapes of a CSS string, and NUL by U+FFFD.
    StyleSingleQuoted,
    /// Replaces `"`, `\`, `<` and C0 controls by those escapes, and NUL by U+FFFD.
    StyleDoubleQuoted,
    /// Replaces those of both.
    StyleQuoted,
}

impl Rule for Encoder {
    ghost changes_from = { encoder_changes };

    ghost made = { encoded };

    ghost begins_at = { λ encoder. replaces_at (replaced_of encoder) };

    ghost is_sought = { λ encoder. replaced_sought (replaced_of encoder) };

    ghost rows = { λ encoder. replaced_rows (replaced_of encoder) };

    #[inline(always)]
    fn seeks(&self) -> Seek {
        match replaced_by(*self) {
            Replaced::Characters(class) => Escape(class).seeks(),
            Replaced::Openings(element) => EncodeBody(element).seeks(),
        }
    }

    #[inline(always)]
    fn change_at(&self, text: &str, place: usize) -> Option<Found<'_>> {
        match replaced_by(*self) {
            Replaced::Characters(class) => escape_at(class, text, place),
            Replaced::Openings(element) => body_escape_at(element, text, place),
        }
    }

    #[inline(always)]
    fn length(&self, text: &str) -> Length {
        match replaced_by(*self) {
            Replaced::Characters(class) => Escape(class).length(text),
            Replaced::Openings(element) => EncodeBody(element).length(text),
        }
    }

    #[inline(always)]
    fn longest(&self, text: &str) -> Option<usize> {
        match replaced_by(*self) {
            Replaced::Characters(class) => Escape(class).longest(text),
            Replaced::Openings(element) => EncodeBody(element).longest(text),
        }
    }

    ghost makes = { applied-encoder_changes };
}

// What an encoder replaces: the characters of a class, or the openings of a body.
#[derive(Clone, Copy)]
enum Replaced {
    Characters(Class),
    Openings(Element),
}

// What the encoder replaces.
fn replaced_by(encoder: Encoder) -> Replaced
    ensures is { result ≡ replaced_of encoder }
    ensures text { encoded encoder ≡ replaced_text result }
    ensures changes { encoder_changes encoder ≡ replaced_changes result }
{
    match encoder {
        Encoder::TextMinimal => Replaced::Characters(Class::TextMinimal),
        Encoder::Text => Replaced::Characters(Class::Text),
        Encoder::DoubleQuotedAttribute => Replaced::Characters(Class::DoubleQuotedAttribute),
        Encoder::SingleQuotedAttribute => Replaced::Characters(Class::SingleQuotedAttribute),
        Encoder::QuotedAttribute => Replaced::Characters(Class::QuotedAttribute),
        Encoder::Safe => Replaced::Characters(Class::Safe),
        Encoder::UnquotedAttribute => Replaced::Characters(Class::UnquotedAttribute),
        Encoder::Script => Replaced::Openings(Element::Script),
        Encoder::Style => Replaced::Openings(Element::Style),
        Encoder::ScriptSingleQuoted => Replaced::Characters(Class::ScriptSingleQuoted),
        Encoder::ScriptDoubleQuoted => Replaced::Characters(Class::ScriptDoubleQuoted),
        Encoder::ScriptQuoted => Replaced::Characters(Class::ScriptQuoted),
        Encoder::StyleSingleQuoted => Replaced::Characters(Class::StyleSingleQuoted),
        Encoder::StyleDoubleQuoted => Replaced::Characters(Class::StyleDoubleQuoted),
        Encoder::StyleQuoted => Replaced::Characters(Class::StyleQuoted),
    }
}

/// The first change of the encoder at or after `from`, a character boundary.
///
/// In `a<b` from 0, of `Encoder::Text`, it is the byte 1, which becomes `&lt;`.
pub fn next_encoded(encoder: Encoder, text: &str, from: usize) -> Option<Found<'static>>
    requires { IsCharBoundary text.now from }
    ensures none { IfNone result (encoder_changes encoder text.now from ≡ []) }
    ensures found { IfSome result (IsNext text.now from (encoder_changes encoder text.now)) }
{
    change_from(constant(encoder), text, from)
}

// The encoder as a constant, so that what is found outlives the call.
fn constant(encoder: Encoder) -> &'static Encoder
    ensures { result.now ≡ encoder }
{
    match encoder {
        Encoder::TextMinimal => &Encoder::TextMinimal,
        Encoder::Text => &Encoder::Text,
        Encoder::DoubleQuotedAttribute => &Encoder::DoubleQuotedAttribute,
        Encoder::SingleQuotedAttribute => &Encoder::SingleQuotedAttribute,
        Encoder::QuotedAttribute => &Encoder::QuotedAttribute,
        Encoder::Safe => &Encoder::Safe,
        Encoder::UnquotedAttribute => &Encoder::UnquotedAttribute,
        Encoder::Script => &Encoder::Script,
        Encoder::Style => &Encoder::Style,
        Encoder::ScriptSingleQuoted => &Encoder::ScriptSingleQuoted,
        Encoder::ScriptDoubleQuoted => &Encoder::ScriptDoubleQuoted,
        Encoder::ScriptQuoted => &Encoder::ScriptQuoted,
        Encoder::StyleSingleQuoted => &Encoder::StyleSingleQuoted,
        Encoder::StyleDoubleQuoted => &Encoder::StyleDoubleQuoted,
        Encoder::StyleQuoted => &Encoder::StyleQuoted,
    }
}
