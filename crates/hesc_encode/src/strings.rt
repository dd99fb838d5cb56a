//! The string encoders, four forms of each.
ghost use Rattle.std.specs.Borrow.{sem};
ghost use Rattle.hesc_specs.specs.Strings.Changes.{string_encoding_changes};
ghost use Rattle.hesc_specs.specs.Strings.Encoding.{string_encoding};
ghost use Rattle.hesc_specs.specs.declared.elements.Element.TheVariants.{Script, Style};
ghost use Rattle.hesc_specs.specs.declared.quotes.Quotes.TheVariants.{Single, Double, Both};
ghost use Rattle.hesc_engine.specs.Forms.{AnswersPart, AnswersText, StringAppended, VecAppended, WritesText, string_room, vec_room};

use crate::appends::{encode_onto_string, encode_onto_vec, encode_to_cow};
use hesc_core::Class;
use hesc_core::forms::to_writer;
use hesc_core::rules::Escape;
use std::alloc::{AllocError, Allocator};
use std::borrow::CowStr;
use std::io::{self, Write};

// `encode_script_single_quoted_text`: `\` and `'` get a `\` before them, C0 controls and `<`
// become `\xHH`, and U+2028 and U+2029 become `\u2028` and `\u2029`.

/// The encoding of `text`. Where nothing changes it is `text` itself, and takes no memory.
///
/// `encode_script_single_quoted_text(alloc, r#"it's "<b>""#)?` is `it\'s "\x3Cb>"`.
#[inline(always)]
pub fn encode_script_single_quoted_text<'t, A: Allocator>(
    alloc: A,
    text: &'t str,
) -> Result<CowStr<'t, A>, AllocError>
    ensures { AnswersText text.now (string_encoding Script Single text.now)
        (string_encoding_changes Script Single text.now 0) result }
{
    encode_to_cow(alloc, Class::ScriptSingleQuoted, text)
}

/// Appends the encoding of `text` to `output`, and answers the part that was added. On a refusal
/// `output` is as it was.
///
/// `encode_script_single_quoted_text_to_string(r#"it's "<b>""#, &mut page)?`
/// appends and answers `it\'s "\x3Cb>"`.
#[inline(always)]
pub fn encode_script_single_quoted_text_to_string<'o, A: Allocator>(
    text: &str,
    output: &'o mut String<A>,
) -> Result<&'o str, AllocError>
    ensures part { AnswersPart (string_room output.old)
        (string_encoding Script Single text.now) result }
    ensures* appended { sem 𝓛 (StringAppended A.row A.Allocator output.entry
        (string_encoding Script Single text.now) result) }
{
    encode_onto_string(output, Class::ScriptSingleQuoted, text)
}

/// Appends the encoding of `text` to `output`, and answers the part that was added. On a refusal
/// `output` is as it was.
///
/// `encode_script_single_quoted_text_to_vec(r#"it's "<b>""#, &mut bytes)?`
/// appends and answers the bytes of `it\'s "\x3Cb>"`.
#[inline(always)]
pub fn encode_script_single_quoted_text_to_vec<'o, A: Allocator>(
    text: &str,
    output: &'o mut Vec<u8, A>,
) -> Result<&'o [u8], AllocError>
    ensures part { AnswersPart (vec_room output.old)
        (string_encoding Script Single text.now) result }
    ensures* appended { sem 𝓛 (VecAppended A.row A.Allocator output.entry
        (string_encoding Script Single text.now) result) }
{
    encode_onto_vec(output, Class::ScriptSingleQuoted, text)
}

/// Writes the encoding of `text` to `output`, or a beginning of it and then the writer's fault.
///
/// `encode_script_single_quoted_text_to_writer(r#"it's "<b>""#, &mut writer)?`
/// writes `it\'s "\x3Cb>"`.
pub fn encode_script_single_quoted_text_to_writer<W: Write>(
    text: &str,
    output: &mut W,
) -> Result<(), io::Error>
    ensures { WritesText (W.contents output.old) (W.contents output.new)
        (string_encoding Script Single text.now) result }
{
    to_writer(&Escape(Class::ScriptSingleQuoted), text, output)
}

// `encode_script_double_quoted_text`: `\` and `"` get a `\` before them, C0 controls and `<`
// become `\xHH`, and U+2028 and U+2029 become `\u2028` and `\u2029`.

/// The encoding of `text`. Where nothing changes it is `text` itself, and takes no memory.
///
/// `encode_script_double_quoted_text(alloc, r#"it's "<b>""#)?` is `it's \"\x3Cb>\"`.
#[inline(always)]
pub fn encode_script_double_quoted_text<'t, A: Allocator>(
    alloc: A,
    text: &'t str,
) -> Result<CowStr<'t, A>, AllocError>
    ensures { AnswersText text.now (string_encoding Script Double text.now)
        (string_encoding_changes Script Double text.now 0) result }
{
    encode_to_cow(alloc, Class::ScriptDoubleQuoted, text)
}

/// Appends the encoding of `text` to `output`, and answers the part that was added. On a refusal
/// `output` is as it was.
///
/// `encode_script_double_quoted_text_to_string(r#"it's "<b>""#, &mut page)?`
/// appends and answers `it's \"\x3Cb>\"`.
#[inline(always)]
pub fn encode_script_double_quoted_text_to_string<'o, A: Allocator>(
    text: &str,
    output: &'o mut String<A>,
) -> Result<&'o str, AllocError>
    ensures part { AnswersPart (string_room output.old)
        (string_encoding Script Double text.now) result }
    ensures* appended { sem 𝓛 (StringAppended A.row A.Allocator output.entry
        (string_encoding Script Double text.now) result) }
{
    encode_onto_string(output, Class::ScriptDoubleQuoted, text)
}

/// Appends the encoding of `text` to `output`, and answers the part that was added. On a refusal
/// `output` is as it was.
///
/// `encode_script_double_quoted_text_to_vec(r#"it's "<b>""#, &mut bytes)?`
/// appends and answers the bytes of `it's \"\x3Cb>\"`.
#[inline(always)]
pub fn encode_script_double_quoted_text_to_vec<'o, A: Allocator>(
    text: &str,
    output: &'o mut Vec<u8, A>,
) -> Result<&'o [u8], AllocError>
    ensures part { AnswersPart (vec_room output.old)
        (string_encoding Script Double text.now) result }
    ensures* appended { sem 𝓛 (VecAppended A.row A.Allocator output.entry
        (string_encoding Script Double text.now) result) }
{
    encode_onto_vec(output, Class::ScriptDoubleQuoted, text)
}

/// Writes the encoding of `text` to `output`, or a beginning of it and then the writer's fault.
///
/// `encode_script_double_quoted_text_to_writer(r#"it's "<b>""#, &mut writer)?`
/// writes `it's \"\x3Cb>\"`.
pub fn encode_script_double_quoted_text_to_writer<W: Write>(
    text: &str,
    output: &mut W,
) -> Result<(), io::Error>
    ensures { WritesText (W.contents output.old) (W.contents output.new)
        (string_encoding Script Double text.now) result }
{
    to_writer(&Escape(Class::ScriptDoubleQuoted), text, output)
}

// `encode_script_quoted_text`: `\`, `'` and `"` get a `\` before them, C0 controls and `<` become
// `\xHH`, and U+2028 and U+2029 become `\u2028` and `\u2029`.

/// The encoding of `text`. Where nothing changes it is `text` itself, and takes no memory.
///
/// `encode_script_quoted_text(alloc, r#"it's "<b>""#)?` is `it\'s \"\x3Cb>\"`.
#[inline(always)]
pub fn encode_script_quoted_text<'t, A: Allocator>(
    alloc: A,
    text: &'t str,
) -> Result<CowStr<'t, A>, AllocError>
    ensures { AnswersText text.now (string_encoding Script Both text.now)
        (string_encoding_changes Script Both text.now 0) result }
{
    encode_to_cow(alloc, Class::ScriptQuoted, text)
}

/// Appends the encoding of `text` to `output`, and answers the part that was added. On a refusal
/// `output` is as it was.
///
/// `encode_script_quoted_text_to_string(r#"it's "<b>""#, &mut page)?`
/// appends and answers `it\'s \"\x3Cb>\"`.
#[inline(always)]
pub fn encode_script_quoted_text_to_string<'o, A: Allocator>(
    text: &str,
    output: &'o mut String<A>,
) -> Result<&'o str, AllocError>
    ensures part { AnswersPart (string_room output.old)
        (string_encoding Script Both text.now) result }
    ensures* appended { sem 𝓛 (StringAppended A.row A.Allocator output.entry
        (string_encoding Script Both text.now) result) }
{
    encode_onto_string(output, Class::ScriptQuoted, text)
}

/// Appends the encoding of `text` to `output`, and answers the part that was added. On a refusal
/// `output` is as it was.
///
/// `encode_script_quoted_text_to_vec(r#"it's "<b>""#, &mut bytes)?`
/// appends and answers the bytes of `it\'s \"\x3Cb>\"`.
#[inline(always)]
pub fn encode_script_quoted_text_to_vec<'o, A: Allocator>(
    text: &str,
    output: &'o mut Vec<u8, A>,
) -> Result<&'o [u8], AllocError>
    ensures part { AnswersPart (vec_room output.old)
        (string_encoding Script Both text.now) result }
    ensures* appended { sem 𝓛 (VecAppended A.row A.Allocator output.entry
        (string_encoding Script Both text.now) result) }
{
    encode_onto_vec(output, Class::ScriptQuoted, text)
}

/// Writes the encoding of `text` to `output`, or a beginning of it and then the writer's fault.
///
/// `encode_script_quoted_text_to_writer(r#"it's "<b>""#, &mut writer)?` writes `it\'s \"\x3Cb>\"`.
pub fn encode_script_quoted_text_to_writer<W: Write>(
    text: &str,
    output: &mut W,
) -> Result<(), io::Error>
    ensures { WritesText (W.contents output.old) (W.contents output.new)
        (string_encoding Script Both text.now) result }
{
    to_writer(&Escape(Class::ScriptQuoted), text, output)
}

// `encode_style_single_quoted_text`: `\` and `'` get a `\` before them, NUL becomes U+FFFD, and
// the other C0 controls and `<` become `\HH` and a space.

/// The encoding of `text`. Where nothing changes it is `text` itself, and takes no memory.
///
/// `encode_style_single_quoted_text(alloc, r#"it's "<b>""#)?` is `it\'s "\3C b>"`.
#[inline(always)]
pub fn encode_style_single_quoted_text<'t, A: Allocator>(
    alloc: A,
    text: &'t str,
) -> Result<CowStr<'t, A>, AllocError>
    ensures { AnswersText text.now (string_encoding Style Single text.now)
        (string_encoding_changes Style Single text.now 0) result }
{
    encode_to_cow(alloc, Class::StyleSingleQuoted, text)
}

/// Appends the encoding of `text` to `output`, and answers the part that was added. On a refusal
/// `output` is as it was.
///
/// `encode_style_single_quoted_text_to_string(r#"it's "<b>""#, &mut page)?`
/// appends and answers `it\'s "\3C b>"`.
#[inline(always)]
pub fn encode_style_single_quoted_text_to_string<'o, A: Allocator>(
    text: &str,
    output: &'o mut String<A>,
) -> Result<&'o str, AllocError>
    ensures part { AnswersPart (string_room output.old)
        (string_encoding Style Single text.now) result }
    ensures* appended { sem 𝓛 (StringAppended A.row A.Allocator output.entry
        (string_encoding Style Single text.now) result) }
{
    encode_onto_string(output, Class::StyleSingleQuoted, text)
}

/// Appends the encoding of `text` to `output`, and answers the part that was added. On a refusal
/// `output` is as it was.
///
/// `encode_style_single_quoted_text_to_vec(r#"it's "<b>""#, &mut bytes)?`
/// appends and answers the bytes of `it\'s "\3C b>"`.
#[inline(always)]
pub fn encode_style_single_quoted_text_to_vec<'o, A: Allocator>(
    text: &str,
    output: &'o mut Vec<u8, A>,
) -> Result<&'o [u8], AllocError>
    ensures part { AnswersPart (vec_room output.old)
        (string_encoding Style Single text.now) result }
    ensures* appended { sem 𝓛 (VecAppended A.row A.Allocator output.entry
        (string_encoding Style Single text.now) result) }
{
    encode_onto_vec(output, Class::StyleSingleQuoted, text)
}

/// Writes the encoding of `text` to `output`, or a beginning of it and then the writer's fault.
///
/// `encode_style_single_quoted_text_to_writer(r#"it's "<b>""#, &mut writer)?`
/// writes `it\'s "\3C b>"`.
pub fn encode_style_single_quoted_text_to_writer<W: Write>(
    text: &str,
    output: &mut W,
) -> Result<(), io::Error>
    ensures { WritesText (W.contents output.old) (W.contents output.new)
        (string_encoding Style Single text.now) result }
{
    to_writer(&Escape(Class::StyleSingleQuoted), text, output)
}

// `encode_style_double_quoted_text`: `\` and `"` get a `\` before them, NUL becomes U+FFFD, and
// the other C0 controls and `<` become `\HH` and a space.

/// The encoding of `text`. Where nothing changes it is `text` itself, and takes no memory.
///
/// `encode_style_double_quoted_text(alloc, r#"it's "<b>""#)?` is `it's \"\3C b>\"`.
#[inline(always)]
pub fn encode_style_double_quoted_text<'t, A: Allocator>(
    alloc: A,
    text: &'t str,
) -> Result<CowStr<'t, A>, AllocError>
    ensures { AnswersText text.now (string_encoding Style Double text.now)
        (string_encoding_changes Style Double text.now 0) result }
{
    encode_to_cow(alloc, Class::StyleDoubleQuoted, text)
}

/// Appends the encoding of `text` to `output`, and answers the part that was added. On a refusal
/// `output` is as it was.
///
/// `encode_style_double_quoted_text_to_string(r#"it's "<b>""#, &mut page)?`
/// appends and answers `it's \"\3C b>\"`.
#[inline(always)]
pub fn encode_style_double_quoted_text_to_string<'o, A: Allocator>(
    text: &str,
    output: &'o mut String<A>,
) -> Result<&'o str, AllocError>
    ensures part { AnswersPart (string_room output.old)
        (string_encoding Style Double text.now) result }
    ensures* appended { sem 𝓛 (StringAppended A.row A.Allocator output.entry
        (string_encoding Style Double text.now) result) }
{
    encode_onto_string(output, Class::StyleDoubleQuoted, text)
}

/// Appends the encoding of `text` to `output`, and answers the part that was added. On a refusal
/// `output` is as it was.
///
/// `encode_style_double_quoted_text_to_vec(r#"it's "<b>""#, &mut bytes)?`
/// appends and answers the bytes of `it's \"\3C b>\"`.
#[inline(always)]
pub fn encode_style_double_quoted_text_to_vec<'o, A: Allocator>(
    text: &str,
    output: &'o mut Vec<u8, A>,
) -> Result<&'o [u8], AllocError>
    ensures part { AnswersPart (vec_room output.old)
        (string_encoding Style Double text.now) result }
    ensures* appended { sem 𝓛 (VecAppended A.row A.Allocator output.entry
        (string_encoding Style Double text.now) result) }
{
    encode_onto_vec(output, Class::StyleDoubleQuoted, text)
}

/// Writes the encoding of `text` to `output`, or a beginning of it and then the writer's fault.
///
/// `encode_style_double_quoted_text_to_writer(r#"it's "<b>""#, &mut writer)?`
/// writes `it's \"\3C b>\"`.
pub fn encode_style_double_quoted_text_to_writer<W: Write>(
    text: &str,
    output: &mut W,
) -> Result<(), io::Error>
    ensures { WritesText (W.contents output.old) (W.contents output.new)
        (string_encoding Style Double text.now) result }
{
    to_writer(&Escape(Class::StyleDoubleQuoted), text, output)
}

// `encode_style_quoted_text`: `\`, `'` and `"` get a `\` before them, NUL becomes U+FFFD, and the
// other C0 controls and `<` become `\HH` and a space.

/// The encoding of `text`. Where nothing changes it is `text` itself, and takes no memory.
///
/// `encode_style_quoted_text(alloc, r#"it's "<b>""#)?` is `it\'s \"\3C b>\"`.
#[inline(always)]
pub fn encode_style_quoted_text<'t, A: Allocator>(
    alloc: A,
    text: &'t str,
) -> Result<CowStr<'t, A>, AllocError>
    ensures { AnswersText text.now (string_encoding Style Both text.now)
        (string_encoding_changes Style Both text.now 0) result }
{
    encode_to_cow(alloc, Class::StyleQuoted, text)
}

/// Appends the encoding of `text` to `output`, and answers the part that was added. On a refusal
/// `output` is as it was.
///
/// `encode_style_quoted_text_to_string(r#"it's "<b>""#, &mut page)?`
/// appends and answers `it\'s \"\3C b>\"`.
#[inline(always)]
pub fn encode_style_quoted_text_to_string<'o, A: Allocator>(
    text: &str,
    output: &'o mut String<A>,
) -> Result<&'o str, AllocError>
    ensures part { AnswersPart (string_room output.old)
        (string_encoding Style Both text.now) result }
    ensures* appended { sem 𝓛 (StringAppended A.row A.Allocator output.entry
        (string_encoding Style Both text.now) result) }
{
    encode_onto_string(output, Class::StyleQuoted, text)
}

/// Appends the encoding of `text` to `output`, and answers the part that was added. On a refusal
/// `output` is as it was.
///
/// `encode_style_quoted_text_to_vec(r#"it's "<b>""#, &mut bytes)?`
/// appends and answers the bytes of `it\'s \"\3C b>\"`.
#[inline(always)]
pub fn encode_style_quoted_text_to_vec<'o, A: Allocator>(
    text: &str,
    output: &'o mut Vec<u8, A>,
) -> Result<&'o [u8], AllocError>
    ensures part { AnswersPart (vec_room output.old)
        (string_encoding Style Both text.now) result }
    ensures* appended { sem 𝓛 (VecAppended A.row A.Allocator output.entry
        (string_encoding Style Both text.now) result) }
{
    encode_onto_vec(output, Class::StyleQuoted, text)
}

/// Writes the encoding of `text` to `output`, or a beginning of it and then the writer's fault.
///
/// `encode_style_quoted_text_to_writer(r#"it's "<b>""#, &mut writer)?` writes `it\'s \"\3C b>\"`.
pub fn encode_style_quoted_text_to_writer<W: Write>(
    text: &str,
    output: &mut W,
) -> Result<(), io::Error>
    ensures { WritesText (W.contents output.old) (W.contents output.new)
        (string_encoding Style Both text.now) result }
{
    to_writer(&Escape(Class::StyleQuoted), text, output)
}
