//! The string decoders, four forms of each.
ghost use Rattle.std.specs.Borrow.{sem};
ghost use Rattle.hesc_specs.specs.Strings.Changes.{string_decoding_changes};
ghost use Rattle.hesc_specs.specs.Strings.Tokens.{string_decoding};
ghost use Rattle.hesc_specs.specs.declared.elements.Element.TheVariants.{Script, Style};
ghost use Rattle.hesc_specs.specs.declared.quotes.Quotes.TheVariants.{Single, Double, Both};
ghost use Rattle.hesc_engine.specs.Forms.{AnswersPart, AnswersText, StringAppended, VecAppended, WritesText, string_room, vec_room};

use crate::appends::{decode_onto_string, decode_onto_vec};
use hesc_core::Class;
use hesc_core::forms::{to_cow, to_writer};
use hesc_core::rules::Unescape;
use std::alloc::{AllocError, Allocator};
use std::borrow::CowStr;
use std::io::{self, Write};

const SCRIPT_SINGLE: Unescape = Unescape(Class::ScriptSingleQuoted);

const SCRIPT_DOUBLE: Unescape = Unescape(Class::ScriptDoubleQuoted);

const SCRIPT_BOTH: Unescape = Unescape(Class::ScriptQuoted);

const STYLE_SINGLE: Unescape = Unescape(Class::StyleSingleQuoted);

const STYLE_DOUBLE: Unescape = Unescape(Class::StyleDoubleQuoted);

const STYLE_BOTH: Unescape = Unescape(Class::StyleQuoted);

// `decode_script_single_quoted_text`: in a script's string `\\`, `\'`, `\x` and two upper-case hex
// digits of a C0 control or of `<`, `\u2028` and `\u2029` become their characters. Right after a
// `<` so do `\!` before `--`, and `\/` before `script` in any case where the name ends before the
// text does. Any other `\` stays.

/// `text` decoded. Where it has no escape it is `text` itself, and takes no memory.
///
/// `decode_script_single_quoted_text(alloc, r#"it\'s "\x3Cb>""#)?` is `it's "<b>"`.
#[inline(always)]
pub fn decode_script_single_quoted_text<'t, A: Allocator>(
    alloc: A,
    text: &'t str,
) -> Result<CowStr<'t, A>, AllocError>
    ensures { AnswersText text.now (string_decoding Script Single text.now)
        (string_decoding_changes Script Single text.now 0) result }
{
    to_cow(alloc, &SCRIPT_SINGLE, text)
}

/// Appends `text` decoded to `output`, and answers the part that was added. On a refusal
/// `output` is as it was.
///
/// `decode_script_single_quoted_text_to_string(r#"it\'s "\x3Cb>""#, &mut page)?`
/// appends and answers `it's "<b>"`.
#[inline(always)]
pub fn decode_script_single_quoted_text_to_string<'o, A: Allocator>(
    text: &str,
    output: &'o mut String<A>,
) -> Result<&'o str, AllocError>
    ensures part { AnswersPart (string_room output.old)
        (string_decoding Script Single text.now) result }
    ensures* appended { sem 𝓛 (StringAppended A.row A.Allocator output.entry
        (string_decoding Script Single text.now) result) }
{
    decode_onto_string(output, Class::ScriptSingleQuoted, text)
}

/// Appends `text` decoded to `output`, and answers the part that was added. On a refusal
/// `output` is as it was.
///
/// `decode_script_single_quoted_text_to_vec(r#"it\'s "\x3Cb>""#, &mut bytes)?`
/// appends and answers the bytes of `it's "<b>"`.
#[inline(always)]
pub fn decode_script_single_quoted_text_to_vec<'o, A: Allocator>(
    text: &str,
    output: &'o mut Vec<u8, A>,
) -> Result<&'o [u8], AllocError>
    ensures part { AnswersPart (vec_room output.old)
        (string_decoding Script Single text.now) result }
    ensures* appended { sem 𝓛 (VecAppended A.row A.Allocator output.entry
        (string_decoding Script Single text.now) result) }
{
    decode_onto_vec(output, Class::ScriptSingleQuoted, text)
}

/// Writes `text` decoded to `output`, or a beginning of it and then the writer's fault.
///
/// `decode_script_single_quoted_text_to_writer(r#"it\'s "\x3Cb>""#, &mut writer)?`
/// writes `it's "<b>"`.
pub fn decode_script_single_quoted_text_to_writer<W: Write>(
    text: &str,
    output: &mut W,
) -> Result<(), io::Error>
    ensures { WritesText (W.contents output.old) (W.contents output.new)
        (string_decoding Script Single text.now) result }
{
    to_writer(&SCRIPT_SINGLE, text, output)
}

// `decode_script_double_quoted_text`: in a script's string `\\`, `\"`, `\x` and two upper-case hex
// digits of a C0 control or of `<`, `\u2028` and `\u2029` become their characters. Right after a
// `<` so do `\!` before `--`, and `\/` before `script` in any case where the name ends before the
// text does. Any other `\` stays.

/// `text` decoded. Where it has no escape it is `text` itself, and takes no memory.
///
/// `decode_script_double_quoted_text(alloc, r#"it's \"\x3Cb>\""#)?` is `it's "<b>"`.
#[inline(always)]
pub fn decode_script_double_quoted_text<'t, A: Allocator>(
    alloc: A,
    text: &'t str,
) -> Result<CowStr<'t, A>, AllocError>
    ensures { AnswersText text.now (string_decoding Script Double text.now)
        (string_decoding_changes Script Double text.now 0) result }
{
    to_cow(alloc, &SCRIPT_DOUBLE, text)
}

/// Appends `text` decoded to `output`, and answers the part that was added. On a refusal
/// `output` is as it was.
///
/// `decode_script_double_quoted_text_to_string(r#"it's \"\x3Cb>\""#, &mut page)?`
/// appends and answers `it's "<b>"`.
#[inline(always)]
pub fn decode_script_double_quoted_text_to_string<'o, A: Allocator>(
    text: &str,
    output: &'o mut String<A>,
) -> Result<&'o str, AllocError>
    ensures part { AnswersPart (string_room output.old)
        (string_decoding Script Double text.now) result }
    ensures* appended { sem 𝓛 (StringAppended A.row A.Allocator output.entry
        (string_decoding Script Double text.now) result) }
{
    decode_onto_string(output, Class::ScriptDoubleQuoted, text)
}

/// Appends `text` decoded to `output`, and answers the part that was added. On a refusal
/// `output` is as it was.
///
/// `decode_script_double_quoted_text_to_vec(r#"it's \"\x3Cb>\""#, &mut bytes)?`
/// appends and answers the bytes of `it's "<b>"`.
#[inline(always)]
pub fn decode_script_double_quoted_text_to_vec<'o, A: Allocator>(
    text: &str,
    output: &'o mut Vec<u8, A>,
) -> Result<&'o [u8], AllocError>
    ensures part { AnswersPart (vec_room output.old)
        (string_decoding Script Double text.now) result }
    ensures* appended { sem 𝓛 (VecAppended A.row A.Allocator output.entry
        (string_decoding Script Double text.now) result) }
{
    decode_onto_vec(output, Class::ScriptDoubleQuoted, text)
}

/// Writes `text` decoded to `output`, or a beginning of it and then the writer's fault.
///
/// `decode_script_double_quoted_text_to_writer(r#"it's \"\x3Cb>\""#, &mut writer)?`
/// writes `it's "<b>"`.
pub fn decode_script_double_quoted_text_to_writer<W: Write>(
    text: &str,
    output: &mut W,
) -> Result<(), io::Error>
    ensures { WritesText (W.contents output.old) (W.contents output.new)
        (string_decoding Script Double text.now) result }
{
    to_writer(&SCRIPT_DOUBLE, text, output)
}

// `decode_script_quoted_text`: in a script's string `\\`, `\'`, `\"`, `\x` and two upper-case hex
// digits of a C0 control or of `<`, `\u2028` and `\u2029` become their characters. Right after a
// `<` so do `\!` before `--`, and `\/` before `script` in any case where the name ends before the
// text does. Any other `\` stays.

/// `text` decoded. Where it has no escape it is `text` itself, and takes no memory.
///
/// `decode_script_quoted_text(alloc, r#"it\'s \"\x3Cb>\""#)?` is `it's "<b>"`.
#[inline(always)]
pub fn decode_script_quoted_text<'t, A: Allocator>(
    alloc: A,
    text: &'t str,
) -> Result<CowStr<'t, A>, AllocError>
    ensures { AnswersText text.now (string_decoding Script Both text.now)
        (string_decoding_changes Script Both text.now 0) result }
{
    to_cow(alloc, &SCRIPT_BOTH, text)
}

/// Appends `text` decoded to `output`, and answers the part that was added. On a refusal
/// `output` is as it was.
///
/// `decode_script_quoted_text_to_string(r#"it\'s \"\x3Cb>\""#, &mut page)?`
/// appends and answers `it's "<b>"`.
#[inline(always)]
pub fn decode_script_quoted_text_to_string<'o, A: Allocator>(
    text: &str,
    output: &'o mut String<A>,
) -> Result<&'o str, AllocError>
    ensures part { AnswersPart (string_room output.old)
        (string_decoding Script Both text.now) result }
    ensures* appended { sem 𝓛 (StringAppended A.row A.Allocator output.entry
        (string_decoding Script Both text.now) result) }
{
    decode_onto_string(output, Class::ScriptQuoted, text)
}

/// Appends `text` decoded to `output`, and answers the part that was added. On a refusal
/// `output` is as it was.
///
/// `decode_script_quoted_text_to_vec(r#"it\'s \"\x3Cb>\""#, &mut bytes)?`
/// appends and answers the bytes of `it's "<b>"`.
#[inline(always)]
pub fn decode_script_quoted_text_to_vec<'o, A: Allocator>(
    text: &str,
    output: &'o mut Vec<u8, A>,
) -> Result<&'o [u8], AllocError>
    ensures part { AnswersPart (vec_room output.old)
        (string_decoding Script Both text.now) result }
    ensures* appended { sem 𝓛 (VecAppended A.row A.Allocator output.entry
        (string_decoding Script Both text.now) result) }
{
    decode_onto_vec(output, Class::ScriptQuoted, text)
}

/// Writes `text` decoded to `output`, or a beginning of it and then the writer's fault.
///
/// `decode_script_quoted_text_to_writer(r#"it\'s \"\x3Cb>\""#, &mut writer)?` writes `it's "<b>"`.
pub fn decode_script_quoted_text_to_writer<W: Write>(
    text: &str,
    output: &mut W,
) -> Result<(), io::Error>
    ensures { WritesText (W.contents output.old) (W.contents output.new)
        (string_decoding Script Both text.now) result }
{
    to_writer(&SCRIPT_BOTH, text, output)
}

// `decode_style_single_quoted_text`: in a style's string `\\`, `\'`, and `\`, two upper-case hex
// digits of a C0 control but NUL or of `<`, and a space become their characters. Right after a
// `<` so do `\!` before `--`, and `\/` before `style` in any case where the name ends before the
// text does. Any other `\` stays.

/// `text` decoded. Where it has no escape it is `text` itself, and takes no memory.
///
/// `decode_style_single_quoted_text(alloc, r#"it\'s "\3C b>""#)?` is `it's "<b>"`.
#[inline(always)]
pub fn decode_style_single_quoted_text<'t, A: Allocator>(
    alloc: A,
    text: &'t str,
) -> Result<CowStr<'t, A>, AllocError>
    ensures { AnswersText text.now (string_decoding Style Single text.now)
        (string_decoding_changes Style Single text.now 0) result }
{
    to_cow(alloc, &STYLE_SINGLE, text)
}

/// Appends `text` decoded to `output`, and answers the part that was added. On a refusal
/// `output` is as it was.
///
/// `decode_style_single_quoted_text_to_string(r#"it\'s "\3C b>""#, &mut page)?`
/// appends and answers `it's "<b>"`.
#[inline(always)]
pub fn decode_style_single_quoted_text_to_string<'o, A: Allocator>(
    text: &str,
    output: &'o mut String<A>,
) -> Result<&'o str, AllocError>
    ensures part { AnswersPart (string_room output.old)
        (string_decoding Style Single text.now) result }
    ensures* appended { sem 𝓛 (StringAppended A.row A.Allocator output.entry
        (string_decoding Style Single text.now) result) }
{
    decode_onto_string(output, Class::StyleSingleQuoted, text)
}

/// Appends `text` decoded to `output`, and answers the part that was added. On a refusal
/// `output` is as it was.
///
/// `decode_style_single_quoted_text_to_vec(r#"it\'s "\3C b>""#, &mut bytes)?`
/// appends and answers the bytes of `it's "<b>"`.
#[inline(always)]
pub fn decode_style_single_quoted_text_to_vec<'o, A: Allocator>(
    text: &str,
    output: &'o mut Vec<u8, A>,
) -> Result<&'o [u8], AllocError>
    ensures part { AnswersPart (vec_room output.old)
        (string_decoding Style Single text.now) result }
    ensures* appended { sem 𝓛 (VecAppended A.row A.Allocator output.entry
        (string_decoding Style Single text.now) result) }
{
    decode_onto_vec(output, Class::StyleSingleQuoted, text)
}

/// Writes `text` decoded to `output`, or a beginning of it and then the writer's fault.
///
/// `decode_style_single_quoted_text_to_writer(r#"it\'s "\3C b>""#, &mut writer)?`
/// writes `it's "<b>"`.
pub fn decode_style_single_quoted_text_to_writer<W: Write>(
    text: &str,
    output: &mut W,
) -> Result<(), io::Error>
    ensures { WritesText (W.contents output.old) (W.contents output.new)
        (string_decoding Style Single text.now) result }
{
    to_writer(&STYLE_SINGLE, text, output)
}

// `decode_style_double_quoted_text`: in a style's string `\\`, `\"`, and `\`, two upper-case hex
// digits of a C0 control but NUL or of `<`, and a space become their characters. Right after a
// `<` so do `\!` before `--`, and `\/` before `style` in any case where the name ends before the
// text does. Any other `\` stays.

/// `text` decoded. Where it has no escape it is `text` itself, and takes no memory.
///
/// `decode_style_double_quoted_text(alloc, r#"it's \"\3C b>\""#)?` is `it's "<b>"`.
#[inline(always)]
pub fn decode_style_double_quoted_text<'t, A: Allocator>(
    alloc: A,
    text: &'t str,
) -> Result<CowStr<'t, A>, AllocError>
    ensures { AnswersText text.now (string_decoding Style Double text.now)
        (string_decoding_changes Style Double text.now 0) result }
{
    to_cow(alloc, &STYLE_DOUBLE, text)
}

/// Appends `text` decoded to `output`, and answers the part that was added. On a refusal
/// `output` is as it was.
///
/// `decode_style_double_quoted_text_to_string(r#"it's \"\3C b>\""#, &mut page)?`
/// appends and answers `it's "<b>"`.
#[inline(always)]
pub fn decode_style_double_quoted_text_to_string<'o, A: Allocator>(
    text: &str,
    output: &'o mut String<A>,
) -> Result<&'o str, AllocError>
    ensures part { AnswersPart (string_room output.old)
        (string_decoding Style Double text.now) result }
    ensures* appended { sem 𝓛 (StringAppended A.row A.Allocator output.entry
        (string_decoding Style Double text.now) result) }
{
    decode_onto_string(output, Class::StyleDoubleQuoted, text)
}

/// Appends `text` decoded to `output`, and answers the part that was added. On a refusal
/// `output` is as it was.
///
/// `decode_style_double_quoted_text_to_vec(r#"it's \"\3C b>\""#, &mut bytes)?`
/// appends and answers the bytes of `it's "<b>"`.
#[inline(always)]
pub fn decode_style_double_quoted_text_to_vec<'o, A: Allocator>(
    text: &str,
    output: &'o mut Vec<u8, A>,
) -> Result<&'o [u8], AllocError>
    ensures part { AnswersPart (vec_room output.old)
        (string_decoding Style Double text.now) result }
    ensures* appended { sem 𝓛 (VecAppended A.row A.Allocator output.entry
        (string_decoding Style Double text.now) result) }
{
    decode_onto_vec(output, Class::StyleDoubleQuoted, text)
}

/// Writes `text` decoded to `output`, or a beginning of it and then the writer's fault.
///
/// `decode_style_double_quoted_text_to_writer(r#"it's \"\3C b>\""#, &mut writer)?`
/// writes `it's "<b>"`.
pub fn decode_style_double_quoted_text_to_writer<W: Write>(
    text: &str,
    output: &mut W,
) -> Result<(), io::Error>
    ensures { WritesText (W.contents output.old) (W.contents output.new)
        (string_decoding Style Double text.now) result }
{
    to_writer(&STYLE_DOUBLE, text, output)
}

// `decode_style_quoted_text`: in a style's string `\\`, `\'`, `\"`, and `\`, two upper-case hex
// digits of a C0 control but NUL or of `<`, and a space become their characters. Right after a
// `<` so do `\!` before `--`, and `\/` before `style` in any case where the name ends before the
// text does. Any other `\` stays.

/// `text` decoded. Where it has no escape it is `text` itself, and takes no memory.
///
/// `decode_style_quoted_text(alloc, r#"it\'s \"\3C b>\""#)?` is `it's "<b>"`.
#[inline(always)]
pub fn decode_style_quoted_text<'t, A: Allocator>(
    alloc: A,
    text: &'t str,
) -> Result<CowStr<'t, A>, AllocError>
    ensures { AnswersText text.now (string_decoding Style Both text.now)
        (string_decoding_changes Style Both text.now 0) result }
{
    to_cow(alloc, &STYLE_BOTH, text)
}

/// Appends `text` decoded to `output`, and answers the part that was added. On a refusal
/// `output` is as it was.
///
/// `decode_style_quoted_text_to_string(r#"it\'s \"\3C b>\""#, &mut page)?`
/// appends and answers `it's "<b>"`.
#[inline(always)]
pub fn decode_style_quoted_text_to_string<'o, A: Allocator>(
    text: &str,
    output: &'o mut String<A>,
) -> Result<&'o str, AllocError>
    ensures part { AnswersPart (string_room output.old)
        (string_decoding Style Both text.now) result }
    ensures* appended { sem 𝓛 (StringAppended A.row A.Allocator output.entry
        (string_decoding Style Both text.now) result) }
{
    decode_onto_string(output, Class::StyleQuoted, text)
}

/// Appends `text` decoded to `output`, and answers the part that was added. On a refusal
/// `output` is as it was.
///
/// `decode_style_quoted_text_to_vec(r#"it\'s \"\3C b>\""#, &mut bytes)?`
/// appends and answers the bytes of `it's "<b>"`.
#[inline(always)]
pub fn decode_style_quoted_text_to_vec<'o, A: Allocator>(
    text: &str,
    output: &'o mut Vec<u8, A>,
) -> Result<&'o [u8], AllocError>
    ensures part { AnswersPart (vec_room output.old)
        (string_decoding Style Both text.now) result }
    ensures* appended { sem 𝓛 (VecAppended A.row A.Allocator output.entry
        (string_decoding Style Both text.now) result) }
{
    decode_onto_vec(output, Class::StyleQuoted, text)
}

/// Writes `text` decoded to `output`, or a beginning of it and then the writer's fault.
///
/// `decode_style_quoted_text_to_writer(r#"it\'s \"\3C b>\""#, &mut writer)?` writes `it's "<b>"`.
pub fn decode_style_quoted_text_to_writer<W: Write>(
    text: &str,
    output: &mut W,
) -> Result<(), io::Error>
    ensures { WritesText (W.contents output.old) (W.contents output.new)
        (string_decoding Style Both text.now) result }
{
    to_writer(&STYLE_BOTH, text, output)
}
