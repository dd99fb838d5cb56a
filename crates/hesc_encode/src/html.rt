//! The HTML encoders, four forms of each.
ghost use Rattle.std.specs.Borrow.{sem};
ghost use Rattle.hesc_specs.specs.Text.Changes.{html_changes};
ghost use Rattle.hesc_specs.specs.Html.{encoding};
ghost use Rattle.hesc_engine.specs.Forms.{AnswersPart, AnswersText, StringAppended, VecAppended, WritesText, string_room, vec_room};

use crate::appends::{encode_onto_string, encode_onto_vec, encode_to_cow};
use hesc_core::Class;
use hesc_core::forms::to_writer;
use hesc_core::rules::Escape;
use std::alloc::{AllocError, Allocator};
use std::borrow::CowStr;
use std::io::{self, Write};

// `encode_text_minimal`: `&` and `<` become `&amp;` and `&lt;`.

/// The encoding of `text`. Where nothing changes it is `text` itself, and takes no memory.
///
/// `encode_text_minimal(alloc, r#"it's "<b>""#)?` is `it's "&lt;b>"`.
#[inline(always)]
pub fn encode_text_minimal<'t, A: Allocator>(
    alloc: A,
    text: &'t str,
) -> Result<CowStr<'t, A>, AllocError>
    ensures { AnswersText text.now (encoding Class.TextMinimal text.now)
        (html_changes Class.TextMinimal text.now 0) result }
{
    encode_to_cow(alloc, Class::TextMinimal, text)
}

/// Appends the encoding of `text` to `output`, and answers the part that was added. On a refusal
/// `output` is as it was.
///
/// `encode_text_minimal_to_string(r#"it's "<b>""#, &mut page)?`
/// appends and answers `it's "&lt;b>"`.
#[inline(always)]
pub fn encode_text_minimal_to_string<'o, A: Allocator>(
    text: &str,
    output: &'o mut String<A>,
) -> Result<&'o str, AllocError>
    ensures part { AnswersPart (string_room output.old)
        (encoding Class.TextMinimal text.now) result }
    ensures* appended { sem 𝓛 (StringAppended A.row A.Allocator output.entry
        (encoding Class.TextMinimal text.now) result) }
{
    encode_onto_string(output, Class::TextMinimal, text)
}

/// Appends the encoding of `text` to `output`, and answers the part that was added. On a refusal
/// `output` is as it was.
///
/// `encode_text_minimal_to_vec(r#"it's "<b>""#, &mut bytes)?`
/// appends and answers the bytes of `it's "&lt;b>"`.
#[inline(always)]
pub fn encode_text_minimal_to_vec<'o, A: Allocator>(
    text: &str,
    output: &'o mut Vec<u8, A>,
) -> Result<&'o [u8], AllocError>
    ensures part { AnswersPart (vec_room output.old)
        (encoding Class.TextMinimal text.now) result }
    ensures* appended { sem 𝓛 (VecAppended A.row A.Allocator output.entry
        (encoding Class.TextMinimal text.now) result) }
{
    encode_onto_vec(output, Class::TextMinimal, text)
}

/// Writes the encoding of `text` to `output`, or a beginning of it and then the writer's fault.
///
/// `encode_text_minimal_to_writer(r#"it's "<b>""#, &mut writer)?` writes `it's "&lt;b>"`.
pub fn encode_text_minimal_to_writer<W: Write>(text: &str, output: &mut W) -> Result<(), io::Error>
    ensures { WritesText (W.contents output.old) (W.contents output.new)
        (encoding Class.TextMinimal text.now) result }
{
    to_writer(&Escape(Class::TextMinimal), text, output)
}

// `encode_text`: `&`, `<` and `>` become `&amp;`, `&lt;` and `&gt;`.

/// The encoding of `text`. Where nothing changes it is `text` itself, and takes no memory.
///
/// `encode_text(alloc, r#"it's "<b>""#)?` is `it's "&lt;b&gt;"`.
#[inline(always)]
pub fn encode_text<'t, A: Allocator>(alloc: A, text: &'t str) -> Result<CowStr<'t, A>, AllocError>
    ensures { AnswersText text.now (encoding Class.Text text.now)
        (html_changes Class.Text text.now 0) result }
{
    encode_to_cow(alloc, Class::Text, text)
}

/// Appends the encoding of `text` to `output`, and answers the part that was added. On a refusal
/// `output` is as it was.
///
/// `encode_text_to_string(r#"it's "<b>""#, &mut page)?` appends and answers `it's "&lt;b&gt;"`.
#[inline(always)]
pub fn encode_text_to_string<'o, A: Allocator>(
    text: &str,
    output: &'o mut String<A>,
) -> Result<&'o str, AllocError>
    ensures part { AnswersPart (string_room output.old)
        (encoding Class.Text text.now) result }
    ensures* appended { sem 𝓛 (StringAppended A.row A.Allocator output.entry
        (encoding Class.Text text.now) result) }
{
    encode_onto_string(output, Class::Text, text)
}

/// Appends the encoding of `text` to `output`, and answers the part that was added. On a refusal
/// `output` is as it was.
///
/// `encode_text_to_vec(r#"it's "<b>""#, &mut bytes)?`
/// appends and answers the bytes of `it's "&lt;b&gt;"`.
#[inline(always)]
pub fn encode_text_to_vec<'o, A: Allocator>(
    text: &str,
    output: &'o mut Vec<u8, A>,
) -> Result<&'o [u8], AllocError>
    ensures part { AnswersPart (vec_room output.old)
        (encoding Class.Text text.now) result }
    ensures* appended { sem 𝓛 (VecAppended A.row A.Allocator output.entry
        (encoding Class.Text text.now) result) }
{
    encode_onto_vec(output, Class::Text, text)
}

/// Writes the encoding of `text` to `output`, or a beginning of it and then the writer's fault.
///
/// `encode_text_to_writer(r#"it's "<b>""#, &mut writer)?` writes `it's "&lt;b&gt;"`.
pub fn encode_text_to_writer<W: Write>(text: &str, output: &mut W) -> Result<(), io::Error>
    ensures { WritesText (W.contents output.old) (W.contents output.new)
        (encoding Class.Text text.now) result }
{
    to_writer(&Escape(Class::Text), text, output)
}

// `encode_double_quoted_attribute`: `&`, `<`, `>` and `"` become `&amp;`, `&lt;`, `&gt;` and
// `&quot;`.

/// The encoding of `text`. Where nothing changes it is `text` itself, and takes no memory.
///
/// `encode_double_quoted_attribute(alloc, r#"it's "<b>""#)?` is `it's &quot;&lt;b&gt;&quot;`.
#[inline(always)]
pub fn encode_double_quoted_attribute<'t, A: Allocator>(
    alloc: A,
    text: &'t str,
) -> Result<CowStr<'t, A>, AllocError>
    ensures { AnswersText text.now (encoding Class.DoubleQuotedAttribute text.now)
        (html_changes Class.DoubleQuotedAttribute text.now 0) result }
{
    encode_to_cow(alloc, Class::DoubleQuotedAttribute, text)
}

/// Appends the encoding of `text` to `output`, and answers the part that was added. On a refusal
/// `output` is as it was.
///
/// `encode_double_quoted_attribute_to_string(r#"it's "<b>""#, &mut page)?`
/// appends and answers `it's &quot;&lt;b&gt;&quot;`.
#[inline(always)]
pub fn encode_double_quoted_attribute_to_string<'o, A: Allocator>(
    text: &str,
    output: &'o mut String<A>,
) -> Result<&'o str, AllocError>
    ensures part { AnswersPart (string_room output.old)
        (encoding Class.DoubleQuotedAttribute text.now) result }
    ensures* appended { sem 𝓛 (StringAppended A.row A.Allocator output.entry
        (encoding Class.DoubleQuotedAttribute text.now) result) }
{
    encode_onto_string(output, Class::DoubleQuotedAttribute, text)
}

/// Appends the encoding of `text` to `output`, and answers the part that was added. On a refusal
/// `output` is as it was.
///
/// `encode_double_quoted_attribute_to_vec(r#"it's "<b>""#, &mut bytes)?`
/// appends and answers the bytes of `it's &quot;&lt;b&gt;&quot;`.
#[inline(always)]
pub fn encode_double_quoted_attribute_to_vec<'o, A: Allocator>(
    text: &str,
    output: &'o mut Vec<u8, A>,
) -> Result<&'o [u8], AllocError>
    ensures part { AnswersPart (vec_room output.old)
        (encoding Class.DoubleQuotedAttribute text.now) result }
    ensures* appended { sem 𝓛 (VecAppended A.row A.Allocator output.entry
        (encoding Class.DoubleQuotedAttribute text.now) result) }
{
    encode_onto_vec(output, Class::DoubleQuotedAttribute, text)
}

/// Writes the encoding of `text` to `output`, or a beginning of it and then the writer's fault.
///
/// `encode_double_quoted_attribute_to_writer(r#"it's "<b>""#, &mut writer)?`
/// writes `it's &quot;&lt;b&gt;&quot;`.
pub fn encode_double_quoted_attribute_to_writer<W: Write>(
    text: &str,
    output: &mut W,
) -> Result<(), io::Error>
    ensures { WritesText (W.contents output.old) (W.contents output.new)
        (encoding Class.DoubleQuotedAttribute text.now) result }
{
    to_writer(&Escape(Class::DoubleQuotedAttribute), text, output)
}

// `encode_single_quoted_attribute`: `&`, `<`, `>` and `'` become `&amp;`, `&lt;`, `&gt;` and
// `&#x27;`.

/// The encoding of `text`. Where nothing changes it is `text` itself, and takes no memory.
///
/// `encode_single_quoted_attribute(alloc, r#"it's "<b>""#)?` is `it&#x27;s "&lt;b&gt;"`.
#[inline(always)]
pub fn encode_single_quoted_attribute<'t, A: Allocator>(
    alloc: A,
    text: &'t str,
) -> Result<CowStr<'t, A>, AllocError>
    ensures { AnswersText text.now (encoding Class.SingleQuotedAttribute text.now)
        (html_changes Class.SingleQuotedAttribute text.now 0) result }
{
    encode_to_cow(alloc, Class::SingleQuotedAttribute, text)
}

/// Appends the encoding of `text` to `output`, and answers the part that was added. On a refusal
/// `output` is as it was.
///
/// `encode_single_quoted_attribute_to_string(r#"it's "<b>""#, &mut page)?`
/// appends and answers `it&#x27;s "&lt;b&gt;"`.
#[inline(always)]
pub fn encode_single_quoted_attribute_to_string<'o, A: Allocator>(
    text: &str,
    output: &'o mut String<A>,
) -> Result<&'o str, AllocError>
    ensures part { AnswersPart (string_room output.old)
        (encoding Class.SingleQuotedAttribute text.now) result }
    ensures* appended { sem 𝓛 (StringAppended A.row A.Allocator output.entry
        (encoding Class.SingleQuotedAttribute text.now) result) }
{
    encode_onto_string(output, Class::SingleQuotedAttribute, text)
}

/// Appends the encoding of `text` to `output`, and answers the part that was added. On a refusal
/// `output` is as it was.
///
/// `encode_single_quoted_attribute_to_vec(r#"it's "<b>""#, &mut bytes)?`
/// appends and answers the bytes of `it&#x27;s "&lt;b&gt;"`.
#[inline(always)]
pub fn encode_single_quoted_attribute_to_vec<'o, A: Allocator>(
    text: &str,
    output: &'o mut Vec<u8, A>,
) -> Result<&'o [u8], AllocError>
    ensures part { AnswersPart (vec_room output.old)
        (encoding Class.SingleQuotedAttribute text.now) result }
    ensures* appended { sem 𝓛 (VecAppended A.row A.Allocator output.entry
        (encoding Class.SingleQuotedAttribute text.now) result) }
{
    encode_onto_vec(output, Class::SingleQuotedAttribute, text)
}

/// Writes the encoding of `text` to `output`, or a beginning of it and then the writer's fault.
///
/// `encode_single_quoted_attribute_to_writer(r#"it's "<b>""#, &mut writer)?`
/// writes `it&#x27;s "&lt;b&gt;"`.
pub fn encode_single_quoted_attribute_to_writer<W: Write>(
    text: &str,
    output: &mut W,
) -> Result<(), io::Error>
    ensures { WritesText (W.contents output.old) (W.contents output.new)
        (encoding Class.SingleQuotedAttribute text.now) result }
{
    to_writer(&Escape(Class::SingleQuotedAttribute), text, output)
}

// `encode_quoted_attribute`: `&`, `<`, `>`, `"` and `'` become `&amp;`, `&lt;`, `&gt;`, `&quot;` and
// `&#x27;`.

/// The encoding of `text`. Where nothing changes it is `text` itself, and takes no memory.
///
/// `encode_quoted_attribute(alloc, r#"it's "<b>""#)?` is `it&#x27;s &quot;&lt;b&gt;&quot;`.
#[inline(always)]
pub fn encode_quoted_attribute<'t, A: Allocator>(
    alloc: A,
    text: &'t str,
) -> Result<CowStr<'t, A>, AllocError>
    ensures { AnswersText text.now (encoding Class.QuotedAttribute text.now)
        (html_changes Class.QuotedAttribute text.now 0) result }
{
    encode_to_cow(alloc, Class::QuotedAttribute, text)
}

/// Appends the encoding of `text` to `output`, and answers the part that was added. On a refusal
/// `output` is as it was.
///
/// `encode_quoted_attribute_to_string(r#"it's "<b>""#, &mut page)?`
/// appends and answers `it&#x27;s &quot;&lt;b&gt;&quot;`.
#[inline(always)]
pub fn encode_quoted_attribute_to_string<'o, A: Allocator>(
    text: &str,
    output: &'o mut String<A>,
) -> Result<&'o str, AllocError>
    ensures part { AnswersPart (string_room output.old)
        (encoding Class.QuotedAttribute text.now) result }
    ensures* appended { sem 𝓛 (StringAppended A.row A.Allocator output.entry
        (encoding Class.QuotedAttribute text.now) result) }
{
    encode_onto_string(output, Class::QuotedAttribute, text)
}

/// Appends the encoding of `text` to `output`, and answers the part that was added. On a refusal
/// `output` is as it was.
///
/// `encode_quoted_attribute_to_vec(r#"it's "<b>""#, &mut bytes)?`
/// appends and answers the bytes of `it&#x27;s &quot;&lt;b&gt;&quot;`.
#[inline(always)]
pub fn encode_quoted_attribute_to_vec<'o, A: Allocator>(
    text: &str,
    output: &'o mut Vec<u8, A>,
) -> Result<&'o [u8], AllocError>
    ensures part { AnswersPart (vec_room output.old)
        (encoding Class.QuotedAttribute text.now) result }
    ensures* appended { sem 𝓛 (VecAppended A.row A.Allocator output.entry
        (encoding Class.QuotedAttribute text.now) result) }
{
    encode_onto_vec(output, Class::QuotedAttribute, text)
}

/// Writes the encoding of `text` to `output`, or a beginning of it and then the writer's fault.
///
/// `encode_quoted_attribute_to_writer(r#"it's "<b>""#, &mut writer)?`
/// writes `it&#x27;s &quot;&lt;b&gt;&quot;`.
pub fn encode_quoted_attribute_to_writer<W: Write>(
    text: &str,
    output: &mut W,
) -> Result<(), io::Error>
    ensures { WritesText (W.contents output.old) (W.contents output.new)
        (encoding Class.QuotedAttribute text.now) result }
{
    to_writer(&Escape(Class::QuotedAttribute), text, output)
}

// `encode_safe`: `&`, `<`, `>`, `"`, `'` and `/` become `&amp;`, `&lt;`, `&gt;`, `&quot;`,
// `&#x27;` and `&#x2F;`.

/// The encoding of `text`. Where nothing changes it is `text` itself, and takes no memory.
///
/// `encode_safe(alloc, r#"it's "<b>""#)?` is `it&#x27;s &quot;&lt;b&gt;&quot;`.
#[inline(always)]
pub fn encode_safe<'t, A: Allocator>(alloc: A, text: &'t str) -> Result<CowStr<'t, A>, AllocError>
    ensures { AnswersText text.now (encoding Class.Safe text.now)
        (html_changes Class.Safe text.now 0) result }
{
    encode_to_cow(alloc, Class::Safe, text)
}

/// Appends the encoding of `text` to `output`, and answers the part that was added. On a refusal
/// `output` is as it was.
///
/// `encode_safe_to_string(r#"it's "<b>""#, &mut page)?`
/// appends and answers `it&#x27;s &quot;&lt;b&gt;&quot;`.
#[inline(always)]
pub fn encode_safe_to_string<'o, A: Allocator>(
    text: &str,
    output: &'o mut String<A>,
) -> Result<&'o str, AllocError>
    ensures part { AnswersPart (string_room output.old)
        (encoding Class.Safe text.now) result }
    ensures* appended { sem 𝓛 (StringAppended A.row A.Allocator output.entry
        (encoding Class.Safe text.now) result) }
{
    encode_onto_string(output, Class::Safe, text)
}

/// Appends the encoding of `text` to `output`, and answers the part that was added. On a refusal
/// `output` is as it was.
///
/// `encode_safe_to_vec(r#"it's "<b>""#, &mut bytes)?`
/// appends and answers the bytes of `it&#x27;s &quot;&lt;b&gt;&quot;`.
#[inline(always)]
pub fn encode_safe_to_vec<'o, A: Allocator>(
    text: &str,
    output: &'o mut Vec<u8, A>,
) -> Result<&'o [u8], AllocError>
    ensures part { AnswersPart (vec_room output.old)
        (encoding Class.Safe text.now) result }
    ensures* appended { sem 𝓛 (VecAppended A.row A.Allocator output.entry
        (encoding Class.Safe text.now) result) }
{
    encode_onto_vec(output, Class::Safe, text)
}

/// Writes the encoding of `text` to `output`, or a beginning of it and then the writer's fault.
///
/// `encode_safe_to_writer(r#"it's "<b>""#, &mut writer)?` writes `it&#x27;s &quot;&lt;b&gt;&quot;`.
pub fn encode_safe_to_writer<W: Write>(text: &str, output: &mut W) -> Result<(), io::Error>
    ensures { WritesText (W.contents output.old) (W.contents output.new)
        (encoding Class.Safe text.now) result }
{
    to_writer(&Escape(Class::Safe), text, output)
}

// `encode_unquoted_attribute`: each ASCII character that is no letter or digit becomes a
// reference: `&amp;`, `&lt;`, `&gt;`, `&quot;`, else its number, as `&#x20;`.

/// The encoding of `text`. Where nothing changes it is `text` itself, and takes no memory.
///
/// `encode_unquoted_attribute(alloc, r#"it's "<b>""#)?` is `it&#x27;s&#x20;&quot;&lt;b&gt;&quot;`.
#[inline(always)]
pub fn encode_unquoted_attribute<'t, A: Allocator>(
    alloc: A,
    text: &'t str,
) -> Result<CowStr<'t, A>, AllocError>
    ensures { AnswersText text.now (encoding Class.UnquotedAttribute text.now)
        (html_changes Class.UnquotedAttribute text.now 0) result }
{
    encode_to_cow(alloc, Class::UnquotedAttribute, text)
}

/// Appends the encoding of `text` to `output`, and answers the part that was added. On a refusal
/// `output` is as it was.
///
/// `encode_unquoted_attribute_to_string(r#"it's "<b>""#, &mut page)?`
/// appends and answers `it&#x27;s&#x20;&quot;&lt;b&gt;&quot;`.
#[inline(always)]
pub fn encode_unquoted_attribute_to_string<'o, A: Allocator>(
    text: &str,
    output: &'o mut String<A>,
) -> Result<&'o str, AllocError>
    ensures part { AnswersPart (string_room output.old)
        (encoding Class.UnquotedAttribute text.now) result }
    ensures* appended { sem 𝓛 (StringAppended A.row A.Allocator output.entry
        (encoding Class.UnquotedAttribute text.now) result) }
{
    encode_onto_string(output, Class::UnquotedAttribute, text)
}

/// Appends the encoding of `text` to `output`, and answers the part that was added. On a refusal
/// `output` is as it was.
///
/// `encode_unquoted_attribute_to_vec(r#"it's "<b>""#, &mut bytes)?`
/// appends and answers the bytes of `it&#x27;s&#x20;&quot;&lt;b&gt;&quot;`.
#[inline(always)]
pub fn encode_unquoted_attribute_to_vec<'o, A: Allocator>(
    text: &str,
    output: &'o mut Vec<u8, A>,
) -> Result<&'o [u8], AllocError>
    ensures part { AnswersPart (vec_room output.old)
        (encoding Class.UnquotedAttribute text.now) result }
    ensures* appended { sem 𝓛 (VecAppended A.row A.Allocator output.entry
        (encoding Class.UnquotedAttribute text.now) result) }
{
    encode_onto_vec(output, Class::UnquotedAttribute, text)
}

/// Writes the encoding of `text` to `output`, or a beginning of it and then the writer's fault.
///
/// `encode_unquoted_attribute_to_writer(r#"it's "<b>""#, &mut writer)?`
/// writes `it&#x27;s&#x20;&quot;&lt;b&gt;&quot;`.
pub fn encode_unquoted_attribute_to_writer<W: Write>(
    text: &str,
    output: &mut W,
) -> Result<(), io::Error>
    ensures { WritesText (W.contents output.old) (W.contents output.new)
        (encoding Class.UnquotedAttribute text.now) result }
{
    to_writer(&Escape(Class::UnquotedAttribute), text, output)
}
