//! The encoding of JSON in each form: a text that borrows where nothing changes, appended to a string or a
//! vector, or written.
ghost use Rattle.std.specs.Prelude.{◌≡◌, drop};
ghost use Rattle.std.specs.Borrow.{sem};
ghost use Rattle.std.specs.Str.{IsCharBoundary};
ghost use Rattle.std.specs.String.{string_bytes};
ghost use Rattle.hesc_engine.specs.Forms.{AnswersPart, AnswersText, StringAppended, VecAppended, WritesText, string_room, vec_room};
ghost use Rattle.html_json.specs.Encoding.{json_changes, json_encoding};

use crate::encode::EncodeJson;
use hesc_engine::forms::{append_to_string, append_to_vec, to_cow, to_writer};
use std::alloc::{AllocError, Allocator};
use std::borrow::CowStr;
use std::io::{self, Write};

/// The encoding of `text`. Where nothing changes it is `text` itself, and takes no memory.
///
/// `encode_json(alloc, "[\"</script>\"]")?` is `["\u003C/script>"]`.
pub fn encode_json<'t, A: Allocator>(alloc: A, text: &'t str) -> Result<CowStr<'t, A>, AllocError>
    ensures { AnswersText text.now (json_encoding text.now) (json_changes text.now 0) result }
{
    to_cow(alloc, &EncodeJson, text)
}

/// Appends the encoding of `text`, and answers the part that was added. On a refusal `output` is as it was.
///
/// `append_json(&mut page, "\"<\"")?` appends and answers `"\u003C"`.
pub fn append_json<'o, A: Allocator>(
    output: &'o mut String<A>,
    text: &str,
) -> Result<&'o str, AllocError>
    ensures part { AnswersPart (string_room output.old) (json_encoding text.now) result }
    ensures* appended { sem 𝓛 (StringAppended A.row A.Allocator output.entry
        (json_encoding text.now) result) }
{
    let start = output.as_str().len();
    append_to_string(output, &EncodeJson, text)?;
    Ok(part_from(output, start))
}

fn part_from<A: Allocator>(output: &String<A>, start: usize) -> &str
    requires { IsCharBoundary (string_bytes output.now) start }
    ensures { result.now ≡ drop start (string_bytes output.now) }
{
    &output.as_str()[start..]
}

/// The same for a vector of bytes.
///
/// `append_json_to_vec(&mut bytes, "\"<\"")?` appends and answers the bytes of `"\u003C"`.
pub fn append_json_to_vec<'o, A: Allocator>(
    output: &'o mut Vec<u8, A>,
    text: &str,
) -> Result<&'o [u8], AllocError>
    ensures part { AnswersPart (vec_room output.old) (json_encoding text.now) result }
    ensures* appended { sem 𝓛 (VecAppended A.row A.Allocator output.entry
        (json_encoding text.now) result) }
{
    let start = output.len();
    append_to_vec(output, &EncodeJson, text)?;
    Ok(&output.as_slice()[start..])
}

/// [`append_json`] with the output last, as in the encoders: a caller's proof learns the answered part, and
/// nothing of `output` afterwards.
///
/// `encode_json_to_string("\"<\"", &mut page)?` appends and answers `"\u003C"`.
pub fn encode_json_to_string<'o, A: Allocator>(
    text: &str,
    output: &'o mut String<A>,
) -> Result<&'o str, AllocError>
    ensures part { AnswersPart (string_room output.old) (json_encoding text.now) result }
    ensures* appended { sem 𝓛 (StringAppended A.row A.Allocator output.entry
        (json_encoding text.now) result) }
{
    append_json(output, text)
}

/// The same for a vector of bytes.
///
/// `encode_json_to_vec("\"<\"", &mut bytes)?` appends and answers the bytes of `"\u003C"`.
pub fn encode_json_to_vec<'o, A: Allocator>(
    text: &str,
    output: &'o mut Vec<u8, A>,
) -> Result<&'o [u8], AllocError>
    ensures part { AnswersPart (vec_room output.old) (json_encoding text.now) result }
    ensures* appended { sem 𝓛 (VecAppended A.row A.Allocator output.entry
        (json_encoding text.now) result) }
{
    append_json_to_vec(output, text)
}

/// Writes the encoding of `text` to `output`, or a beginning of it and then the writer's fault. It takes no
/// memory and never flushes.
///
/// `encode_json_to_writer("\"<\"", &mut writer)?` writes `"\u003C"`.
pub fn encode_json_to_writer<W: Write>(text: &str, output: &mut W) -> Result<(), io::Error>
    ensures { WritesText (W.contents output.old) (W.contents output.new)
        (json_encoding text.now) result }
{
    to_writer(&EncodeJson, text, output)
}
