//! The decoding of references, in four forms, and the same by a table that is handed in.
ghost use Rattle.std.specs.Borrow.{sem};
ghost use Rattle.hesc_specs.specs.References.Changes.{reference_changes};
ghost use Rattle.hesc_specs.specs.References.Decoding.{decoded};
ghost use Rattle.hesc_engine.specs.Forms.{AnswersPart, AnswersText, StringAppended, VecAppended, WritesText, string_room, vec_room};
ghost use Rattle.hesc_table.specs.NamedRows.{named_rows};
ghost use Rattle.hesc_table.specs.Table.{rows_of};

use hesc_core::EntityTable;
use hesc_core::forms::{onto_string, onto_vec, to_cow, to_writer};
use hesc_core::rules::References;
use std::alloc::{AllocError, Allocator};
use std::borrow::CowStr;
use std::io::{self, Write};

// `decode_html_entities`: each reference that has a value by the built-in table becomes it.

/// `text` decoded. Where no reference has a value it is `text` itself, and takes no memory.
///
/// `decode_html_entities(alloc, "Hello&#x20;world&#x21;")?` is `Hello world!`.
#[inline(always)]
pub fn decode_html_entities<'t, A: Allocator>(
    alloc: A,
    text: &'t str,
) -> Result<CowStr<'t, A>, AllocError>
    ensures { AnswersText text.now (decoded named_rows text.now)
        (reference_changes named_rows text.now 0) result }
{
    to_cow(alloc, &References(&EntityTable::built_in()), text)
}

/// Appends `text` decoded to `output`, and answers the part that was added. On a refusal
/// `output` is as it was.
///
/// `decode_html_entities_to_string("Hello&#x20;world&#x21;", &mut page)?`
/// appends and answers `Hello world!`.
#[inline(always)]
pub fn decode_html_entities_to_string<'o, A: Allocator>(
    text: &str,
    output: &'o mut String<A>,
) -> Result<&'o str, AllocError>
    ensures part { AnswersPart (string_room output.old)
        (decoded named_rows text.now) result }
    ensures* appended { sem 𝓛 (StringAppended A.row A.Allocator output.entry
        (decoded named_rows text.now) result) }
{
    decode_html_entities_onto_string(output, text)
}

/// Appends `text` decoded to `output`, and answers the part that was added. On a refusal
/// `output` is as it was.
///
/// `decode_html_entities_to_vec("Hello&#x20;world&#x21;", &mut bytes)?`
/// appends and answers the bytes of `Hello world!`.
#[inline(always)]
pub fn decode_html_entities_to_vec<'o, A: Allocator>(
    text: &str,
    output: &'o mut Vec<u8, A>,
) -> Result<&'o [u8], AllocError>
    ensures part { AnswersPart (vec_room output.old)
        (decoded named_rows text.now) result }
    ensures* appended { sem 𝓛 (VecAppended A.row A.Allocator output.entry
        (decoded named_rows text.now) result) }
{
    decode_html_entities_onto_vec(output, text)
}

/// Writes `text` decoded to `output`, or a beginning of it and then the writer's fault.
///
/// `decode_html_entities_to_writer("Hello&#x20;world&#x21;", &mut writer)?` writes `Hello world!`.
pub fn decode_html_entities_to_writer<W: Write>(text: &str, output: &mut W) -> Result<(), io::Error>
    ensures { WritesText (W.contents output.old) (W.contents output.new)
        (decoded named_rows text.now) result }
{
    to_writer(&References(&EntityTable::built_in()), text, output)
}

#[inline(always)]
fn decode_html_entities_onto_string<'o, A: Allocator>(
    output: &'o mut String<A>,
    text: &str,
) -> Result<&'o str, AllocError>
    ensures part { AnswersPart (string_room output.old)
        (decoded named_rows text.now) result }
    ensures* appended { sem 𝓛 (StringAppended A.row A.Allocator output.entry
        (decoded named_rows text.now) result) }
{
    onto_string(output, &References(&EntityTable::built_in()), text)
}

#[inline(always)]
fn decode_html_entities_onto_vec<'o, A: Allocator>(
    output: &'o mut Vec<u8, A>,
    text: &str,
) -> Result<&'o [u8], AllocError>
    ensures part { AnswersPart (vec_room output.old)
        (decoded named_rows text.now) result }
    ensures* appended { sem 𝓛 (VecAppended A.row A.Allocator output.entry
        (decoded named_rows text.now) result) }
{
    onto_vec(output, &References(&EntityTable::built_in()), text)
}

// `decode_html_entities_with`: each reference that has a value by a given table becomes it.

/// `text` decoded by the table. Where no reference has a value it is `text` itself, and takes no
/// memory.
///
/// `decode_html_entities_with(alloc, &table, "&amp;lt;&AMP;&Amp;&copy;")?` is `&lt;&&Amp;©`.
#[inline(always)]
pub fn decode_html_entities_with<'t, A: Allocator>(
    alloc: A,
    table: &EntityTable<'_>,
    text: &'t str,
) -> Result<CowStr<'t, A>, AllocError>
    ensures { AnswersText text.now (decoded (rows_of table.now) text.now)
        (reference_changes (rows_of table.now) text.now 0) result }
{
    to_cow(alloc, &References(table), text)
}

/// Appends `text` decoded by the table to `output`, and answers the part that was added. On a
/// refusal `output` is as it was.
///
/// `decode_html_entities_with_to_string(&table, "&amp;lt;&AMP;&Amp;&copy;", &mut page)?`
/// appends and answers `&lt;&&Amp;©`.
#[inline(always)]
pub fn decode_html_entities_with_to_string<'o, A: Allocator>(
    table: &EntityTable<'_>,
    text: &str,
    output: &'o mut String<A>,
) -> Result<&'o str, AllocError>
    ensures part { AnswersPart (string_room output.old)
        (decoded (rows_of table.now) text.now) result }
    ensures* appended { sem 𝓛 (StringAppended A.row A.Allocator output.entry
        (decoded (rows_of table.now) text.now) result) }
{
    decode_html_entities_with_onto_string(output, table, text)
}

/// Appends `text` decoded by the table to `output`, and answers the part that was added. On a
/// refusal `output` is as it was.
///
/// `decode_html_entities_with_to_vec(&table, "&amp;lt;&AMP;&Amp;&copy;", &mut bytes)?`
/// appends and answers the bytes of `&lt;&&Amp;©`.
#[inline(always)]
pub fn decode_html_entities_with_to_vec<'o, A: Allocator>(
    table: &EntityTable<'_>,
    text: &str,
    output: &'o mut Vec<u8, A>,
) -> Result<&'o [u8], AllocError>
    ensures part { AnswersPart (vec_room output.old)
        (decoded (rows_of table.now) text.now) result }
    ensures* appended { sem 𝓛 (VecAppended A.row A.Allocator output.entry
        (decoded (rows_of table.now) text.now) result) }
{
    decode_html_entities_with_onto_vec(output, table, text)
}

/// Writes `text` decoded by the table to `output`, or a beginning of it and then the writer's
/// fault.
///
/// `decode_html_entities_with_to_writer(&table, "&amp;lt;&AMP;&Amp;&copy;", &mut writer)?`
/// writes `&lt;&&Amp;©`.
pub fn decode_html_entities_with_to_writer<W: Write>(
    table: &EntityTable<'_>,
    text: &str,
    output: &mut W,
) -> Result<(), io::Error>
    ensures { WritesText (W.contents output.old) (W.contents output.new)
        (decoded (rows_of table.now) text.now) result }
{
    to_writer(&References(table), text, output)
}

// The table is lent again, since the answer borrows from `output` alone.
#[inline(always)]
fn decode_html_entities_with_onto_string<'o, A: Allocator>(
    output: &'o mut String<A>,
    table: &EntityTable<'_>,
    text: &str,
) -> Result<&'o str, AllocError>
    ensures part { AnswersPart (string_room output.old)
        (decoded (rows_of table.now) text.now) result }
    ensures* appended { sem 𝓛 (StringAppended A.row A.Allocator output.entry
        (decoded (rows_of table.now) text.now) result) }
{
    onto_string(output, &References(&*table), text)
}

// The table is lent again, since the answer borrows from `output` alone.
#[inline(always)]
fn decode_html_entities_with_onto_vec<'o, A: Allocator>(
    output: &'o mut Vec<u8, A>,
    table: &EntityTable<'_>,
    text: &str,
) -> Result<&'o [u8], AllocError>
    ensures part { AnswersPart (vec_room output.old)
        (decoded (rows_of table.now) text.now) result }
    ensures* appended { sem 𝓛 (VecAppended A.row A.Allocator output.entry
        (decoded (rows_of table.now) text.now) result) }
{
    onto_vec(output, &References(&*table), text)
}
