//! The page of pieces and texts, as parts that are put.
ghost use Rattle.std.specs.Prelude.{◌≡◌, [], ◌<◌, ◌^◌, length, map, IfSome, IsSome};
ghost use Rattle.std.specs.List.{list_all};
ghost use Rattle.hesc_specs.specs.Text.Escaped.{escaped};
ghost use Rattle.hesc_sinks.specs.Took.{Took};
ghost use Rattle.hesc_engine.specs.Forms.{WritesText};
ghost use Rattle.html_template.specs.Slots.{in_quotes, json_of};
ghost use Rattle.html_template.specs.Templates.{chunk_of, page, written};
ghost use Rattle.html_tokenizer.specs.Tokenizer.Code.Scripts.{is_json_space};

use crate::fill::total_length;
use crate::parts::SlotKind;
use crate::stored::{Stored, StoredMarkup, StoredSlot};
use crate::texts::Texts;
use hesc_core::forms::Parts;
use hesc_core::forms::measure::total;
use hesc_core::rules::Escape;
use hesc_core::{Class, CountOverflow, Rule, Sink};
use hesc_engine::WriterSink;
use hesc_engine::engine::run_made;
use hesc_engine::forms::made::Made;
use html_json::{json_length, put_json};
use html_tokenizer::is_json_space;
use html_urls::{component_length_at, put_component_at};
use std::io::{self, Write};

/// The page of these texts. Whether they fill the pieces is the caller's to know.
#[derive(Clone, Copy)]
pub struct Page<'p, T: Texts> {
    pub pieces: &'p [Stored<'p>],
    pub texts: T,
    /// About the length of all markup, in bytes.
    pub markup: usize,
}

impl<T: Texts> Parts for Page<'_, T> {
    ghost text = { λ parts. page (map chunk_of parts.pieces.now) (T.list parts.texts) };

    // The texts may outgrow the room after all.
    ghost known_length = { λ parts. parts.markup };

    fn put_into<S: Sink>(&self, sink: &mut S) -> Result<(), S::Fault> {
        put_pieces(self.pieces, &self.texts, sink)
    }

    // Counted by lanes, in place of writing each text twice.
    fn room_for(&self, spare: usize) -> Result<usize, CountOverflow> {
        let _spare = spare;
        page_length(self.pieces, &self.texts).ok_or(CountOverflow)
    }

    // A page that is made again and again mostly fits, and its texts are not summed up.
    #[inline(always)]
    fn may_fit(&self, spare: usize) -> bool {
        self.markup < spare
    }

    // A page has few bytes more than its markup and its texts.
    #[inline(always)]
    fn about(&self) -> Option<usize> {
        Some(self.markup.saturating_add(total_length(&self.texts)))
    }
}

/// Writes the page, or a beginning of it and then the writer's fault.
pub fn write_page<T: Texts, W: Write>(output: &mut W, made: &Page<'_, T>) -> Result<(), io::Error>
    ensures { WritesText (W.contents output.old) (W.contents output.new)
        (page (map chunk_of made.now.pieces.now) (T.list made.now.texts)) result }
{
    let mut sink = WriterSink::new(output);
    let outcome = put_pieces(made.pieces, &made.texts, &mut sink);
    let _output = sink.into_output();
    outcome
}

fn page_length<T: Texts>(pieces: &[Stored], texts: &T) -> Option<usize>
    ensures count { IfSome result (λ count. count
        ≡ length (page (map chunk_of pieces.now) (T.list texts.now))) }
    ensures fits { length (page (map chunk_of pieces.now) (T.list texts.now)) < 2 ^ 64
        → IsSome result }
{
    let mut count: usize = 0;
    let mut rest = pieces;
    let mut left = *texts;
    'pieces: while let [piece, others @ ..] = rest {
        rest = others;
        let slot = match piece {
            Stored::Markup(markup) => {
                count = count.checked_add(markup.text.len())?;
                continue 'pieces;
            }
            Stored::Slot(slot) => slot,
        };
        let Some((text, more)) = left.take_first() else {
            continue 'pieces;
        };
        count = count.checked_add(text_length(slot, text)?)?;
        left = more;
    }
    Some(count)
}

// The length of what is written for the text.
fn text_length(slot: &StoredSlot, text: &str) -> Option<usize>
    ensures count { IfSome result (λ count. count
        ≡ length (written slot.now.place slot.now.kind text.now)) }
    ensures fits { length (written slot.now.place slot.now.kind text.now) < 2 ^ 64 → IsSome result }
{
    match slot.kind {
        SlotKind::UrlPart(part) => component_length_at(part.place, text),
        SlotKind::Literal => total(&Escape(slot.class), text)?.checked_add(2),
        SlotKind::Json => json_length(json_of(text)),
        SlotKind::Text
        | SlotKind::Link
        | SlotKind::OwnPath
        | SlotKind::Base(_)
        | SlotKind::OwnBase(_)
        | SlotKind::StyleValue => total(&Escape(slot.class), text),
    }
}

fn put_pieces<T: Texts, S: Sink>(pieces: &[Stored], texts: &T, sink: &mut S) -> Result<(), S::Fault>
    ensures { Took (S.seen sink.old) (S.seen sink.new)
        (page (map chunk_of pieces.now) (T.list texts.now)) result }
{
    let mut rest = pieces;
    let mut left = *texts;
    'pieces: while let [piece, others @ ..] = rest {
        rest = others;
        match piece {
            Stored::Markup(markup) => put_markup(markup, sink)?,
            Stored::Slot(slot) => {
                let Some((text, more)) = left.take_first() else {
                    continue 'pieces;
                };
                put_text(slot, text, sink)?;
                left = more;
            }
        }
    }
    Ok(())
}

/// Puts markup, or a beginning of it.
///
/// Of `<p>` it puts `<p>`.
#[inline(always)]
pub fn put_markup<S: Sink>(markup: &StoredMarkup<'_>, sink: &mut S) -> Result<(), S::Fault>
    ensures { Took (S.seen sink.old) (S.seen sink.new) markup.now.text.now result }
{
    match markup.as_stretch() {
        Some(segment) => sink.put_stretch(segment),
        None => sink.put(markup.text),
    }
}

/// Puts what is written for the text of a slot, or a beginning of it. Whether it may fill the slot is the
/// caller's to know.
///
/// Of `a<b` in text it puts `a&lt;b`.
#[inline(always)]
pub fn put_text<S: Sink>(slot: &StoredSlot, text: &str, sink: &mut S) -> Result<(), S::Fault>
    ensures { Took (S.seen sink.old) (S.seen sink.new)
        (written slot.now.place slot.now.kind text.now) result }
{
    match slot.kind {
        SlotKind::Text => put_escaped(slot.class, text, sink),
        _ => put_kind(slot, text, sink),
    }
}

// The same of a slot of any kind. It is called, so that a text that is escaped makes no room for the others.
#[inline(never)]
fn put_kind<S: Sink>(slot: &StoredSlot, text: &str, sink: &mut S) -> Result<(), S::Fault>
    ensures { Took (S.seen sink.old) (S.seen sink.new)
        (written slot.now.place slot.now.kind text.now) result }
{
    match slot.kind {
        SlotKind::UrlPart(part) => put_component_at(part.place, text, sink),
        SlotKind::Literal => put_literal(slot.class, text, sink),
        SlotKind::Json => put_json(json_of(text), sink),
        _ => put_escaped(slot.class, text, sink),
    }
}

// The JSON that stands for a text: the text itself, and `null` for white space alone, which is no JSON.
fn json_of(text: &str) -> &str
    ensures { result.now ≡ json_of text.now }
{
    if is_blank(text.as_bytes()) {
        "null"
    } else {
        text
    }
}

fn is_blank(bytes: &[u8]) -> bool
    ensures { result ≡ list_all is_json_space bytes.now }
{
    let mut rest = bytes;
    'bytes: while let [byte, others @ ..] = rest {
        if !is_json_space(*byte) {
            return false;
        }
        rest = others;
    }
    true
}

// Puts what the encoder of the class makes of a text, between two `"`.
fn put_literal<S: Sink>(class: Class, text: &str, sink: &mut S) -> Result<(), S::Fault>
    ensures { Took (S.seen sink.old) (S.seen sink.new) (in_quotes (escaped class text.now)) result }
{
    sink.put("\"")?;
    put_escaped(class, text, sink)?;
    sink.put("\"")
}

// Puts what the encoder of the class makes of a text. Most texts stay as they are.
#[inline(always)]
fn put_escaped<S: Sink>(class: Class, text: &str, sink: &mut S) -> Result<(), S::Fault>
    ensures { Took (S.seen sink.old) (S.seen sink.new) (escaped class text.now) result }
{
    let rule = Escape(class);
    match Made::of(&rule, text) {
        Some(made) => run_made(&made, sink),
        None => put_kept(&rule, text, sink),
    }
}

// Puts a text that the rule leaves as it is.
#[inline(always)]
fn put_kept<R: Rule, S: Sink>(rule: &R, text: &str, sink: &mut S) -> Result<(), S::Fault>
    requires { R.changes_from rule.now text.now 0 ≡ [] }
    ensures { Took (S.seen sink.old) (S.seen sink.new) (R.made rule.now text.now) result }
{
    let _rule = rule;
    sink.put(text)
}
