//! A page of twenty slots, which is made again and again: by one template, and by hand.
ghost use Rattle.std.specs.Prelude.{◌≡◌, ◌++◌, ◌<◌, [], IfOk, IfSome, OnOk, map};
ghost use Rattle.std.specs.String.{string_bytes};
ghost use Rattle.html_template.specs.Structure.{IsPageOf};
ghost use Rattle.html_template.specs.TemplatePieces.{pieces_of};
ghost use Rattle.html_template.specs.Templates.{part_of, texts_of};
ghost use Rattle.hesc_speed.specs.Slots.{row_of, rows_of, twenty_slots};

use html_escape::{Encoder, append};
use html_template::{FillFault, Part, Template, TemplateFault};
use std::alloc::{AllocError, Global};

/// The page after so many turns, each of which makes it by the template: in the string of the turn
/// before, which is cleared, or in a new one.
pub(crate) fn by_template(
    alloc: Global,
    is_kept: bool,
    times: usize,
    texts: &[&str],
) -> Option<String>
    ensures { IfSome result
        (λ page. 0 < times → IsPageOf twenty_slots (texts_of texts.now) (string_bytes page)) }
{
    let template = template(alloc).ok()?;
    let mut page = String::new(alloc);
    for _ in 0..times {
        page = emptied(alloc, is_kept, page);
        append_by_template(&template, texts, &mut page).ok()?;
    }
    Some(page)
}

/// The same by hand.
pub(crate) fn by_hand(alloc: Global, is_kept: bool, times: usize, texts: &[&str]) -> Option<String>
    ensures { IfSome result (λ page. 0 < times → string_bytes page ≡ rows_of (texts_of texts.now)) }
{
    let mut page = String::new(alloc);
    for _ in 0..times {
        page = emptied(alloc, is_kept, page);
        append_by_hand(texts, &mut page).ok()?;
    }
    Some(page)
}

// The string with nothing in it, or a new one.
#[inline(always)]
fn emptied(alloc: Global, is_kept: bool, page: String) -> String
    ensures { string_bytes result ≡ [] }
{
    if !is_kept {
        return String::new(alloc);
    }
    let mut page = page;
    page.clear();
    page
}

// Ten rows, each with a slot in an attribute's value and one in text.
fn template(alloc: Global) -> Result<Template<'static>, TemplateFault>
    ensures { IfOk result (λ template. map part_of (pieces_of template) ≡ twenty_slots) }
{
    let parts = [
        Part::Markup("<p title=\""),
        Part::Slot,
        Part::Markup("\">"),
        Part::Slot,
        Part::Markup("</p><p title=\""),
        Part::Slot,
        Part::Markup("\">"),
        Part::Slot,
        Part::Markup("</p><p title=\""),
        Part::Slot,
        Part::Markup("\">"),
        Part::Slot,
        Part::Markup("</p><p title=\""),
        Part::Slot,
        Part::Markup("\">"),
        Part::Slot,
        Part::Markup("</p><p title=\""),
        Part::Slot,
        Part::Markup("\">"),
        Part::Slot,
        Part::Markup("</p><p title=\""),
        Part::Slot,
        Part::Markup("\">"),
        Part::Slot,
        Part::Markup("</p><p title=\""),
        Part::Slot,
        Part::Markup("\">"),
        Part::Slot,
        Part::Markup("</p><p title=\""),
        Part::Slot,
        Part::Markup("\">"),
        Part::Slot,
        Part::Markup("</p><p title=\""),
        Part::Slot,
        Part::Markup("\">"),
        Part::Slot,
        Part::Markup("</p><p title=\""),
        Part::Slot,
        Part::Markup("\">"),
        Part::Slot,
        Part::Markup("</p>"),
    ];
    Template::new(alloc, &parts)
}

#[inline(never)]
fn append_by_template(
    template: &Template,
    texts: &[&str],
    page: &mut String,
) -> Result<(), FillFault>
    requires parts { map part_of (pieces_of template.now) ≡ twenty_slots }
    requires empty { string_bytes page.old ≡ [] }
    ensures { OnOk result (IsPageOf twenty_slots (texts_of texts.now) (string_bytes page.new)) }
{
    template.append(page, texts)
}

#[inline(never)]
fn append_by_hand(texts: &[&str], page: &mut String) -> Result<(), AllocError>
    ensures { OnOk result
        (string_bytes page.new ≡ string_bytes page.old ++ rows_of (texts_of texts.now)) }
{
    let mut rest = texts;
    'rows: while let [title, text, others @ ..] = rest {
        rest = others;
        append_row(*title, *text, page)?;
    }
    Ok(())
}

#[inline(always)]
fn append_row(title: &str, text: &str, page: &mut String) -> Result<(), AllocError>
    ensures { OnOk result
        (string_bytes page.new ≡ string_bytes page.old ++ row_of title.now text.now) }
{
    page.push_str("<p title=\"")?;
    let _title = append(page, &Encoder::DoubleQuotedAttribute, title)?;
    page.push_str("\">")?;
    let _text = append(page, &Encoder::Text, text)?;
    page.push_str("</p>")
}
