//! A caller: a table with a row for each of some titled texts.
ghost use Rattle.std.specs.Prelude.{◌≡◌, ◌++◌, IfOk, OnOk};
ghost use Rattle.std.specs.String.{string_bytes};
ghost use Rattle.uses.specs.Pages.Tables.{row_text, table_text};

use html_escape::{Encoder, append};
use std::alloc::{AllocError, Global};

/// A row: what its `title` shows, and its text.
#[derive(Clone, Copy)]
pub struct Row<'r> {
    pub title: &'r str,
    pub text: &'r str,
}

/// `<table>`, the rows, and `</table>`.
pub fn table(alloc: Global, rows: &[Row]) -> Result<String, AllocError>
    ensures { IfOk result (λ page. string_bytes page ≡ table_text rows.now) }
{
    let mut page = String::from_str(alloc, "<table>")?;
    for row in rows {
        append_row(&mut page, *row)?;
    }
    page.push_str("</table>")?;
    Ok(page)
}

/// Appends `<tr title="TITLE"><td>TEXT</td></tr>`.
pub fn append_row(page: &mut String, row: Row) -> Result<(), AllocError>
    ensures { OnOk result
        (string_bytes page.new ≡ string_bytes page.old ++ row_text row.entry) }
{
    page.push_str("<tr title=\"")?;
    append(page, &Encoder::DoubleQuotedAttribute, row.title)?;
    page.push_str("\"><td>")?;
    append(page, &Encoder::Text, row.text)?;
    page.push_str("</td></tr>")?;
    Ok(())
}
