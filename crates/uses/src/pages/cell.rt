//! A caller: a cell of a table, with a title. Neither text can leave its place, and the checker
//! knows every byte of the cell with no proof file.
ghost use Rattle.std.specs.Prelude.{◌≡◌, IfOk};
ghost use Rattle.std.specs.String.{string_bytes};
ghost use Rattle.uses.specs.Pages.Cells.{cell_text};

use html_escape::{Encoder, append};
use std::alloc::{AllocError, Global};

/// `<td title="TITLE">TEXT</td>`.
pub fn cell(alloc: Global, title: &str, text: &str) -> Result<String, AllocError>
    ensures { IfOk result (λ cell. string_bytes cell ≡ cell_text title.now text.now) }
{
    let mut cell = String::from_str(alloc, "<td title=\"")?;
    append(&mut cell, &Encoder::DoubleQuotedAttribute, title)?;
    cell.push_str("\">")?;
    append(&mut cell, &Encoder::Text, text)?;
    cell.push_str("</td>")?;
    Ok(cell)
}
