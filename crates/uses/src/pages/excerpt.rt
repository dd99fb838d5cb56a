//! A caller: an excerpt of a stranger's text, cut between two characters and then encoded.
ghost use Rattle.std.specs.Prelude.{◌≡◌, IfOk};
ghost use Rattle.std.specs.String.{string_bytes};
ghost use Rattle.uses.specs.Pages.Excerpts.{IsExcerpt};

use html_escape::{Encoder, append};
use std::alloc::{AllocError, Global};

/// As many whole characters of the text as have at most `most` bytes, encoded, and `...` if more
/// follow.
pub fn excerpt(alloc: Global, text: &str, most: usize) -> Result<String, AllocError>
    ensures { IfOk result (λ excerpt. IsExcerpt text.now most (string_bytes excerpt)) }
{
    let cut = text.floor_char_boundary(most);
    let (shown, _left_out) = text.split_at(cut);
    let mut excerpt = String::new(alloc);
    append(&mut excerpt, &Encoder::Text, shown)?;
    if cut == text.len() {
        return Ok(excerpt);
    }
    excerpt.push_str("...")?;
    Ok(excerpt)
}
