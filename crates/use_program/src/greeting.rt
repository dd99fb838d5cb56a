//! A page that greets a guest by name, once as text and once in an attribute.
ghost use Rattle.std.specs.Prelude.{◌≡◌, IfOk};
ghost use Rattle.std.specs.String.{string_bytes};
ghost use Rattle.use_program.specs.Greetings.{greeting_text};

use html_escape::{Encoder, append};
use std::alloc::{AllocError, Global};

/// `<p title="Hello, NAME">Hello, NAME!</p>`, whatever the name holds.
pub(crate) fn greeting(alloc: Global, name: &str) -> Result<String, AllocError>
    ensures { IfOk result (λ page. string_bytes page ≡ greeting_text name.now) }
{
    let mut page = String::from_str(alloc, "<p title=\"Hello, ")?;
    append(&mut page, &Encoder::DoubleQuotedAttribute, name)?;
    page.push_str("\">Hello, ")?;
    append(&mut page, &Encoder::Text, name)?;
    page.push_str("!</p>")?;
    Ok(page)
}
