//! The page of three texts, or the reason why it is not built.
ghost use Rattle.std.specs.Prelude.{◌≡◌, ◌≢◌, ◌≤◌, ◌↔◌, [], length, IfOk, IsErrOf, IsOk, OnOk};
ghost use Rattle.std.specs.Borrow.{sem};
ghost use Rattle.std.specs.String.{string_bytes};
ghost use Rattle.hesc_engine.specs.Forms.{Appended, StringAppended, string_room};
ghost use Rattle.hesc_places.specs.Pages.PageTexts.{IsReadAsPage, page_text};
ghost use Rattle.hesc_places.specs.declared.place.enclosing.PlaceFault.TheVariants.{EmptyUnquoted, NotForPlace};

use crate::markup::form_text::FormText;
use crate::markup::types::{Attribute, Quoting};
use crate::place::enclosing::PlaceFault;
use hesc_core::forms::append_parts;
use std::alloc::Allocator;

/// Appends a page: an input whose value is `a`, unquoted, and whose placeholder is `b`, in double
/// quotes, and a script that hands `c` to `alert`. It answers that part. On a fault `output` is as it
/// was: `EmptyUnquoted` exactly where `a` is empty, else `Memory`.
///
/// By [`page_law`](crate::laws::page_law) the part is read back, whatever follows it.
///
/// Of `a`, `b` and `c` it is `<input value=a placeholder="b"/><script>alert('c');</script>`.
pub fn build_page<'o, A: Allocator>(
    a: &str,
    b: &str,
    c: &str,
    output: &'o mut String<A>,
) -> Result<&'o str, PlaceFault>
    ensures part { IfOk result (λ part. part.now ≡ page_text a.now b.now c.now) }
    ensures read { IfOk result (λ part. IsReadAsPage a.now b.now c.now part.now) }
    ensures* appended { sem 𝓛 (StringAppended A.row A.Allocator output.entry
        (page_text a.now b.now c.now) result) }

    ensures empty_unquoted { IsErrOf result EmptyUnquoted ↔ (a.now ≡ []) }
    ensures suits { IsErrOf result NotForPlace → ⊥ }
    ensures fits { length a.now ≢ 0
        → length (page_text a.now b.now c.now) ≤ string_room output.old → IsOk result }
{
    append_page(output, a, b, c)
}

/// [`build_page`] with the output first: a caller's proof learns the answered part, and all of what
/// `output` holds afterwards.
///
/// Of `a`, `b` and `c` it is `<input value=a placeholder="b"/><script>alert('c');</script>`.
pub fn append_page<'o, A: Allocator>(
    output: &'o mut String<A>,
    a: &str,
    b: &str,
    c: &str,
) -> Result<&'o str, PlaceFault>
    ensures part { IfOk result (λ part. part.now ≡ page_text a.now b.now c.now) }
    ensures read { IfOk result (λ part. IsReadAsPage a.now b.now c.now part.now) }
    ensures* appended { sem 𝓛 (StringAppended A.row A.Allocator output.entry
        (page_text a.now b.now c.now) result) }

    ensures empty_unquoted { IsErrOf result EmptyUnquoted ↔ (a.now ≡ []) }
    ensures suits { IsErrOf result NotForPlace → ⊥ }
    ensures fits { length a.now ≢ 0
        → length (page_text a.now b.now c.now) ≤ string_room output.old → IsOk result }
{
    let start = output.as_str().len();
    add_page(output, a, b, c)?;
    Ok(&output.as_str()[start..])
}

// Appends, and answers nothing.
fn add_page<A: Allocator>(
    output: &mut String<A>,
    a: &str,
    b: &str,
    c: &str,
) -> Result<(), PlaceFault>
    ensures appended { Appended (string_bytes output.old) (string_bytes output.new)
        (page_text a.now b.now c.now) result }
    ensures read { OnOk result
        (IsReadAsPage a.now b.now c.now (page_text a.now b.now c.now)) }

    ensures empty_unquoted { IsErrOf result EmptyUnquoted ↔ (a.now ≡ []) }
    ensures suits { IsErrOf result NotForPlace → ⊥ }
    ensures fits { length a.now ≢ 0
        → length (page_text a.now b.now c.now) ≤ string_room output.old → IsOk result }
{
    if a.is_empty() {
        return Err(PlaceFault::EmptyUnquoted);
    }
    let attributes = [
        Attribute {
            name: "value",
            quoting: Quoting::Unquoted,
            value: a,
        },
        Attribute {
            name: "placeholder",
            quoting: Quoting::Double,
            value: b,
        },
    ];
    let form = FormText {
        attributes: &attributes,
        script: c,
    };
    append_parts(output, &form)?;
    Ok(())
}
