//! The form of any attributes, or the reason why it is not built.
ghost use Rattle.std.specs.Prelude.{◌≡◌, ◌≤◌, length, map, IfOk, IsOk, OnOk};
ghost use Rattle.std.specs.Borrow.{sem};
ghost use Rattle.std.specs.String.{string_bytes};
ghost use Rattle.hesc_engine.specs.Forms.{Appended, StringAppended, string_room};
ghost use Rattle.hesc_places.specs.Pages.FormFaults.{AnswersFormFault};
ghost use Rattle.hesc_places.specs.Pages.FormTexts.{AreGood, IsReadAsForm, form_text, written};

use crate::markup::attribute_checks::first_fault;
use crate::markup::form_text::FormText;
use crate::markup::types::{Attribute, FormFault};
use hesc_core::forms::append_parts;
use std::alloc::Allocator;

/// Appends a form: an input with these attributes, in order, and a script that hands `script` to
/// `alert`. It answers that part. On a fault, the first of [`FormFault`], `output` is as it was.
///
/// The attributes are good exactly where none of them has a fault
/// ([`good_attributes_law`](crate::laws::good_attributes_law)), and then by
/// [`form_law`](crate::laws::form_law) the part is read back, whatever follows it.
///
/// With the attribute `value`, unquoted, of value `a b`, and the script string `x`, it is
/// `<input value=a&#x20;b /><script>alert('x');</script>`.
pub fn build_form<'o, A: Allocator>(
    attributes: &[Attribute],
    script: &str,
    output: &'o mut String<A>,
) -> Result<&'o str, FormFault>
    ensures part { IfOk result
        (λ part. part.now ≡ form_text (map written attributes.now) script.now) }
    ensures read { IfOk result
        (λ part. IsReadAsForm (map written attributes.now) script.now part.now) }
    ensures* appended { sem 𝓛 (StringAppended A.row A.Allocator output.entry
        (form_text (map written attributes.now) script.now) result) }

    ensures faults { AnswersFormFault (map written attributes.now) result }
    ensures good { IsOk result → AreGood (map written attributes.now) }
    ensures fits { AreGood (map written attributes.now)
        → length (form_text (map written attributes.now) script.now) ≤ string_room output.old
        → IsOk result }
{
    append_form(output, attributes, script)
}

/// [`build_form`] with the output first: a caller's proof learns the answered part, and all of what
/// `output` holds afterwards.
///
/// With the attribute `value`, unquoted, of value `a b`, and the script string `x`, it is
/// `<input value=a&#x20;b /><script>alert('x');</script>`.
pub fn append_form<'o, A: Allocator>(
    output: &'o mut String<A>,
    attributes: &[Attribute],
    script: &str,
) -> Result<&'o str, FormFault>
    ensures part { IfOk result
        (λ part. part.now ≡ form_text (map written attributes.now) script.now) }
    ensures read { IfOk result
        (λ part. IsReadAsForm (map written attributes.now) script.now part.now) }
    ensures* appended { sem 𝓛 (StringAppended A.row A.Allocator output.entry
        (form_text (map written attributes.now) script.now) result) }

    ensures faults { AnswersFormFault (map written attributes.now) result }
    ensures good { IsOk result → AreGood (map written attributes.now) }
    ensures fits { AreGood (map written attributes.now)
        → length (form_text (map written attributes.now) script.now) ≤ string_room output.old
        → IsOk result }
{
    let start = output.as_str().len();
    add_form(output, attributes, script)?;
    Ok(&output.as_str()[start..])
}

// Appends, and answers nothing.
fn add_form<A: Allocator>(
    output: &mut String<A>,
    attributes: &[Attribute],
    script: &str,
) -> Result<(), FormFault>
    ensures appended { Appended (string_bytes output.old) (string_bytes output.new)
        (form_text (map written attributes.now) script.now) result }
    ensures read { OnOk result (IsReadAsForm (map written attributes.now) script.now
        (form_text (map written attributes.now) script.now)) }

    ensures faults { AnswersFormFault (map written attributes.now) result }
    ensures good { IsOk result → AreGood (map written attributes.now) }
    ensures fits { AreGood (map written attributes.now)
        → length (form_text (map written attributes.now) script.now) ≤ string_room output.old
        → IsOk result }
{
    if let Some(fault) = first_fault(output.allocator(), attributes) {
        return Err(fault);
    }
    append_parts(output, &FormText { attributes, script })?;
    Ok(())
}
