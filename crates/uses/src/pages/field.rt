//! A caller: a field with a list of attributes and a script that shows a note, whose contract hands the
//! promise of forms on to its own callers, and what is read back of it.
ghost use Rattle.std.specs.Prelude.{◌≡◌, IfOk, map};
ghost use Rattle.std.specs.String.{string_bytes};
ghost use Rattle.hesc_places.specs.Words.{entry, form_back, form_found, written};
ghost use Rattle.uses.specs.Pages.Fields.{FieldComesBack, field_text};

use hesc_places::{Attribute, Form, FormFault, append_form, laws, read_form};
use std::alloc::Global;

/// `<p><input NAME="VALUE"../><script>alert('NOTE');</script></p>`. The attributes and the note are
/// read as they were given, whatever they hold and whatever follows.
pub fn field(alloc: Global, attributes: &[Attribute], note: &str) -> Result<String, FormFault>
    ensures text { IfOk result
        (λ page. string_bytes page ≡ field_text (map written attributes.now) note.now) }
    ensures read { IfOk result
        (λ page. FieldComesBack (map written attributes.now) note.now (string_bytes page)) }
{
    let mut page = String::from_str(alloc, "<p>")?;
    append_form(&mut page, attributes, note)?;
    laws::form_law_for_any_rest(attributes, note);
    page.push_str("</p>")?;
    Ok(page)
}

/// What is read of such a field: the attributes and the note.
pub fn field_back(alloc: Global, attributes: &[Attribute], note: &str) -> Result<Form, FormFault>
    ensures { IfOk result (λ form. form_found
        (map (λ a. entry a.0.items a.1 a.2.items) form.attributes.items) form.script.items form.end
        ≡ form_back (map written attributes.now) note.now) }
{
    let mut page = String::new(alloc);
    let part = append_form(&mut page, attributes, note)?;
    laws::form_law(attributes, note, b"");
    match read_form(alloc, part.as_bytes())? {
        Some(form) => Ok(form),
        None => unreachable!(),
    }
}
