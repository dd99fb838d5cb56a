//! A caller of views: the pages of two users. The contract says that no text of theirs changes the structure.
ghost use Rattle.std.specs.Prelude.{◌≡◌, [], OnOk};
ghost use Rattle.std.specs.String.{string_bytes};
ghost use Rattle.html_template.specs.Words.{structure};
ghost use Rattle.html_tokenizer.specs.Tokenizer.States.{data_state};
ghost use Rattle.html_tokenizer.specs.Tokenizer.Tokenization.{actions_of};
ghost use Rattle.html_view.specs.Words.{SameForm, datum_of};

use html_view::{DataFault, Value, View, laws};

/// Appends a page for each of two values. Of two of one form, with lists as long and the same flags, the
/// pages have one structure.
pub fn append_two_pages<'a>(
    view: &View<'a>,
    first: Value<'a, 'a>,
    second: Value<'a, 'a>,
    one: &mut String,
    other: &mut String,
) -> Result<(), DataFault>
    ensures { OnOk result (SameForm (datum_of first.entry) (datum_of second.entry)
        → string_bytes one.old ≡ [] → string_bytes other.old ≡ []
        → structure (actions_of data_state (string_bytes one.new))
        ≡ structure (actions_of data_state (string_bytes other.new))) }
{
    laws::view_law(view);
    laws::rendered_law();
    view.append(one, first)?;
    view.append(other, second)
}
