//! The classes of the string encoders, by their element and quote marks.
ghost use Rattle.std.specs.Prelude.{◌≡◌};
ghost use Rattle.hesc_specs.specs.Text.Classes.{string_class as string_class_of};

use hesc_specs::{Class, Element, Quotes};

/// The element and the quote marks of a string encoder's class, or `None` for an HTML encoder's.
///
/// Of `Class::ScriptQuoted` they are the script and both marks.
#[inline(always)]
pub fn string_class(class: Class) -> Option<(Element, Quotes)>
    ensures { result ≡ string_class_of class }
{
    match class {
        Class::TextMinimal
        | Class::Text
        | Class::DoubleQuotedAttribute
        | Class::SingleQuotedAttribute
        | Class::QuotedAttribute
        | Class::Safe
        | Class::UnquotedAttribute => None,
        Class::ScriptSingleQuoted => Some((Element::Script, Quotes::Single)),
        Class::ScriptDoubleQuoted => Some((Element::Script, Quotes::Double)),
        Class::ScriptQuoted => Some((Element::Script, Quotes::Both)),
        Class::StyleSingleQuoted => Some((Element::Style, Quotes::Single)),
        Class::StyleDoubleQuoted => Some((Element::Style, Quotes::Double)),
        Class::StyleQuoted => Some((Element::Style, Quotes::Both)),
    }
}
