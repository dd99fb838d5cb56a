//! Where in its list of URLs the value of a `srcset` attribute is.
ghost use Rattle.std.specs.Prelude.{◌≡◌};
ghost use Rattle.html_tokenizer.specs.Tokenizer.Attributes.ListParts.{is_list_mark, list_read};

use crate::states::ListPart;
use crate::tags::is_space;

/// Whether the byte cuts the list of a `srcset`, so that no URL of it holds the byte as it stands.
///
/// Of `b','` it is `true`, and of `b'/'` it is `false`.
#[inline]
pub fn is_list_mark(byte: u8) -> bool
    ensures { result ≡ is_list_mark byte }
{
    is_space(byte) || byte == b','
}

/// After one byte more of the value.
#[inline(never)]
pub(crate) fn list_read(part: ListPart, byte: u8) -> ListPart
    ensures { result ≡ list_read part byte }
{
    match part {
        ListPart::BeforeUrl if is_list_mark(byte) => ListPart::BeforeUrl,
        ListPart::Url | ListPart::Comma if byte == b',' => ListPart::Comma,
        ListPart::Url if is_space(byte) => ListPart::Descriptors,
        ListPart::BeforeUrl | ListPart::Url => ListPart::Url,
        ListPart::FixedUrl if !is_list_mark(byte) => ListPart::FixedUrl,
        ListPart::Comma if is_space(byte) => ListPart::BeforeUrl,
        ListPart::Descriptors if byte == b',' => ListPart::BeforeUrl,
        ListPart::Descriptors if byte != b'(' => ListPart::Descriptors,
        ListPart::FixedUrl | ListPart::Comma | ListPart::Descriptors | ListPart::Rest => {
            ListPart::Rest
        }
    }
}
