//! How long each operation's part is that is appended to a page, which is kept from call to call.
ghost use Rattle.std.specs.Prelude.{◌≡◌, IfSome, MatchResult, length};
ghost use Rattle.html_escape.specs.Operations.{operation_text};

use html_escape::*;
use std::alloc::{AllocError, Global};

/// The length of the part that is appended, `None` where there is none.
pub(crate) fn append(operation: Operation, text: &str, output: &mut String<Global>) -> Option<usize>
    ensures { IfSome result (λ count. count ≡ length (operation_text operation text.now)) }
{
    match operation {
        Operation::Encode(Encoder::Text) => length_of(encode_text_to_string(text, output)),
        Operation::Encode(Encoder::DoubleQuotedAttribute) => {
            length_of(encode_double_quoted_attribute_to_string(text, output))
        }
        Operation::Encode(Encoder::Safe) => length_of(encode_safe_to_string(text, output)),
        Operation::Encode(Encoder::UnquotedAttribute) => {
            length_of(encode_unquoted_attribute_to_string(text, output))
        }
        Operation::Encode(Encoder::Script) => length_of(encode_script_to_string(text, output)),
        Operation::Encode(Encoder::ScriptQuoted) => {
            length_of(encode_script_quoted_text_to_string(text, output))
        }
        Operation::Decode(Decoder::HtmlEntities) => {
            length_of(decode_html_entities_to_string(text, output))
        }
        Operation::Decode(Decoder::Script) => length_of(decode_script_to_string(text, output)),
        Operation::Decode(Decoder::ScriptQuoted) => {
            length_of(decode_script_quoted_text_to_string(text, output))
        }
        _ => None,
    }
}

fn length_of(part: Result<&str, AllocError>) -> Option<usize>
    ensures { IfSome result
        (λ count. MatchResult part.entry (λ text. count ≡ length text.now) (λ _. ⊥)) }
{
    match part {
        Ok(text) => Some(text.len()),
        Err(AllocError) => None,
    }
}
