//! The operations, in a list that has them all.
ghost use Rattle.std.specs.Prelude.{◌≡◌, ◌<◌, get_or};

use html_escape::{Decoder, Encoder, Operation};

/// Every operation, the encoders first.
pub static OPERATIONS: [Operation; 24] = [
    Operation::Encode(Encoder::TextMinimal),
    Operation::Encode(Encoder::Text),
    Operation::Encode(Encoder::DoubleQuotedAttribute),
    Operation::Encode(Encoder::SingleQuotedAttribute),
    Operation::Encode(Encoder::QuotedAttribute),
    Operation::Encode(Encoder::Safe),
    Operation::Encode(Encoder::UnquotedAttribute),
    Operation::Encode(Encoder::Script),
    Operation::Encode(Encoder::Style),
    Operation::Encode(Encoder::ScriptSingleQuoted),
    Operation::Encode(Encoder::ScriptDoubleQuoted),
    Operation::Encode(Encoder::ScriptQuoted),
    Operation::Encode(Encoder::StyleSingleQuoted),
    Operation::Encode(Encoder::StyleDoubleQuoted),
    Operation::Encode(Encoder::StyleQuoted),
    Operation::Decode(Decoder::HtmlEntities),
    Operation::Decode(Decoder::Script),
    Operation::Decode(Decoder::Style),
    Operation::Decode(Decoder::ScriptSingleQuoted),
    Operation::Decode(Decoder::ScriptDoubleQuoted),
    Operation::Decode(Decoder::ScriptQuoted),
    Operation::Decode(Decoder::StyleSingleQuoted),
    Operation::Decode(Decoder::StyleDoubleQuoted),
    Operation::Decode(Decoder::StyleQuoted),
];

/// Where an operation stands among them, so that none can be forgotten.
pub fn number_of(operation: Operation) -> usize
    ensures stands { get_or OPERATIONS result operation ≡ operation }
    ensures within { result < 24 }
{
    match operation {
        Operation::Encode(encoder) => match encoder {
            Encoder::TextMinimal => 0,
            Encoder::Text => 1,
            Encoder::DoubleQuotedAttribute => 2,
            Encoder::SingleQuotedAttribute => 3,
            Encoder::QuotedAttribute => 4,
            Encoder::Safe => 5,
            Encoder::UnquotedAttribute => 6,
            Encoder::Script => 7,
            Encoder::Style => 8,
            Encoder::ScriptSingleQuoted => 9,
            Encoder::ScriptDoubleQuoted => 10,
            Encoder::ScriptQuoted => 11,
            Encoder::StyleSingleQuoted => 12,
            Encoder::StyleDoubleQuoted => 13,
            Encoder::StyleQuoted => 14,
        },
        Operation::Decode(decoder) => match decoder {
            Decoder::HtmlEntities => 15,
            Decoder::Script => 16,
            Decoder::Style => 17,
            Decoder::ScriptSingleQuoted => 18,
            Decoder::ScriptDoubleQuoted => 19,
            Decoder::ScriptQuoted => 20,
            Decoder::StyleSingleQuoted => 21,
            Decoder::StyleDoubleQuoted => 22,
            Decoder::StyleQuoted => 23,
        },
    }
}
