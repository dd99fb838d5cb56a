//! Texts as strings of JSON, put into any sink.
ghost use Rattle.std.specs.Prelude.{◌≡◌, ◌<◌, [], length, slice_index, true};
ghost use Rattle.std.specs.Char.{digit_char};
ghost use Rattle.std.specs.Str.{IsUtf8};
ghost use Rattle.json.specs.Print.{escape_letter, quoted};
ghost use Rattle.hesc_sinks.specs.Text.{small_text_bytes};
ghost use Rattle.hesc_sinks.specs.Took.{Took};
ghost use Rattle.hesc_engine.specs.Next.{IsChangeAt};
ghost use Rattle.html_json.specs.AppliedStrings.{applied-content_changes};
ghost use Rattle.html_json.specs.Encoding.{json_encoding};
ghost use Rattle.html_json.specs.Strings.{content_changes, content_changes_at, content_encoding, content_image, is_escaped};

use hesc_engine::{Found, Replacement, Rule, Seek, Sink, SmallText, Sought, run};
use hesc_specs::Class;

// The encoder of what stands between the quote marks. The class has its bytes: `"`, `\`, `<` and the controls.
#[derive(Clone, Copy)]
struct EncodeContent;

impl Rule for EncodeContent {
    ghost changes_from = { λ rule. content_changes };

    ghost made = { λ rule. content_encoding };

    ghost begins_at = { λ rule. content_changes_at };

    ghost is_sought = { λ rule. is_escaped };

    ghost rows = { λ rule. [] };

    #[inline(always)]
    fn seeks(&self) -> Seek {
        Seek {
            sought: Sought::InClass(Class::StyleDoubleQuoted),
            texts: None,
        }
    }

    #[inline(always)]
    fn change_at(&self, text: &str, place: usize) -> Option<Found<'_>> {
        Some(change_at(text, place))
    }

    // Each byte becomes six at most.
    #[inline(always)]
    fn longest(&self, text: &str) -> Option<usize> {
        text.len().checked_mul(6)
    }

    ghost makes = { λ rule source _. applied-content_changes source };
}

fn change_at(text: &str, place: usize) -> Found<'static>
    requires within { place < length text.now }
    requires sought { is_escaped (slice_index text.now place) ≡ true }
    ensures { IsChangeAt (content_changes_at text.now) text.now (content_changes text.now) place
        result }
{
    let byte = text.as_bytes()[place];
    Found {
        start: place,
        end: place + 1,
        replacement: Replacement::Small(escape_of(byte)),
    }
}

fn escape_of(byte: u8) -> SmallText
    requires { is_escaped byte ≡ true }
    ensures { small_text_bytes result ≡ content_image byte }
{
    if byte == b'<' {
        return SmallText::from_ascii(*b"\\u003C\0\0", 6);
    }
    let letter = letter_of(byte);
    if letter > 0 {
        return SmallText::from_ascii([b'\\', letter, 0, 0, 0, 0, 0, 0], 2);
    }
    let (high, low) = (hex(byte / 16), hex(byte % 16));
    SmallText::from_ascii([b'\\', b'u', b'0', b'0', high, low, 0, 0], 6)
}

// The letter of the short escape, or 0 where there is none.
fn letter_of(byte: u8) -> u8
    ensures value { result ≡ escape_letter byte }
    ensures ascii { result < 128 }
{
    match byte {
        b'"' | b'\\' => byte,
        8 => b'b',
        12 => b'f',
        b'\n' => b'n',
        b'\r' => b'r',
        b'\t' => b't',
        _ => 0,
    }
}

fn hex(digit: u8) -> u8
    requires { digit < 16 }
    ensures value { result ≡ digit_char digit }
    ensures ascii { result < 128 }
{
    if digit < 10 {
        b'0' + digit
    } else {
        b'a' - 10 + digit
    }
}

/// Hands `text` as a string of JSON to the sink, piece by piece, with each `<` in it as `\u003C`.
///
/// On success the sink took exactly that. On the sink's fault, which is handed on at once, it took a
/// beginning of it.
///
/// Of `a"<` the sink takes `"a\"\u003C"`.
pub fn put_json_string<S: Sink>(text: &str, sink: &mut S) -> Result<(), S::Fault>
    ensures took { Took (S.seen sink.old) (S.seen sink.new) (json_encoding (quoted text.now)) result }
    ensures utf8 { IsUtf8 (quoted text.now) }
{
    sink.put("\"")?;
    run(&EncodeContent, text, sink)?;
    sink.put("\"")
}
