//! Stretches of bytes at which the tokenizer stays where it is, up to the first byte that leads elsewhere.
ghost use Rattle.std.specs.Prelude.{◌≡◌, ◌≤◌, ◌<◌, ◌==◌, ◌||◌, ℕ, List, None, length, slice_index, take, true};
ghost use Rattle.hesc_specs.specs.Text.Ascii.{greater_than};
ghost use Rattle.hesc_specs.specs.Text.FirstPlace.{IsFirstPlace};
ghost use Rattle.html_tokenizer.specs.Tokenizer.Comments.{dash};
ghost use Rattle.html_tokenizer.specs.Tokenizer.Phases.{attribute_in, state_of};
ghost use Rattle.html_tokenizer.specs.Tokenizer.States.{InCode, at, at_value};
ghost use Rattle.html_tokenizer.specs.Tokenizer.Stretches.{IsSettled, is_scanned, keeps_part, leaves, leaves_code, leaves_value, settled, word_after};
ghost use Rattle.html_tokenizer.specs.Tokenizer.Tokenization.{state_after};
ghost use Rattle.html_tokenizer.specs.declared.elements.Content.{Content};
ghost use Rattle.html_tokenizer.specs.declared.elements.OpenElement.TheVariants.{Script};
ghost use Rattle.html_tokenizer.specs.declared.slot_place.SlotPlace.{SlotPlace};
ghost use Rattle.html_tokenizer.specs.declared.states.Code.{Code};
ghost use Rattle.html_tokenizer.specs.declared.states.Kind.TheVariants as kinds;
ghost use Rattle.html_tokenizer.specs.declared.states.Phase.TheVariants as phases;

use crate::attributes::declarations::{is_style_byte, is_word_byte};
use crate::code::words::{next_word, settled, settled_byte};
use crate::elements::{Content, OpenElement};
use crate::flags::stays_settled;
use crate::slot_place::SlotPlace;
use crate::states::{Code, Kind, Phase};
use hesc_scan::find::{first_byte, first_of_two};

// Whether the byte ends a stretch in a state that is scanned byte by byte.
#[inline(always)]
fn leaves(phase: Phase, element: OpenElement, byte: u8) -> bool
    requires { is_scanned element phase ≡ true }
    ensures { result ≡ leaves element phase byte }
{
    match (phase, element) {
        (Phase::In(SlotPlace::Unquoted), _) => matches!(
            byte,
            b'\t' | b'\n' | b'\x0c' | b'\r' | b' ' | b'>' | b'&' | b'"' | b'\'' | b'<' | b'=' | b'`'
        ),
        (Phase::In(SlotPlace::ScriptSingle), _) => {
            matches!(byte, b'\'' | b'\\' | b'<' | b'\n' | b'\r')
        }
        (Phase::In(SlotPlace::ScriptDouble), _) => {
            matches!(byte, b'"' | b'\\' | b'<' | b'\n' | b'\r')
        }
        (Phase::In(SlotPlace::StyleSingle), _) => {
            matches!(byte, b'\'' | b'\\' | b'<' | b'\n' | b'\r' | b'\x0c' | 0)
        }
        (Phase::In(SlotPlace::StyleDouble), _) => {
            matches!(byte, b'"' | b'\\' | b'<' | b'\n' | b'\r' | b'\x0c' | 0)
        }
        (Phase::InCode(Code::LineComment), OpenElement::Script) => {
            matches!(byte, b'\n' | b'\r' | 0xE2 | b'<')
        }
        (Phase::InCode(Code::FrontComment), OpenElement::Style) => matches!(byte, b'*' | b'<' | 0),
        (Phase::InCode(Code::Plain), OpenElement::Style) => {
            matches!(
                byte,
                b'"' | b'\'' | b'\\' | b'/' | b'@' | b'u' | b'U' | b'<'
            )
        }
        (Phase::InCode(Code::Url), OpenElement::Style) => {
            matches!(byte, b'"' | b'\'' | b'(' | b')' | b'\\' | b'<' | b'/')
        }
        _ => true,
    }
}

// Scans the bytes of a stretch. Where the state is a constant, this is a loop of its own.
#[inline(always)]
fn scan(phase: Phase, element: OpenElement, bytes: &[u8]) -> usize
    requires { is_scanned element phase ≡ true }
    ensures { IsFirstPlace (leaves element phase) bytes.now 0 result }
{
    let mut count = 0;
    'stretch: while count < bytes.len() && !leaves(phase, element, bytes[count]) {
        count += 1;
    }
    count
}

// The place of the first of two bytes. Among few bytes the search costs more than one look at the first
// of them, which often ends the stretch: after a slot the quote mark comes at once.
#[inline(always)]
fn first_near(one: u8, other: u8, bytes: &[u8]) -> usize
    ensures { IsFirstPlace (λ b. b == one || b == other) bytes.now 0 result }
{
    match bytes {
        [byte, ..] if *byte == one || *byte == other => 0,
        _ => first_of_two(one, other, bytes, 0),
    }
}

#[inline(always)]
fn value_stretch(place: SlotPlace, bytes: &[u8]) -> usize
    ensures { IsFirstPlace (leaves_value place) bytes.now 0 result }
{
    let element = OpenElement::Normal;
    match place {
        SlotPlace::Text => first_near(b'<', b'&', bytes),
        SlotPlace::DoubleQuoted => first_near(b'"', b'&', bytes),
        SlotPlace::SingleQuoted => first_near(b'\'', b'&', bytes),
        SlotPlace::Unquoted => scan(Phase::In(SlotPlace::Unquoted), element, bytes),
        SlotPlace::ScriptSingle => scan(Phase::In(SlotPlace::ScriptSingle), element, bytes),
        SlotPlace::ScriptDouble => scan(Phase::In(SlotPlace::ScriptDouble), element, bytes),
        SlotPlace::StyleSingle => scan(Phase::In(SlotPlace::StyleSingle), element, bytes),
        SlotPlace::StyleDouble => scan(Phase::In(SlotPlace::StyleDouble), element, bytes),
    }
}

#[inline(always)]
fn code_stretch(code: Code, element: OpenElement, bytes: &[u8]) -> usize
    ensures { IsFirstPlace (leaves_code element code) bytes.now 0 result }
{
    match (code, element) {
        (Code::Opaque, OpenElement::Script | OpenElement::Style | OpenElement::Frame) => {
            first_byte(b'<', bytes, 0)
        }
        (Code::JsonRest, OpenElement::Script) => first_byte(b'<', bytes, 0),
        (Code::BlockComment, OpenElement::Script | OpenElement::Style) => {
            first_of_two(b'*', b'<', bytes, 0)
        }
        (Code::Escaped | Code::DoubleEscaped, OpenElement::Script) => {
            first_of_two(b'-', b'<', bytes, 0)
        }
        (Code::LineComment, OpenElement::Script) => {
            scan(Phase::InCode(Code::LineComment), OpenElement::Script, bytes)
        }
        (Code::FrontComment, OpenElement::Style) => {
            scan(Phase::InCode(Code::FrontComment), OpenElement::Style, bytes)
        }
        (Code::Plain, OpenElement::Style) => {
            scan(Phase::InCode(Code::Plain), OpenElement::Style, bytes)
        }
        (Code::Url, OpenElement::Style) => {
            scan(Phase::InCode(Code::Url), OpenElement::Style, bytes)
        }
        _ => 0,
    }
}

/// How many of the first bytes leave the tokenizer where it is: all up to one that does not, or fewer.
#[inline(always)]
#[tactic(auto, using(crate::proofs::Stretches::value_stretch_stays, crate::proofs::Stretches::code_stretch_stays, crate::proofs::Stretches::comment_stretch_stays, crate::proofs::Stretches::bogus_comment_stretch_stays))]
pub(crate) fn stretch(phase: Phase, content: Content, kind: Kind, bytes: &[u8]) -> usize
    ensures within { result ≤ length bytes.now }
    ensures value { (place : SlotPlace) → phase ≡ phases.In place → IsSettled kind
        → IsFirstPlace (leaves_value place) bytes.now 0 result }
    ensures code { (code : Code) → phase ≡ phases.InCode code → kind ≡ kinds.Ordinary
        → IsFirstPlace (leaves_code content.element code) bytes.now 0 result }
    ensures comment { phase ≡ phases.Comment → kind ≡ kinds.Ordinary
        → IsFirstPlace (λ b. b == dash) bytes.now 0 result }
    ensures bogus_comment { phase ≡ phases.BogusComment → kind ≡ kinds.Ordinary
        → IsFirstPlace (λ b. b == greater_than) bytes.now 0 result }
    ensures stays { (word : List ℕ)
        → state_after (at_value (state_of phase word) content (attribute_in kind word))
        (take result bytes.now)
        ≡ at_value (state_of phase word) content (attribute_in kind word) }
{
    match (phase, kind) {
        (
            Phase::In(place),
            Kind::Ordinary | Kind::Forbidden | Kind::Link | Kind::Url | Kind::FixedUrl,
        ) => { value_stretch(place, bytes) }
        (Phase::InCode(code), Kind::Ordinary) => code_stretch(code, content.element, bytes),
        (Phase::Comment, Kind::Ordinary) => first_byte(b'-', bytes, 0),
        (Phase::BogusComment, Kind::Ordinary) => first_byte(b'>', bytes, 0),
        _ => 0,
    }
}

// Whether the value of a `style` stays in its part of a declaration, or where the rest takes no slot.
#[inline(always)]
fn keeps_part(kind: Kind, byte: u8) -> bool
    ensures { result ≡ keeps_part kind byte }
{
    match kind {
        Kind::DeclarationName => is_word_byte(byte),
        Kind::DeclarationValue => is_style_byte(byte),
        Kind::OpaqueStyle => !matches!(byte, b'"' | b'\'' | b'&'),
        _ => false,
    }
}

// How many of the first bytes leave the value of a `style` there. A call of its own: most values are none.
#[inline(never)]
fn style_stretch(kind: Kind, bytes: &[u8]) -> usize
    ensures within { result ≤ length bytes.now }
    ensures keeps { (k : ℕ) → k < result → keeps_part kind (slice_index bytes.now k) ≡ true }
{
    let mut count = 0;
    'stretch: while count < bytes.len() && keeps_part(kind, bytes[count]) {
        count += 1;
    }
    count
}

/// The same of text and of values in quotes; in other states no byte is gone over.
#[inline(always)]
#[tactic(auto, using(crate::proofs::Stretches::value_stretch_stays, crate::proofs::Stretches::style_stretch_stays))]
pub(crate) fn text_stretch(phase: Phase, kind: Kind, bytes: &[u8]) -> usize
    ensures within { result ≤ length bytes.now }
    ensures stays { (content : Content) (word : List ℕ)
        → state_after (at_value (state_of phase word) content (attribute_in kind word))
        (take result bytes.now)
        ≡ at_value (state_of phase word) content (attribute_in kind word) }
{
    match (phase, kind) {
        (
            Phase::In(SlotPlace::Text),
            Kind::Ordinary | Kind::Forbidden | Kind::Link | Kind::Url | Kind::FixedUrl,
        ) => first_near(b'<', b'&', bytes),
        (
            Phase::In(SlotPlace::DoubleQuoted),
            Kind::Ordinary | Kind::Forbidden | Kind::Link | Kind::Url | Kind::FixedUrl,
        ) => first_near(b'"', b'&', bytes),
        (
            Phase::In(SlotPlace::SingleQuoted),
            Kind::Ordinary | Kind::Forbidden | Kind::Link | Kind::Url | Kind::FixedUrl,
        ) => first_near(b'\'', b'&', bytes),
        (
            Phase::In(SlotPlace::DoubleQuoted | SlotPlace::SingleQuoted),
            Kind::DeclarationName | Kind::DeclarationValue | Kind::OpaqueStyle,
        ) => style_stretch(kind, bytes),
        _ => 0,
    }
}

// How many of the first bytes of a script's code are no marks and begin neither word, where the byte
// before them is `before`, and which byte is the last then.
#[inline(always)]
fn settled_bytes(before: u8, bytes: &[u8]) -> (usize, u8)
    ensures within { result.0 ≤ length bytes.now }
    ensures read { (content : Content) → content.element ≡ Script
        → state_after (at (InCode (settled before)) content) (take result.0 bytes.now)
        ≡ at (InCode (settled result.1)) content }
{
    let mut last = before;
    let mut count = 0;
    'settled: while count < bytes.len() && stays_settled(last, bytes[count]) {
        last = bytes[count];
        count += 1;
    }
    (count, last)
}

#[inline(always)]
fn settled_words(code: Code, bytes: &[u8]) -> (usize, Code)
    ensures within { result.0 ≤ length bytes.now }
    ensures read { (content : Content) → content.element ≡ Script
        → state_after (at (InCode code) content) (take result.0 bytes.now)
        ≡ at (InCode result.1) content }
{
    match settled_byte(code) {
        Some(before) => {
            let (count, last) = settled_bytes(before, bytes);
            (count, settled(last))
        }
        None => (0, code),
    }
}

/// How many of the first bytes of a script's code lead from word to word, and where they lead.
#[inline(always)]
pub(crate) fn script_words(code: Code, bytes: &[u8]) -> (usize, Code)
    ensures within { result.0 ≤ length bytes.now }
    ensures read { (content : Content) → content.element ≡ Script
        → state_after (at (InCode code) content) (take result.0 bytes.now)
        ≡ at (InCode result.1) content }
    ensures whole { result.0 < length bytes.now
        → word_after result.1 (slice_index bytes.now result.0) ≡ None }
{
    let mut reached = code;
    let mut count = 0;
    'words: while count < bytes.len() {
        let (more, settled) = settled_words(reached, &bytes[count..]);
        reached = settled;
        count += more;
        if count == bytes.len() {
            break 'words;
        }
        let Some(next) = next_word(reached, bytes[count]) else {
            return (count, reached);
        };
        reached = next;
        count += 1;
    }
    (count, reached)
}
