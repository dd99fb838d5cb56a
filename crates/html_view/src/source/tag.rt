//! A tag: a sign and a name, cut out of what stands between `{{` and `}}`.
ghost use Rattle.std.specs.Prelude.{◌≡◌, ◌≢◌, ◌≤◌, ◌∷◌, ◌++◌, [], IfErr, IfOk, IfSome, IsTrue, length};
ghost use Rattle.std.specs.List.{AllByRecursion};
ghost use Rattle.html_template_source.specs.Sources.{closing};
ghost use Rattle.html_view.specs.Names.{words_behind};
ghost use Rattle.html_view.specs.Reading.{has_end};
ghost use Rattle.html_view.specs.Tags.{IsName, IsNameOf, IsPartialName, IsTag, IsWord, is_apart, is_letter, closing_of, may_be_lone, sign_text};
ghost use Rattle.html_view.specs.declared.faults.TagFault.TheVariants.{Unclosed};
ghost use Rattle.html_view.specs.declared.source.tag.Sign.TheVariants.{Slot};

use crate::faults::TagFault;

// What stands between `{{` and `}}` where `{{` is markup.
const QUOTED_OPENING: &str = "\"{{\"";

/// What a tag is, by its sign.
#[derive(Clone, Copy, Debug, PartialEq, Eq)]
pub(crate) enum Sign {
    /// `{{name}}`.
    Slot,
    /// `{{&name}}`.
    Fragment,
    /// `{{{name}}}`, the same.
    Braced,
    /// `{{"{{"}}`, a `{{` of the markup.
    Quoted,
    /// `{{! text }}`.
    Comment,
    /// `{{#name}}`.
    Each,
    /// `{{?name}}`.
    If,
    /// `{{^name}}`.
    Unless,
    /// `{{/name}}`.
    End,
    /// `{{> name}}`.
    Partial,
    /// `{{<name}}`.
    Layout,
    /// `{{$name}}`.
    Block,
}

/// A sign, and the name behind it.
#[derive(Clone, Copy)]
pub(crate) struct SignedName<'a> {
    pub(crate) sign: Sign,
    pub(crate) name: &'a str,
}

impl Sign {
    /// Whether a tag of this sign leaves no line behind where it is all of its line.
    pub(crate) fn may_be_lone(self) -> bool
        ensures { result ≡ may_be_lone self }
    {
        match self {
            Sign::Slot | Sign::Fragment | Sign::Braced | Sign::Quoted => false,
            _ => true,
        }
    }

    /// Whether a tag of this sign has an end.
    pub(crate) fn has_end(self) -> bool
        ensures { result ≡ has_end self }
    {
        match self {
            Sign::Each | Sign::If | Sign::Unless | Sign::Layout | Sign::Block => true,
            _ => false,
        }
    }

    fn may_have(self, name: &str) -> bool
        ensures { IsTrue result → IsNameOf self name.now }
    {
        match self {
            Sign::Quoted => name.is_empty(),
            Sign::Comment => true,
            // The end of a layout has the name of a partial.
            Sign::Partial | Sign::Layout | Sign::End => is_partial_name(name),
            _ => is_name(name),
        }
    }
}

/// The sign and the name of a tag with this between `{{` and `}}`.
pub(crate) fn signed_name(inside: &str) -> Result<SignedName<'_>, TagFault>
    ensures tag { IfOk result (λ found. IsTag found.sign found.name.now inside.now) }
    ensures fault { IfErr result (λ fault. fault ≢ Unclosed) }
{
    let found = signed(inside.trim_start())?;
    let sign = found.sign;
    let name = found.name.trim();
    if sign.may_have(name) {
        Ok(SignedName { sign, name })
    } else {
        Err(TagFault::BadName)
    }
}

/// What stands behind a tag of this sign, behind its `}}`. One of three braces has one more.
pub(crate) fn behind_tag(sign: Sign, behind: &str) -> Option<&str>
    ensures closed { IfSome result (λ rest. closing ++ behind.now ≡ closing_of sign ++ rest.now) }
    ensures less { IfSome result (λ rest. length rest.now ≤ length behind.now) }
{
    match sign {
        Sign::Braced => behind.strip_prefix('}'),
        _ => Some(behind),
    }
}

// The sign with which a text begins, and what stands behind it.
fn signed(text: &str) -> Result<SignedName<'_>, TagFault>
    ensures parts { IfOk result (λ found. text.now ≡ sign_text found.sign ++ found.name.now) }
    ensures fault { IfErr result (λ fault. fault ≢ Unclosed) }
{
    if let Some(name) = text.strip_prefix(QUOTED_OPENING) {
        return Ok(SignedName {
            sign: Sign::Quoted,
            name,
        });
    }
    let Some(first) = text.chars().next() else {
        return Err(TagFault::BadName);
    };
    let sign = sign_of(first)?;
    if sign == Sign::Slot {
        return Ok(SignedName { sign, name: text });
    }
    match text.strip_prefix(first) {
        Some(name) => Ok(SignedName { sign, name }),
        None => Err(TagFault::BadName),
    }
}

fn sign_of(first: char) -> Result<Sign, TagFault>
    ensures sign { IfOk result (λ sign. sign ≢ Slot → sign_text sign ≡ first ∷ []) }
    ensures fault { IfErr result (λ fault. fault ≢ Unclosed) }
{
    match first {
        '!' => Ok(Sign::Comment),
        '#' => Ok(Sign::Each),
        '?' => Ok(Sign::If),
        '^' => Ok(Sign::Unless),
        '/' => Ok(Sign::End),
        '>' => Ok(Sign::Partial),
        '<' => Ok(Sign::Layout),
        '$' => Ok(Sign::Block),
        '&' => Ok(Sign::Fragment),
        '{' => Ok(Sign::Braced),
        // These begin the name of a slot.
        '.' | '-' | '_' => Ok(Sign::Slot),
        other if other.is_ascii_punctuation() => Err(TagFault::BadTag),
        _ => Ok(Sign::Slot),
    }
}

// `.`, or words with dots between them, also behind a dot.
fn is_name(name: &str) -> bool
    ensures { IsTrue result → IsName name.now }
{
    match name.strip_prefix(".") {
        None => are_words(name.as_bytes()),
        Some(words) => words.is_empty() || are_words(words.as_bytes()),
    }
}

fn are_words(bytes: &[u8]) -> bool
    ensures { IsTrue result → AllByRecursion IsWord (words_behind [] bytes.now) }
{
    let mut rest = bytes;
    let mut in_word = false;
    'bytes: while let [byte, others @ ..] = rest {
        if is_letter(*byte) {
            in_word = true;
        } else if in_word && *byte == b'.' {
            in_word = false;
        } else {
            return false;
        }
        rest = others;
    }
    in_word
}

fn is_letter(byte: u8) -> bool
    ensures { result ≡ is_letter byte }
{
    byte.is_ascii_alphanumeric() || byte == b'_' || byte == b'-'
}

fn is_partial_name(name: &str) -> bool
    ensures { IsTrue result → IsPartialName name.now }
{
    !name.is_empty() && !name.contains(is_apart)
}

fn is_apart(letter: char) -> bool
    ensures { result ≡ is_apart letter }
{
    letter.is_whitespace() || letter == '{' || letter == '}'
}
