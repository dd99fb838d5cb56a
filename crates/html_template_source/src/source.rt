//! A source, cut into parts.
ghost use Rattle.std.specs.Prelude.{◌≡◌, ◌<◌, ◌++◌, ℕ, List, IfNone, IfOk, IfSome, OnOk, length, map, true};
ghost use Rattle.memchr.specs.Find.{FindsNeedle};
ghost use Rattle.html_template.specs.Templates.{given, texts_of};
ghost use Rattle.html_template_source.specs.SourceFaults.{AnswersSource};
ghost use Rattle.html_template_source.specs.Sources.{
  IsSourceOf,
  Lacks,
  LeadOn,
  TakeTurns,
  are_letters,
  is_name,
  opening,
  quoted_opening,
  slot_text,
};

use crate::faults::SourceFault;
use hesc_scan::find::first_byte;
use html_template::Part;
use memchr::memmem;
use std::alloc::{AllocError, Allocator, Global};

// What stands between `{{` and `}}` where `{{` is markup.
const QUOTED_OPENING: &str = "\"{{\"";

/// A source, cut into markup and slots, which take turns, and the names of the slots. Markup follows
/// markup where a `{{` of it is written `{{"{{"}}`.
#[derive(Drop)]
pub struct Source<'a, A: Allocator = Global> {
    /// The parts, for [`Template::new`](html_template::Template::new).
    pub parts: Vec<Part<'a>, A>,
    /// The name of each slot, in order.
    pub names: Vec<&'a str, A>,
}

impl<'a, A: Allocator + Copy> Source<'a, A> {
    /// Cuts a source into parts. A slot is one or more ASCII letters, digits and `_` between `{{` and
    /// the next `}}`, and `"{{"` between them is a `{{` of the markup; all else is markup.
    pub fn cut(alloc: A, source: &'a str) -> Result<Source<'a, A>, SourceFault>
        ensures parts { IfOk result (λ s.
            IsSourceOf (map given s.parts.items) (texts_of s.names.items) source.now) }
        ensures turns { IfOk result (λ s. TakeTurns (map given s.parts.items)) }
        ensures faults { AnswersSource source.now result }
    {
        let mut parts = Vec::new(alloc);
        let mut names = Vec::new(alloc);
        let mut rest = source;
        'slots: while let Some((markup, following)) = cut_at(rest, "{{") {
            let place = source.len() - rest.len() + markup.len();
            let Some((name, more)) = cut_at(following, "}}") else {
                return Err(SourceFault::Unclosed(place));
            };
            if is_name(name) {
                add_slot(&mut parts, &mut names, markup, name)?;
            } else if name == QUOTED_OPENING {
                add_opening(&mut parts, rest, markup, following)?;
            } else {
                return Err(SourceFault::BadName(place));
            }
            rest = more;
        }
        let Ok(()) = parts.push(Part::Markup(rest)) else {
            return Err(SourceFault::Memory);
        };
        Ok(Source { parts, names })
    }
}

// The place of the first such mark. Its first byte mostly stands nowhere before it, and is found with less to set
// up; where it does, as in code, the mark is searched for from there on.
fn find(mark: &[u8], bytes: &[u8]) -> Option<usize>
    requires { 0 < length mark.now }
    ensures { FindsNeedle bytes.now mark.now 0 result }
{
    let place = first_byte(mark[0], bytes, 0);
    let rest = &bytes[place..];
    if rest.starts_with(mark) {
        return Some(place);
    }
    match memmem::find(rest, mark) {
        Some(distance) => Some(place + distance),
        None => None,
    }
}

/// What stands before the first such mark, and after it.
///
/// Of `a{{b` and the mark `{{` it is `a` and `b`.
pub fn cut_at<'s>(text: &'s str, mark: &str) -> Option<(&'s str, &'s str)>
    requires { 0 < length mark.now }
    ensures whole { IfSome result (λ c. text.now ≡ c.0.now ++ (mark.now ++ c.1.now)) }
    ensures first { IfSome result (λ c. Lacks mark.now c.0.now) }
    ensures none { IfNone result (Lacks mark.now text.now) }
{
    let Some(place) = find(mark.as_bytes(), text.as_bytes()) else {
        return None;
    };
    let (front, _) = text.split_at(place);
    let (_, behind) = text.split_at(place + mark.len());
    Some((front, behind))
}

fn is_name(name: &str) -> bool
    ensures { result ≡ is_name name.now }
{
    !name.is_empty() && are_letters(name.as_bytes())
}

fn are_letters(bytes: &[u8]) -> bool
    ensures { result ≡ are_letters bytes.now }
{
    let mut rest = bytes;
    'bytes: while let [byte, others @ ..] = rest {
        if !byte.is_ascii_alphanumeric() && *byte != b'_' {
            return false;
        }
        rest = others;
    }
    true
}

// Markup and a slot after it.
fn add_slot<'a, A: Allocator>(
    parts: &mut Vec<Part<'a>, A>,
    names: &mut Vec<&'a str, A>,
    markup: &'a str,
    name: &'a str,
) -> Result<(), AllocError>
    requires plain { Lacks opening markup.now }
    requires named { is_name name.now ≡ true }
    ensures { OnOk result ((front : List ℕ)
        → LeadOn (map given parts.old.items) (texts_of names.old.items) front
        → LeadOn (map given parts.new.items) (texts_of names.new.items)
        (front ++ (markup.now ++ slot_text name.now))) }
{
    parts.push(Part::Markup(markup))?;
    parts.push(Part::Slot)?;
    match names.push(name) {
        Ok(()) => Ok(()),
        Err(_) => Err(AllocError),
    }
}

// Markup and the mark behind it, which is markup, too.
fn add_opening<'a, A: Allocator>(
    parts: &mut Vec<Part<'a>, A>,
    text: &'a str,
    markup: &str,
    following: &str,
) -> Result<(), AllocError>
    requires whole { text.now ≡ markup.now ++ (opening ++ following.now) }
    requires plain { Lacks opening markup.now }
    ensures { OnOk result ((names : List (List ℕ)) (front : List ℕ)
        → LeadOn (map given parts.old.items) names front
        → LeadOn (map given parts.new.items) names
        (front ++ (markup.now ++ slot_text quoted_opening))) }
{
    match parts.push(Part::Markup(&text[..markup.len() + 2])) {
        Ok(()) => Ok(()),
        Err(_) => Err(AllocError),
    }
}
