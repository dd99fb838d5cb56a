//! Steps of a script's and of a style's body.
ghost use Rattle.std.specs.Prelude.{◌≡◌, ◌∷◌};
ghost use Rattle.hesc_specs.specs.Text.Ascii.{less_than};
ghost use Rattle.hesc_specs.specs.Text.Elements.{element_name};
ghost use Rattle.hesc_specs.specs.Text.Words.{begins_in_any_case};
ghost use Rattle.hesc_grammars.specs.Bodies.{
  ends_script,
  mode_after,
  script_body_step,
  style_body_step,
};
ghost use Rattle.hesc_grammars.specs.Words.{ends_tag_name, is_end_tag, is_start_tag};

use crate::step::{Mode, Step};
use hesc_specs::Element;

/// The step of a style's body.
#[tactic(auto, unfolding(crate::specs::Bodies::style_body_step))]
pub fn style_body_step(mode: Mode, bytes: &[u8]) -> Step
    ensures { result ≡ style_body_step mode bytes.now }
{
    let Some((first, _)) = bytes.split_first() else {
        return Step::Nothing;
    };
    if is_end_tag(Element::Style, bytes) {
        return Step::Close;
    }
    Step::Byte(0, *first, Mode::Plain)
}

/// The step of a script's body.
#[tactic(auto, unfolding(crate::specs::Bodies::script_body_step))]
pub fn script_body_step(mode: Mode, bytes: &[u8]) -> Step
    ensures { result ≡ script_body_step mode bytes.now }
{
    let Some((first, _)) = bytes.split_first() else {
        return Step::Nothing;
    };
    if ends_script(mode, bytes) {
        return Step::Close;
    }
    Step::Byte(0, *first, mode_after(mode, bytes))
}

fn ends_script(mode: Mode, bytes: &[u8]) -> bool
    ensures { result ≡ ends_script mode bytes.now }
{
    match mode {
        Mode::DoubleEscaped => false,
        Mode::Empty | Mode::Plain | Mode::Escaped => is_end_tag(Element::Script, bytes),
    }
}

fn mode_after(mode: Mode, bytes: &[u8]) -> Mode
    ensures { result ≡ mode_after mode bytes.now }
{
    match mode {
        Mode::Escaped if is_start_tag(Element::Script, bytes) => Mode::DoubleEscaped,
        Mode::DoubleEscaped if is_end_tag(Element::Script, bytes) => Mode::Escaped,
        Mode::Escaped | Mode::DoubleEscaped if bytes.starts_with(b"-->") => Mode::Plain,
        Mode::Empty | Mode::Plain if bytes.starts_with(b"<!--") => Mode::Escaped,
        Mode::Empty => Mode::Plain,
        Mode::Plain | Mode::Escaped | Mode::DoubleEscaped => mode,
    }
}

fn is_start_tag(element: Element, bytes: &[u8]) -> bool
    ensures { result ≡ is_start_tag element bytes.now }
{
    match bytes {
        [b'<', tag @ ..] => is_named(element, tag),
        _ => false,
    }
}

fn is_end_tag(element: Element, bytes: &[u8]) -> bool
    ensures { result ≡ is_end_tag element bytes.now }
{
    match bytes {
        [b'<', b'/', tag @ ..] => is_named(element, tag),
        _ => false,
    }
}

// The element's name in any ASCII case, which ends there.
fn is_named(element: Element, tag: &[u8]) -> bool
    ensures { result ≡ begins_in_any_case (element_name element) ends_tag_name tag.now }
{
    let name = name_of(element);
    for (i, letter) in name.iter().enumerate() {
        match tag.get(i) {
            Some(byte) if byte.to_ascii_lowercase() == *letter => {}
            _ => return false,
        }
    }
    ends_tag_name(&tag[name.len()..])
}

fn ends_tag_name(rest: &[u8]) -> bool
    ensures { result ≡ ends_tag_name rest.now }
{
    matches!(
        rest.first(),
        Some(b'\t' | b'\n' | b'\x0c' | b' ' | b'/' | b'>')
    )
}

fn name_of(element: Element) -> &'static [u8]
    ensures { result.now ≡ element_name element }
{
    match element {
        Element::Script => b"script",
        Element::Style => b"style",
    }
}
