//! Which elements are taken in the contents of `svg`, `math`, `select` and `noscript`.
ghost use Rattle.std.specs.Prelude.{◌≡◌};
ghost use Rattle.html_tokenizer.specs.Tokenizer.Elements.Restricted.{in_math, in_noscript, in_select, in_svg, is_animation, is_left_out, is_left_out_of_svg, is_not_foreign, is_read_apart, is_text_alone, runs_by_type};

use crate::elements::OpenElement;

#[inline(always)]
pub(crate) fn is_left_out(name: &[u8]) -> bool
    ensures { result ≡ is_left_out name.now }
{
    name == b"xmp".as_slice()
        || name == b"plaintext".as_slice()
        || name == b"noembed".as_slice()
        || name == b"noframes".as_slice()
        || name == b"frameset".as_slice()
}

pub(crate) fn runs_by_type(name: &[u8]) -> bool
    ensures { result ≡ runs_by_type name.now }
{
    name == b"embed".as_slice() || name == b"object".as_slice()
}

fn is_read_apart(name: &[u8]) -> bool
    ensures { result ≡ is_read_apart name.now }
{
    name == b"script".as_slice()
        || name == b"style".as_slice()
        || name == b"title".as_slice()
        || name == b"textarea".as_slice()
        || name == b"svg".as_slice()
        || name == b"math".as_slice()
        || name == b"select".as_slice()
        || name == b"noscript".as_slice()
        || name == b"iframe".as_slice()
        || is_left_out(name)
}

fn is_not_foreign(name: &[u8]) -> bool
    ensures { result ≡ is_not_foreign name.now }
{
    is_read_apart(name) || name == b"meta".as_slice() || name == b"annotation-xml".as_slice()
}

fn is_left_out_of_svg(name: &[u8]) -> bool
    ensures { result ≡ is_left_out_of_svg name.now }
{
    name == b"foreignobject".as_slice() || name == b"handler".as_slice()
}

fn is_animation(name: &[u8]) -> bool
    ensures { result ≡ is_animation name.now }
{
    name == b"animate".as_slice()
        || name == b"animatemotion".as_slice()
        || name == b"animatetransform".as_slice()
        || name == b"set".as_slice()
}

pub(crate) fn in_svg(name: &[u8]) -> Option<OpenElement>
    ensures { result ≡ in_svg name.now }
{
    if name == b"title".as_slice() {
        Some(OpenElement::SvgTitle)
    } else if name == b"desc".as_slice() {
        Some(OpenElement::SvgDesc)
    } else if name == b"style".as_slice() {
        Some(OpenElement::SvgStyle)
    } else if is_not_foreign(name) || is_left_out_of_svg(name) {
        None
    } else if is_animation(name) {
        Some(OpenElement::SvgAnimationTag)
    } else if runs_by_type(name) {
        Some(OpenElement::SvgEmbedTag)
    } else {
        Some(OpenElement::Svg)
    }
}

pub(crate) fn in_math(name: &[u8]) -> Option<OpenElement>
    ensures { result ≡ in_math name.now }
{
    if name == b"mi".as_slice() {
        Some(OpenElement::MathMi)
    } else if name == b"mo".as_slice() {
        Some(OpenElement::MathMo)
    } else if name == b"mn".as_slice() {
        Some(OpenElement::MathMn)
    } else if name == b"ms".as_slice() {
        Some(OpenElement::MathMs)
    } else if name == b"mtext".as_slice() {
        Some(OpenElement::MathMtext)
    } else if is_not_foreign(name) {
        None
    } else if runs_by_type(name) {
        Some(OpenElement::MathEmbedTag)
    } else {
        Some(OpenElement::Math)
    }
}

pub(crate) fn in_select(name: &[u8]) -> Option<OpenElement>
    ensures { result ≡ in_select name.now }
{
    if is_read_apart(name) || name == b"meta".as_slice() {
        None
    } else if runs_by_type(name) {
        Some(OpenElement::SelectEmbedTag)
    } else {
        Some(OpenElement::Select)
    }
}

pub(crate) fn in_noscript(name: &[u8]) -> Option<OpenElement>
    ensures { result ≡ in_noscript name.now }
{
    if name == b"style".as_slice() {
        Some(OpenElement::NoScriptStyle)
    } else if name == b"iframe".as_slice() {
        Some(OpenElement::NoScriptFrame)
    } else if is_read_apart(name) {
        None
    } else {
        Some(OpenElement::NoScript)
    }
}

/// Whether it is raw text that is markup in another reading.
pub(crate) fn is_text_alone(element: OpenElement) -> bool
    ensures { result ≡ is_text_alone element }
{
    matches!(
        element,
        OpenElement::SvgStyle | OpenElement::NoScriptStyle | OpenElement::NoScriptFrame
    )
}
