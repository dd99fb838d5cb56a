//! How the content of each element is read, by the names of its tags.
pub(crate) mod restricted;

ghost use Rattle.std.specs.Prelude.{◌≡◌, ◌||◌, ℕ, List, bytes_eq, codes};
ghost use Rattle.html_tokenizer.specs.Tokenizer.Elements.{around, beside, closed, content_of, content_state, element_of, ends_content, follows_urls, holds_comments, holds_markup, in_normal, inside, inside_element, is_meta, is_template, with_element};
ghost use Rattle.html_tokenizer.specs.Tokenizer.Phases.{state_of};

use crate::elements::restricted::{
    in_math, in_noscript, in_select, in_svg, is_left_out, runs_by_type,
};
use crate::slot_place::SlotPlace;
use crate::states::{Code, Phase};

/// How the content of the element that is open is read, and for some its tag.
#[derive(Clone, Copy, Debug, PartialEq, Eq)]
pub enum OpenElement {
    /// Text and elements.
    Normal,
    /// The content of an `svg`: text and elements.
    Svg,
    /// The content of a `math`: text and elements.
    Math,
    /// The content of a `select`: text and elements.
    Select,
    /// The content of a `noscript`: raw text where scripts run, and else text and elements.
    NoScript,
    /// Text, up to the end tag of `title`.
    Title,
    /// Text, up to the end tag of `textarea`.
    Textarea,
    /// A script in JavaScript.
    Script,
    /// The tag of such a script, behind its `type`.
    TypedScript,
    /// The tag of a script in another language, which the Standard calls a data block.
    DataBlock,
    /// The tag of a data block of JSON.
    JsonBlock,
    /// A style.
    Style,
    /// The text of an `iframe`.
    Frame,
    /// The tag of a `meta`.
    Meta,
    /// The same after a `content`, or after an `http-equiv` that user agents ignore.
    MetaContent,
    /// The same after an `http-equiv`.
    MetaPragma,
    /// The same after the `http-equiv` that says the type of the page.
    MetaType,
    /// The tag of an element that only shows or follows its URLs, as `a` and `img`.
    LinkTag,
    /// The tag of a `link`, before its `rel`.
    ResourceTag,
    /// The tag of an `embed` or an `object`.
    EmbedTag,
    /// The same in an `svg`.
    SvgEmbedTag,
    /// The same in a `math`.
    MathEmbedTag,
    /// The same in a `select`.
    SelectEmbedTag,
    /// The tag of an `svg`.
    SvgTag,
    /// In an `svg`, text up to the end tag of `title`.
    SvgTitle,
    /// The same up to that of `desc`.
    SvgDesc,
    /// In an `svg`, the tag of an animation.
    SvgAnimationTag,
    /// In an `svg`, a style.
    SvgStyle,
    /// The tag of a `math`.
    MathTag,
    /// In a `math`, text up to the end tag of `mi`.
    MathMi,
    /// The same up to that of `mo`.
    MathMo,
    /// The same up to that of `mn`.
    MathMn,
    /// The same up to that of `ms`.
    MathMs,
    /// The same up to that of `mtext`.
    MathMtext,
    /// In a `noscript`, a style.
    NoScriptStyle,
    /// In a `noscript`, text up to the end tag of `iframe`.
    NoScriptFrame,
}

/// What is open: an element whose content is read its own way, and templates.
#[derive(Clone, Copy, Debug, PartialEq, Eq)]
pub struct Content {
    /// How the content is read.
    pub element: OpenElement,
    /// How many `template` elements are open.
    pub templates: u8,
}

impl Content {
    /// Text and elements, outside of templates.
    pub const NORMAL: Content = Content {
        element: OpenElement::Normal,
        templates: 0,
    };
}

fn follows_urls(name: &[u8]) -> bool
    ensures { result ≡ follows_urls name.now }
{
    name == b"a".as_slice()
        || name == b"img".as_slice()
        || name == b"input".as_slice()
        || name == b"form".as_slice()
        || name == b"button".as_slice()
        || name == b"area".as_slice()
        || name == b"source".as_slice()
        || name == b"video".as_slice()
        || name == b"audio".as_slice()
        || name == b"track".as_slice()
        || name == b"blockquote".as_slice()
        || name == b"q".as_slice()
        || name == b"ins".as_slice()
        || name == b"del".as_slice()
}

fn in_normal(name: &[u8]) -> Option<OpenElement>
    ensures { result ≡ in_normal name.now }
{
    if name == b"script".as_slice() {
        Some(OpenElement::Script)
    } else if name == b"style".as_slice() {
        Some(OpenElement::Style)
    } else if name == b"title".as_slice() {
        Some(OpenElement::Title)
    } else if name == b"textarea".as_slice() {
        Some(OpenElement::Textarea)
    } else if name == b"meta".as_slice() {
        Some(OpenElement::Meta)
    } else if name == b"svg".as_slice() {
        Some(OpenElement::SvgTag)
    } else if name == b"math".as_slice() {
        Some(OpenElement::MathTag)
    } else if name == b"select".as_slice() {
        Some(OpenElement::Select)
    } else if name == b"noscript".as_slice() {
        Some(OpenElement::NoScript)
    } else if name == b"iframe".as_slice() {
        Some(OpenElement::Frame)
    } else if runs_by_type(name) {
        Some(OpenElement::EmbedTag)
    } else if follows_urls(name) {
        Some(OpenElement::LinkTag)
    } else if name == b"link".as_slice() {
        Some(OpenElement::ResourceTag)
    } else if is_left_out(name) {
        None
    } else {
        Some(OpenElement::Normal)
    }
}

fn element_of(element: OpenElement, name: &[u8]) -> Option<OpenElement>
    ensures { result ≡ element_of element name.now }
{
    match element {
        OpenElement::Svg => in_svg(name),
        OpenElement::Math => in_math(name),
        OpenElement::Select => in_select(name),
        OpenElement::NoScript => in_noscript(name),
        _ => in_normal(name),
    }
}

fn is_template(name: &[u8]) -> bool
    ensures { result ≡ is_template name.now }
{
    name == b"template".as_slice()
}

/// The same with another element.
pub(crate) fn with_element(content: Content, element: OpenElement) -> Content
    ensures { result ≡ with_element content element }
{
    Content { element, ..content }
}

// The names that are asked for in a normal content and have fewer than three letters.
#[inline(always)]
fn is_a_or_q(name: &[u8]) -> bool
    ensures { result ≡ (bytes_eq name.now (codes "a") || bytes_eq name.now (codes "q")) }
{
    matches!(name, [b'a' | b'q'])
}

/// What is open after the name of a start tag, if the profile has the element there.
#[inline(always)]
pub(crate) fn content_of(content: Content, name: &[u8]) -> Option<Content>
    ensures { result ≡ content_of content name.now }
{
    match content.element {
        // Most names.
        OpenElement::Normal if is_a_or_q(name) => Some(with_element(content, OpenElement::LinkTag)),
        OpenElement::Normal if name.len() < 3 => Some(with_element(content, OpenElement::Normal)),
        _ => content_of_long(content, name),
    }
}

#[inline(never)]
fn content_of_long(content: Content, name: &[u8]) -> Option<Content>
    ensures { result ≡ content_of content name.now }
{
    if is_template(name) {
        if content.element != OpenElement::Normal || content.templates == u8::MAX {
            return None;
        }
        let templates = content.templates + 1;
        Some(Content {
            templates,
            ..content
        })
    } else if content.templates != 0 && name == b"col".as_slice() {
        None
    } else {
        match element_of(content.element, name) {
            Some(element) => Some(with_element(content, element)),
            None => None,
        }
    }
}

pub(crate) fn is_meta(element: OpenElement) -> bool
    ensures { result ≡ is_meta element }
{
    matches!(
        element,
        OpenElement::Meta
            | OpenElement::MetaContent
            | OpenElement::MetaPragma
            | OpenElement::MetaType
    )
}

fn inside_element(element: OpenElement) -> OpenElement
    ensures { result ≡ inside_element element }
{
    match element {
        OpenElement::Meta
        | OpenElement::MetaContent
        | OpenElement::MetaPragma
        | OpenElement::MetaType
        | OpenElement::LinkTag
        | OpenElement::ResourceTag
        | OpenElement::EmbedTag => OpenElement::Normal,
        OpenElement::TypedScript | OpenElement::DataBlock | OpenElement::JsonBlock => {
            OpenElement::Script
        }
        OpenElement::SvgTag | OpenElement::SvgEmbedTag | OpenElement::SvgAnimationTag => {
            OpenElement::Svg
        }
        OpenElement::MathTag | OpenElement::MathEmbedTag => OpenElement::Math,
        OpenElement::SelectEmbedTag => OpenElement::Select,
        _ => element,
    }
}

/// What is open after the `>` of a start tag.
#[inline(always)]
pub(crate) fn inside(content: Content) -> Content
    ensures { result ≡ inside content }
{
    with_element(content, inside_element(content.element))
}

/// Where the content of an element begins.
pub(crate) fn content_phase(element: OpenElement) -> Phase
    ensures { (word : List ℕ) → state_of result word ≡ content_state element }
{
    match element {
        OpenElement::Script | OpenElement::TypedScript => Phase::InCode(Code::Plain),
        OpenElement::JsonBlock => Phase::InCode(Code::Json),
        OpenElement::Style => Phase::InCode(Code::Front),
        OpenElement::Frame
        | OpenElement::DataBlock
        | OpenElement::SvgStyle
        | OpenElement::NoScriptStyle
        | OpenElement::NoScriptFrame => Phase::InCode(Code::Opaque),
        _ => Phase::In(SlotPlace::Text),
    }
}

/// Whether tags begin in the content.
#[inline(always)]
pub(crate) fn holds_markup(element: OpenElement) -> bool
    ensures { result ≡ holds_markup element }
{
    matches!(
        element,
        OpenElement::Normal
            | OpenElement::Svg
            | OpenElement::Math
            | OpenElement::Select
            | OpenElement::NoScript
    )
}

/// Whether comments begin in the content.
#[inline(always)]
pub(crate) fn holds_comments(element: OpenElement) -> bool
    ensures { result ≡ holds_comments element }
{
    matches!(
        element,
        OpenElement::Normal | OpenElement::Svg | OpenElement::Math | OpenElement::Select
    )
}

/// How it is read after the `/>` of a start tag, if the profile has it there.
pub(crate) fn beside(element: OpenElement) -> Option<OpenElement>
    ensures { result ≡ beside element }
{
    match element {
        OpenElement::SvgTag | OpenElement::MathTag => Some(OpenElement::Normal),
        OpenElement::SvgTitle | OpenElement::SvgStyle => None,
        OpenElement::SvgDesc => Some(OpenElement::Svg),
        OpenElement::MathMi
        | OpenElement::MathMo
        | OpenElement::MathMn
        | OpenElement::MathMs
        | OpenElement::MathMtext => Some(OpenElement::Math),
        _ => Some(inside_element(element)),
    }
}

/// Whether an end tag of this name ends the content.
#[inline(always)]
pub(crate) fn ends_content(element: OpenElement, name: &[u8]) -> bool
    ensures { result ≡ ends_content element name.now }
{
    match element {
        OpenElement::SvgTitle => name == b"title".as_slice(),
        OpenElement::SvgDesc => name == b"desc".as_slice(),
        OpenElement::SvgStyle | OpenElement::NoScriptStyle => name == b"style".as_slice(),
        OpenElement::MathMi => name == b"mi".as_slice(),
        OpenElement::MathMo => name == b"mo".as_slice(),
        OpenElement::MathMn => name == b"mn".as_slice(),
        OpenElement::MathMs => name == b"ms".as_slice(),
        OpenElement::MathMtext => name == b"mtext".as_slice(),
        OpenElement::NoScript => !is_template(name),
        OpenElement::NoScriptFrame => name == b"iframe".as_slice(),
        _ => true,
    }
}

fn around(element: OpenElement, name: &[u8]) -> OpenElement
    ensures { result ≡ around element name.now }
{
    match element {
        OpenElement::Svg if name != b"svg".as_slice() => OpenElement::Svg,
        OpenElement::SvgTitle | OpenElement::SvgDesc | OpenElement::SvgStyle => OpenElement::Svg,
        OpenElement::Math if name != b"math".as_slice() => OpenElement::Math,
        OpenElement::Select if name != b"select".as_slice() => OpenElement::Select,
        OpenElement::NoScript if name != b"noscript".as_slice() => OpenElement::NoScript,
        OpenElement::NoScriptStyle | OpenElement::NoScriptFrame => OpenElement::NoScript,
        OpenElement::MathMi
        | OpenElement::MathMo
        | OpenElement::MathMn
        | OpenElement::MathMs
        | OpenElement::MathMtext => OpenElement::Math,
        _ => OpenElement::Normal,
    }
}

/// What is open after the name of an end tag.
#[inline(always)]
pub(crate) fn closed(content: Content, name: &[u8]) -> Content
    ensures { result ≡ closed content name.now }
{
    let templates = if content.templates != 0 && is_template(name) {
        content.templates - 1
    } else {
        content.templates
    };
    let element = around(content.element, name);
    Content { element, templates }
}
