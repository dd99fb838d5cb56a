//! What the names of attributes, and the values of some of them, mean.
pub(crate) mod declarations;
pub(crate) mod encodings;
pub(crate) mod lists;

ghost use Rattle.std.specs.Prelude.{◌≡◌, ℕ, IsTrue, List, [], true};
ghost use Rattle.html_tokenizer.specs.Tokenizer.Attributes.{animation_value, attribute_of, content_after, content_after_pragma, fixed, followed, holds_declarations, holds_images, holds_language, holds_url, holds_urls, is_cache_header, is_javascript, is_json, is_script_tag, is_set_safely, is_shown_relation, is_switch, may_end_raw, names_script_type, raw_value, reference_read, resource_value, value_but_of, value_byte_read, value_of, without_value};
ghost use Rattle.html_tokenizer.specs.Tokenizer.Elements.{is_meta};
ghost use Rattle.html_tokenizer.specs.Tokenizer.Phases.{attribute_in, moved, word_after};
ghost use Rattle.html_tokenizer.specs.Tokenizer.Attributes.ListParts.{list_read};
ghost use Rattle.html_tokenizer.specs.Tokenizer.Attributes.StyleParts.{declarations_read};
ghost use Rattle.html_tokenizer.specs.Tokenizer.States.{Declarations, Listed, Ordinary};

use crate::attributes::declarations::{declarations_read, is_word};
use crate::attributes::encodings::{is_utf_8, names_no_other};
use crate::attributes::lists::list_read;
use crate::elements::{Content, OpenElement, is_meta, with_element};
use crate::states::{Kind, ListPart, Move, Phase, StylePart, Word, in_value, refuses};

fn holds_language(name: &[u8]) -> bool
    ensures { result ≡ holds_language name.now }
{
    name.starts_with(b"on") || name == b"srcdoc".as_slice()
}

fn holds_declarations(name: &[u8]) -> bool
    ensures { result ≡ holds_declarations name.now }
{
    name == b"style".as_slice()
}

fn holds_url(name: &[u8]) -> bool
    ensures { result ≡ holds_url name.now }
{
    name == b"href".as_slice()
        || name == b"src".as_slice()
        || name == b"action".as_slice()
        || name == b"formaction".as_slice()
        || name == b"data".as_slice()
        || name == b"xlink:href".as_slice()
        || name == b"poster".as_slice()
        || name == b"cite".as_slice()
        || name == b"background".as_slice()
        || name == b"longdesc".as_slice()
        || name == b"manifest".as_slice()
        || name == b"codebase".as_slice()
}

fn holds_urls(name: &[u8]) -> bool
    ensures { result ≡ holds_urls name.now }
{
    name == b"ping".as_slice()
        || name == b"archive".as_slice()
        || name == b"attributionsrc".as_slice()
}

fn holds_images(name: &[u8]) -> bool
    ensures { result ≡ holds_images name.now }
{
    name == b"srcset".as_slice() || name == b"imagesrcset".as_slice()
}

fn is_switch(name: &[u8]) -> bool
    ensures { result ≡ is_switch name.now }
{
    name == b"sandbox".as_slice()
        || name == b"allow".as_slice()
        || name == b"csp".as_slice()
        || name == b"code".as_slice()
        || name == b"classid".as_slice()
        || name == b"event".as_slice()
        || name == b"is".as_slice()
        || name == b"shadowrootmode".as_slice()
        || name == b"shadowroot".as_slice()
        || name == b"shadowrootadoptedstylesheets".as_slice()
        || name == b"charset".as_slice()
}

// The names of most attributes.
#[inline(always)]
fn is_class_or_id(name: &[u8]) -> bool
    ensures { IsTrue result → attribute_of name.now ≡ Ordinary }
{
    matches!(name, [b'c', b'l', b'a', b's', b's'] | [b'i', b'd'])
}

fn attribute_of(name: &[u8]) -> Kind
    ensures { attribute_in result [] ≡ attribute_of name.now }
{
    if is_class_or_id(name) {
        Kind::Ordinary
    } else if holds_language(name) || is_switch(name) || holds_urls(name) {
        Kind::Forbidden
    } else if holds_url(name) {
        Kind::Url
    } else if holds_declarations(name) {
        Kind::BeforeDeclaration
    } else if holds_images(name) {
        Kind::BeforeListedUrl
    } else {
        Kind::Ordinary
    }
}

// The same where the element only shows or follows its URLs.
fn followed(kind: Kind) -> Kind
    ensures { (word : List ℕ) → attribute_in result word ≡ followed (attribute_in kind word) }
{
    match kind {
        Kind::Url => Kind::Link,
        _ => kind,
    }
}

fn names_script_type(name: &[u8]) -> bool
    ensures { result ≡ names_script_type name.now }
{
    name == b"type".as_slice() || name == b"language".as_slice()
}

fn is_javascript(value: &[u8]) -> bool
    ensures { result ≡ is_javascript value.now }
{
    value == b"".as_slice()
        || value == b"module".as_slice()
        || value == b"text/javascript".as_slice()
        || value == b"application/javascript".as_slice()
}

fn is_json(value: &[u8]) -> bool
    ensures { result ≡ is_json value.now }
{
    value == b"application/json".as_slice() || value == b"application/ld+json".as_slice()
}

// After the `=` of an attribute, in which a slot is also barred if it is this one.
#[inline(never)]
fn value_but_of(barred: &[u8], content: Content, name: &[u8]) -> Move
    ensures { moved result name.now ≡ value_but_of barred.now content name.now }
{
    let kind = if name == barred {
        Kind::Forbidden
    } else {
        attribute_of(name)
    };
    in_value(Phase::BeforeValue, content, kind, Word::New)
}

// After the `=` of an attribute of a script, or of a data block.
#[inline(never)]
fn script_value(content: Content, name: &[u8]) -> Move
    requires { is_script_tag content.element ≡ true }
    ensures { moved result name.now ≡ value_of content name.now }
{
    if !names_script_type(name) {
        return value_but_of(b"for", content, name);
    }
    let kind = if content.element == OpenElement::Script && name == b"type".as_slice() {
        Kind::ScriptType
    } else {
        Kind::Forbidden
    };
    let content = with_element(content, OpenElement::DataBlock);
    in_value(Phase::BeforeValue, content, kind, Word::New)
}

// After the `=` of an attribute of a `meta`.
#[inline(never)]
fn meta_value(content: Content, name: &[u8]) -> Move
    requires { is_meta content.element ≡ true }
    ensures { moved result name.now ≡ value_of content name.now }
{
    let pragma = name == b"http-equiv".as_slice();
    let described = name == b"content".as_slice();
    let (element, kind) = match content.element {
        _ if name == b"charset".as_slice() => (content.element, Kind::Encoding),
        _ if !pragma && !described => (content.element, attribute_of(name)),
        OpenElement::Meta if pragma => (OpenElement::MetaPragma, Kind::Pragma),
        OpenElement::MetaContent if pragma => (OpenElement::MetaContent, Kind::Pragma),
        _ if pragma => return refuses(),
        OpenElement::Meta | OpenElement::MetaContent => {
            (OpenElement::MetaContent, attribute_of(name))
        }
        OpenElement::MetaType => (OpenElement::MetaType, Kind::PageType),
        element => (element, Kind::Forbidden),
    };
    let content = with_element(content, element);
    in_value(Phase::BeforeValue, content, kind, Word::New)
}

fn is_shown_relation(relation: &[u8]) -> bool
    ensures { result ≡ is_shown_relation relation.now }
{
    relation == b"alternate".as_slice()
        || relation == b"author".as_slice()
        || relation == b"canonical".as_slice()
        || relation == b"help".as_slice()
        || relation == b"icon".as_slice()
        || relation == b"shortcut icon".as_slice()
        || relation == b"apple-touch-icon".as_slice()
        || relation == b"license".as_slice()
        || relation == b"next".as_slice()
        || relation == b"prev".as_slice()
        || relation == b"search".as_slice()
}

// After the `=` of an attribute in a `noscript`.
#[inline(never)]
fn raw_value(content: Content, name: &[u8]) -> Move
    ensures { moved result name.now ≡ raw_value content name.now }
{
    if name == b"charset".as_slice() || name == b"http-equiv".as_slice() {
        return refuses();
    }
    let kind = if holds_url(name) {
        Kind::RawUrl
    } else {
        Kind::Raw
    };
    in_value(Phase::BeforeValue, content, kind, Word::New)
}

// After the `=` of an attribute of an animation in an `svg`.
#[inline(never)]
fn animation_value(content: Content, name: &[u8]) -> Move
    ensures { moved result name.now ≡ animation_value content name.now }
{
    let kind = if name == b"attributename".as_slice() {
        Kind::Pragma
    } else {
        Kind::Forbidden
    };
    in_value(Phase::BeforeValue, content, kind, Word::New)
}

// After the `=` of an attribute of a `link`.
#[inline(never)]
fn resource_value(content: Content, name: &[u8]) -> Move
    ensures { moved result name.now ≡ resource_value content name.now }
{
    let kind = if name == b"rel".as_slice() {
        Kind::Relation
    } else {
        attribute_of(name)
    };
    in_value(Phase::BeforeValue, content, kind, Word::New)
}

/// Behind an attribute without a value.
#[inline(always)]
pub(crate) fn without_value(content: Content, name: &[u8]) -> Content
    ensures { result ≡ without_value content name.now }
{
    match content.element {
        OpenElement::Script if name == b"type".as_slice() => {
            with_element(content, OpenElement::TypedScript)
        }
        _ => content,
    }
}

/// After the `=` of an attribute.
#[inline(always)]
pub(crate) fn value_of(content: Content, name: &[u8]) -> Move
    ensures { moved result name.now ≡ value_of content name.now }
{
    match content.element {
        OpenElement::Script
        | OpenElement::TypedScript
        | OpenElement::DataBlock
        | OpenElement::JsonBlock => script_value(content, name),
        element if is_meta(element) => meta_value(content, name),
        OpenElement::LinkTag => {
            let kind = followed(attribute_of(name));
            in_value(Phase::BeforeValue, content, kind, Word::New)
        }
        OpenElement::ResourceTag => resource_value(content, name),
        OpenElement::SvgAnimationTag => animation_value(content, name),
        OpenElement::EmbedTag
        | OpenElement::SvgEmbedTag
        | OpenElement::MathEmbedTag
        | OpenElement::SelectEmbedTag => value_but_of(b"type", content, name),
        OpenElement::NoScript | OpenElement::NoScriptStyle | OpenElement::NoScriptFrame => {
            raw_value(content, name)
        }
        _ => in_value(Phase::BeforeValue, content, attribute_of(name), Word::New),
    }
}

/// After the value of an attribute, if the profile has it.
#[inline(always)]
pub(crate) fn content_after(content: Content, kind: Kind, word: &[u8]) -> Option<Content>
    ensures { result ≡ content_after content (attribute_in kind word.now) }
{
    match kind {
        Kind::Ordinary | Kind::Forbidden | Kind::Link | Kind::Url | Kind::FixedUrl => Some(content),
        _ => content_after_word(content, kind, word),
    }
}

fn is_cache_header(name: &[u8]) -> bool
    ensures { result ≡ is_cache_header name.now }
{
    name == b"cache-control".as_slice()
        || name == b"expires".as_slice()
        || name == b"last-modified".as_slice()
        || name == b"pragma".as_slice()
}

// Whether an animation may set what has this name, in small letters.
fn is_set_safely(name: &[u8]) -> bool
    ensures { result ≡ is_set_safely name.now }
{
    is_word(name) && !name.starts_with(b"on") && name != b"href".as_slice()
}

fn content_after_pragma(content: Content, name: &[u8]) -> Option<Content>
    ensures { result ≡ content_after_pragma content.element content name.now }
{
    match content.element {
        OpenElement::MetaContent => {
            if name == b"x-ua-compatible".as_slice() || is_cache_header(name) {
                Some(with_element(content, OpenElement::MetaPragma))
            } else {
                None
            }
        }
        OpenElement::SvgAnimationTag if is_set_safely(name) => Some(content),
        OpenElement::SvgAnimationTag => None,
        _ if name == b"content-type".as_slice() => {
            Some(with_element(content, OpenElement::MetaType))
        }
        _ if is_cache_header(name) => Some(with_element(content, OpenElement::MetaContent)),
        _ => Some(content),
    }
}

fn content_after_word(content: Content, kind: Kind, word: &[u8]) -> Option<Content>
    ensures { result ≡ content_after content (attribute_in kind word.now) }
{
    match kind {
        Kind::ScriptType if is_javascript(word) => {
            Some(with_element(content, OpenElement::TypedScript))
        }
        Kind::ScriptType if is_json(word) => Some(with_element(content, OpenElement::JsonBlock)),
        Kind::Pragma => content_after_pragma(content, word),
        Kind::Encoding if !is_utf_8(word) => None,
        Kind::PageType if !names_no_other(word) => None,
        Kind::Relation if is_shown_relation(word) => {
            Some(with_element(content, OpenElement::LinkTag))
        }
        Kind::Relation => Some(with_element(content, OpenElement::Normal)),
        Kind::Unread => None,
        _ => Some(content),
    }
}

// A `style` after one byte more, where its value was in this part of a declaration.
fn style_read(part: StylePart, byte: u8) -> Kind
    ensures { (word : List ℕ) → attribute_in result word ≡ Declarations (declarations_read part byte) }
{
    match declarations_read(part, byte) {
        StylePart::BeforeName => Kind::BeforeDeclaration,
        StylePart::Name => Kind::DeclarationName,
        StylePart::AfterName => Kind::AfterDeclarationName,
        StylePart::Value => Kind::DeclarationValue,
        StylePart::Important => Kind::Important,
        StylePart::Opaque => Kind::OpaqueStyle,
    }
}

// A `srcset` after one byte more, where its value was in this part of the list.
fn images_read(part: ListPart, byte: u8) -> Kind
    ensures { (word : List ℕ) → attribute_in result word ≡ Listed (list_read part byte) }
{
    match list_read(part, byte) {
        ListPart::BeforeUrl => Kind::BeforeListedUrl,
        ListPart::Url => Kind::ListedUrl,
        ListPart::FixedUrl => Kind::FixedListedUrl,
        ListPart::Comma => Kind::ListedComma,
        ListPart::Descriptors => Kind::Descriptors,
        ListPart::Rest => Kind::RestOfList,
    }
}

/// After one byte more of an attribute's value, and what becomes of the word.
pub(crate) fn value_byte_read(kind: Kind, word: &[u8], byte: u8) -> (Kind, Word)
    ensures { attribute_in result.0 (word_after result.1 word.now)
        ≡ value_byte_read (attribute_in kind word.now) byte }
{
    match kind {
        Kind::ScriptType | Kind::Encoding | Kind::Pragma | Kind::PageType | Kind::Relation => {
            (kind, Word::Add(byte.to_ascii_lowercase()))
        }
        Kind::Raw if byte == b'<' => (Kind::Unread, Word::New),
        Kind::BeforeDeclaration => (style_read(StylePart::BeforeName, byte), Word::New),
        Kind::DeclarationName => (style_read(StylePart::Name, byte), Word::New),
        Kind::AfterDeclarationName => (style_read(StylePart::AfterName, byte), Word::New),
        Kind::DeclarationValue => (style_read(StylePart::Value, byte), Word::New),
        Kind::Important => (style_read(StylePart::Important, byte), Word::New),
        Kind::BeforeListedUrl => (images_read(ListPart::BeforeUrl, byte), Word::New),
        Kind::ListedUrl => (images_read(ListPart::Url, byte), Word::New),
        Kind::FixedListedUrl => (images_read(ListPart::FixedUrl, byte), Word::New),
        Kind::ListedComma => (images_read(ListPart::Comma, byte), Word::New),
        Kind::Descriptors => (images_read(ListPart::Descriptors, byte), Word::New),
        _ => (kind, Word::New),
    }
}

/// Whether the end tag of a `noscript` may begin with the byte, in a URL.
#[inline(always)]
pub(crate) fn may_end_raw(kind: Kind, byte: u8) -> bool
    ensures { (word : List ℕ) → result ≡ may_end_raw (attribute_in kind word) byte }
{
    match kind {
        Kind::RawUrl | Kind::FixedRawUrl => byte == b'<',
        _ => false,
    }
}

/// In a reference or an escape.
pub(crate) fn reference_read(kind: Kind) -> Kind
    ensures { (word more : List ℕ) → attribute_in result more
        ≡ reference_read (attribute_in kind word) }
{
    match kind {
        Kind::Ordinary | Kind::Link | Kind::Url | Kind::FixedUrl => kind,
        Kind::RawUrl | Kind::FixedRawUrl => kind,
        Kind::ListedUrl | Kind::FixedListedUrl => kind,
        Kind::BeforeListedUrl | Kind::ListedComma | Kind::Descriptors | Kind::RestOfList => {
            Kind::RestOfList
        }
        Kind::Encoding | Kind::Pragma | Kind::PageType | Kind::Unread => Kind::Unread,
        Kind::Raw => Kind::Raw,
        Kind::BeforeDeclaration
        | Kind::DeclarationName
        | Kind::AfterDeclarationName
        | Kind::DeclarationValue
        | Kind::Important
        | Kind::OpaqueStyle => Kind::OpaqueStyle,
        _ => Kind::Forbidden,
    }
}

/// The same where the value takes no slot any more.
pub(crate) fn fixed(kind: Kind) -> Kind
    ensures { (word : List ℕ) → attribute_in result word ≡ fixed (attribute_in kind word) }
{
    match kind {
        Kind::Ordinary => Kind::Forbidden,
        Kind::BeforeDeclaration
        | Kind::DeclarationName
        | Kind::AfterDeclarationName
        | Kind::DeclarationValue
        | Kind::Important
        | Kind::OpaqueStyle => Kind::OpaqueStyle,
        Kind::Link | Kind::Url => Kind::FixedUrl,
        Kind::RawUrl => Kind::FixedRawUrl,
        Kind::ListedUrl => Kind::FixedListedUrl,
        _ => kind,
    }
}
