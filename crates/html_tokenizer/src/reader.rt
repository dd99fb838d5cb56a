//! The running tokenizer.
pub(crate) mod names;
pub(crate) mod same;
pub(crate) mod stretches;

ghost use Rattle.std.specs.Prelude.{◌≡◌, ◌≤◌, ◌↔◌, ℕ, List, [], IfOk, OnOk, IsTrue, length};
ghost use Rattle.html_tokenizer.specs.Standing.{AfterStanding, in_content, in_declaration, in_list, is_between_attributes, is_refused, may_end, standing, unless_forbidden};
ghost use Rattle.html_tokenizer.specs.Tokenizer.Attributes.{reference_read};
ghost use Rattle.html_tokenizer.specs.declared.states.ListPart.TheVariants.{Url};
ghost use Rattle.html_tokenizer.specs.declared.states.StylePart.TheVariants.{Value};
ghost use Rattle.html_tokenizer.specs.Tokenizer.Code.Strings.{script_escape_byte};
ghost use Rattle.html_tokenizer.specs.Tokenizer.Phases.{HoldsLetters, IsBeforeName, IsNoScriptEscape, IsTextOrValue, ReadsOn, attribute_in, moved, tokenizer_of};
ghost use Rattle.html_tokenizer.specs.Tokenizer.States.{at, data_state};
ghost use Rattle.html_tokenizer.specs.Tokenizer.Stretches.{IsSettled};
ghost use Rattle.html_tokenizer.specs.Tokenizer.Tokenization.{consume, state_after};
ghost use Rattle.html_tokenizer.specs.UrlValues.{is_of_urls};
ghost use Rattle.html_tokenizer.specs.declared.states.Kind.TheVariants as kind;
ghost use Rattle.html_tokenizer.specs.declared.states.Phase.TheVariants as phase;

use crate::code::escapes::is_opaque;
use crate::code::is_script;
use crate::code::strings::script_escape_byte;
use crate::consume::{byte_in, name_byte, text_or_value_byte};
use crate::elements::{Content, OpenElement};
use crate::reader::names::{MOST_LETTERS, begun_name, read_letters};
use crate::reader::same::{holds_word, is_same_content, is_same_kind, is_same_phase};
use crate::reader::stretches::{script_words, stretch, text_stretch};
use crate::slot_place::SlotPlace;
use crate::states::{Code, Kind, Move, Phase, Word, goes, refuses, to};
use std::alloc::{AllocError, Allocator};

/// Where a slot stands.
#[derive(Clone, Copy, Debug, PartialEq, Eq)]
pub enum Standing {
    /// At a place for a text.
    Stands(SlotPlace),
    /// In a URL, at this place of the page.
    InUrl(SlotPlace),
    /// The same in a URL that its element only shows or follows.
    InLink(SlotPlace),
    /// In a URL of the list of a `srcset` attribute, at this place of the page, in quotes.
    InListedUrl(SlotPlace),
    /// In the value of a declaration of a `style` attribute, at this place of the page.
    InDeclaration(SlotPlace),
    /// In the code of a script, where a string literal would be a token of its own.
    InScript,
    /// In a data block of JSON, behind white space alone.
    InJson,
    /// Where a text would be read in a second language.
    Barred,
    /// Where no text may stand.
    Nowhere,
}

/// A tokenizer, and where it is.
#[derive(Drop)]
pub struct Reader<A: Allocator> {
    phase: Phase,
    content: Content,
    kind: Kind,
    word: Vec<u8, A>,
}

// A slot in the value of a declaration, in quotes or not.
fn in_declaration(place: SlotPlace) -> Standing
    ensures { result ≡ in_declaration Value place }
{
    match place {
        SlotPlace::DoubleQuoted | SlotPlace::SingleQuoted => Standing::InDeclaration(place),
        _ => Standing::Barred,
    }
}

// A slot in a URL of a list, in quotes or not.
fn in_list(place: SlotPlace) -> Standing
    ensures { result ≡ in_list Url place }
{
    match place {
        SlotPlace::DoubleQuoted | SlotPlace::SingleQuoted => Standing::InListedUrl(place),
        _ => Standing::Barred,
    }
}

// A slot in a value.
fn unless_forbidden(kind: Kind, place: SlotPlace) -> Standing
    ensures { (word : List ℕ) → result ≡ unless_forbidden (attribute_in kind word) place }
{
    match kind {
        Kind::Ordinary => Standing::Stands(place),
        Kind::Url | Kind::RawUrl => Standing::InUrl(place),
        Kind::Link => Standing::InLink(place),
        Kind::DeclarationValue => in_declaration(place),
        Kind::ListedUrl => in_list(place),
        _ => Standing::Barred,
    }
}

// The same in the content of this element.
fn in_content(element: OpenElement, standing: Standing) -> Standing
    ensures { result ≡ in_content element standing }
{
    match (element, standing) {
        (OpenElement::NoScript, Standing::InUrl(place)) => Standing::InUrl(place),
        (OpenElement::NoScript, _) => Standing::Barred,
        _ => standing,
    }
}

// Whether it is the same state, of those that `read_markup` goes through.
#[inline(always)]
fn is_same(phase: Phase, other: Phase) -> bool
    ensures { IsTrue result → phase ≡ other }
{
    matches!(
        (phase, other),
        (Phase::In(SlotPlace::Text), Phase::In(SlotPlace::Text))
            | (
                Phase::In(SlotPlace::DoubleQuoted),
                Phase::In(SlotPlace::DoubleQuoted)
            )
            | (
                Phase::In(SlotPlace::SingleQuoted),
                Phase::In(SlotPlace::SingleQuoted)
            )
            | (Phase::TagOpen, Phase::TagOpen)
            | (Phase::EndTagOpen, Phase::EndTagOpen)
            | (Phase::BeforeName, Phase::BeforeName)
            | (Phase::BeforeValue, Phase::BeforeValue)
            | (Phase::AfterValue, Phase::AfterValue)
    )
}

impl<A: Allocator> Reader<A> {
    /// At the beginning of a page.
    ///
    /// Of `Reader::new(alloc)`, `may_end()` is `true`.
    pub fn new(alloc: A) -> Reader<A>
        ensures { tokenizer_of result ≡ data_state }
    {
        Reader {
            phase: Phase::In(SlotPlace::Text),
            content: Content::NORMAL,
            kind: Kind::Ordinary,
            word: Vec::new(alloc),
        }
    }

    #[inline(always)]
    fn go(&mut self, next: Move) -> Result<(), AllocError>
        ensures { OnOk result (tokenizer_of self.new ≡ moved next self.old.word.items) }
    {
        match next.word {
            Word::New => self.word.clear(),
            Word::Keep => {}
            Word::Begin(byte) => {
                self.word.clear();
                self.word.push(byte)?;
            }
            Word::Add(byte) => self.word.push(byte)?,
        }
        self.phase = next.phase;
        self.content = next.content;
        self.kind = next.kind;
        Ok(())
    }

    // Reads on in an escape of a script.
    fn escape(&mut self, place: SlotPlace, byte: u8) -> Result<(), AllocError>
        ensures { OnOk result (tokenizer_of self.new
            ≡ (script_escape_byte place self.old.content
            (reference_read (attribute_in self.old.kind self.old.word.items))
            self.old.word.items byte).next) }
    {
        self.word.push(byte)?;
        let next = script_escape_byte(place, self.content, self.kind, &self.word, byte);
        self.go(next)
    }

    // Reads a byte in this state, which is known where the call is compiled.
    #[inline(always)]
    #[tactic(auto, unfolding(crate::specs::Tokenizer::Tokenization::consume))]
    fn step_in(&mut self, phase: Phase, byte: u8) -> Result<(), AllocError>
        requires phase { self.old.phase ≡ phase }
        requires no_escape { IsNoScriptEscape phase }
        ensures { OnOk result (tokenizer_of self.new
            ≡ (consume (tokenizer_of self.old) byte).next) }
    {
        let next = byte_in(phase, self.content, self.kind, &self.word, byte);
        self.go(next)
    }

    #[tactic(auto, unfolding(crate::specs::Tokenizer::Tokenization::consume))]
    fn step(&mut self, byte: u8) -> Result<(), AllocError>
        ensures { OnOk result (tokenizer_of self.new
            ≡ (consume (tokenizer_of self.old) byte).next) }
    {
        match self.phase {
            Phase::Within(SlotPlace::ScriptSingle) => self.escape(SlotPlace::ScriptSingle, byte),
            Phase::Within(SlotPlace::ScriptDouble) => self.escape(SlotPlace::ScriptDouble, byte),
            phase => self.step_in(phase, byte),
        }
    }

    // Goes where this word leads, which is held only if it is needed there.
    #[inline(always)]
    fn go_from(&mut self, word: &[u8], next: Move) -> Result<(), AllocError>
        ensures { OnOk result (tokenizer_of self.new ≡ moved next word.now) }
    {
        match next.word {
            Word::New => self.go(next),
            _ => {
                self.word.clear();
                self.word.extend_from_slice(word)?;
                self.go(next)
            }
        }
    }

    // Reads on in this state, over the bytes that leave it as it is and over the next one.
    #[inline(always)]
    fn read_on(&mut self, phase: Phase, bytes: &[u8], done: &mut usize) -> Result<(), AllocError>
        requires phase { self.old.phase ≡ phase }
        requires no_escape { IsNoScriptEscape phase }
        requires within { done.old ≤ length bytes.now }
        ensures { OnOk result (ReadsOn (tokenizer_of self.old) (tokenizer_of self.new)
            bytes.now done.old done.new) }
    {
        *done += stretch(phase, self.content, self.kind, &bytes[*done..]);
        if *done == bytes.len() {
            return Ok(());
        }
        self.step_in(phase, bytes[*done])?;
        *done += 1;
        Ok(())
    }

    // The same in this state of text or a value, if it is the state. Compiled for it alone.
    #[inline(always)]
    fn read_in(&mut self, phase: Phase, bytes: &[u8], done: &mut usize) -> Result<(), AllocError>
        requires phase { IsTextOrValue phase }
        requires within { done.old ≤ length bytes.now }
        ensures { OnOk result (ReadsOn (tokenizer_of self.old) (tokenizer_of self.new)
            bytes.now done.old done.new) }
    {
        if !is_same(self.phase, phase) {
            return Ok(());
        }
        *done += text_stretch(phase, self.kind, &bytes[*done..]);
        if *done == bytes.len() {
            return Ok(());
        }
        let next = text_or_value_byte(phase, self.content, self.kind, &self.word, bytes[*done]);
        self.go(next)?;
        *done += 1;
        Ok(())
    }

    // Reads over the `/` of an end tag, if it comes now.
    #[inline(always)]
    fn read_slash(&mut self, bytes: &[u8], done: &mut usize) -> Result<(), AllocError>
        requires { done.old ≤ length bytes.now }
        ensures { OnOk result (ReadsOn (tokenizer_of self.old) (tokenizer_of self.new)
            bytes.now done.old done.new) }
    {
        if !is_same(self.phase, Phase::TagOpen) || *done == bytes.len() || bytes[*done] != b'/' {
            return Ok(());
        }
        self.go(to(Phase::EndTagOpen, self.content))?;
        *done += 1;
        Ok(())
    }

    // Reads over the next byte in this state, if it is the state, and over the name that begins there
    // and its end.
    #[inline(always)]
    fn read_name(&mut self, phase: Phase, bytes: &[u8], done: &mut usize) -> Result<(), AllocError>
        requires phase { IsBeforeName phase }
        requires within { done.old ≤ length bytes.now }
        ensures { OnOk result (ReadsOn (tokenizer_of self.old) (tokenizer_of self.new)
            bytes.now done.old done.new) }
    {
        if !is_same(self.phase, phase) || *done == bytes.len() {
            return Ok(());
        }
        let byte = bytes[*done];
        *done += 1;
        let Some((name, letter)) = begun_name(phase, self.content, byte) else {
            self.step(byte)?;
            return Ok(());
        };
        let mut letters = [0; MOST_LETTERS];
        letters[0] = letter;
        let count = read_letters(name, &bytes[*done..], &mut letters, 1);
        *done += count;
        let word = &letters[..1 + count];
        if *done == bytes.len() {
            self.go_from(word, goes(name, self.content, Word::Keep))?;
            return Ok(());
        }
        let next = name_byte(name, self.content, word, bytes[*done]);
        *done += 1;
        self.go_from(word, next)?;
        Ok(())
    }

    // Reads on through values, text and tags, in the order of their states.
    #[inline(always)]
    fn read_markup(&mut self, bytes: &[u8], done: &mut usize) -> Result<(), AllocError>
        requires { done.old ≤ length bytes.now }
        ensures { OnOk result (ReadsOn (tokenizer_of self.old) (tokenizer_of self.new)
            bytes.now done.old done.new) }
    {
        self.read_in(Phase::In(SlotPlace::DoubleQuoted), bytes, done)?;
        self.read_in(Phase::In(SlotPlace::SingleQuoted), bytes, done)?;
        self.read_in(Phase::AfterValue, bytes, done)?;
        self.read_in(Phase::In(SlotPlace::Text), bytes, done)?;
        self.read_slash(bytes, done)?;
        self.read_name(Phase::TagOpen, bytes, done)?;
        self.read_name(Phase::EndTagOpen, bytes, done)?;
        self.read_name(Phase::BeforeName, bytes, done)?;
        self.read_in(Phase::BeforeValue, bytes, done)
    }

    // Reads on in a name, a reference or an end tag of text or code.
    #[inline]
    fn read_held(&mut self, bytes: &[u8], done: &mut usize) -> Result<(), AllocError>
        requires kind { IsSettled self.old.kind }
        requires letters { HoldsLetters self.old.phase (attribute_in self.old.kind []) }
        requires within { done.old ≤ length bytes.now }
        ensures { OnOk result (ReadsOn (tokenizer_of self.old) (tokenizer_of self.new)
            bytes.now done.old done.new) }
    {
        let mut letters = [0; MOST_LETTERS];
        let count = read_letters(self.phase, &bytes[*done..], &mut letters, 0);
        self.word.extend_from_slice(&letters[..count])?;
        *done += count;
        Ok(())
    }

    // Reads on in code, over the words of a script and what ends them.
    #[inline(always)]
    fn read_code(&mut self, code: Code, bytes: &[u8], done: &mut usize) -> Result<(), AllocError>
        requires phase { self.old.phase ≡ phase.InCode code }
        requires kind { self.old.kind ≡ kind.Ordinary }
        requires within { done.old ≤ length bytes.now }
        ensures { OnOk result (ReadsOn (tokenizer_of self.old) (tokenizer_of self.new)
            bytes.now done.old done.new) }
    {
        if self.content.element == OpenElement::Script {
            let (count, reached) = script_words(code, &bytes[*done..]);
            self.phase = Phase::InCode(reached);
            *done += count;
            self.read_on(Phase::InCode(reached), bytes, done)?;
            return Ok(());
        }
        self.read_on(Phase::InCode(code), bytes, done)
    }

    // Reads on by more than a byte, if the state has a way.
    #[inline(always)]
    fn read_more(&mut self, bytes: &[u8], done: &mut usize) -> Result<(), AllocError>
        requires { done.old ≤ length bytes.now }
        ensures { OnOk result (ReadsOn (tokenizer_of self.old) (tokenizer_of self.new)
            bytes.now done.old done.new) }
    {
        match (self.phase, self.kind) {
            (Phase::InCode(code), Kind::Ordinary) => self.read_code(code, bytes, done),
            (
                Phase::TagName
                | Phase::EndTagName
                | Phase::Name
                | Phase::ValueEndTag(_)
                | Phase::CodeEndTag(_),
                Kind::Ordinary,
            )
            | (
                Phase::Within(_),
                Kind::Ordinary | Kind::Forbidden | Kind::Link | Kind::Url | Kind::FixedUrl,
            ) => self.read_held(bytes, done),
            (
                Phase::In(SlotPlace::Text | SlotPlace::DoubleQuoted | SlotPlace::SingleQuoted)
                | Phase::TagOpen
                | Phase::EndTagOpen
                | Phase::BeforeName
                | Phase::BeforeValue
                | Phase::AfterValue,
                _,
            ) => self.read_markup(bytes, done),
            (Phase::Within(_), _) => Ok(()),
            (phase, _) => self.read_on(phase, bytes, done),
        }
    }

    /// Reads on.
    ///
    /// After `reader.read(b"<p title=\"")?`, `slot()` is `Standing::Stands(SlotPlace::DoubleQuoted)`.
    pub fn read(&mut self, bytes: &[u8]) -> Result<(), AllocError>
        ensures { OnOk result (tokenizer_of self.new
            ≡ state_after (tokenizer_of self.old) bytes.now) }
    {
        // The search for a stretch of one byte costs more than a step.
        if let [byte] = bytes {
            return self.step(*byte);
        }
        let mut done = 0;
        'bytes: while done < bytes.len() {
            // Nothing leads out of a refusal.
            if let Phase::Refused = self.phase {
                self.go(refuses())?;
                return Ok(());
            }
            let before = done;
            self.read_more(bytes, &mut done)?;
            if done != before {
                continue 'bytes;
            }
            self.step(bytes[done])?;
            done += 1;
        }
        Ok(())
    }

    /// Whether a page may end here.
    ///
    /// After `<p>` it is `true`, and after `<p` it is `false`.
    pub fn may_end(&self) -> bool
        ensures test { result ≡ may_end (tokenizer_of self.now) }
        ensures outside { IsTrue result ↔ (tokenizer_of self.now ≡ data_state) }
    {
        self.phase == Phase::In(SlotPlace::Text)
            && self.content.element == OpenElement::Normal
            && self.content.templates == 0
            && self.kind == Kind::Ordinary
    }

    /// The same tokenizer once more.
    ///
    /// Of one after `<p title="`, the copy reads on in the value.
    pub fn copy(&self, alloc: A) -> Result<Reader<A>, AllocError>
        ensures { IfOk result (λ copy. tokenizer_of copy ≡ tokenizer_of self.now) }
    {
        let mut word = Vec::new(alloc);
        word.extend_from_slice(&self.word)?;
        Ok(Reader {
            phase: self.phase,
            content: self.content,
            kind: self.kind,
            word,
        })
    }

    /// Whether both are in the same state.
    ///
    /// Of two after `<p>` and after `<p></p>` it is `true`.
    pub fn is_same(&self, other: &Reader<A>) -> bool
        ensures { IsTrue result → tokenizer_of self.now ≡ tokenizer_of other.now }
    {
        if !is_same_phase(self.phase, other.phase) {
            return false;
        }
        if !is_same_content(self.content, other.content) {
            return false;
        }
        if !is_same_kind(self.kind, other.kind) {
            return false;
        }
        if !holds_word(self.phase, self.kind) {
            return true;
        }
        self.word.as_slice() == other.word.as_slice()
    }

    /// Whether the value of an attribute that holds a URL, or a list of URLs, is read.
    ///
    /// After `<a href="` it is `true`, and after `<a title="` `false`.
    pub fn is_in_url(&self) -> bool
        ensures { result ≡ is_of_urls (tokenizer_of self.now).attribute }
    {
        match self.kind {
            Kind::Link | Kind::Url | Kind::FixedUrl | Kind::RawUrl | Kind::FixedRawUrl => true,
            Kind::BeforeListedUrl | Kind::ListedUrl | Kind::FixedListedUrl => true,
            Kind::ListedComma | Kind::Descriptors | Kind::RestOfList => true,
            Kind::Ordinary | Kind::Forbidden | Kind::Unread | Kind::Raw => false,
            Kind::BeforeDeclaration | Kind::DeclarationName | Kind::AfterDeclarationName => false,
            Kind::DeclarationValue | Kind::Important | Kind::OpaqueStyle => false,
            Kind::ScriptType | Kind::Encoding | Kind::Pragma => false,
            Kind::PageType | Kind::Relation => false,
        }
    }

    /// Whether an attribute of a start tag may begin here, behind a blank.
    ///
    /// After `<p ` it is `true`, and after `<p` it is `false`.
    pub fn is_between_attributes(&self) -> bool
        ensures { result ≡ is_between_attributes (tokenizer_of self.now).state }
    {
        matches!(
            self.phase,
            Phase::BeforeName | Phase::AfterName | Phase::AfterValue
        )
    }

    /// Whether what was read has no reading.
    ///
    /// After `<xmp>` it is `true`, and after `<p>` it is `false`.
    pub fn is_refused(&self) -> bool
        ensures { result ≡ is_refused (tokenizer_of self.now).state }
    {
        self.phase == Phase::Refused
    }

    fn standing(&self) -> Standing
        ensures { result ≡ standing (tokenizer_of self.now) }
    {
        match (self.phase, self.kind) {
            (Phase::In(place), kind) => {
                in_content(self.content.element, unless_forbidden(kind, place))
            }
            (Phase::BeforeValue, Kind::Ordinary) => Standing::Stands(SlotPlace::Unquoted),
            (Phase::BeforeValue, _) => Standing::Barred,
            (Phase::InCode(code), _) if is_opaque(code) => Standing::Barred,
            (Phase::InCode(Code::Plain), Kind::Ordinary) if is_script(self.content.element) => {
                Standing::InScript
            }
            (Phase::InCode(Code::Json), Kind::Ordinary) if is_script(self.content.element) => {
                Standing::InJson
            }
            _ => Standing::Nowhere,
        }
    }

    /// Where a slot stands that comes now; the tokenizer goes on after it, if it is a place. Else it stays where
    /// it is, as in the code of a script behind a string literal. In a data block no slot follows.
    ///
    /// After `<p>` it is `Standing::Stands(SlotPlace::Text)`, and after `<p` it is `Standing::Nowhere`.
    pub fn slot(&mut self) -> Standing
        ensures at { result ≡ standing (tokenizer_of self.old) }
        ensures after { AfterStanding result (tokenizer_of self.old) (tokenizer_of self.new) }
    {
        let standing = self.standing();
        match standing {
            Standing::Stands(place)
            | Standing::InUrl(place)
            | Standing::InLink(place)
            | Standing::InListedUrl(place)
            | Standing::InDeclaration(place) => {
                self.phase = Phase::In(place);
            }
            Standing::InJson => self.phase = Phase::InCode(Code::JsonRest),
            Standing::InScript | Standing::Barred | Standing::Nowhere => {}
        }
        standing
    }
}
