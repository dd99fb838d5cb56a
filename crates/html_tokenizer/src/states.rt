//! The tokenizer's states as they run: without the word that some of them hold, which stands beside.
ghost use Rattle.std.specs.Prelude.{◌≡◌, ℕ, List, []};
ghost use Rattle.html_tokenizer.specs.Tokenizer.Phases.{attribute_in, moved, state_of, word_after};
ghost use Rattle.html_tokenizer.specs.Tokenizer.States.{at, at_value, refused};

use crate::elements::Content;
use crate::slot_place::SlotPlace;

/// Where the code of a script or a style is.
#[derive(Clone, Copy, Debug, PartialEq, Eq)]
pub enum Code {
    /// Between strings and comments, and in a script between words.
    Plain,
    /// In a data block of JSON, behind white space alone.
    Json,
    /// In a data block of JSON, before any `<`.
    JsonRest,
    /// In a word of a script that becomes neither `import` nor `from`.
    Name,
    /// In a word of a script, after `i`.
    LetterI,
    /// After `im`.
    LettersIm,
    /// After `imp`.
    LettersImp,
    /// After `impo`.
    LettersImpo,
    /// After `impor`.
    LettersImpor,
    /// After `import`.
    Import,
    /// In a word of a script, after `f`.
    LetterF,
    /// After `fr`.
    LettersFr,
    /// After `fro`.
    LettersFro,
    /// After `from`.
    From,
    /// After `import` and a blank.
    AfterImport,
    /// After `from` and a blank.
    AfterFrom,
    /// After a `-` of a script.
    Dash,
    /// After a `/`.
    Slash,
    /// In a comment up to the end of its line.
    LineComment,
    /// After the first byte of what may be U+2028 or U+2029.
    LineLead,
    /// After the first two bytes of what may be U+2028 or U+2029.
    LineSecond,
    /// In a comment up to `*/`.
    BlockComment,
    /// After a `*` of such a comment.
    BlockStar,
    /// Where a style begins, in white space and between comments.
    Front,
    /// After a `/` there.
    FrontSlash,
    /// In a comment there.
    FrontComment,
    /// After a `*` of such a comment.
    FrontStar,
    /// After an `@` of a style.
    At,
    /// After a `u` of a style.
    LetterU,
    /// After `ur`.
    LettersUr,
    /// After `url`.
    LettersUrl,
    /// After `url(` and white space.
    UrlOpen,
    /// In a URL without quotes.
    Url,
    /// After a `/` of such a URL.
    UrlSlash,
    /// Where the rest takes no slot, and only its end tag is looked for.
    Opaque,
    /// The same after `<!` of a script.
    EscapeStart,
    /// After `<!-`.
    EscapeStartDash,
    /// In what `<!--` begins in a script.
    Escaped,
    /// After a `-` of it.
    EscapedDash,
    /// After `--`.
    EscapedDashDash,
    /// The same after a start tag of a script in it, which hides an end tag.
    DoubleEscaped,
    /// After a `-` of it.
    DoubleEscapedDash,
    /// After `--`.
    DoubleEscapedDashDash,
}

/// A state, without its word.
#[derive(Clone, Copy, PartialEq, Eq)]
pub(crate) enum Phase {
    In(SlotPlace),
    Within(SlotPlace),
    StringLess(SlotPlace),
    TagOpen,
    EndTagOpen,
    TagName,
    EndTagName,
    ValueEndTag(SlotPlace),
    AfterEndTagName,
    BeforeName,
    Name,
    AfterName,
    BeforeValue,
    AfterValue,
    SelfClosing,
    InCode(Code),
    CodeLess(Code),
    CodeEndTag(Code),
    CodeWord(Code),
    Declaration,
    BeforeDoctype,
    Doctype,
    AfterDoctype,
    DoctypeKeyword,
    BeforePublic,
    PublicIdentifier(u8),
    AfterPublic,
    BetweenIdentifiers,
    BeforeSystem,
    SystemIdentifier(u8),
    AfterSystem,
    BogusComment,
    CommentStart,
    CommentStartDash,
    Comment,
    CommentDash,
    CommentEnd,
    Refused,
}

/// Where in a declaration the value of a `style` attribute is.
#[derive(Clone, Copy, Debug, PartialEq, Eq)]
pub enum StylePart {
    /// Before a name, in white space and behind a `;`.
    BeforeName,
    /// In a name.
    Name,
    /// In the white space behind it.
    AfterName,
    /// Behind the `:`.
    Value,
    /// Behind a `!` of the value.
    Important,
    /// Where the rest takes no slot.
    Opaque,
}

/// Where in its list of URLs the value of a `srcset` attribute is.
#[derive(Clone, Copy, Debug, PartialEq, Eq)]
pub enum ListPart {
    /// Before a URL, in white space and commas.
    BeforeUrl,
    /// In a URL.
    Url,
    /// In a URL that takes no slot any more.
    FixedUrl,
    /// Behind a comma that a URL may end in.
    Comma,
    /// Behind a URL, up to a comma.
    Descriptors,
    /// Where the list is not followed any more.
    Rest,
}

/// What an attribute's value means, without its word.
#[derive(Clone, Copy, PartialEq, Eq)]
pub(crate) enum Kind {
    Ordinary,
    Forbidden,
    // A `style`, by where in a declaration its value is. They hold nothing, as a field makes every move larger.
    BeforeDeclaration,
    DeclarationName,
    AfterDeclarationName,
    DeclarationValue,
    Important,
    OpaqueStyle,
    // A `srcset`, by where in its list the value is.
    BeforeListedUrl,
    ListedUrl,
    FixedListedUrl,
    ListedComma,
    Descriptors,
    RestOfList,
    Link,
    Url,
    FixedUrl,
    RawUrl,
    FixedRawUrl,
    ScriptType,
    Encoding,
    Pragma,
    PageType,
    Relation,
    Unread,
    Raw,
}

/// What becomes of the word.
#[derive(Clone, Copy)]
pub(crate) enum Word {
    New,
    Keep,
    Begin(u8),
    Add(u8),
}

/// Where the tokenizer goes. What makes one is inlined, so that no `Move` is put into memory.
#[derive(Clone, Copy)]
pub(crate) struct Move {
    pub(crate) phase: Phase,
    pub(crate) content: Content,
    pub(crate) kind: Kind,
    pub(crate) word: Word,
}

/// To a state of an attribute's value, or of a string's.
#[inline(always)]
pub(crate) fn in_value(phase: Phase, content: Content, kind: Kind, word: Word) -> Move
    ensures { (held : List ℕ) → moved result held
        ≡ at_value (state_of phase (word_after word held)) content
        (attribute_in kind (word_after word held)) }
{
    Move {
        phase,
        content,
        kind,
        word,
    }
}

/// To a state, outside of an attribute's value.
#[inline(always)]
pub(crate) fn goes(phase: Phase, content: Content, word: Word) -> Move
    ensures { (held : List ℕ) → moved result held
        ≡ at (state_of phase (word_after word held)) content }
{
    in_value(phase, content, Kind::Ordinary, word)
}

/// To a state that holds no word.
#[inline(always)]
pub(crate) fn to(phase: Phase, content: Content) -> Move
    ensures { (held : List ℕ) → moved result held ≡ at (state_of phase []) content }
{
    goes(phase, content, Word::New)
}

#[inline(always)]
pub(crate) fn refuses() -> Move
    ensures { (held : List ℕ) → moved result held ≡ refused }
{
    to(Phase::Refused, Content::NORMAL)
}
