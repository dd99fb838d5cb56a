//! What a byte does after `<!` and in a comment.
ghost use Rattle.std.specs.Prelude.{◌≡◌, ℕ, List};
ghost use Rattle.html_tokenizer.specs.Tokenizer.Comments.{bogus_comment_byte, comment_byte, comment_dash_byte, comment_end_byte, comment_start_byte, comment_start_dash_byte, declaration_byte};
ghost use Rattle.html_tokenizer.specs.Tokenizer.Phases.{moved};
ghost use Rattle.html_tokenizer.specs.declared.states.Phase.TheVariants as phase;

use crate::elements::Content;
use crate::slot_place::SlotPlace;
use crate::states::{Move, Phase, Word, goes, refuses, to};
use crate::tags::is_space;

/// After `<!`.
#[inline(always)]
pub(crate) fn declaration_byte(content: Content, word: &[u8], byte: u8) -> Move
    ensures { moved result word.now ≡ (declaration_byte content word.now byte).next }
{
    if word == b"-".as_slice() {
        if byte == b'-' {
            to(Phase::CommentStart, content)
        } else {
            refuses()
        }
    } else if word == b"doctype".as_slice() {
        if is_space(byte) {
            to(Phase::BeforeDoctype, content)
        } else {
            refuses()
        }
    } else if byte == b'>' {
        refuses()
    } else {
        let letter = byte.to_ascii_lowercase();
        goes(Phase::Declaration, content, Word::Add(letter))
    }
}

/// In a comment that `<?` begins.
#[inline(always)]
pub(crate) fn bogus_comment_byte(content: Content, byte: u8) -> Move
    ensures { (word : List ℕ) → moved result word ≡ (bogus_comment_byte content byte).next }
{
    if byte == b'>' {
        to(Phase::In(SlotPlace::Text), content)
    } else {
        to(Phase::BogusComment, content)
    }
}

/// In a comment.
#[inline(always)]
pub(crate) fn comment_byte(content: Content, byte: u8) -> Move
    ensures { (word : List ℕ) → moved result word ≡ (comment_byte content byte).next }
{
    if byte == b'-' {
        to(Phase::CommentDash, content)
    } else {
        to(Phase::Comment, content)
    }
}

/// After `<!--` and `<!---`, where one `-` more leads on so.
#[inline(always)]
pub(crate) fn comment_start_byte(content: Content, following: Phase, byte: u8) -> Move
    ensures start { following ≡ phase.CommentStartDash
        → (word : List ℕ) → moved result word ≡ (comment_start_byte content byte).next }
    ensures dash { following ≡ phase.CommentEnd
        → (word : List ℕ) → moved result word ≡ (comment_start_dash_byte content byte).next }
{
    match byte {
        b'-' => to(following, content),
        b'>' => refuses(),
        _ => comment_byte(content, byte),
    }
}

/// After a `-` of a comment.
#[inline(always)]
pub(crate) fn comment_dash_byte(content: Content, byte: u8) -> Move
    ensures { (word : List ℕ) → moved result word ≡ (comment_dash_byte content byte).next }
{
    if byte == b'-' {
        to(Phase::CommentEnd, content)
    } else {
        comment_byte(content, byte)
    }
}

/// After a `--` of a comment.
#[inline(always)]
pub(crate) fn comment_end_byte(content: Content, byte: u8) -> Move
    ensures { (word : List ℕ) → moved result word ≡ (comment_end_byte content byte).next }
{
    match byte {
        b'>' => to(Phase::In(SlotPlace::Text), content),
        b'!' => refuses(),
        b'-' => to(Phase::CommentEnd, content),
        _ => comment_byte(content, byte),
    }
}
