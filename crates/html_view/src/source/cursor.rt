//! A cursor over one text: the next tag, and the markup before it.
ghost use Rattle.std.specs.Prelude.{◌≡◌, ◌+◌, ◌<◌, ◌≤◌, ◌^◌, IfErr, IfOk, IsSome, IsTrue, length};

use crate::faults::{Position, TagFault, ViewFault};
use crate::source::lines::{before_line, behind_line};
use crate::source::tag::{Sign, behind_tag, signed_name};
use html_template_source::cut_at;

/// What stands between `{{` and `}}`, and where.
#[derive(Clone, Copy)]
pub(crate) struct Tag<'a> {
    pub(crate) sign: Sign,
    pub(crate) name: &'a str,
    pub(crate) position: Position,
}

/// Markup, and the tag behind it. None is behind the last markup of a text.
#[derive(Clone, Copy)]
pub(crate) struct Piece<'a> {
    pub(crate) markup: &'a str,
    pub(crate) position: Position,
    pub(crate) tag: Option<Tag<'a>>,
}

/// What is left of a text.
#[derive(Clone, Copy)]
pub(crate) struct Cursor<'a> {
    text: usize,
    // How many bytes were read.
    byte: usize,
    rest: &'a str,
    // Whether a line begins here.
    begins_line: bool,
    ghost fits: { byte + length rest.now < 2 ^ 64 },
}

impl<'a> Cursor<'a> {
    ghost use Rattle.html_view.specs.Cursors.{AnswersTag, IsAtText, IsBehind, Passes, first, here_of, left, position};

    /// At the beginning of the text with this number.
    pub(crate) fn new(text: usize, source: &'a str) -> Cursor<'a>
        ensures { here_of result ≡ first text source.now }
    {
        Cursor {
            text,
            byte: 0,
            rest: source,
            begins_line: true,
        }
    }

    /// The number of the text.
    pub(crate) fn text(&self) -> usize
        ensures { result ≡ self.now.text }
    {
        self.text
    }

    /// Whether something else than a tag stands behind white space. Where it is not told, a tag may.
    pub(crate) fn is_at_text(&self) -> bool
        ensures { IsTrue result → IsAtText (here_of self.now) }
    {
        match self.rest.trim_start().as_bytes() {
            [first, ..] => *first != b'{',
            [] => false,
        }
    }

    /// Reads the next tag and the markup before it. A tag that is all of its line takes the line with it.
    pub(crate) fn next(&mut self) -> Result<Piece<'a>, ViewFault>
        ensures passes { IfOk result (λ piece.
            Passes (here_of self.old) piece.markup.now piece.tag (here_of self.new)) }
        ensures fault { IfErr result (AnswersTag (here_of self.old)) }
        ensures position { IfOk result (λ piece. piece.position ≡ position (here_of self.old)) }
        ensures shorter { length self.new.rest.now ≤ length self.old.rest.now }
        ensures less { IfOk result (λ piece. IsSome piece.tag
            → length self.new.rest.now < length self.old.rest.now) }
    {
        let position = self.position();
        let Some((markup, opened)) = cut_at(self.rest, "{{") else {
            let markup = self.rest;
            self.move_to("", false);
            return Ok(Piece {
                markup,
                position,
                tag: None,
            });
        };
        let place = Position {
            text: self.text,
            byte: self.byte + markup.len(),
        };
        let Some((inside, behind)) = cut_at(opened, "}}") else {
            return Err(ViewFault::Tag(place, TagFault::Unclosed));
        };
        let tag = match signed_name(inside) {
            Ok(tag) => Tag {
                sign: tag.sign,
                name: tag.name,
                position: place,
            },
            Err(fault) => return Err(ViewFault::Tag(place, fault)),
        };
        let Some(behind) = behind_tag(tag.sign, behind) else {
            return Err(ViewFault::Tag(place, TagFault::Raw));
        };
        let markup = self.pass(markup, tag.sign, behind);
        Ok(Piece {
            markup,
            position,
            tag: Some(tag),
        })
    }

    // Passes markup and a tag of this sign, and the line of the tag, if that is all of it. What is left
    // of the markup is told.
    fn pass(&mut self, markup: &'a str, sign: Sign, behind: &'a str) -> &'a str
        requires { length behind.now ≤ length self.old.rest.now }
        ensures markup { result.now
            ≡ (left sign self.old.begins_line markup.now behind.now).markup }
        ensures behind { IsBehind (here_of self.old)
            (left sign self.old.begins_line markup.now behind.now) (here_of self.new) }
        ensures less { length self.new.rest.now ≤ length behind.now }
    {
        if sign.may_be_lone() {
            if let Some(before) = before_line(markup, self.begins_line) {
                if let Some(behind) = behind_line(behind) {
                    self.move_to(behind, true);
                    return before;
                }
            }
        }
        self.move_to(behind, false);
        markup
    }

    fn move_to(&mut self, rest: &'a str, begins_line: bool)
        requires { length rest.now ≤ length self.old.rest.now }
        ensures text { self.new.text ≡ self.old.text }
        ensures byte { self.new.byte + length self.new.rest.now
            ≡ self.old.byte + length self.old.rest.now }
        ensures rest { self.new.rest.now ≡ rest.now }
        ensures begins { self.new.begins_line ≡ begins_line }
    {
        self.byte += self.rest.len() - rest.len();
        self.rest = rest;
        self.begins_line = begins_line;
    }

    fn position(&self) -> Position
        ensures { result ≡ position (here_of self.now) }
    {
        Position {
            text: self.text,
            byte: self.byte,
        }
    }
}
