//! What contracts see of a page that is written: the text that is to go out.
ghost use Rattle.std.specs.Prelude.{◌≡◌, ℕ, List, [], ◌++◌};
ghost use Rattle.html_escape.specs.Encoders.{encoded};

use html_escape::Encoder;
use std::marker::{Model, PhantomData};

/// The text that is to go out, which proofs alone see. It takes no room.
///
/// A proof may pick any text (`saying`), and that is sound: there is one of any bytes, and no code reads
/// it. What is real is tied to it by the clauses of `PageWriter`.
#[derive(Drop)]
pub(crate) struct PageText {
    marker: PhantomData<()>,
    pub ghost text: { List ℕ },
}

impl Model for PageText {
    ghost use base.Fml.{ftrue};

    ghost also_owns = { λ _. ftrue };
}

impl PageText {
    /// That of a page with nothing in it.
    #[inline(always)]
    pub(crate) fn new() -> PageText
        ensures { result.text ≡ [] }
    {
        PageText {
            marker: PhantomData,
        }
    }

    /// The same with markup after it.
    #[inline(always)]
    pub(crate) fn after_markup(&self, markup: &str) -> PageText
        ensures { result.text ≡ self.now.text ++ markup.now }
    {
        PageText::saying(self, &Encoder::Text, markup.as_bytes())
    }

    /// The same with an encoded text after it.
    #[inline(always)]
    pub(crate) fn after_text(&self, encoder: Encoder, text: &str) -> PageText
        ensures { result.text ≡ self.now.text ++ encoded encoder text.now }
    {
        PageText::saying(self, &encoder, text.as_bytes())
    }

    // One that says what its caller picks, by these.
    #[inline(always)]
    fn saying(_before: &PageText, _encoder: &Encoder, _piece: &[u8]) -> PageText
        ghost said: { List ℕ }
        ensures { result.text ≡ said }
    {
        PageText {
            marker: PhantomData,
        }
    }
}
