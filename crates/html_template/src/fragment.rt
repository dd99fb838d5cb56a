//! Fragments: markup that is whole.
ghost use Rattle.std.specs.Prelude.{◌≡◌};
ghost use Rattle.std.specs.String.{string_bytes};
ghost use Rattle.html_template.specs.Structure.{IsWhole};

use html_escape::{Encoder, append};
use std::alloc::{AllocError, Allocator, Global};

/// Markup that is whole: it begins where a page may, and ends within no tag, no reference, no `template` and no
/// element whose content is read its own way. Between tags it may stand, and what follows it is tokenized as if
/// it were not there.
///
/// Pages of templates are fragments, and so are encoded texts. No string becomes one without a proof. Whole is
/// said of tokens: a fragment may leave elements open and close those around it, and what its markup does is for
/// its maker to know.
#[derive(Clone, Copy)]
pub struct Fragment<'a> {
    markup: &'a str,
    ghost whole: { IsWhole markup.now },
}

impl<'a> Fragment<'a> {
    ghost use Rattle.html_template.specs.Fragments.{markup_of};

    /// Its markup.
    ///
    /// Of the page `<b>a</b>` it is `<b>a</b>`.
    pub fn as_str(self) -> &'a str
        ensures { result.now ≡ markup_of self.entry }
    {
        self.markup
    }
}

/// A fragment that can grow.
#[derive(Drop)]
pub struct FragmentBuf<A: Allocator = Global> {
    markup: String<A>,
    ghost whole: { IsWhole (string_bytes markup) },
}

impl<A: Allocator> FragmentBuf<A> {
    ghost use Rattle.std.specs.Prelude.{◌++◌, [], OnErr, OnOk};
    ghost use Rattle.html_escape.specs.Encoders.{encoded};
    ghost use Rattle.html_escape.specs.declared.encoder.Encoder.TheVariants as encoder;
    ghost use Rattle.html_template.specs.Fragments.{markup_in, markup_of};

    /// A fragment without markup.
    pub fn new(alloc: A) -> FragmentBuf<A>
        ensures { markup_in result ≡ [] }
    {
        FragmentBuf {
            markup: String::new(alloc),
        }
    }

    /// The fragment that this page is. Each page of a template is whole, as `laws::pages_law` says.
    ///
    /// Of `<b>a</b>` it is the fragment `<b>a</b>`.
    pub fn of_page(page: String<A>) -> FragmentBuf<A>
        requires whole { IsWhole (string_bytes page) }
        ensures { markup_in result ≡ string_bytes page }
    {
        FragmentBuf { markup: page }
    }

    /// The fragment, to be handed on.
    pub fn as_fragment(&self) -> Fragment<'_>
        ensures { markup_of result ≡ markup_in self.now }
    {
        Fragment {
            markup: &self.markup,
        }
    }

    /// Appends a fragment.
    ///
    /// Behind `<b>a</b>` and `<i>c</i>` it is `<b>a</b><i>c</i>`.
    pub fn push(&mut self, fragment: Fragment<'_>) -> Result<(), AllocError>
        ensures pushed { OnOk result (markup_in self.new ≡ markup_in self.old ++ markup_of fragment.entry) }
        ensures kept { OnErr result (markup_in self.new ≡ markup_in self.old) }
    {
        self.markup.push_str(fragment.markup)
    }

    /// Appends a text, encoded.
    ///
    /// Of `a<b` it appends `a&lt;b`.
    pub fn push_text(&mut self, text: &str) -> Result<(), AllocError>
        ensures pushed { OnOk result (markup_in self.new ≡ markup_in self.old ++ encoded encoder.Text text.now) }
        ensures kept { OnErr result (markup_in self.new ≡ markup_in self.old) }
    {
        append(&mut self.markup, &Encoder::Text, text)?;
        Ok(())
    }
}
