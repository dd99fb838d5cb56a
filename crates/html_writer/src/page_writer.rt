//! A page that is written by several writes.
ghost use Rattle.std.specs.Prelude.{◌≡◌, [], ◌++◌};
ghost use Rattle.hesc_engine.specs.Forms.{WritesText};
ghost use Rattle.html_escape.specs.Encoders.{encoded};
ghost use Rattle.html_writer.specs.PageWrites.{HasWritten, page_start, page_text};

use crate::page_text::PageText;
use hesc_engine::forms::{kept_to_writer, to_writer};
use html_escape::Encoder;
use std::io::{self, Write};
use std::snapshot::Snapshot;

/// A page that goes to a writer by several writes, of which the first fault is kept: nothing is written
/// after it, and `finish` answers it. It takes no memory and never flushes.
///
/// The writer is handed to each call, and not kept, so that a caller's proof knows all of it afterwards.
/// Nothing else is written to it meanwhile.
///
/// ```text
/// let mut page = PageWriter::new(output);
/// page.markup(output, "<p>");
/// page.text(output, Encoder::Text, text);
/// page.markup(output, "</p>");
/// page.finish(output)
/// ```
#[derive(Drop)]
pub struct PageWriter<W: Write> {
    start: Snapshot<W>,
    text: PageText,
    fault: Option<io::Error>,
}

impl<W: Write> PageWriter<W> {
    /// A page with nothing in it, which goes to this writer.
    ///
    /// `PageWriter::new(&writer)` has written nothing.
    #[inline(always)]
    pub fn new(output: &W) -> PageWriter<W>
        ensures written { HasWritten W.Write result (W.contents output.now) }
        ensures start { page_start result ≡ output.now }
        ensures nothing { page_text result ≡ [] }
    {
        PageWriter {
            start: Snapshot::of(output),
            text: PageText::new(),
            fault: None,
        }
    }

    /// Writes markup as it stands, unless there was a fault.
    ///
    /// `page.markup(&mut writer, "<p>")` writes `<p>`.
    #[inline(always)]
    #[tactic(auto, using(crate::proofs::PageWrites::written_more, crate::proofs::PageWrites::left_out))]
    pub fn markup(&mut self, output: &mut W, markup: &str)
        requires { HasWritten W.Write self.old (W.contents output.old) }
        ensures written { HasWritten W.Write self.new (W.contents output.new) }
        ensures start { page_start self.new ≡ page_start self.old }
        ensures text { page_text self.new ≡ page_text self.old ++ markup.now }
    {
        self.text = self.text.after_markup(markup);
        if self.fault.is_none() {
            self.fault = kept_to_writer(markup, output).err();
        }
    }

    /// Writes what the encoder makes of a text, unless there was a fault.
    ///
    /// `page.text(&mut writer, Encoder::Text, "a<b")` writes `a&lt;b`.
    #[inline(always)]
    #[tactic(auto, using(crate::proofs::PageWrites::written_more, crate::proofs::PageWrites::left_out))]
    pub fn text(&mut self, output: &mut W, encoder: Encoder, text: &str)
        requires { HasWritten W.Write self.old (W.contents output.old) }
        ensures written { HasWritten W.Write self.new (W.contents output.new) }
        ensures start { page_start self.new ≡ page_start self.old }
        ensures text { page_text self.new ≡ page_text self.old ++ encoded encoder text.now }
    {
        self.text = self.text.after_text(encoder, text);
        if self.fault.is_none() {
            self.fault = to_writer(&encoder, text, output).err();
        }
    }

    /// The writer's first fault, and then a beginning of the page went out, or else all of it.
    ///
    /// After `page.markup(&mut writer, "<p>")` it is `Ok(())` where `<p>` went out.
    #[inline(always)]
    pub fn finish(self, output: &W) -> io::Result<()>
        requires { HasWritten W.Write self (W.contents output.now) }
        ensures { WritesText (W.contents (page_start self)) (W.contents output.now) (page_text self)
            result }
    {
        match self.fault {
            None => Ok(()),
            Some(fault) => Err(fault),
        }
    }
}
