//! A caller: a log that is read in a browser, written to any writer. The contract says what went out,
//! on a fault too.
ghost use Rattle.html_escape.specs.Words.{WritesText};
ghost use Rattle.uses.specs.Writers.Logs.{list_text};

use html_escape::Encoder;
use html_writer::PageWriter;
use std::io::{self, Write};

/// Writes `<ul>`, `<li>MESSAGE</li>` for each message, and `</ul>`, or a beginning of that and then the
/// writer's fault. It takes no memory.
pub fn write_log<W: Write>(output: &mut W, messages: &[&str]) -> io::Result<()>
    ensures { WritesText (W.contents output.old) (W.contents output.new) (list_text messages.now)
        result }
{
    let mut page = PageWriter::new(output);
    page.markup(output, "<ul>");
    for message in messages {
        page.markup(output, "<li>");
        page.text(output, Encoder::Text, message);
        page.markup(output, "</li>");
    }
    page.markup(output, "</ul>");
    page.finish(output)
}
