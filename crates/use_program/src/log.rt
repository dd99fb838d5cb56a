//! A log that is read in a browser, written line by line to any writer.
ghost use Rattle.std.specs.Prelude.{OnOk};
ghost use Rattle.html_escape.specs.Words.{Appends};
ghost use Rattle.use_program.specs.Logs.{log_line};

use html_escape::encode_text_to_writer;
use std::io::{self, Write};

/// Writes `<li>MESSAGE</li>` and a line feed. It takes no memory.
pub(crate) fn write_entry<W: Write>(output: &mut W, message: &str) -> io::Result<()>
    ensures { OnOk result
        (Appends (W.contents output.old) (W.contents output.new) (log_line message.now)) }
{
    output.write_all(b"<li>")?;
    encode_text_to_writer(message, output)?;
    output.write_all(b"</li>\n")
}
