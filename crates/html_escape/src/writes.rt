//! A page's own markup, written to a writer.
ghost use Rattle.hesc_engine.specs.Forms.{WritesText};

use hesc_core::forms::kept_to_writer;
use std::io::{self, Write};

/// Writes the markup as it stands, or a beginning of it and then the writer's fault. It takes no
/// memory and never flushes.
///
/// Of `write_all` a caller's proof does not learn what went out where it has a fault.
///
/// `write_markup(&mut writer, "<li>")?` writes `<li>`.
#[inline(always)]
pub fn write_markup<W: Write>(output: &mut W, markup: &str) -> io::Result<()>
    ensures { WritesText (W.contents output.old) (W.contents output.new) markup.now result }
{
    kept_to_writer(markup, output)
}
