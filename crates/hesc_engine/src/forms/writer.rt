//! A rule's text, or a text as it is, written to a writer.
ghost use Rattle.hesc_engine.specs.Forms.{WritesText};

use crate::engine::run;
use crate::rule::Rule;
use hesc_sinks::sink::Sink;
use hesc_sinks::sinks::writer::WriterSink;
use std::io::{self, Write};

/// Writes what `rule` makes of `text`, or a beginning of it and then the writer's fault. It takes
/// no memory and never flushes.
///
/// Of the encoder of text and `a<b` it writes `a&lt;b`.
#[inline(always)]
pub fn to_writer<R: Rule, W: Write>(rule: &R, text: &str, output: &mut W) -> Result<(), io::Error>
    ensures { WritesText (W.contents output.old) (W.contents output.new)
        (R.made rule.now text.now) result }
{
    let mut sink = WriterSink::new(output);
    let outcome = run(rule, text, &mut sink);
    let _output = sink.into_output();
    outcome
}

/// Writes `text` as it is, or a beginning of it and then the writer's fault. It takes no memory and
/// never flushes.
///
/// Of `a<b` it writes `a<b`.
#[inline(always)]
pub fn kept_to_writer<W: Write>(text: &str, output: &mut W) -> Result<(), io::Error>
    ensures { WritesText (W.contents output.old) (W.contents output.new) text.now result }
{
    let mut sink = WriterSink::new(output);
    let outcome = sink.put_some(text);
    let _output = sink.into_output();
    outcome
}
