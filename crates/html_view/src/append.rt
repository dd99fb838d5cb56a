//! The page of data, appended to a string and written.
ghost use Rattle.std.specs.Prelude.{◌≡◌, ◌≤◌, Ok, IfErr, OnOk};
ghost use Rattle.std.specs.List.{AllByRecursion};
ghost use Rattle.std.specs.Str.{IsUtf8};
ghost use Rattle.std.specs.String.{string_bytes};
ghost use Rattle.hesc_sinks.specs.Room.{vec_room};
ghost use Rattle.html_view.specs.Appending.{Answers, PutsBehind, fault_of, told_by};
ghost use Rattle.html_view.specs.Rendered.{Unrolling};
ghost use Rattle.html_view.specs.Views.{IsOfTexts, Writes};

use crate::data::Around;
use crate::faults::DataFault;
use crate::placed::PlacedNode;
use crate::unroll::{Refusal, Stop, put_nodes};
use hesc_core::WriterSink;
use hesc_sinks::sinks::counter::Counter;
use hesc_sinks::sinks::filled::FilledSink;
use html_template::WriteFault;
use std::alloc::Allocator;
use std::io::Write;

/// The nodes of a view, and the data around them.
#[derive(Clone, Copy)]
pub(crate) struct Rendering<'v, 's, 'a, 'p, 't, A: Allocator> {
    pub(crate) nodes: &'v Vec<PlacedNode<'a, A>, A>,
    pub(crate) around: &'s Around<'s, 'p, 't>,
}

// Why there is no page. A sink fails where it has no more room.
fn fault_of<F: Drop>(stop: Stop<F>, refusal: Refusal) -> DataFault
    ensures { result ≡ fault_of stop refusal }
{
    match stop {
        Stop::Refused => DataFault::Value(refusal.position, refusal.why),
        Stop::Failed(_) => DataFault::Memory,
    }
}

/// The string with the page behind it, or as it was.
pub(crate) fn appended<'v, 's, 'a, 'p, 't: 'p, A: Allocator, B: Allocator>(
    string: String<B>,
    rendering: &Rendering<'v, 's, 'a, 'p, 't, A>,
) -> (String<B>, Result<(), DataFault>)
    ensures { PutsBehind (told_by rendering.now) (string_bytes string) (string_bytes result.0) result.1 }
{
    let mut bytes = string.into_bytes();
    let outcome = append(&mut bytes, rendering);
    // UTF-8 after UTF-8 is UTF-8.
    (unsafe { String::from_utf8_unchecked(bytes) }, outcome)
}

// Into the room that is there, or else into as much as is counted first.
fn append<'v, 's, 'a, 'p, 't: 'p, A: Allocator, B: Allocator>(
    output: &mut Vec<u8, B>,
    rendering: &Rendering<'v, 's, 'a, 'p, 't, A>,
) -> Result<(), DataFault>
    ensures appended { PutsBehind (told_by rendering.now) output.old.items output.new.items result }
    ensures utf8 { IsUtf8 output.old.items → IsUtf8 output.new.items }
{
    let room = output.capacity() - output.len();
    match put_in_room(output, room, rendering) {
        Err(DataFault::Memory) => {}
        outcome => return outcome,
    }
    let room = count(rendering)?;
    match output.reserve(room) {
        Ok(()) => put_in_room(output, room, rendering),
        Err(_) => Err(DataFault::Memory),
    }
}

// Into so much room, or the output as it was.
fn put_in_room<'v, 's, 'a, 'p, 't: 'p, A: Allocator, B: Allocator>(
    output: &mut Vec<u8, B>,
    room: usize,
    rendering: &Rendering<'v, 's, 'a, 'p, 't, A>,
) -> Result<(), DataFault>
    requires { room ≤ vec_room output.old }
    ensures appended { PutsBehind (told_by rendering.now) output.old.items output.new.items result }
    ensures utf8 { IsUtf8 output.old.items → IsUtf8 output.new.items }
{
    let start = output.len();
    let mut refusal = Refusal::none();
    let mut sink = FilledSink::new(output, room);
    let outcome = put_nodes(rendering.nodes, rendering.around, &mut sink, &mut refusal);
    let output = sink.into_output();
    match outcome {
        Ok(()) => Ok(()),
        Err(stop) => {
            output.truncate(start);
            Err(fault_of(stop, refusal))
        }
    }
}

// The length of the page.
fn count<'v, 's, 'a, 'p, 't: 'p, A: Allocator>(
    rendering: &Rendering<'v, 's, 'a, 'p, 't, A>,
) -> Result<usize, DataFault>
    ensures { Answers (told_by rendering.now) result }
{
    let mut refusal = Refusal::none();
    let mut counter = Counter::new();
    match put_nodes(
        rendering.nodes,
        rendering.around,
        &mut counter,
        &mut refusal,
    ) {
        Ok(()) => Ok(counter.count()),
        Err(stop) => Err(fault_of(stop, refusal)),
    }
}

/// Writes the page, or a beginning of it.
pub(crate) fn write<'v, 's, 'a, 'p, 't: 'p, A: Allocator, W: Write>(
    output: &mut W,
    rendering: &Rendering<'v, 's, 'a, 'p, 't, A>,
) -> Result<(), WriteFault<DataFault>>
    ensures written { Writes (told_by rendering.now) (W.contents output.old) (W.contents output.new)
        result }
    ensures kept { IfErr result (λ fault. IsOfTexts fault → output.new ≡ output.old) }
    ensures utf8 { OnOk result ((found : Unrolling) → told_by rendering.now ≡ Ok found
        → AllByRecursion IsUtf8 found.texts) }
{
    match count(rendering) {
        Ok(_) => {}
        Err(fault) => return Err(WriteFault::Texts(fault)),
    }
    let mut refusal = Refusal::none();
    let mut sink = WriterSink::new(output);
    let outcome = put_nodes(rendering.nodes, rendering.around, &mut sink, &mut refusal);
    let _output = sink.into_output();
    match outcome {
        Ok(()) => Ok(()),
        Err(stop) => match stop {
            Stop::Failed(fault) => Err(WriteFault::Writer(fault)),
            // It was looked for before.
            Stop::Refused => Err(WriteFault::Texts(DataFault::Memory)),
        },
    }
}
