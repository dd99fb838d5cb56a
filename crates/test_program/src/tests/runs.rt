//! A run of the tool over streams and memory that fail: what it has to answer, and what is written.
use crate::tests::planted_tools::{Tool, run_as};
use hesc_tool::Fault;
use std::alloc::Global;
use test_support::{Refusing, Trouble, WeakReader, WeakWriter, Weakness};

/// The words, the input, the answer, and what is written.
#[derive(Clone, Copy)]
pub struct Run<'r> {
    pub words: &'r [&'r str],
    pub input: &'r [u8],
    pub answer: Result<(), Fault>,
    pub written: &'r [u8],
}

const CALM: Weakness = Weakness {
    step: 1,
    at: 0,
    trouble: Trouble::Calm,
};

/// Whether the run is right over streams and memory without trouble, a usage fault without reading.
pub fn is_right(alloc: Global, wanted: Run<'_>) -> bool {
    is_right_of(Tool::Sound, alloc, wanted)
}

/// The same, of a tool that may have something wrong.
pub fn is_right_of(tool: Tool, alloc: Global, wanted: Run<'_>) -> bool {
    let mut input = WeakReader::new(wanted.input, CALM);
    let mut output = WeakWriter::new(alloc, CALM);
    let answer = run_as(tool, alloc, wanted.words, &mut input, &mut output);
    answer == wanted.answer
        && output.taken.as_slice() == wanted.written
        && output.was_only_written()
        && (answer != Err(Fault::Usage) || input.calls == 0)
}

// More requests than a run makes.
const REQUESTS: u64 = 64;

/// Whether the run answers Memory and writes nothing where a request is refused, whichever it is,
/// and else is right.
pub fn survives_refusals(alloc: Global, wanted: Run<'_>) -> bool {
    survives_refusals_of(Tool::Sound, alloc, wanted)
}

/// The same, of a tool that may have something wrong.
pub fn survives_refusals_of(tool: Tool, alloc: Global, wanted: Run<'_>) -> bool {
    for number in 1..=REQUESTS {
        let heap = Refusing::new(alloc, number);
        let mut input = WeakReader::new(wanted.input, CALM);
        let mut output = WeakWriter::new(alloc, CALM);
        let answer = run_as(tool, &heap, wanted.words, &mut input, &mut output);
        if heap.asked(number) < number {
            return answer == wanted.answer
                && output.taken.as_slice() == wanted.written
                && output.was_only_written();
        }
        if answer != Err(Fault::Memory) || output.calls != 0 || output.flushes != 0 {
            return false;
        }
    }
    false
}

/// Whether the run answers Read and writes nothing where the reader fails, whichever call it is.
/// A run that reads all its input calls once for each byte, and once more for its end.
pub fn survives_readers(alloc: Global, wanted: Run<'_>) -> bool {
    survives_readers_of(Tool::Sound, alloc, wanted)
}

/// The same, of a tool that may have something wrong.
pub fn survives_readers_of(tool: Tool, alloc: Global, wanted: Run<'_>) -> bool {
    for trouble in [Trouble::Fails, Trouble::Interrupted] {
        for at in 1..=wanted.input.len() as u64 + 1 {
            let mut input = WeakReader::new(wanted.input, Weakness::byte_by_byte(at, trouble));
            let mut output = WeakWriter::new(alloc, CALM);
            let answer = run_as(tool, alloc, wanted.words, &mut input, &mut output);
            if answer != Err(Fault::Read) || output.calls != 0 || output.flushes != 0 {
                return false;
            }
        }
    }
    true
}

/// Whether the run answers Write where the writer has trouble, whichever call it is, and the bytes
/// before it have gone out.
pub fn survives_writers(alloc: Global, wanted: Run<'_>) -> bool {
    survives_writers_of(Tool::Sound, alloc, wanted)
}

/// The same, of a tool that may have something wrong.
pub fn survives_writers_of(tool: Tool, alloc: Global, wanted: Run<'_>) -> bool {
    for trouble in [Trouble::Fails, Trouble::Interrupted, Trouble::Idle] {
        for at in 1..=wanted.written.len() as u64 {
            let mut input = WeakReader::new(wanted.input, CALM);
            let mut output = WeakWriter::new(alloc, Weakness::byte_by_byte(at, trouble));
            let answer = run_as(tool, alloc, wanted.words, &mut input, &mut output);
            if answer != Err(Fault::Write)
                || output.calls != at
                || output.taken.len() as u64 + 1 != at
                || !output.was_only_written()
                || !wanted.written.starts_with(output.taken.as_slice())
            {
                return false;
            }
        }
    }
    true
}
