//! The tool with something wrong, and that the tests of runs refuse it.
use crate::tests::runs::{
    Run, is_right_of, survives_readers_of, survives_refusals_of, survives_writers_of,
};
use hesc_tool::{Fault, run};
use std::alloc::Allocator;
use std::io::{Read, Write};
use std::process::Abort;

/// The tool, or what is wrong with it.
#[derive(Clone, Copy, Debug, PartialEq, Eq)]
pub enum Tool {
    Sound,
    /// Its output is written twice.
    WritesTwice,
    /// Its output is flushed.
    Flushes,
    /// Nothing is offered before the output.
    OffersNothing,
    /// A fault of the writer is passed over.
    HidesWriteFaults,
    /// A fault of the reader is taken for the end.
    HidesReadFaults,
    /// Refused memory is answered as a refused page.
    HidesRefusals,
    /// A byte is written where memory is refused.
    WritesOnRefusal,
    /// The output is flushed where the reader fails.
    FlushesOnReadFaults,
    /// A byte is read before the words are looked at.
    ReadsFirst,
}

/// A run of that tool.
pub fn run_as<A: Allocator, R: Read, W: Write>(
    tool: Tool,
    alloc: A,
    words: &[&str],
    input: &mut R,
    output: &mut W,
) -> Result<(), Fault> {
    if !is_begun(tool, input, output) {
        return Err(Fault::Read);
    }
    match run(alloc, words, input, output) {
        Ok(()) => after_success(tool, output),
        Err(Fault::Write) if tool == Tool::HidesWriteFaults => Ok(()),
        Err(Fault::Read) if tool == Tool::HidesReadFaults => Ok(()),
        Err(Fault::Memory) if tool == Tool::HidesRefusals => Err(Fault::NoPage),
        Err(Fault::Memory) if tool == Tool::WritesOnRefusal => {
            let _written = output.write(b"x");
            Err(Fault::Memory)
        }
        Err(Fault::Read) if tool == Tool::FlushesOnReadFaults => {
            let _flushed = output.flush();
            Err(Fault::Read)
        }
        Err(fault) => Err(fault),
    }
}

fn is_begun<R: Read, W: Write>(tool: Tool, input: &mut R, output: &mut W) -> bool {
    match tool {
        Tool::ReadsFirst => input.read(&mut [0; 1]).is_ok(),
        Tool::OffersNothing => output.write(b"").is_ok(),
        _ => true,
    }
}

fn after_success<W: Write>(tool: Tool, output: &mut W) -> Result<(), Fault> {
    let is_written = match tool {
        Tool::WritesTwice => output.write(b"x").is_ok(),
        Tool::Flushes => output.flush().is_ok(),
        _ => true,
    };
    if is_written {
        Ok(())
    } else {
        Err(Fault::Write)
    }
}

// A tool, and whether it is refused by a run without trouble, by refused memory, by readers that
// fail, and by writers that fail.
type Refused = (Tool, [bool; 4]);

static REFUSED: [Refused; 9] = [
    (Tool::Sound, [false, false, false, false]),
    (Tool::WritesTwice, [true, true, false, false]),
    (Tool::Flushes, [true, true, false, false]),
    (Tool::OffersNothing, [true, true, true, true]),
    (Tool::HidesWriteFaults, [false, false, false, true]),
    (Tool::HidesReadFaults, [false, false, true, false]),
    (Tool::HidesRefusals, [false, true, false, false]),
    (Tool::WritesOnRefusal, [false, true, false, false]),
    (Tool::FlushesOnReadFaults, [false, false, true, false]),
];

const ENCODED: Run<'static> = Run {
    words: &["encode_text"],
    input: b"a < b",
    answer: Ok(()),
    written: b"a &lt; b",
};

const UNNAMED: Run<'static> = Run {
    words: &["encode"],
    input: b"a",
    answer: Err(Fault::Usage),
    written: b"",
};

#[test]
fn each_flaw_of_a_tool_is_refused(rt: HostRuntime) {
    for &(tool, refused) in &REFUSED {
        let found = [
            !is_right_of(tool, rt.alloc(), ENCODED),
            !survives_refusals_of(tool, rt.alloc(), ENCODED),
            !survives_readers_of(tool, rt.alloc(), ENCODED),
            !survives_writers_of(tool, rt.alloc(), ENCODED),
        ];
        assert!(rt; found == refused, "{tool:?}");
    }
    assert!(rt; is_right_of(Tool::Sound, rt.alloc(), UNNAMED));
    assert!(rt; !is_right_of(Tool::ReadsFirst, rt.alloc(), UNNAMED));
}

// Runs that are not what the tool does.
static OTHERS: [Run<'static>; 3] = [
    Run {
        words: &["encode_text"],
        input: b"a < b",
        answer: Ok(()),
        written: b"a < b",
    },
    Run {
        words: &["encode_text"],
        input: b"a < b",
        answer: Err(Fault::NotUtf8),
        written: b"a &lt; b",
    },
    Run {
        words: &["encode"],
        input: b"a",
        answer: Ok(()),
        written: b"",
    },
];

#[test]
fn what_the_tool_does_not_do_is_refused(rt: HostRuntime) {
    for &wanted in &OTHERS {
        assert!(rt; !is_right_of(Tool::Sound, rt.alloc(), wanted));
        assert!(rt; !survives_refusals_of(Tool::Sound, rt.alloc(), wanted));
    }
}
