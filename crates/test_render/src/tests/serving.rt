//! The commands for views over lists of files, and over streams and memory that fail.
use hesc_views::{Sources, serve};
use std::alloc::{AllocError, Allocator, Global};
use std::env::Args;
use std::io::{self, ErrorKind};
use test_support::{Flush, Trouble, WeakReader, WeakWriter, Weakness};

/// The words after the program's name, the files by their paths, what standard input has, and what has to
/// come of them: the status, what is written, and the line on the error stream.
#[derive(Clone, Copy)]
pub struct Row {
    pub words: &'static [&'static str],
    pub files: &'static [(&'static str, &'static [u8])],
    pub input: &'static [u8],
    pub status: u8,
    pub written: &'static [u8],
    pub line: &'static str,
}

/// The files of a row, all of them as weak as this.
#[derive(Clone, Copy)]
pub struct Listed {
    pub files: &'static [(&'static str, &'static [u8])],
    pub weakness: Weakness,
}

impl Sources for Listed {
    type File = WeakReader<'static>;

    fn open(&self, path: &str) -> io::Result<WeakReader<'static>> {
        for (name, bytes) in self.files {
            if *name == path {
                return Ok(WeakReader::new(*bytes, self.weakness));
            }
        }
        Err(io::Error::from(ErrorKind::NotFound))
    }
}

/// How files and streams are weak.
#[derive(Clone, Copy)]
pub struct Streams {
    pub files: Weakness,
    pub input: Weakness,
    pub output: Weakness,
    pub errors: Weakness,
    pub flush: Flush,
}

const CALM: Weakness = Weakness {
    step: 1,
    at: 0,
    trouble: Trouble::Calm,
};

pub const CALM_STREAMS: Streams = Streams {
    files: CALM,
    input: CALM,
    output: CALM,
    errors: CALM,
    flush: Flush::Succeeds,
};

/// What the program answered, how often it read its input, and what its streams got.
#[derive(Drop)]
pub struct Served {
    pub status: u8,
    pub reads: u64,
    pub output: WeakWriter,
    pub errors: WeakWriter,
}

/// The program's name and these words, as the system gives them.
pub fn args_of(alloc: Global, words: &[&str]) -> Result<Args, AllocError> {
    let mut args = Vec::new(alloc);
    args.push(String::from_str(alloc, "hesc")?)?;
    for word in words {
        args.push(String::from_str(alloc, word)?)?;
    }
    Ok(args.into_iter())
}

/// Runs the program.
pub fn serve_over<A: Allocator>(
    alloc: A,
    heap: Global,
    args: io::Result<Args>,
    row: Row,
    streams: Streams,
) -> Served {
    let files = Listed {
        files: row.files,
        weakness: streams.files,
    };
    let mut input = WeakReader::new(row.input, streams.input);
    let mut output = WeakWriter::new(heap, streams.output);
    output.flush = streams.flush;
    let mut errors = WeakWriter::new(heap, streams.errors);
    let status = serve(
        alloc,
        heap,
        args,
        &files,
        &mut input,
        &mut output,
        &mut errors,
    );
    Served {
        status,
        reads: input.calls,
        output,
        errors,
    }
}

/// Whether the program ended so, and flushed its output as often, and nothing else. It offers no stream
/// nothing.
pub fn ended(served: &Served, status: u8, written: &[u8], line: &str, flushes: u64) -> bool {
    served.status == status
        && served.output.taken.as_slice() == written
        && served.errors.taken.as_slice() == line.as_bytes()
        && served.output.flushes == flushes
        && served.errors.flushes == 0
        && served.output.empty_calls == 0
        && served.errors.empty_calls == 0
}

/// How often the output is flushed.
pub fn flushes(row: Row) -> u64 {
    if row.status == 0 { 1 } else { 0 }
}

/// Whether the program is right over streams and memory without trouble.
pub fn is_right(alloc: Global, row: Row) -> Result<bool, AllocError> {
    let args = args_of(alloc, row.words)?;
    let served = serve_over(alloc, alloc, Ok(args), row, CALM_STREAMS);
    Ok(ended(&served, row.status, row.written, row.line, flushes(row)))
}

/// What the program does with a row, to be shown where it is not right.
pub fn shown(alloc: Global, row: Row) -> Result<String, AllocError> {
    let args = args_of(alloc, row.words)?;
    let served = serve_over(alloc, alloc, Ok(args), row, CALM_STREAMS);
    let mut text = String::from_utf8_lossy(alloc, served.errors.taken.as_slice())?;
    let written = String::from_utf8_lossy(alloc, served.output.taken.as_slice())?;
    text.push_str(written.as_str())?;
    Ok(text)
}
