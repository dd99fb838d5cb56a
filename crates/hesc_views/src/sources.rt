//! The files of a view.
ghost use Rattle.std.specs.Prelude.{List, None, Option, map, string_bytes, ℕ, IfErr, IfOk};
ghost use Rattle.std.specs.Io.KnownBytes.{Keeps};
ghost use Rattle.hesc_views.specs.Run.{IsFileFault};
ghost use Rattle.hesc_views.specs.Sources.{AreTextsOf, IsTextOf};

use crate::faults::Fault;
use hesc_tool::read_whole;
use std::alloc::Allocator;
use std::fs;
use std::io::{self, Read};
use std::rt::Files;

/// What opens files.
pub trait Sources {
    /// What reads a file.
    type File: Read + Drop;

    // The bytes of the file of a path, where they are known.
    ghost bytes: { Self → List ℕ → Option (List ℕ) } = { λ _ _. None };

    /// The file of this path.
    fn open(&self, path: &str) -> io::Result<Self::File>
        ensures { IfOk result (λ file. Keeps (bytes self.now path.now) (Self.File.remaining file)) };
}

/// The files of the system.
#[derive(Clone, Copy)]
pub struct HostFiles<'r, R>(pub &'r R);

impl<R: Files> Sources for HostFiles<'_, R> {
    type File = R::File;

    fn open(&self, path: &str) -> io::Result<R::File> {
        fs::open(self.0, path)
    }
}

/// The text of a file, counted from 0.
pub(crate) fn read_file<A: Allocator, S: Sources>(
    alloc: A,
    sources: &S,
    path: &str,
    number: usize,
) -> Result<String<A>, Fault>
    ensures text { IfOk result (λ text. IsTextOf (S.bytes sources.now path.now) (string_bytes text)) }
    ensures fault { IfErr result IsFileFault }
{
    let Ok(mut file) = sources.open(path) else {
        return Err(Fault::UnreadableFile(number));
    };
    let bytes = match read_whole(alloc, &mut file) {
        Ok(bytes) => bytes,
        Err(hesc_tool::Fault::Memory) => return Err(Fault::Memory),
        Err(_) => return Err(Fault::UnreadableFile(number)),
    };
    match String::from_utf8(bytes) {
        Ok(text) => Ok(text),
        Err(_) => Err(Fault::FileNotUtf8(number)),
    }
}

/// The texts of these files, in order, which are counted from 1.
pub(crate) fn read_files<A: Allocator + Copy, S: Sources>(
    alloc: A,
    sources: &S,
    paths: &[&str],
) -> Result<Vec<String<A>, A>, Fault>
    ensures texts { IfOk result (λ texts. AreTextsOf (λ path. S.bytes sources.now path)
        (map (λ path. path.now) paths.now) (map string_bytes texts.items)) }
    ensures fault { IfErr result IsFileFault }
{
    let mut texts = Vec::new(alloc);
    for path in paths {
        let number = texts.len().saturating_add(1);
        let text = read_file(alloc, sources, *path, number)?;
        match texts.push(text) {
            Ok(()) => {}
            Err(_) => return Err(Fault::Memory),
        }
    }
    Ok(texts)
}
