//! The words that the system gave the program.
ghost use Rattle.std.specs.Prelude.{◌≡◌, drop, map, string_bytes, IfOk};
ghost use Rattle.std.specs.IoError.{error_kind};
ghost use Rattle.std.specs.Vec.Iter.{into_iter_items};
ghost use Rattle.hesc_tool.specs.Program.{fault_without_words};

use crate::faults::Fault;
use std::alloc::{AllocError, Allocator};
use std::env::Args;
use std::io::{self, ErrorKind};

/// The words after the program's name.
pub fn words_after_name<A: Allocator, B: Allocator>(
    alloc: A,
    args: Args<B>,
) -> Result<Vec<String<B>, A>, AllocError>
    ensures { IfOk result (λ words. words.items ≡ drop 1 (into_iter_items args)) }
{
    let mut words = Vec::new(alloc);
    'words: for word in args.skip(1) {
        words.push(word)?;
    }
    Ok(words)
}

/// The same words, lent.
pub fn lent<'w, A: Allocator, B: Allocator>(
    alloc: A,
    words: &'w [String<B>],
) -> Result<Vec<&'w str, A>, AllocError>
    ensures { IfOk result (λ lent. map (λ word. word.now) lent.items ≡ map string_bytes words.now) }
{
    let mut lent = Vec::new(alloc);
    'words: for word in words {
        lent.push(word.as_str())?;
    }
    Ok(lent)
}

/// The fault that stands for words that could not be had.
pub fn without_words(error: io::Error) -> Fault
    ensures { result ≡ fault_without_words (error_kind error) }
{
    match error.kind() {
        ErrorKind::OutOfMemory => Fault::Memory,
        _ => Fault::Usage,
    }
}
