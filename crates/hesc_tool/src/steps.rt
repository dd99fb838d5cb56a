//! The steps of a run after its words: the command's input is read, and its answer is made and then
//! written.
ghost use Rattle.std.specs.Prelude.{◌≡◌, IfErr, IfOk, OnErr, OnOk};
ghost use Rattle.std.specs.Io.KnownBytes.{Appends};
ghost use Rattle.hesc_specs.specs.Text.Beginning.{AppendsBeginning};
ghost use Rattle.hesc_tool.specs.Steps.{
  AnsweredAs,
  IsReadingFault,
  IsTakingFault,
  WasRead,
  WasTaken,
};
ghost use Rattle.hesc_tool.specs.declared.faults.Fault.{Fault};

use crate::answers::make_answer;
use crate::faults::Fault;
use hesc_commands::Command;
use std::alloc::Allocator;
use std::io::{Read, Write};

/// How many bytes a read is offered.
const READ_SIZE: usize = 4096;

/// All bytes that the reader has left. A read that fails for any reason is `Read`, and bytes for
/// which there is no room are `Memory`.
pub fn read_whole<A: Allocator, R: Read>(alloc: A, input: &mut R) -> Result<Vec<u8, A>, Fault>
    ensures whole { IfOk result
        (λ bytes. WasRead (R.remaining input.old) (R.remaining input.new) bytes.items) }
    ensures fault { IfErr result IsReadingFault }
{
    let mut bytes = Vec::new(alloc);
    let mut buffer = [0u8; READ_SIZE];
    'reading: loop {
        let Ok(count) = input.read(&mut buffer) else {
            return Err(Fault::Read);
        };
        if count == 0 {
            return Ok(bytes);
        }
        bytes.extend_from_slice(&buffer[..count])?;
    }
}

/// The input of the command: all bytes that the reader has left, or none where the command reads
/// no input.
pub fn input_of<A: Allocator, R: Read>(
    alloc: A,
    command: Command<'_>,
    input: &mut R,
) -> Result<Vec<u8, A>, Fault>
    ensures taken { IfOk result
        (λ bytes. WasTaken command.entry (R.remaining input.old) (R.remaining input.new) bytes.items) }
    ensures fault { IfErr result (IsTakingFault command.entry) }
{
    match command {
        Command::Page(..) | Command::Form(_) => Ok(Vec::new(alloc)),
        Command::Operation(_)
        | Command::Lines(_)
        | Command::Enclose(..)
        | Command::ReadPage
        | Command::ReadForm => read_whole(alloc, input),
    }
}

/// Writes all of the bytes. A write that fails for any reason, or takes no byte, is `Write`.
pub fn write_whole<W: Write>(bytes: &[u8], output: &mut W) -> Result<(), Fault>
    ensures all { OnOk result (Appends (W.contents output.old) (W.contents output.new) bytes.now) }
    ensures began { OnErr result
        (AppendsBeginning (W.contents output.old) (W.contents output.new) bytes.now) }
    ensures fault { IfErr result (λ fault. fault ≡ Fault.Write) }
{
    let mut at = 0;
    'writing: while at < bytes.len() {
        let Ok(count) = output.write(&bytes[at..]) else {
            return Err(Fault::Write);
        };
        if count == 0 {
            return Err(Fault::Write);
        }
        at += count;
    }
    Ok(())
}

/// Makes the command's answer to its input, and only then writes its text.
pub fn answer<A: Allocator + Clone, W: Write>(
    alloc: A,
    command: Command<'_>,
    input: &[u8],
    output: &mut W,
) -> Result<(), Fault>
    ensures { AnsweredAs command.entry input.now (W.contents output.old) (W.contents output.new) result }
{
    let made = make_answer(alloc, command, input)?;
    write_whole(made.as_slice(), output)
}
