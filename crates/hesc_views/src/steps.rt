//! The steps of a run: the files are read, the view is made of them, and what is to be written is made in
//! memory and then written.
ghost use Rattle.std.specs.Prelude.{◌≡◌, map, string_bytes, IfErr, IfOk, OnErr, OnOk};
ghost use Rattle.std.specs.Io.KnownBytes.{Appends};
ghost use Rattle.hesc_specs.specs.Text.Beginning.{AppendsBeginning};
ghost use Rattle.hesc_tool.specs.Steps.{WasRead};
ghost use Rattle.html_view.specs.Reading.{partials_of};
ghost use Rattle.html_view.specs.Views.{nodes_in};
ghost use Rattle.hesc_views.specs.Run.{
  AnswersFiles,
  AnswersTexts,
  AreOfView,
  IsMakingFault,
  RanAs,
  partials_named,
};
ghost use Rattle.hesc_views.specs.declared.faults.Fault.{Fault};

use crate::check::append_nodes;
use crate::faults::Fault;
use crate::names::partial_name;
use crate::place::Texts;
use crate::render::page_of;
use crate::sources::{Sources, read_file, read_files};
use crate::words::{Call, Command, call_of};
use hesc_tool::{lent, read_whole, write_whole};
use html_view::View;
use simdutf8::basic::from_utf8;
use std::alloc::{AllocError, Allocator, Global};
use std::io::{Read, Write};

/// Runs the command for views that `words`, those after the program's name, name: reads its files, and
/// for `render` all that `input` has left, and writes the page, or what the view has, to `output`.
///
/// Nothing is written before all else has succeeded, so only `Fault::Write` leaves anything after, a
/// beginning of the text.
///
/// Of the words `render page.html`, the file `<p>{{a}}</p>` and the input `{"a": "x<y"}` it writes
/// `<p>x&lt;y</p>`.
pub fn run<A: Allocator, S: Sources, R: Read, W: Write>(
    alloc: A,
    heap: Global,
    words: &[&str],
    sources: &S,
    input: &mut R,
    output: &mut W,
) -> Result<(), Fault>
    ensures { RanAs (λ path. S.bytes sources.now path) (map (λ word. word.now) words.now)
        (R.remaining input.old) (R.remaining input.new)
        (W.contents output.old) (W.contents output.new) result }
{
    let Some(call) = call_of(words) else {
        return Err(Fault::Usage);
    };
    let made = answer_to(&alloc, heap, call, sources, input)?;
    written(made.as_str(), output)
}

// What the command answers: its files are read first.
fn answer_to<A: Allocator + Copy, S: Sources, R: Read>(
    alloc: A,
    heap: Global,
    call: Call<'_>,
    sources: &S,
    input: &mut R,
) -> Result<String<A>, Fault>
    ensures made { IfOk result (λ text. AnswersFiles (λ path. S.bytes sources.now path) call.entry
        (R.remaining input.old) (R.remaining input.new) (string_bytes text)) }
    ensures fault { IfErr result IsMakingFault }
{
    let view = read_file(alloc, sources, call.view, 0)?;
    let partials = read_files(alloc, sources, call.partials)?;
    let partials = lent(alloc, partials.as_slice())?;
    let texts = Texts {
        view: view.as_str(),
        partials: partials.as_slice(),
    };
    answer_of(alloc, heap, call, texts, input)
}

// What the command answers to these texts.
fn answer_of<A: Allocator + Copy, R: Read>(
    alloc: A,
    heap: Global,
    call: Call<'_>,
    texts: Texts<'_>,
    input: &mut R,
) -> Result<String<A>, Fault>
    ensures made { IfOk result (λ text. AnswersTexts call.entry texts.entry.view.now
        (map (λ text. text.now) texts.entry.partials.now)
        (R.remaining input.old) (R.remaining input.new) (string_bytes text)) }
    ensures fault { IfErr result IsMakingFault }
{
    let view = view_of(alloc, call.partials, texts)?;
    match call.command {
        Command::Check => {
            let mut lines = String::new(alloc);
            append_nodes(&mut lines, view.nodes())?;
            Ok(lines)
        }
        Command::Render => {
            let input = read_input(alloc, input)?;
            let data = text_of(&input)?;
            let page = page_of(alloc, heap, &view, texts, data)?;
            Ok(page)
        }
    }
}

// The view of these texts, of which the partials have these paths.
fn view_of<'t, A: Allocator + Copy>(
    alloc: A,
    paths: &[&str],
    texts: Texts<'t>,
) -> Result<View<'t, A>, Fault>
    ensures made { IfOk result (λ view. AreOfView (map (λ path. path.now) paths.now)
        texts.entry.view.now (map (λ text. text.now) texts.entry.partials.now) (nodes_in view)) }
    ensures fault { IfErr result IsMakingFault }
{
    let partials = named(alloc, paths, texts.partials)?;
    match View::parse(alloc, texts.view, partials.as_slice()) {
        Ok(view) => Ok(view),
        Err(refused) => Err(Fault::of_view(texts, &refused)),
    }
}

// Each text with the name of its path.
fn named<'w, 't, A: Allocator>(
    alloc: A,
    paths: &[&'w str],
    texts: &[&'t str],
) -> Result<Vec<(&'w str, &'t str), A>, AllocError>
    ensures { IfOk result (λ partials. partials_of partials.items
        ≡ partials_named (map (λ path. path.now) paths.now) (map (λ text. text.now) texts.now)) }
{
    let mut partials = Vec::new(alloc);
    let mut paths_left = paths;
    let mut texts_left = texts;
    'partials: while let [path, other_paths @ ..] = paths_left {
        let [text, other_texts @ ..] = texts_left else {
            return Ok(partials);
        };
        partials.push((partial_name(*path), *text))?;
        paths_left = other_paths;
        texts_left = other_texts;
    }
    Ok(partials)
}

// All of the input.
fn read_input<A: Allocator, R: Read>(alloc: A, input: &mut R) -> Result<Vec<u8, A>, Fault>
    ensures whole { IfOk result
        (λ bytes. WasRead (R.remaining input.old) (R.remaining input.new) bytes.items) }
    ensures fault { IfErr result IsMakingFault }
{
    match read_whole(alloc, input) {
        Ok(bytes) => Ok(bytes),
        Err(hesc_tool::Fault::Memory) => Err(Fault::Memory),
        Err(_) => Err(Fault::UnreadableInput),
    }
}

// The input, which has to be a text.
fn text_of(input: &[u8]) -> Result<&str, Fault>
    ensures text { IfOk result (λ text. text.now ≡ input.now) }
    ensures fault { IfErr result IsMakingFault }
{
    match from_utf8(input) {
        Ok(text) => Ok(text),
        Err(_) => Err(Fault::InputNotUtf8),
    }
}

fn written<W: Write>(text: &str, output: &mut W) -> Result<(), Fault>
    ensures all { OnOk result (Appends (W.contents output.old) (W.contents output.new) text.now) }
    ensures began { OnErr result
        (AppendsBeginning (W.contents output.old) (W.contents output.new) text.now) }
    ensures fault { IfErr result (λ fault. fault ≡ Fault.Write) }
{
    match write_whole(text.as_bytes(), output) {
        Ok(()) => Ok(()),
        Err(_) => Err(Fault::Write),
    }
}
