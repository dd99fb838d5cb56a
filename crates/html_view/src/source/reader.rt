//! Reading nodes from the texts of a view.
ghost use Rattle.std.specs.Prelude.{◌≡◌, ◌≢◌, ◌≤◌, IfErr, IfOk, None, OnOk, Some, length};
ghost use Rattle.html_view.specs.Cursors.{Here, here_of};
ghost use Rattle.html_view.specs.Kept.{asked_nodes};
ghost use Rattle.html_view.specs.Nodes as spec;
ghost use Rattle.html_view.specs.Reading.{
  AddsRead,
  AddsTag,
  asked_partial,
  partials_of,
  times_of,
};
ghost use Rattle.html_view.specs.declared.faults.TagFault.TheVariants.{NoPartial};
ghost use Rattle.html_view.specs.declared.faults.ViewFault.TheVariants as view;
ghost use Rattle.html_view.specs.declared.source.tag.Sign.TheVariants as sign;

use crate::faults::{TagFault, ViewFault};
use crate::node::{Asked, Node, Times};
use crate::source::around::{Around, deeper, end};
use crate::source::blocks::{Block, find_block, read_blocks, skip};
use crate::source::cursor::{Cursor, Tag};
use crate::source::sections::{Nodes, Otherwise, add, add_markup, opening};
use crate::source::tag::Sign;
use std::alloc::Allocator;

/// What a text is read with: the name and the source of each partial, and the blocks that are given.
#[derive(Drop)]
pub(crate) struct Reader<'a, 'p, 'g, A: Allocator> {
    pub(crate) alloc: A,
    pub(crate) partials: &'p [(&'p str, &'a str)],
    pub(crate) given: &'g [Block<'a>],
}

impl<'a, 'p, 'g, A: Allocator + Copy> Reader<'a, 'p, 'g, A> {
    /// Adds the nodes up to the end of the tag that is open, or of the text.
    #[cycle(read)]
    pub(crate) fn read(
        &self,
        cursor: &mut Cursor<'a>,
        around: Around<'a>,
        nodes: &mut Nodes<'a, A>,
    ) -> Result<(), ViewFault>
        ensures nodes { OnOk result ((after : spec.Nodes spec.Asked)
            → AddsRead (partials_of self.now.partials.now) self.now.given.now around.entry.begun
            (here_of cursor.old) (asked_nodes nodes.old.items) (asked_nodes nodes.new.items)
            (here_of cursor.new) after) }
        ensures shorter { OnOk result (length cursor.new.rest.now ≤ length cursor.old.rest.now) }
    {
        loop {
            let piece = cursor.next()?;
            add_markup(nodes, piece)?;
            match piece.tag {
                None => return end(None, around.begun),
                Some(tag) if tag.sign == Sign::End => return end(Some(tag), around.begun),
                Some(tag) => self.read_tag(cursor, tag, around, nodes)?,
            }
        }
    }

    // Reads what a tag stands for.
    #[cycle(read)]
    fn read_tag(
        &self,
        cursor: &mut Cursor<'a>,
        tag: Tag<'a>,
        around: Around<'a>,
        nodes: &mut Nodes<'a, A>,
    ) -> Result<(), ViewFault>
        requires { tag.sign ≢ sign.End }
        ensures nodes { OnOk result ((after : spec.Nodes spec.Asked)
            → AddsTag (partials_of self.now.partials.now) self.now.given.now tag.entry
            (here_of cursor.old) (asked_nodes nodes.old.items) (asked_nodes nodes.new.items)
            (here_of cursor.new) after) }
        ensures shorter { OnOk result (length cursor.new.rest.now ≤ length cursor.old.rest.now) }
    {
        let name = tag.name;
        let position = tag.position;
        match tag.sign {
            Sign::Comment | Sign::End => Ok(()),
            Sign::Slot => add(nodes, Node::Slot(Asked { name, position })),
            Sign::Fragment => add(nodes, Node::Fragment(Asked { name, position })),
            Sign::Braced => add(nodes, Node::Fragment(Asked { name, position })),
            Sign::Quoted => add(nodes, Node::Markup("{{", position)),
            Sign::Each => self.read_section(cursor, tag, Times::Each, around, nodes),
            Sign::If => self.read_section(cursor, tag, Times::If, around, nodes),
            Sign::Unless => self.read_unless(cursor, tag, around, nodes),
            Sign::Partial => self.read_partial(cursor.text(), tag, around, nodes),
            Sign::Layout => self.read_layout(cursor, tag, around, nodes),
            Sign::Block => self.read_block(cursor, tag, around, nodes),
        }
    }

    // Reads a section, and what stands where it does not.
    #[cycle(read)]
    fn read_section(
        &self,
        cursor: &mut Cursor<'a>,
        tag: Tag<'a>,
        times: Times,
        around: Around<'a>,
        nodes: &mut Nodes<'a, A>,
    ) -> Result<(), ViewFault>
        requires { times_of tag.sign ≡ Some times }
        ensures nodes { OnOk result ((after : spec.Nodes spec.Asked)
            → AddsTag (partials_of self.now.partials.now) self.now.given.now tag.entry
            (here_of cursor.old) (asked_nodes nodes.old.items) (asked_nodes nodes.new.items)
            (here_of cursor.new) after) }
        ensures shorter { OnOk result (length cursor.new.rest.now ≤ length cursor.old.rest.now) }
    {
        let mut body = Vec::new(self.alloc);
        let mut others = Vec::new(self.alloc);
        self.read(cursor, around.within(tag)?, &mut body)?;
        match Otherwise::pass(self.alloc, cursor, tag.name)? {
            None => add(nodes, Node::Section(opening(tag, times), body, others)),
            Some(otherwise) => {
                otherwise.add_space(&mut others)?;
                self.read(cursor, around.within(otherwise.tag)?, &mut others)?;
                let section = otherwise.section(self.alloc, tag, times, body, others)?;
                add(nodes, section)
            }
        }
    }

    // Reads what stands where a condition does not hold.
    #[cycle(read)]
    fn read_unless(
        &self,
        cursor: &mut Cursor<'a>,
        tag: Tag<'a>,
        around: Around<'a>,
        nodes: &mut Nodes<'a, A>,
    ) -> Result<(), ViewFault>
        requires { tag.sign ≡ sign.Unless }
        ensures nodes { OnOk result ((after : spec.Nodes spec.Asked)
            → AddsTag (partials_of self.now.partials.now) self.now.given.now tag.entry
            (here_of cursor.old) (asked_nodes nodes.old.items) (asked_nodes nodes.new.items)
            (here_of cursor.new) after) }
        ensures shorter { OnOk result (length cursor.new.rest.now ≤ length cursor.old.rest.now) }
    {
        let body = Vec::new(self.alloc);
        let mut others = Vec::new(self.alloc);
        self.read(cursor, around.within(tag)?, &mut others)?;
        add(nodes, Node::Section(opening(tag, Times::If), body, others))
    }

    // Reads a partial, which the text with this number asks for.
    #[cycle(read)]
    fn read_partial(
        &self,
        text: usize,
        tag: Tag<'a>,
        around: Around<'a>,
        nodes: &mut Nodes<'a, A>,
    ) -> Result<(), ViewFault>
        requires { tag.sign ≡ sign.Partial }
        ensures { OnOk result ((here : Here) (after : spec.Nodes spec.Asked) → here.text ≡ text
            → AddsTag (partials_of self.now.partials.now) self.now.given.now tag.entry here
            (asked_nodes nodes.old.items) (asked_nodes nodes.new.items) here after) }
    {
        let inside = Around {
            begun: None,
            levels: deeper(around.levels, tag)?,
        };
        let mut partial = self.partial(text, tag)?;
        self.read(&mut partial, inside, nodes)
    }

    // Reads a layout, and the blocks that are given to it.
    #[cycle(read)]
    fn read_layout(
        &self,
        cursor: &mut Cursor<'a>,
        tag: Tag<'a>,
        around: Around<'a>,
        nodes: &mut Nodes<'a, A>,
    ) -> Result<(), ViewFault>
        requires { tag.sign ≡ sign.Layout }
        ensures nodes { OnOk result ((after : spec.Nodes spec.Asked)
            → AddsTag (partials_of self.now.partials.now) self.now.given.now tag.entry
            (here_of cursor.old) (asked_nodes nodes.old.items) (asked_nodes nodes.new.items)
            (here_of cursor.new) after) }
        ensures shorter { OnOk result (length cursor.new.rest.now ≤ length cursor.old.rest.now) }
    {
        let levels = deeper(around.levels, tag)?;
        let mut layout = self.partial(cursor.text(), tag)?;
        let mut given = Vec::new(self.alloc);
        given.extend_from_slice(self.given)?;
        read_blocks(cursor, tag, levels, &mut given)?;
        let inside = Around {
            begun: None,
            levels,
        };
        self.with(&given).read(&mut layout, inside, nodes)
    }

    // Reads a block: what is given for it, or what stands in it.
    #[cycle(read)]
    fn read_block(
        &self,
        cursor: &mut Cursor<'a>,
        tag: Tag<'a>,
        around: Around<'a>,
        nodes: &mut Nodes<'a, A>,
    ) -> Result<(), ViewFault>
        requires { tag.sign ≡ sign.Block }
        ensures nodes { OnOk result ((after : spec.Nodes spec.Asked)
            → AddsTag (partials_of self.now.partials.now) self.now.given.now tag.entry
            (here_of cursor.old) (asked_nodes nodes.old.items) (asked_nodes nodes.new.items)
            (here_of cursor.new) after) }
        ensures shorter { OnOk result (length cursor.new.rest.now ≤ length cursor.old.rest.now) }
    {
        let within = around.within(tag)?;
        let Some(block) = find_block(self.given, tag.name) else {
            return self.read(cursor, within, nodes);
        };
        skip(cursor, tag, within.levels)?;
        // It was written where only the blocks further out are given.
        let outer = &self.given[..block.outer.min(self.given.len())];
        let inside = Around {
            begun: Some(block.tag),
            levels: within.levels,
        };
        let mut content = block.cursor;
        self.with(outer).read(&mut content, inside, nodes)
    }

    // The same, with these blocks given.
    fn with<'h>(&self, given: &'h [Block<'a>]) -> Reader<'a, 'p, 'h, A>
        ensures partials { result.partials.now ≡ self.now.partials.now }
        ensures given { result.given.now ≡ given.now }
    {
        Reader {
            alloc: self.alloc,
            partials: self.partials,
            given,
        }
    }

    // The partial that a tag asks for in the text with this number: the last one of its name that stands
    // before the text.
    fn partial(&self, text: usize, tag: Tag<'a>) -> Result<Cursor<'a>, ViewFault>
        ensures start { IfOk result (λ start.
            asked_partial 1 (partials_of self.now.partials.now) text tag.entry.name.now
            ≡ Some (here_of start)) }
        ensures fault { IfErr result (λ fault. (fault ≡ view.Tag tag.entry.position NoPartial)
            × (asked_partial 1 (partials_of self.now.partials.now) text tag.entry.name.now
            ≡ None)) }
    {
        let mut found = None;
        for index in 0..self.partials.len() {
            let (name, source) = self.partials[index];
            let number = index + 1;
            if name == tag.name && (text == 0 || number < text) {
                found = Some(Cursor::new(number, source));
            }
        }
        let Some(start) = found else {
            return Err(ViewFault::Tag(tag.position, TagFault::NoPartial));
        };
        Ok(start)
    }
}
