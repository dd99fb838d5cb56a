//! Views.
ghost use Rattle.std.specs.Prelude.{◌≡◌, IfErr, IfOk, OnOk, map};
ghost use Rattle.html_view.specs.AskedNames.{asked_name, names_in};
ghost use Rattle.std.specs.String.{string_bytes};
ghost use Rattle.html_view.specs.Kept.{asked_nodes, nodes_of};
ghost use Rattle.html_view.specs.Nodes as node;
ghost use Rattle.html_view.specs.Nodes.{written};
ghost use Rattle.html_view.specs.Reached.{Shows, ShowsOf};
ghost use Rattle.html_view.specs.Reading.{partials_of};
ghost use Rattle.html_view.specs.Spelled.{IsSpelled, spelled};
ghost use Rattle.html_view.specs.Unrolled.{AreTemplates};
ghost use Rattle.html_view.specs.Values.{datum_of};

use crate::append::{Rendering, appended, write};
use crate::data::{Around, Value};
use crate::faults::{DataFault, Refused, ViewFault};
use crate::follow::follow;
use crate::heads::Heads;
use crate::history::Entry;
use crate::names::{Name, add_names};
use crate::node::Node;
use crate::placed::PlacedNode;
use crate::retrace::{refused, without};
use crate::source::read;
use crate::spelled::spell;
use crate::ways::Ways;
use core::mem::replace_with;
use html_template::{FragmentBuf, WriteFault};
use html_tokenizer::Reader;
use std::alloc::{AllocError, Allocator, Global};
use std::io::Write;

/// Markup, slots and sections, of which each unrolling is a template.
#[derive(Drop)]
pub struct View<'a, A: Allocator = Global> {
    alloc: A,
    nodes: Vec<PlacedNode<'a, A>, A>,
    ghost sound: { AreTemplates (nodes_of nodes.items) },
}

impl<'a, A: Allocator + Copy> View<'a, A> {
    ghost use Rattle.html_view.specs.Views.{AddsPage, IsOfTexts, MakesFragment, Renders, Writes, WritesPage, nodes_in, unrolled_by};

    /// The view of these nodes. Each slot is placed by what stands before it, whichever sections stand.
    /// The body of a section of [`Times::Each`](crate::Times::Each) that cannot be repeated stands once.
    ///
    /// Of `<ul>`, a section with the body `<li>`, a slot and `</li>`, and `</ul>` the slot stands in text.
    pub fn new(alloc: A, nodes: &Vec<Node<'a, A>, A>) -> Result<View<'a, A>, Refused<A>>
        ensures nodes { IfOk result (λ view. written (nodes_in view)
            ≡ asked_nodes nodes.now.items node.End) }
        ensures spelled { IfOk result (λ view. spelled (asked_nodes nodes.now.items node.End)
            ≡ asked_nodes nodes.now.items node.End) }
        ensures refused { IfErr result (λ refused. Shows (asked_nodes nodes.now.items node.End)
            refused.standing.items refused.fault) }
    {
        let mut heads = Heads::new(alloc);
        match View::placed(alloc, nodes, &mut heads) {
            Ok(view) => Ok(view),
            Err(fault) => Err(refused(alloc, nodes, fault, &heads)),
        }
    }

    // The view, or the fault that some way has, whose steps are then kept.
    fn placed(
        alloc: A,
        nodes: &Vec<Node<'a, A>, A>,
        heads: &mut Heads<A>,
    ) -> Result<View<'a, A>, ViewFault>
        ensures nodes { IfOk result (λ view. written (nodes_in view)
            ≡ asked_nodes nodes.now.items node.End) }
        ensures spelled { IfOk result (λ view. spelled (asked_nodes nodes.now.items node.End)
            ≡ asked_nodes nodes.now.items node.End) }
    {
        let mut ways = Ways::first(alloc);
        let nodes = follow(alloc, Entry::Page, nodes, b"", &mut ways, heads)?;
        if !ways.may_end(&mut heads.history)? {
            return Err(ViewFault::Unfinished);
        }
        Ok(View { alloc, nodes })
    }

    // The view of these nodes, with each slot between attributes spelled out. Most have none: they are a view as
    // they are, unless they are refused.
    fn of_spelled(alloc: A, nodes: &Vec<Node<'a, A>, A>) -> Result<View<'a, A>, Refused<A>>
        ensures nodes { IfOk result (λ view. written (nodes_in view)
            ≡ spelled (asked_nodes nodes.now.items node.End)) }
        ensures refused { IfErr result (λ refused. Shows (spelled (asked_nodes nodes.now.items node.End))
            refused.standing.items refused.fault) }
    {
        match View::new(alloc, nodes) {
            Ok(view) => return Ok(view),
            Err(refused) if refused.fault == ViewFault::Memory => return Err(refused),
            Err(_) => {}
        }
        let mut reader = Reader::new(alloc);
        match spell(alloc, nodes, &mut reader) {
            Ok(nodes) => View::new(alloc, &nodes),
            // It has no other fault.
            Err(_) => Err(without(alloc, ViewFault::Memory)),
        }
    }

    /// The view of a source, and of partials, each a name and a source. Its tags are those of Mustache:
    ///
    /// - `{{name}}`, a slot, and `{{"{{"}}`, a `{{` of the markup; between the attributes of a start tag the slot is
    ///   spelled out, as a section of [`Times::Attributes`](crate::Times::Attributes) with one for each attribute that
    ///   its named values may have
    /// - `{{{name}}}` and `{{&name}}`, a slot for a fragment
    /// - `{{#name}}`..`{{/name}}` and `{{?name}}`..`{{/name}}`, a section for each item and a condition, and
    ///   `{{^name}}`..`{{/name}}`, what stands where that of this name before it does not
    /// - `{{! text }}`, a comment
    /// - `{{> name}}`, a partial; one may ask for those before it
    /// - `{{<name}}`..`{{/name}}`, a partial in which the blocks `{{$name}}`..`{{/name}}` that stand between
    ///   take the place of its own
    ///
    /// A tag other than a slot that is all of its line, but for blanks, leaves no line behind.
    ///
    /// Of `<ul>{{#items}}<li>{{name}}</li>{{/items}}</ul>` it has one section, `items`, with one slot, `name`.
    pub fn parse(
        alloc: A,
        source: &'a str,
        partials: &[(&str, &'a str)],
    ) -> Result<View<'a, A>, Refused<A>>
        ensures nodes { IfOk result (λ view. IsSpelled (partials_of partials.now) source.now
            (written (nodes_in view))) }
        ensures refused { IfErr result (λ refused. ShowsOf (partials_of partials.now) source.now
            refused.standing.items refused.fault) }
    {
        match read(alloc, source, partials) {
            Ok(nodes) => View::of_spelled(alloc, &nodes),
            Err(ViewFault::Tag(position, why)) => Err(without(
                alloc,
                ViewFault::Tag(position, why),
            )),
            // Reading has no other fault.
            Err(_) => Err(without(alloc, ViewFault::Memory)),
        }
    }

    /// The nodes, each slot placed.
    pub fn nodes(&self) -> &Vec<PlacedNode<'a, A>, A>
        ensures { result.now ≡ self.now.nodes }
    {
        &self.nodes
    }

    /// The names that the view asks for, as often as they stand, in its order: a program can compare them
    /// with its data when it starts.
    ///
    /// Of `<ul>{{#items}}<li>{{name}}</li>{{/items}}</ul>` they are the section `items` and the slot `name`.
    pub fn names(&self) -> Result<Vec<Name<'a>, A>, AllocError>
        ensures { IfOk result (λ names. map asked_name names.items ≡ names_in (nodes_in self.now)) }
    {
        let mut names = Vec::new(self.alloc);
        add_names(&self.nodes, &mut names)?;
        Ok(names)
    }

    /// Appends the page of this data. On a fault `output` is as it was.
    ///
    /// The page is one of the unrolled template, so all laws of `html_template` hold of it. Behind a page
    /// it makes a page of the joined parts.
    ///
    /// Of `<p>`, a slot named `a` and `</p>`, the page of a record whose `a` is `x<y` is `<p>x&lt;y</p>`.
    pub fn append<'p, 't: 'p, B: Allocator>(
        &self,
        output: &mut String<B>,
        value: Value<'p, 't>,
    ) -> Result<(), DataFault>
    where
        'a: 'p,
        ensures appended { Renders (unrolled_by self.now (datum_of value.entry))
            (string_bytes output.old) (string_bytes output.new) result }
        ensures page { OnOk result (AddsPage (unrolled_by self.now (datum_of value.entry))
            (string_bytes output.old) (string_bytes output.new)) }
    {
        let outermost = Around::Nothing;
        let around = Around::Inside(value, &outermost);
        let rendering = Rendering {
            nodes: &self.nodes,
            around: &around,
        };
        replace_with(output, &rendering, appended)
    }

    /// The page of this data, as a fragment, which may stand in other views.
    ///
    /// Of `<b>`, a slot named `a` and `</b>`, the fragment of a record whose `a` is `x<y` is `<b>x&lt;y</b>`.
    pub fn fragment<'p, 't: 'p, B: Allocator>(
        &self,
        alloc: B,
        value: Value<'p, 't>,
    ) -> Result<FragmentBuf<B>, DataFault>
    where
        'a: 'p,
        ensures { MakesFragment (unrolled_by self.now (datum_of value.entry)) result }
    {
        let mut page = String::new(alloc);
        self.append(&mut page, value)?;
        Ok(FragmentBuf::of_page(page))
    }

    /// Writes the page of this data: markup as it stands, and each text as it is encoded. No page is made
    /// in memory, and nothing is flushed. Where the data has no page nothing is written. On the writer's
    /// own fault a beginning of the page was.
    ///
    /// Of `<p>`, a slot named `a` and `</p>`, the page of a record whose `a` is `x<y` is `<p>x&lt;y</p>`.
    pub fn append_to_writer<'p, 't: 'p, W: Write>(
        &self,
        output: &mut W,
        value: Value<'p, 't>,
    ) -> Result<(), WriteFault<DataFault>>
    where
        'a: 'p,
        ensures written { Writes (unrolled_by self.now (datum_of value.entry))
            (W.contents output.old) (W.contents output.new) result }
        ensures kept { IfErr result (λ fault. IsOfTexts fault → output.new ≡ output.old) }
        ensures page { OnOk result (WritesPage (unrolled_by self.now (datum_of value.entry))
            (W.contents output.old) (W.contents output.new)) }
    {
        let outermost = Around::Nothing;
        let around = Around::Inside(value, &outermost);
        let rendering = Rendering {
            nodes: &self.nodes,
            around: &around,
        };
        write(output, &rendering)
    }
}
