//! The page of a view and of data.
ghost use Rattle.json.specs.Value.{value_view};
ghost use Rattle.html_view.specs.Views.{nodes_in};
ghost use Rattle.hesc_views.specs.Pages.{DataAnswers, PageAnswers, answer_of};
ghost use Rattle.hesc_views.specs.Places.{texts_in};

use crate::faults::Fault;
use crate::place::Texts;
use html_view::{Value, View};
use json::Scratch;
use std::alloc::{Allocator, Global};

/// The page of a view for the data of a JSON text. `texts` are those that it was made of, for the place of a
/// fault. The tree of the data takes its memory from `heap`, all else from `alloc`.
///
/// Of `<p>{{a}}</p>` and `{"a": "x<y"}` it is `<p>x&lt;y</p>`.
pub fn page_of<'a, A: Allocator + Copy>(
    alloc: A,
    heap: Global,
    view: &View<'a, A>,
    texts: Texts<'_>,
    json: &str,
) -> Result<String<A>, Fault>
    ensures { PageAnswers (nodes_in view.now) (texts_in texts.entry) json.now (answer_of result) }
{
    let mut scratch = Scratch::new(alloc);
    let tree = match json::Value::parse_strict(heap, json, &mut scratch) {
        Ok(tree) => tree,
        Err(error) => return Err(Fault::of_json(error)),
    };
    page_for(alloc, view, texts, &tree)
}

// The page for data.
fn page_for<'a, 'p, 't, A: Allocator + Copy>(
    alloc: A,
    view: &View<'a, A>,
    texts: Texts<'_>,
    tree: &'p json::Value<'t>,
) -> Result<String<A>, Fault>
where
    'a: 'p,
    't: 'p,
    ensures { DataAnswers (nodes_in view.now) (texts_in texts.entry) (value_view tree.now)
        (answer_of result) }
{
    let mut page = String::new(alloc);
    match view.append(&mut page, Value::of_json(tree)) {
        Ok(()) => Ok(page),
        Err(fault) => Err(Fault::of_data(texts, fault)),
    }
}
