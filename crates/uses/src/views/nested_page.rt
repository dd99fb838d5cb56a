//! A caller of views: the page of a layout, in whose slot `{{{main}}}` the page of another view stands. The
//! contract says that it is a page of the layout's template, in which that page is markup.
ghost use Rattle.std.specs.Prelude.{IfOk};
ghost use Rattle.std.specs.String.{string_bytes};
ghost use Rattle.html_template.specs.Words.{markup_of};
ghost use Rattle.html_view.specs.Words.{datum_of, unrolled_by};
ghost use Rattle.uses.specs.Views.NestedPages.{IsAround, IsNested};

use html_view::{DataFault, Fragment, Value, View};
use std::alloc::Global;

/// The page of the layout around the page of the content for this value.
pub fn nested_page<'a>(
    alloc: Global,
    layout: &View<'a>,
    content: &View<'a>,
    value: Value<'a, 'a>,
) -> Result<String, DataFault>
    ensures { IfOk result (λ page. IsNested (unrolled_by layout.now)
        (unrolled_by content.now (datum_of value.entry)) (string_bytes page)) }
{
    let main = content.fragment(alloc, value)?;
    page_around(alloc, layout, main.as_fragment())
}

// The page of the layout around this.
fn page_around<'a, 'p>(
    alloc: Global,
    layout: &View<'a>,
    main: Fragment<'p>,
) -> Result<String, DataFault>
where
    'a: 'p,
    ensures { IfOk result (λ page. IsAround (unrolled_by layout.now) (markup_of main.entry)
        (string_bytes page)) }
{
    let mut page = String::new(alloc);
    layout.append(&mut page, Value::Record(&[("main", Value::Fragment(main))]))?;
    Ok(page)
}
