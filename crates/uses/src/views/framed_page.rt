//! A caller of views: a page by two views, as a head that all pages of a site have and what is below it. The
//! contract says of which joined template it is a page.
ghost use Rattle.std.specs.Prelude.{IfOk};
ghost use Rattle.std.specs.String.{string_bytes};
ghost use Rattle.html_view.specs.Words.{datum_of, unrolled_by};
ghost use Rattle.uses.specs.Views.FramedPages.{IsFramed};

use html_template::laws;
use html_view::{DataFault, Value, View};
use std::alloc::Global;

/// The page of the frame for the site, and of the content for what is below.
pub fn framed_page<'a>(
    alloc: Global,
    frame: &View<'a>,
    content: &View<'a>,
    site: Value<'a, 'a>,
    below: Value<'a, 'a>,
) -> Result<String, DataFault>
    ensures { IfOk result (λ page. IsFramed (unrolled_by frame.now (datum_of site.entry))
        (unrolled_by content.now (datum_of below.entry)) (string_bytes page)) }
{
    laws::pages_law();
    let mut page = String::new(alloc);
    frame.append(&mut page, site)?;
    content.append(&mut page, below)?;
    Ok(page)
}
