//! Two hostile texts in turn in every pair of slots: neither reaches the other.
use crate::pages::{PLACES, parts, put, stay};
use html_template::Template;
use std::alloc::{AllocError, Global};
use std::process::Abort;
use std::test::Fail;

// One text ends what the other could begin.
static PAIRS: [(&str, &str); 16] = [
    ("\"", "\""),
    ("'", "'"),
    ("\"", "'"),
    ("<", "/p>"),
    ("<", "/script>"),
    ("<!--", "-->"),
    ("<!-- <script>", "</script> -->"),
    ("</script>", "<script>"),
    ("</style>", "<style>"),
    ("/*", "*/"),
    ("\\", "'"),
    ("\\", "\""),
    ("&", "amp;"),
    ("&#", "34;"),
    ("\" a=", " \""),
    ("\\3", "c"),
];

// Whether both texts stay, the first in this slot and the second in each.
fn stay_apart<'t>(
    alloc: Global,
    template: &Template,
    first: &'t str,
    second: &'t str,
    before: usize,
) -> Result<bool, AllocError> {
    for following in 0..PLACES {
        let mut texts = ["x"; PLACES];
        put(&mut texts, before, first);
        put(&mut texts, following, second);
        if !stay(alloc, template, &texts)? {
            return Ok(false);
        }
    }
    Ok(true)
}

#[test]
fn no_text_reaches_another(rt: HostRuntime) -> Result<(), Fail> {
    let parts = parts(rt.alloc())?;
    let Ok(template) = Template::new(rt.alloc(), &parts) else {
        panic!(rt; "the parts are a template");
    };
    for &(first, second) in &PAIRS {
        for before in 0..PLACES {
            assert!(rt;
                stay_apart(rt.alloc(), &template, first, second, before)?,
                "{first} in {before}, and {second}"
            );
        }
    }
    Ok(())
}
