//! Texts that fill a template and texts that do not, and a long template.
use html_template::{FillFault, Part, Template, TextFault};
use std::test::Fail;

#[test]
fn fills(rt: HostRuntime) -> Result<(), Fail> {
    let parts = [
        Part::Markup("<p a="),
        Part::Slot,
        Part::Markup(">"),
        Part::Slot,
    ];
    let Ok(template) = Template::new(rt.alloc(), &parts) else {
        assert!(rt; false);
        return Ok(());
    };
    let mut output = String::from_str(rt.alloc(), "x")?;
    assert!(rt; template.append(&mut output, &["a"]) == Err(FillFault::WrongCount));
    assert!(rt; template.append(&mut output, &["a", "b", "c"]) == Err(FillFault::WrongCount));
    assert!(rt;
        template.append(&mut output, &["", "b"])
            == Err(FillFault::Text(0, TextFault::EmptyUnquoted))
    );
    assert!(rt; template.append(&mut output, &["a", ""]) == Ok(()));
    assert!(rt; template.append(&mut output, &["b", "<"]) == Ok(()));
    assert!(rt; output.as_str() == "x<p a=a><p a=b>&lt;");
    Ok(())
}

/// A megabyte of markup, and 100,000 slots: a search that began anew for each would not end.
#[test]
fn long_templates(rt: HostRuntime) -> Result<(), Fail> {
    let alloc = rt.alloc();
    let mut markup = String::new(alloc);
    for _ in 0..40000 {
        markup.push_str("<p title=\"a&amp;b\">x</p> ")?;
    }
    let mut parts = vec![in alloc; Part::Markup(markup.as_str())]?;
    let mut texts = Vec::new(alloc);
    for _ in 0..100000 {
        parts.push(Part::Slot)?;
        parts.push(Part::Markup("<br>"))?;
        texts.push("<a>&\"'")?;
    }
    let Ok(template) = Template::new(alloc, &parts) else {
        assert!(rt; false);
        return Ok(());
    };
    let mut page = String::new(alloc);
    assert!(rt; template.append(&mut page, &texts) == Ok(()));
    assert!(rt; page.as_str().len() == 40000 * 25 + 100000 * 20);
    Ok(())
}
