//! Pages of bound texts, and of none.
use html_template::{FillFault, TextFault};
use html_template_source::{BindFault, NamedTemplate};
use std::test::Fail;

#[test]
fn an_opening_alone(rt: HostRuntime) {
    let Ok(template) = NamedTemplate::parse(rt.alloc(), "{{\"{{\"}}") else {
        panic!(rt; "refused");
    };
    let mut page = String::new(rt.alloc());
    assert!(rt; template.append(&mut page, &[]) == Ok(()));
    assert!(rt; page.as_str() == "{{");
}

#[test]
fn bindings(rt: HostRuntime) -> Result<(), Fail> {
    let source = "<p title={{title}} id=\"{{id}}\">{{title}}</p>";
    let Ok(template) = NamedTemplate::parse(rt.alloc(), source) else {
        assert!(rt; false);
        return Ok(());
    };
    let mut page = String::new(rt.alloc());
    assert!(rt; template.append(&mut page, &[("id", "a")]) == Err(BindFault::Missing(0)));
    assert!(rt;
        template.append(&mut page, &[("title", "a"), ("ID", "b")]) == Err(BindFault::Unknown(1))
    );
    assert!(rt;
        template.append(&mut page, &[("id", "a"), ("title", "b"), ("id", "c")])
            == Err(BindFault::Doubled(0))
    );
    assert!(rt;
        template.append(&mut page, &[("title", ""), ("id", "b")])
            == Err(BindFault::Fill(FillFault::Text(0, TextFault::EmptyUnquoted)))
    );
    assert!(rt; template.append(&mut page, &[("id", "\""), ("title", "a b")]) == Ok(()));
    assert!(rt; page.as_str() == "<p title=a&#x20;b id=\"&quot;\">a b</p>");
    Ok(())
}
