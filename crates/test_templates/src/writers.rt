//! Pages that are written: to any writer the same bytes go out as are appended, on its own fault a
//! beginning of them, and nothing where the texts do not fill the template.
use crate::pages::{PLACES, parts};
use html_template::{FillFault, Template, TextFault, WriteFault};
use html_template_source::{BindFault, NamedTemplate};
use std::alloc::Global;
use std::io::{self, ErrorKind};
use std::process::Abort;
use std::test::Fail;
use test_support::{Trouble, WeakWriter, Weakness};

static TEXTS: [&str; PLACES] = [
    "a<b",
    "&amp;",
    "\"",
    "'",
    "a b",
    "';",
    "\"\\",
    "</style>",
    "\u{20AC}",
    "\"x",
    "</title>",
    "</desc>",
    "a/b",
    "</svg>",
    "",
    "&\"",
    "<b>",
    "</noscript>",
    "[\"<\"]",
];

// Takes all of a piece at a call.
const STRONG: Weakness = Weakness {
    step: 4096,
    at: 0,
    trouble: Trouble::Calm,
};

fn whole_template(alloc: Global) -> Result<Template<'static>, Fail> {
    let parts = parts(alloc)?;
    match Template::new(alloc, &parts) {
        Ok(template) => Ok(template),
        Err(_) => Err(Fail::new("the parts are a template")),
    }
}

#[test]
fn what_is_appended_is_written(rt: HostRuntime) -> Result<(), Fail> {
    let template = whole_template(rt.alloc())?;
    let mut page = String::new(rt.alloc());
    assert!(rt; template.append(&mut page, &TEXTS) == Ok(()));
    for step in [1, 2, 7, 4096] {
        let weakness = Weakness { step, ..STRONG };
        let mut writer = WeakWriter::new(rt.alloc(), weakness);
        assert!(rt; template.append_to_writer(&mut writer, &TEXTS).is_ok());
        assert!(rt; writer.taken.as_slice() == page.as_bytes(), "{step}");
        assert!(rt; writer.was_only_written());
    }
    Ok(())
}

#[test]
fn a_fault_of_the_writer_leaves_a_beginning(rt: HostRuntime) -> Result<(), Fail> {
    let template = whole_template(rt.alloc())?;
    let mut page = String::new(rt.alloc());
    assert!(rt; template.append(&mut page, &TEXTS) == Ok(()));
    for at in 1..=page.len() as u64 {
        for trouble in [Trouble::Fails, Trouble::Interrupted, Trouble::Idle] {
            let mut writer = WeakWriter::new(rt.alloc(), Weakness::byte_by_byte(at, trouble));
            let fault = match template.append_to_writer(&mut writer, &TEXTS) {
                Err(WriteFault::Writer(fault)) => fault,
                Err(WriteFault::Texts(_)) | Ok(()) => panic!(rt; "{at}"),
            };
            assert!(rt; fault.kind() == kind_of(rt.alloc(), trouble, at)?, "{at}");
            assert!(rt;
                writer.taken.as_slice() == &page.as_bytes()[..at as usize - 1],
                "{at}"
            );
            assert!(rt; writer.calls == at);
        }
    }
    Ok(())
}

fn kind_of(alloc: Global, trouble: Trouble, at: u64) -> io::Result<ErrorKind> {
    match trouble {
        Trouble::Idle => Ok(ErrorKind::WriteZero),
        _ => Ok(trouble.error_at(alloc, at)?.kind()),
    }
}

#[test]
fn texts_that_do_not_fill_write_nothing(rt: HostRuntime) -> Result<(), Fail> {
    let template = whole_template(rt.alloc())?;
    let mut empty = TEXTS;
    empty[4] = "";
    let cases: [(&[&str], FillFault); 3] = [
        (&empty, FillFault::Text(4, TextFault::EmptyUnquoted)),
        (&TEXTS[..PLACES - 1], FillFault::WrongCount),
        (&[], FillFault::WrongCount),
    ];
    for &(texts, expected) in &cases {
        let mut writer = WeakWriter::new(rt.alloc(), STRONG);
        match template.append_to_writer(&mut writer, texts) {
            Err(WriteFault::Texts(fault)) => assert!(rt; fault == expected),
            Err(WriteFault::Writer(_)) | Ok(()) => panic!(rt; "{expected:?}"),
        }
        assert!(rt; writer.calls == 0);
    }
    Ok(())
}

#[test]
fn a_named_page_is_written(rt: HostRuntime) -> Result<(), Fail> {
    let source = "<p title=\"{{a}}\">{{b}}</p>{{a}}";
    let Ok(template) = NamedTemplate::parse(rt.alloc(), source) else {
        panic!(rt; "the source is a template");
    };
    let orders: [[(&str, &str); 2]; 2] = [[("a", "1\""), ("b", "<")], [("b", "<"), ("a", "1\"")]];
    for bindings in &orders {
        let mut writer = WeakWriter::new(rt.alloc(), STRONG);
        assert!(rt; template.append_to_writer(&mut writer, bindings).is_ok());
        assert!(rt; writer.taken.as_slice() == "<p title=\"1&quot;\">&lt;</p>1\"".as_bytes());
        assert!(rt; writer.was_only_written());
    }
    Ok(())
}

#[test]
fn bindings_that_do_not_fill_write_nothing(rt: HostRuntime) -> Result<(), Fail> {
    let Ok(template) = NamedTemplate::parse(rt.alloc(), "<p title={{a}}>{{b}}</p>") else {
        panic!(rt; "the source is a template");
    };
    let cases: [(&[(&str, &str)], BindFault); 4] = [
        (&[("a", "1")], BindFault::Missing(1)),
        (&[("a", "1"), ("c", "2")], BindFault::Unknown(1)),
        (&[("b", "1"), ("b", "2"), ("a", "3")], BindFault::Doubled(0)),
        (
            &[("b", "1"), ("a", "")],
            BindFault::Fill(FillFault::Text(0, TextFault::EmptyUnquoted)),
        ),
    ];
    for &(bindings, expected) in &cases {
        let mut writer = WeakWriter::new(rt.alloc(), STRONG);
        match template.append_to_writer(&mut writer, bindings) {
            Err(WriteFault::Texts(fault)) => assert!(rt; fault == expected),
            Err(WriteFault::Writer(_)) | Ok(()) => panic!(rt; "{expected:?}"),
        }
        assert!(rt; writer.calls == 0);
    }
    Ok(())
}

// A writer that fails at the byte of that number has what was appended up to there.
#[test]
fn a_fault_of_the_writer_leaves_a_beginning_of_a_named_page(rt: HostRuntime) -> Result<(), Fail> {
    let Ok(template) = NamedTemplate::parse(rt.alloc(), "<a href=\"/{{id}}\">{{id}}</a>") else {
        panic!(rt; "the source is a template");
    };
    let page = "<a href=\"/a%2Fb\">a/b</a>";
    for at in 1..=page.len() as u64 {
        let mut writer = WeakWriter::new(rt.alloc(), Weakness::byte_by_byte(at, Trouble::Fails));
        match template.append_to_writer(&mut writer, &[("id", "a/b")]) {
            Err(WriteFault::Writer(_)) => {}
            Err(WriteFault::Texts(_)) | Ok(()) => panic!(rt; "{at}"),
        }
        assert!(rt;
            writer.taken.as_slice() == &page.as_bytes()[..at as usize - 1],
            "{at}"
        );
    }
    Ok(())
}
