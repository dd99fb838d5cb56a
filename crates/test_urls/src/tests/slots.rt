//! URLs with several slots: where each stands, which parts are refused, and what is appended.
use html_urls::UrlPart::{Markup, Slot};
use html_urls::{
    OpenPart, UrlFault, UrlPart, UrlPlace, UrlSlot, UrlTextFault, after_markup, after_text,
    append_component, append_url, ends_scheme, is_image_front, is_plain, is_unfixed, may_be_dots,
    may_fill, open_of, slot_at, slots_of,
};
use std::alloc::Global;
use std::test::Fail;
use test_support::Refusing;
use url::{ParseError, Url};

const PAGE: &str = "https://h:8080/d/f?k=v#g";

const ITEM: [UrlPart<'static>; 5] = [
    Markup("/items/"),
    Slot,
    Markup("/edit?q="),
    Slot,
    Markup("&r=1#s"),
];

const BEGINS: UrlSlot = UrlSlot {
    place: UrlPlace::Path,
    begins_segment: true,
};

const IN_SEGMENT: UrlSlot = UrlSlot {
    place: UrlPlace::Path,
    begins_segment: false,
};

const IN_OPAQUE_PATH: UrlSlot = UrlSlot {
    place: UrlPlace::OpaquePath,
    begins_segment: false,
};

const IN_QUERY: UrlSlot = UrlSlot {
    place: UrlPlace::Query,
    begins_segment: false,
};

const IN_FRAGMENT: UrlSlot = UrlSlot {
    place: UrlPlace::Fragment,
    begins_segment: false,
};

// A front, and the fault of a slot behind it.
const FRONTS: [(&str, UrlFault); 43] = [
    ("", UrlFault::NotFixed(1)),
    ("//", UrlFault::NotFixed(1)),
    ("//x", UrlFault::NotFixed(1)),
    ("///x/", UrlFault::NotFixed(1)),
    ("items:", UrlFault::NotFixed(1)),
    ("..", UrlFault::DotSegment(1)),
    (".", UrlFault::DotSegment(1)),
    ("%2e", UrlFault::DotSegment(1)),
    ("a:b/", UrlFault::NotFixed(1)),
    (":/a/", UrlFault::NotFixed(1)),
    ("https:a/", UrlFault::NotFixed(1)),
    ("https:/", UrlFault::NotFixed(1)),
    ("https://", UrlFault::NotFixed(1)),
    ("https://a@", UrlFault::NotFixed(1)),
    ("https://a.example", UrlFault::NotFixed(1)),
    ("https://a.example:", UrlFault::NotFixed(1)),
    ("javascript:", UrlFault::NotFixed(1)),
    ("javascript:x?", UrlFault::NotFixed(1)),
    ("JavaScript:x#", UrlFault::NotFixed(1)),
    ("data:text/html,?", UrlFault::NotFixed(1)),
    ("data:", UrlFault::NotFixed(1)),
    ("data:image/svg+xml;base64,", UrlFault::NotFixed(1)),
    ("data:image/png,", UrlFault::NotFixed(1)),
    ("data:image/png;base64,?", UrlFault::NotFixed(1)),
    ("file:///a?q=", UrlFault::NotFixed(1)),
    ("tel:/", UrlFault::NotFixed(1)),
    ("mailto:/", UrlFault::NotFixed(1)),
    ("mailto://", UrlFault::NotFixed(1)),
    ("mailto2:", UrlFault::NotFixed(1)),
    ("sms:", UrlFault::NotFixed(1)),
    ("file:///", UrlFault::NotFixed(1)),
    ("/a b/", UrlFault::NotPlain(0)),
    ("/\t/", UrlFault::NotPlain(0)),
    ("/\\", UrlFault::NotPlain(0)),
    ("\\a/", UrlFault::NotPlain(0)),
    ("/a?q=%", UrlFault::NotPlain(0)),
    ("/a?q=%4", UrlFault::NotPlain(0)),
    ("#%f", UrlFault::NotPlain(0)),
    ("/a-%E", UrlFault::NotPlain(0)),
    ("/a/%2", UrlFault::NotPlain(0)),
    ("a.html/..", UrlFault::DotSegment(1)),
    ("/a/.", UrlFault::DotSegment(1)),
    ("/a/%2e", UrlFault::DotSegment(1)),
];

// What stands behind `/a/` and a slot, and its fault.
const RESTS: [(&str, UrlFault); 7] = [
    ("/../b", UrlFault::DotSegment(2)),
    ("/..", UrlFault::DotSegment(2)),
    ("/%2E?q", UrlFault::DotSegment(2)),
    ("/.#s", UrlFault::DotSegment(2)),
    ("/%2e/b", UrlFault::DotSegment(2)),
    ("/b ", UrlFault::NotPlain(2)),
    ("?q=\u{7F}", UrlFault::NotPlain(2)),
];

// What stands behind `item-` and a slot, and its fault.
const FIRST_RESTS: [(&str, UrlFault); 6] = [
    (":x", UrlFault::NotFixed(2)),
    (":", UrlFault::NotFixed(2)),
    ("b.c+d-1:/x", UrlFault::NotFixed(2)),
    ("_:x", UrlFault::NotFixed(2)),
    ("/../b", UrlFault::DotSegment(2)),
    ("\\x:", UrlFault::NotPlain(2)),
];

fn are_slots(alloc: Global, parts: &[UrlPart<'_>], wanted: &[UrlSlot]) -> bool {
    match slots_of(alloc, parts) {
        Ok(slots) => slots.as_slice() == wanted,
        Err(_) => false,
    }
}

fn is_fault(alloc: Global, parts: &[UrlPart<'_>], wanted: UrlFault) -> bool {
    match slots_of(alloc, parts) {
        Ok(_) => false,
        Err(fault) => fault == wanted,
    }
}

/// The URL of the parts with these texts, on a page.
pub fn url_of(alloc: Global, parts: &[UrlPart<'_>], texts: &[&str]) -> Result<Url, ParseError> {
    let mut value = String::new(alloc);
    let mut texts = texts.iter();
    for part in parts {
        match *part {
            Markup(markup) => value.push_str(markup)?,
            Slot => {
                let text = match texts.next() {
                    Some(text) => *text,
                    None => "",
                };
                append_component(&mut value, text)?;
            }
        }
    }
    Url::parse(alloc, PAGE)?.join(value.as_str())
}

#[test]
fn each_slot_is_told_with_its_place(rt: HostRuntime) -> Result<(), Fail> {
    assert!(rt; are_slots(rt.alloc(), &ITEM, &[BEGINS, IN_QUERY]));
    assert!(rt;
        are_slots(
            rt.alloc(),
            &[Markup("/2/"), Slot, Markup("/2/x"), Slot, Slot],
            &[BEGINS, IN_SEGMENT, IN_SEGMENT]
        )
    );
    assert!(rt;
        are_slots(
            rt.alloc(),
            &[Markup("https://a.example/"), Slot, Markup(".html#"), Slot],
            &[BEGINS, IN_FRAGMENT]
        )
    );
    assert!(rt;
        are_slots(
            rt.alloc(),
            &[Markup("./"), Markup("a"), Slot],
            &[IN_SEGMENT]
        )
    );
    assert!(rt;
        are_slots(
            rt.alloc(),
            &[Markup("items/"), Slot, Markup("/x?q="), Slot],
            &[BEGINS, IN_QUERY]
        )
    );
    assert!(rt;
        are_slots(
            rt.alloc(),
            &[Markup(".."), Markup("/u/x-"), Slot],
            &[IN_SEGMENT]
        )
    );
    assert!(rt;
        are_slots(
            rt.alloc(),
            &[Markup("/a/"), Slot, Markup("%2e/b")],
            &[BEGINS]
        )
    );
    assert!(rt; are_slots(rt.alloc(), &[Markup("/b/"), Slot, Markup(".")], &[BEGINS]));
    assert!(rt;
        are_slots(
            rt.alloc(),
            &[Markup("/d/"), Slot, Slot],
            &[BEGINS, IN_SEGMENT]
        )
    );
    assert!(rt;
        are_slots(
            rt.alloc(),
            &[Markup("/img/"), Slot, Markup("."), Slot],
            &[BEGINS, IN_SEGMENT]
        )
    );
    for front in &[
        "//x/",
        "//u@x:80/",
        "HTTPS://a.example/",
        "hTTp://a.example/b/",
    ] {
        assert!(rt;
            are_slots(rt.alloc(), &[Markup(front), Slot], &[BEGINS]),
            "{front}"
        );
    }
    for rest in &["", ".html", "/b:c", "?b:c", "#b:c", "b/"] {
        assert!(rt;
            are_slots(
                rt.alloc(),
                &[Markup("item-"), Slot, Markup(rest)],
                &[IN_SEGMENT]
            ),
            "{rest}"
        );
    }
    assert!(rt;
        are_slots(
            rt.alloc(),
            &[
                Markup("a."),
                Slot,
                Slot,
                Markup("/"),
                Slot,
                Markup("?:"),
                Slot
            ],
            &[IN_SEGMENT, IN_SEGMENT, BEGINS, IN_QUERY]
        )
    );
    assert!(rt; are_slots(rt.alloc(), &[Markup("a?b/"), Slot], &[IN_QUERY]));
    assert!(rt; are_slots(rt.alloc(), &[Markup("a/b:c/"), Slot], &[BEGINS]));
    assert!(rt;
        are_slots(
            rt.alloc(),
            &[Markup("?"), Slot, Slot],
            &[IN_QUERY, IN_QUERY]
        )
    );
    assert!(rt;
        are_slots(
            rt.alloc(),
            &[Markup("mailto:a@b.example?subject="), Slot],
            &[IN_QUERY]
        )
    );
    assert!(rt; are_slots(rt.alloc(), &[], &[]));
    Ok(())
}

#[test]
fn each_fault_names_its_part(rt: HostRuntime) -> Result<(), Fail> {
    for &(front, fault) in &FRONTS {
        assert!(rt;
            is_fault(rt.alloc(), &[Markup(front), Slot, Markup("/x")], fault),
            "{front:?}"
        );
    }
    for &(rest, fault) in &RESTS {
        assert!(rt;
            is_fault(rt.alloc(), &[Markup("/a/"), Slot, Markup(rest)], fault),
            "{rest:?}"
        );
    }
    for &(rest, fault) in &FIRST_RESTS {
        assert!(rt;
            is_fault(
                rt.alloc(),
                &[Markup("item-"), Slot, Markup(rest), Slot],
                fault
            ),
            "{rest:?}"
        );
    }
    let colon = [Markup("a"), Slot, Markup("b"), Slot, Markup(":c")];
    assert!(rt; is_fault(rt.alloc(), &colon, UrlFault::NotFixed(4)));
    assert!(rt; is_fault(rt.alloc(), &[Slot, Markup(":x")], UrlFault::NotFixed(0)));
    Ok(())
}

// A text behind `%`, or behind `%` and a hexadecimal digit, would be a part of an escape.
#[test]
fn no_escape_is_open_before_a_slot(rt: HostRuntime) -> Result<(), Fail> {
    for open in ["?q=%", "?q=%4", "?q=%f", "?q=%4%"] {
        let parts = [Markup("/a/"), Slot, Markup(open), Slot];
        assert!(rt;
            is_fault(rt.alloc(), &parts, UrlFault::NotPlain(2)),
            "{open}"
        );
        let parts = [Markup("/a/"), Slot, Markup(open)];
        assert!(rt; are_slots(rt.alloc(), &parts, &[BEGINS]), "{open}");
        assert!(rt; are_slots(rt.alloc(), &[Markup(open)], &[]), "{open}");
        let parts = [Markup(open), Markup("1"), Slot];
        assert!(rt;
            is_fault(rt.alloc(), &parts, UrlFault::NotPlain(0)),
            "{open}"
        );
    }
    for shut in ["?q=%41", "?q=%g", "?q=%4x", "?q=%25", "?q=4"] {
        assert!(rt;
            are_slots(rt.alloc(), &[Markup(shut), Slot], &[IN_QUERY]),
            "{shut}"
        );
    }
    Ok(())
}

#[test]
fn slots_are_told_part_by_part(rt: HostRuntime) -> Result<(), Fail> {
    assert!(rt; is_plain(b"/items/", false) && !is_plain(b"/a b", true));
    assert!(rt; !is_plain(b"/\\", true));
    assert!(rt; !is_plain(b"?q=%4", false) && is_plain(b"?q=%4", true));
    assert!(rt; open_of(b"/items/") == Some(OpenPart::NewSegment));
    assert!(rt; open_of(b"mailto:a@b.example?subject=") == Some(OpenPart::Query));
    assert!(rt; open_of(b"item-") == Some(OpenPart::FirstSegment) && open_of(b"item:").is_none());
    assert!(rt; ends_scheme(OpenPart::FirstSegment, b"-b:c"));
    assert!(rt; !ends_scheme(OpenPart::FirstSegment, b"/b:c"));
    assert!(rt; !ends_scheme(OpenPart::NamedSegment, b"-b:c"));
    assert!(rt; open_of(b"mailto:") == Some(OpenPart::OpaquePath));
    assert!(rt; open_of(b"TEL:+49") == Some(OpenPart::OpaquePath));
    assert!(rt; open_of(b"mailto:/").is_none() && open_of(b"tel:/1").is_none());
    assert!(rt; open_of(b"tel:1?") == Some(OpenPart::Query));
    assert!(rt; open_of(b"data:image/png;base64,") == Some(OpenPart::OpaquePath));
    assert!(rt; open_of(b"data:").is_none());
    assert!(rt; open_of(b"tel:1#") == Some(OpenPart::Fragment));
    assert!(rt; slot_at(OpenPart::OpaquePath) == Some(IN_OPAQUE_PATH));
    assert!(rt; after_markup(OpenPart::OpaquePath, b"@a?") == Some(OpenPart::Query));
    assert!(rt; is_unfixed(OpenPart::OpaquePath, b"/b"));
    assert!(rt; !is_unfixed(OpenPart::OpaquePath, b"@a.example?cc=/"));
    assert!(rt; is_unfixed(OpenPart::FirstSegment, b"-b:c"));
    assert!(rt; open_of(b"//").is_none() && open_of(b"javascript:x?").is_none());
    assert!(rt; slot_at(OpenPart::NewSegment) == Some(BEGINS));
    assert!(rt; slot_at(OpenPart::DotSegment).is_none());
    assert!(rt; after_text(OpenPart::NewSegment) == OpenPart::NamedSegment);
    assert!(rt; after_markup(OpenPart::NamedSegment, b"?q=") == Some(OpenPart::Query));
    assert!(rt; after_markup(OpenPart::NamedSegment, b"/../b").is_none());
    assert!(rt; after_markup(OpenPart::NamedSegment, b"/%2") == Some(OpenPart::DotSegment));
    assert!(rt; may_be_dots(OpenPart::DotSegment) && !may_be_dots(OpenPart::NamedSegment));
    Ok(())
}

#[test]
fn an_image_begins_with_its_type(rt: HostRuntime) -> Result<(), Fail> {
    assert!(rt; is_image_front(b"data:image/png;base64,"));
    assert!(rt; is_image_front(b"DATA:image/PNG;base64,iVBO"));
    assert!(rt; !is_image_front(b"data:image/png;base64"));
    assert!(rt; !is_image_front(b"data:image/png,"));
    assert!(rt; !is_image_front(b"data:image/svg+xml;base64,"));
    Ok(())
}

#[test]
fn addresses_numbers_and_images_are_appended(rt: HostRuntime) -> Result<(), Fail> {
    let mail = [
        Markup("mailto:"),
        Slot,
        Markup("@example.org,"),
        Slot,
        Markup("?subject="),
        Slot,
    ];
    let slots = [IN_OPAQUE_PATH, IN_OPAQUE_PATH, IN_QUERY];
    assert!(rt; are_slots(rt.alloc(), &mail, &slots));
    let mut link = String::new(rt.alloc());
    assert!(rt; append_url(&mut link, &mail, &["a+b", "c?cc=d@e,f", "g+h@i"]).is_ok());
    assert!(rt; link.as_str() == "mailto:a+b@example.org,c%3Fcc%3Dd@e%2Cf?subject=g%2Bh%40i");
    let mut link = String::new(rt.alloc());
    let number = [Markup("tel:"), Slot];
    assert!(rt; append_url(&mut link, &number, &["+49 30 1234"]).is_ok());
    assert!(rt; link.as_str() == "tel:+49%2030%201234");
    let mut link = String::new(rt.alloc());
    let image = [Markup("data:image/png;base64,"), Slot];
    assert!(rt; append_url(&mut link, &image, &["/9+A="]).is_ok());
    assert!(rt; link.as_str() == "data:image/png;base64,%2F9+A%3D");
    let parts = [Markup("mailto:"), Slot, Markup("/b")];
    assert!(rt; is_fault(rt.alloc(), &parts, UrlFault::NotFixed(2)));
    let parts = [Markup("mail"), Slot, Markup("to:")];
    assert!(rt; is_fault(rt.alloc(), &parts, UrlFault::NotFixed(2)));
    Ok(())
}

#[test]
fn a_url_is_appended(rt: HostRuntime) -> Result<(), Fail> {
    let parts = [Markup("/items/"), Slot, Markup("?q="), Slot];
    let mut page = String::from_str(rt.alloc(), "<")?;
    assert!(rt; append_url(&mut page, &parts, &["1/../2", "a&b"]).is_ok());
    assert!(rt; page.as_str() == "</items/1%2F..%2F2?q=a%26b");
    let refused = append_url(&mut page, &parts, &["..", "a"]);
    assert!(rt; refused == Err(UrlTextFault::WrongText(0)));
    let refused = append_url(&mut page, &parts, &["a"]);
    assert!(rt; refused == Err(UrlTextFault::WrongCount));
    let refused = append_url(&mut page, &[Slot], &["a"]);
    assert!(rt; refused == Err(UrlTextFault::Parts(UrlFault::NotFixed(0))));
    assert!(rt; append_url(&mut page, &[Markup("#"), Slot, Markup("b")], &[""]).is_ok());
    assert!(rt; page.as_str() == "</items/1%2F..%2F2?q=a%26b#b");
    for count in 1..4 {
        let heap = Refusing::new(rt.alloc(), count);
        let mut page = String::new(&heap);
        let refused = append_url(&mut page, &parts, &["a", "b"]);
        assert!(rt; refused == Err(UrlTextFault::Memory), "{count}");
        assert!(rt; page.as_str() == "", "{count}");
    }
    Ok(())
}

#[test]
fn texts_fill_slots_by_their_place(rt: HostRuntime) -> Result<(), Fail> {
    for &text in &["", ".", ".."] {
        assert!(rt; !may_fill(BEGINS, text), "{text:?}");
        assert!(rt; may_fill(IN_SEGMENT, text), "{text:?}");
        assert!(rt; may_fill(IN_QUERY, text), "{text:?}");
        assert!(rt; may_fill(IN_FRAGMENT, text), "{text:?}");
    }
    for &text in &["...", "%2e", "a/../b"] {
        assert!(rt; may_fill(BEGINS, text), "{text:?}");
    }
    Ok(())
}

#[test]
fn refused_memory_is_a_fault(rt: HostRuntime) -> Result<(), Fail> {
    for refused in 1..3 {
        let heap = Refusing::new(rt.alloc(), refused);
        let told = slots_of(&heap, &ITEM);
        assert!(rt; matches!(&told, Err(UrlFault::Memory)), "{refused}");
    }
    let heap = Refusing::new(rt.alloc(), 0);
    assert!(rt; slots_of(&heap, &ITEM).is_ok());
    Ok(())
}
