//! The callers of templates.

use html_template::{FillFault, TextFault};
use std::test::Fail;
use test_support::{Trouble, WeakWriter, Weakness};
use uses::asset_page::{AssetTemplate, Assets};
use uses::bar::{Bar, BarTemplate};
use uses::breadcrumbs::{Breadcrumbs, Crumb};
use uses::data_block::DataBlock;
use uses::form_page::{Draft, FormTemplate};
use uses::home_page::{Stranger, StrangerTemplates};
use uses::item_links::{self, ItemLinks};
use uses::link_list::{Found, LinkList};
use uses::log_item::LogItem;
use uses::mail_rows::{Mail, MailRows};
use uses::page_script::PageScript;
use uses::price_list::{Item, ListTemplates};
use uses::search_page::{search_page, search_template};

#[test]
fn no_query_leaves_its_place(rt: HostRuntime) -> Result<(), Fail> {
    let Ok(template) = search_template(rt.alloc()) else {
        assert!(rt; false);
        return Ok(());
    };
    let query = String::from_str(rt.alloc(), "'\"</title></script>")?;
    let Ok(found) = search_page(rt.alloc(), &template, query) else {
        assert!(rt; false);
        return Ok(());
    };
    assert!(rt;
        found.page.as_str()
            == "<!DOCTYPE html><title>'\"&lt;/title&gt;&lt;/script&gt;</title><form action=/search><input name=q value=\"'&quot;&lt;/title&gt;&lt;/script&gt;\"></form><script>log('\\'\"\\x3C/title>\\x3C/script>');</script><p>Nothing was found for '\"&lt;/title&gt;&lt;/script&gt;.</p>"
    );
    Ok(())
}

#[test]
fn a_draft_stays_in_its_form(rt: HostRuntime) -> Result<(), Fail> {
    let draft = Draft {
        id: "7\"</script>",
        title: "\" autofocus onfocus=\"",
        tags: "' a",
        text: "</textarea>",
    };
    let Ok(template) = FormTemplate::new(rt.alloc()) else {
        assert!(rt; false);
        return Ok(());
    };
    let Ok(page) = template.page(rt.alloc(), draft) else {
        assert!(rt; false);
        return Ok(());
    };
    assert!(rt;
        page.as_str()
            == "<form method=post action=\"/notes/7%22%3C%2Fscript%3E\"><input name=title value=\"&quot; autofocus onfocus=&quot;\"><input name=tags value='&#x27; a'><textarea name=text>\n&lt;/textarea&gt;</textarea></form><script>restore(\"7\\\"\\x3C/script>\");</script>"
    );
    Ok(())
}

#[test]
fn no_text_leaves_its_row(rt: HostRuntime) -> Result<(), Fail> {
    let items = [
        Item {
            name: "</table>",
            price: "1\">",
        },
        Item {
            name: "tea",
            price: "2",
        },
    ];
    let Ok(templates) = ListTemplates::new(rt.alloc()) else {
        assert!(rt; false);
        return Ok(());
    };
    let Ok(page) = templates.page(rt.alloc(), "</title>", &items) else {
        assert!(rt; false);
        return Ok(());
    };
    assert!(rt;
        page.as_str()
            == "<!DOCTYPE html><title>&lt;/title&gt;</title><table><tr><td>&lt;/table&gt;<td data-price=\"1&quot;&gt;\">&#8364;</tr><tr><td>tea<td data-price=\"2\">&#8364;</tr></table>"
    );
    Ok(())
}

#[test]
fn no_text_leaves_its_part_of_a_link(rt: HostRuntime) -> Result<(), Fail> {
    let found = [
        Found {
            id: "../../logout",
            name: "</li>",
        },
        Found {
            id: "7",
            name: "tea",
        },
    ];
    let Ok(list) = LinkList::new(rt.alloc()) else {
        assert!(rt; false);
        return Ok(());
    };
    let Ok(page) = list.page(rt.alloc(), "1&admin=1#\"", &found) else {
        assert!(rt; false);
        return Ok(());
    };
    assert!(rt;
        page.as_str()
            == "<li><a href=\"/items/..%2F..%2Flogout?q=1%26admin%3D1%23%22\">&lt;/li&gt;</a></li><li><a href=\"/items/7?q=1%26admin%3D1%23%22\">tea</a></li>"
    );
    Ok(())
}

#[test]
fn an_id_that_is_dots_or_empty_is_a_fault(rt: HostRuntime) -> Result<(), Fail> {
    let Ok(list) = LinkList::new(rt.alloc()) else {
        assert!(rt; false);
        return Ok(());
    };
    for (id, fault) in [
        ("..", FillFault::Text(0, TextFault::DotSegment)),
        ("", FillFault::Text(0, TextFault::EmptySegment)),
    ] {
        let found = [Found { id, name: "tea" }];
        let page = list.page(rt.alloc(), "", &found);
        assert!(rt; page.as_deref() == Err(&fault), "{id}");
    }
    Ok(())
}

// A name, a URL, and the page.
static STRANGERS: [(&str, &str, &str); 5] = [
    (
        "<b>",
        "https://a.example/?b&c\"",
        "<a rel=\"nofollow\" href=\"https://a.example/?b&amp;c&quot;\">&lt;b&gt;</a>",
    ),
    (
        "a",
        "//a.example",
        "<a rel=\"nofollow\" href=\"//a.example\">a</a>",
    ),
    ("</b>", "javascript:f()", "<b>&lt;/b&gt;</b>"),
    ("a", " java\tscript:f()", "<b>a</b>"),
    ("a", "data:text/html,b", "<b>a</b>"),
];

#[test]
fn a_stranger_has_a_link_or_a_name_alone(rt: HostRuntime) -> Result<(), Fail> {
    let Ok(templates) = StrangerTemplates::new(rt.alloc()) else {
        assert!(rt; false);
        return Ok(());
    };
    for (name, url, wanted) in STRANGERS {
        let page = templates.page(rt.alloc(), Stranger { name, url });
        assert!(rt; page.as_deref() == Ok(wanted), "{url}");
    }
    Ok(())
}

#[test]
fn a_script_is_of_the_own_host(rt: HostRuntime) -> Result<(), Fail> {
    let Ok(template) = AssetTemplate::new(rt.alloc()) else {
        assert!(rt; false);
        return Ok(());
    };
    let own = Assets {
        title: "</title>",
        style: "/a.css?b&c",
        script: "/d.js",
    };
    let page = template.page(rt.alloc(), own);
    assert!(rt;
        page.as_deref()
            == Ok(
                "<!DOCTYPE html><title>&lt;/title&gt;</title><link rel=stylesheet href=\"/a.css?b&amp;c\"><script src=\"/d.js\"></script>"
            )
    );
    let style = Assets {
        style: "//a.example/b.css",
        ..own
    };
    let fault = template.page(rt.alloc(), style).err();
    assert!(rt; fault == Some(FillFault::Text(1, TextFault::NotAnOwnPath)));
    let script = Assets {
        script: "javascript:f()",
        ..own
    };
    let fault = template.page(rt.alloc(), script).err();
    assert!(rt; fault == Some(FillFault::Text(2, TextFault::NotAnOwnPath)));
    Ok(())
}

#[test]
fn a_crumb_is_appended_byte_by_byte(rt: HostRuntime) -> Result<(), Fail> {
    let Ok(crumbs) = Breadcrumbs::new(rt.alloc()) else {
        assert!(rt; false);
        return Ok(());
    };
    let mut page = String::from_str(rt.alloc(), "<nav>")?;
    let crumb = Crumb {
        path: "a/../b",
        name: "a > b",
    };
    assert!(rt; crumbs.append(&mut page, crumb) == Ok(()));
    assert!(rt; page.as_str() == "<nav><a href=\"/a%2F..%2Fb\">a &gt; b</a> / ");
    let empty = Crumb { path: "", name: "" };
    assert!(rt;
        crumbs.append(&mut page, empty) == Err(FillFault::Text(0, TextFault::EmptySegment))
    );
    let dots = Crumb {
        path: "..",
        name: "",
    };
    assert!(rt; crumbs.append(&mut page, dots) == Err(FillFault::Text(0, TextFault::DotSegment)));
    assert!(rt; page.as_str() == "<nav><a href=\"/a%2F..%2Fb\">a &gt; b</a> / ");
    Ok(())
}

#[test]
fn a_bar_has_its_two_declarations(rt: HostRuntime) -> Result<(), Fail> {
    let Ok(template) = BarTemplate::new(rt.alloc()) else {
        assert!(rt; false);
        return Ok(());
    };
    let bar = Bar {
        width: "33.3",
        color: "#0af",
    };
    let page = template.page(rt.alloc(), bar);
    let expected = "<div style=\"width: 33.3%; background: #0af\"></div>";
    assert!(rt; page.is_ok_and(|page| page.as_str() == expected));
    let url = template.page(
        rt.alloc(),
        Bar {
            color: "url(//b.example)",
            ..bar
        },
    );
    assert!(rt; url.is_err_and(|fault| fault == FillFault::Text(1, TextFault::NotAStyleValue)));
    let two = template.page(
        rt.alloc(),
        Bar {
            width: "1; top: 0",
            ..bar
        },
    );
    assert!(rt; two.is_err_and(|fault| fault == FillFault::Text(0, TextFault::NotAStyleValue)));
    Ok(())
}

#[test]
fn an_address_alone_decides_where_items_lead(rt: HostRuntime) -> Result<(), Fail> {
    let Ok(links) = ItemLinks::new(rt.alloc()) else {
        assert!(rt; false);
        return Ok(());
    };
    let own = item_links::Item {
        base: "",
        id: "../../b",
        name: "a > b",
    };
    let shop = item_links::Item {
        base: "https://a.example/shop",
        id: "7?c#d",
        name: "7",
    };
    let mut page = String::new(rt.alloc());
    assert!(rt; links.append(&mut page, own) == Ok(()));
    assert!(rt; links.append(&mut page, shop) == Ok(()));
    assert!(rt;
        page.as_str()
            == "<a href=\"/items/..%2F..%2Fb\">a &gt; b</a><a href=\"https://a.example/shop/items/7%3Fc%23d\">7</a>"
    );
    for base in [
        "//a.example",
        "javascript:f()",
        "/",
        "/a/",
        "/a/..",
        "a",
        "/\\a.example",
    ] {
        let fault = links.append(&mut page, item_links::Item { base, ..shop });
        assert!(rt;
            fault == Err(FillFault::Text(0, TextFault::NotABase)),
            "{base}"
        );
    }
    Ok(())
}

#[test]
fn a_script_starts_with_any_values(rt: HostRuntime) -> Result<(), Fail> {
    let Ok(script) = PageScript::new(rt.alloc()) else {
        assert!(rt; false);
        return Ok(());
    };
    let mut page = String::new(rt.alloc());
    assert!(rt; script.append(&mut page, "a\"b", "{\"c\": \"</script>\"}") == Ok(()));
    assert!(rt;
        page.as_str()
            == "<script>var user = \"a\\\"b\"; show(JSON.parse(\"{\\\"c\\\": \\\"\\x3C/script>\\\"}\"));</script>"
    );
    Ok(())
}

#[test]
fn any_text_stands_in_a_data_block(rt: HostRuntime) -> Result<(), Fail> {
    let Ok(block) = DataBlock::new(rt.alloc()) else {
        assert!(rt; false);
        return Ok(());
    };
    let mut page = String::new(rt.alloc());
    assert!(rt; block.append(&mut page, "{\"name\": \"</script><!--\"}") == Ok(()));
    assert!(rt;
        page.as_str()
            == "<script type=\"application/ld+json\">{\"name\": \"\\u003C/script>\\u003C!--\"}</script>"
    );
    Ok(())
}

#[test]
fn no_name_of_a_mail_is_missing(rt: HostRuntime) -> Result<(), Fail> {
    let Ok(rows) = MailRows::new(rt.alloc()) else {
        assert!(rt; false);
        return Ok(());
    };
    let mut page = String::new(rt.alloc());
    for (from, subject) in [("a@b.example", "</td>"), ("", "{{from}}")] {
        assert!(rt; rows.append(&mut page, Mail { from, subject }) == Ok(()));
    }
    assert!(rt;
        page.as_str() == "<tr><td>a@b.example<td>&lt;/td&gt;</tr><tr><td><td>{{from}}</tr>"
    );
    Ok(())
}

#[test]
fn an_item_of_a_log_is_written(rt: HostRuntime) -> Result<(), Fail> {
    let Ok(item) = LogItem::new(rt.alloc()) else {
        assert!(rt; false);
        return Ok(());
    };
    let page = "<li title=\"12:00 &quot;\">&lt;b&gt;</li>";
    for at in 0..=page.len() as u64 {
        let mut writer = WeakWriter::new(rt.alloc(), Weakness::byte_by_byte(at, Trouble::Fails));
        let is_written = item.write(&mut writer, "12:00 \"", "<b>").is_ok();
        assert!(rt; is_written == (at == 0), "{at}");
        if is_written {
            assert!(rt; writer.taken.as_slice() == page.as_bytes());
        } else {
            assert!(rt; page.as_bytes().starts_with(&writer.taken), "{at}");
        }
    }
    Ok(())
}
