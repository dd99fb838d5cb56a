//! The callers of URLs of parts and texts.
use std::test::Fail;
use uses::contact_links::{append_call_link, append_mail_link, append_picture};
use uses::search_link::append_search_link;

#[test]
fn no_text_adds_a_pair(rt: HostRuntime) -> Result<(), Fail> {
    let mut link = String::new(rt.alloc());
    assert!(rt; append_search_link(&mut link, "a&admin=1#s", "2").is_ok());
    assert!(rt; link.as_str() == "/search?q=a%26admin%3D1%23s&page=2");
    Ok(())
}

#[test]
fn no_text_leaves_an_opaque_path(rt: HostRuntime) -> Result<(), Fail> {
    let mut link = String::new(rt.alloc());
    assert!(rt; append_mail_link(&mut link, "a+b?bcc=c@d.example", "1 & 2&bcc=c").is_ok());
    assert!(rt;
        link.as_str() == "mailto:a+b%3Fbcc%3Dc@d.example@b.example?subject=1%20%26%202%26bcc%3Dc"
    );
    link.clear();
    assert!(rt; append_call_link(&mut link, "+49 30/javascript:").is_ok());
    assert!(rt; link.as_str() == "tel:+49%2030%2Fjavascript%3A");
    link.clear();
    assert!(rt; append_picture(&mut link, "iVBO+/w==,<svg>").is_ok());
    assert!(rt; link.as_str() == "data:image/png;base64,iVBO+%2Fw%3D%3D%2C%3Csvg%3E");
    Ok(())
}
