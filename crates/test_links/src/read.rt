//! What the parser of the URL Standard reads.
use percent_encoding::percent_decode_str;
use std::alloc::{AllocError, Global};
use url::Url;

/// A URL as it is written, and its reading.
pub type Read = (String, String);

/// What is read in a reference on this page, `no URL` if there is none.
pub fn read_on(alloc: Global, page: &Url, reference: &str) -> Result<Read, AllocError> {
    match page.join(reference) {
        Ok(url) => Ok((
            String::from_str(alloc, url.as_str())?,
            reading_of(alloc, &url)?,
        )),
        Err(_) => Ok((format!(in alloc; "no URL")?, String::new(alloc))),
    }
}

// The scheme and the authority, and then each segment or the opaque path, each pair and the fragment, decoded.
fn reading_of(alloc: Global, url: &Url) -> Result<String, AllocError> {
    let mut read = format!(in alloc; "{} {}\n", url.scheme(), url.authority())?;
    if let Some(segments) = url.path_segments() {
        for segment in segments {
            add_decoded(alloc, &mut read, "/", segment)?;
        }
    } else {
        add_decoded(alloc, &mut read, ":", url.path())?;
    }
    for pair in url.query_pairs().into_owned() {
        let (name, value) = pair?;
        read.push_str(format!(in alloc; "?{name}={value}\n")?.as_str())?;
    }
    if let Some(fragment) = url.fragment() {
        add_decoded(alloc, &mut read, "#", fragment)?;
    }
    Ok(read)
}

// A line of this mark and the component's text.
fn add_decoded(
    alloc: Global,
    read: &mut String,
    mark: &str,
    component: &str,
) -> Result<(), AllocError> {
    let mut bytes = Vec::new(alloc);
    percent_decode_str(component).append_to(&mut bytes)?;
    read.push_str(mark)?;
    read.push_str(str::from_utf8(&bytes).unwrap_or(component))?;
    read.push_str("\n")
}

/// Whether a page reads no URL in a reference, or one of the web, of mail or of its own scheme.
pub fn has_known_scheme(alloc: Global, base: &str, reference: &str) -> bool {
    let Ok(page) = Url::parse(alloc, base) else {
        return false;
    };
    match page.join(reference) {
        Ok(url) => {
            matches!(url.scheme(), "http" | "https" | "mailto") || url.scheme() == page.scheme()
        }
        Err(_) => true,
    }
}

/// Whether a page reads in a reference a URL with its own scheme, user, host and port.
pub fn is_on_page(alloc: Global, base: &str, reference: &str) -> bool {
    let Ok(page) = Url::parse(alloc, base) else {
        return false;
    };
    match page.join(reference) {
        Ok(url) => url.scheme() == page.scheme() && url.authority() == page.authority(),
        Err(_) => false,
    }
}
