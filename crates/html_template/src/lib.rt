//! Templates of pages whose structure no text can change.
//!
//! A [`Template`] is made of markup and slots. It finds out by itself where each slot stands, and so
//! which encoder writes its texts, and refuses what it cannot read. Whatever texts fill it, the page
//! is tokenized as the template is, with each text handed to its slot whole, in a part of a URL as its
//! component, and JSON with its `<` escaped. No text changes a URL's scheme or host, or how many segments
//! and how many strings between `&` it has, unless its slot is the whole URL or its beginning: then it has
//! to be a link or a base, or, where the page runs what the URL leads to, an own path or a base of the page's
//! own host.
#![tactic(auto)]

mod faults;
mod fill;
mod fragment;
pub mod laws;
mod open_url;
mod page;
mod parts;
mod stored;
mod template;
mod texts;
mod walk;

pub use crate::faults::{FillFault, PartFault, TemplateFault, TextFault, WriteFault};
pub use crate::fill::text_fault;
pub use crate::fragment::{Fragment, FragmentBuf};
pub use crate::open_url::{OpenUrl, PlacedSlot, before, url_markup};
pub use crate::page::{put_markup, put_text};
pub use crate::parts::{Part, SlotKind};
pub use crate::stored::{StoredMarkup, StoredSlot};
pub use crate::template::Template;
pub use crate::texts::Texts;
pub use crate::walk::placed;
pub use html_tokenizer::{Code, Content, SlotPlace};
pub use html_urls::{BehindBase, OpenPart, UrlPlace, UrlSlot};
