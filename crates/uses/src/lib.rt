//! Callers of the libraries, each as a user writes it, with what it can state of its result.
#![tactic(auto)]

mod pages;
mod readers;
mod templates;
mod urls;
mod views;
mod writers;

pub use crate::pages::{card, cell, excerpt, field, label, rows, search};
pub use crate::readers::{back, posted, table};
pub use crate::templates::{
    asset_page, bar, breadcrumbs, data_block, form_page, home_page, item_links, link_list,
    mail_rows, page_script, price_list, search_page,
};
pub use crate::urls::{contact_links, search_link};
pub use crate::views::{framed_page, json_page, nested_page, two_pages};
pub use crate::writers::{log_item, log_list};
