//! Callers that make pages by templates.

pub mod asset_page;
pub mod bar;
pub mod breadcrumbs;
pub mod data_block;
pub mod form_page;
pub mod home_page;
pub mod item_links;
pub mod link_list;
pub mod mail_rows;
pub mod page_script;
pub mod price_list;
pub mod search_page;
