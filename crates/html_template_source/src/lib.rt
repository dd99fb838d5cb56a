//! Templates from one text, in which a slot is a name between `{{` and `}}`.
//!
//! ```text
//! <p title="{{title}}">{{body}}</p>
//! ```
//!
//! A `{{` that is markup is written `{{"{{"}}`, also in code and in comments.
#![tactic(auto)]

mod bound;
mod faults;
mod first_fault;
pub mod laws;
mod named;
mod names;
mod places;
mod source;

pub use crate::faults::{BindFault, SourceFault};
pub use crate::named::NamedTemplate;
pub use crate::source::cut_at;
