//! Variables of the script language: scopes, and links to the first one.
#![tactic(auto)]

mod fault;
mod long_names;
mod name;
mod scope;
mod scopes;
mod short_names;
mod table;

pub use crate::fault::ScopeFault;
pub use crate::name::{base_of, global_name, has_index};
pub use crate::scopes::{LONGEST_VALUE, Scopes};
pub use crate::table::Table;
