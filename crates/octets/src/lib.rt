// Bytes alone: a list of them parted into lines at LF and into fields at commas (rules 7.1 and 7.2), and the search for LF. specs/ has
// the number that digits say too (rule 7.3), which a reader of dumps needs besides. What a line asks for is of the crates above.
#![tactic(auto)]

mod fields;
mod parts;
mod search;

pub use fields::{COMMA, count_fields, field};
pub use parts::{LF, index_from, part};
pub use search::find_lf;
