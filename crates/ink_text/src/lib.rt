//! What the readers and printers of every text share: sections and their headers, words as numbers and names, and numbers and names as words.
#![tactic(auto)]

mod headers;
mod names;
mod numbers;
mod places;
mod section;

pub use headers::{is_header, missing, next_header, next_number};
pub use names::{actor, source};
pub use numbers::{put_count, put_name, put_number, up_to};
pub use places::{index_of, tokens_from};
pub use section::{Section, read_lines, read_section};
