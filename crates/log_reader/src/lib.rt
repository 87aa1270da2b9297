//! The lines of a log, from a source that gives its bytes in pieces, and the rows that lines are.
#![tactic(auto)]

mod fields;
mod held;
mod line;
mod names;
mod numbers;
mod reader;
mod refusal;
mod rows;

pub use held::first_feed;
pub use line::{Line, without_mark, without_return};
pub use reader::{LineReader, ReadFault};
pub use refusal::RowRefusal;
pub use rows::{LogRow, parse_cells, parse_header, parse_row};
