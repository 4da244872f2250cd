//! What the programs of rows share: files of rows, their lines and words, flows, frontiers and records by words, escapes, and how
//! answers are told.
#![tactic(auto)]

mod answers;
mod escape;
mod files;
mod flows;
mod fronts;
mod hex;
mod records;
mod rows;
mod words;

pub use answers::{Answers, NoAnswer, mark, tell_name, tell_row};
pub use escape::{show, show_lines, spelled};
pub use files::{Families, tell_files};
pub use flows::{cut_of, edge_of, flow_of, node_of, table_of};
pub use fronts::{front_in, front_of, front_outside, stamp_in};
pub use hex::{bytes_named, bytes_of, show_digits};
pub use records::record_named;
pub use rows::{Row, after, is_declaration, part, rows_of};
pub use words::{columns, rec_of, recs_of, stamp_of, stamps_of};
