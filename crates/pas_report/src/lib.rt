//! The report of a state: a line for each page with a deed, and that of the totals.
#![tactic(auto)]

mod counts;
pub mod laws;
pub mod marking;
pub mod pages;
pub mod reports;
pub mod totals;

pub use marking::{Marks, page_marks};
pub use pages::{page_line, shown_page};
pub use pas_records::{
    Line, Record, Records, Said, Sheets, event_line, record_line, room_for_replay, said_line,
    write_lines, write_lines_by, write_lines_on,
};
pub use reports::{has_deed_words, report};
pub use totals::{Totals, shown_totals, total_line};
