//! The text of what a replay says, its lines made by one thread or by several at once.
#![tactic(auto)]

mod filling;
pub mod lines;
pub mod record;
pub mod records;
mod sheets;
pub mod text;
pub mod transcript;
mod writing;

pub use lines::{event_line, push_record, record_line, said_line};
pub use record::{Record, Said};
pub use records::{Records, room_for_replay};
pub use sheets::Sheets;
pub use text::{LINE_BYTES, Line, Lines};
pub use transcript::{write_lines, write_lines_by};
pub use writing::write_lines_on;
