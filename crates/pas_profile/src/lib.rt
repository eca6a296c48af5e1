//! The profile of a region, and the vocabulary that every other crate speaks: classes and routes, names of blocks,
//! directories of pages, the words of the region with their codecs and their layout, events and refusals.
//!
//! A region has pages 1 to P of 4,096 bytes. A page is 256 grains of 16 bytes, so
//! `address = page * 4096 + grain * 16`. Page 0 doesn't exist.
#![tactic(auto)]

pub mod classes;
pub mod directory;
pub mod entry;
pub mod event;
pub mod guard;
pub mod laws;
pub mod life;
pub mod limits;
pub mod name;
pub mod profile;
pub mod room;
pub mod routing;
pub mod word;

pub use classes::slot_mask;
pub use directory::{Directory, Kind, Route, deed_word, read_deed};
pub use entry::Entry;
pub use event::{Event, FreeFault, NoRoom, Outcome, Range, Why};
pub use guard::{Guard, Raised};
pub use life::{life_word, read_life};
pub use name::{Address, Block, Name};
pub use profile::Profile;
pub use room::{EventRoom, NoMemory, Room};
pub use routing::{room_for, route};
pub use word::{Layout, Word};
