//! Steps of actors on the words of a region: what a step does, what its actor then holds, has and knows, which steps
//! are allowed, and the trait `Desk`, through which every other crate makes steps. And what a region needs, however it
//! keeps its words: those at its opening, what an actor notes of its own steps, and the state after a list of steps.
#![tactic(auto)]

pub mod desk;
pub mod effect;
pub mod notes;
pub mod opening;
pub mod paged;
pub mod row;
pub mod run;
pub mod state;
pub mod step;

pub use desk::Desk;
pub use notes::Notes;
pub use opening::opening_words;
pub use paged::PagedWords;
pub use run::run_steps;
pub use state::State;
pub use step::{Made, Step};
