//! The reader of traces: from the bytes of a text to its plan, or to its first fault.
#![tactic(auto)]

pub mod code;
mod counts;
pub mod course;
pub mod fault;
mod fronts;
mod gathered;
mod header;
mod item;
mod items;
mod lexing;
mod lines;
mod names;
mod numbers;
pub mod operations;
mod outline;
mod pieces;
pub mod plan;
mod reader;
mod requests;
mod rounds;
mod samples;
pub mod script;
mod stream;
mod words;

pub use code::Code;
pub use course::Course;
pub use fault::{ReadFault, Reason, TraceFault};
pub use header::header_of_text;
pub use numbers::number;
pub use operations::Operations;
pub use plan::{Bounds, Chore, Op, Phase, Phases, Plan, Task, What, Work};
pub use reader::{read_script, read_trace};
pub use rounds::read_trace_on;
pub use script::{CodedPhase, CodedPhases, Script};
pub use stream::ScriptReader;
