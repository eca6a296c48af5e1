//! The outcomes of a scavenger's pass.

use pas_profile::{Outcome, Room};

/// Room for what a pass comes to on each page of a region: pairs of a page and its outcome. Adding one takes no memory.
pub type Outcomes = Room<(u32, Outcome)>;
