//! Makes 1,000 requests at a plain region of 16 pages, each after a free where its slot is in use, and prints the addresses.
//!
//! Each line is `free ADDRESS`, `give GRAINS ADDRESS`, or `none GRAINS` where a request was refused.
#![tactic(auto)]

mod churning;

use churning::{EVENTS, churn};
use pas_plain::alone;
use pas_profile::Profile;
use std::io;
use std::io::ErrorKind;

const PROFILE: Profile = Profile {
    pages: 16,
    threads: 1,
    age: 2,
    heaps: 1,
    shared: 0,
    classes: 16,
};

fn main(rt: HostRuntime) -> io::Result<()> {
    let Ok(mut desk) = alone(rt.alloc(), PROFILE, EVENTS) else {
        return Err(ErrorKind::OutOfMemory.into());
    };
    churn(&rt, &mut desk)
}
