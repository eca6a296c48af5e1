//! The best place on a page with four free runs.
ghost use Rattle.std.specs.Prelude.{◌≤◌};

use crate::best::Best;
use pas_bits::Mask4;
use pas_search::{Placing, Ranking};

/// Runs of 10, 5, 5 and 6 free grains.
fn some_runs() -> Mask4 {
    Mask4::run(0, 10)
        .either(&Mask4::run(20, 5))
        .either(&Mask4::run(40, 5))
        .either(&Mask4::run(250, 6))
}

/// The first grain that a request for so many gets there.
fn first_for(grains: u16) -> Option<u8>
    requires { (1 ≤ grains) × (grains ≤ 256) }
{
    let run = Best { grains }.place(&some_runs())?;
    Some(run.first)
}

#[test]
fn the_shortest_run_serves_and_the_lowest_among_equals(rt: HostRuntime) {
    assert!(rt; first_for(1) == Some(20) && first_for(5) == Some(20));
    assert!(rt; first_for(6) == Some(250));
    assert!(rt; first_for(7) == Some(0) && first_for(10) == Some(0));
    assert!(rt; first_for(11).is_none());
}

/// The rank of that page for a request of so many.
fn rank_for(grains: u16) -> Option<u32>
    requires { (1 ≤ grains) × (grains ≤ 256) }
{
    Best { grains }.rank(&some_runs())
}

#[test]
fn a_page_is_ranked_by_its_shortest_run_that_is_long_enough(rt: HostRuntime) {
    assert!(rt; rank_for(1) == Some(5) && rank_for(5) == Some(5));
    assert!(rt; rank_for(6) == Some(6) && rank_for(7) == Some(10));
    assert!(rt; rank_for(11).is_none());
}
