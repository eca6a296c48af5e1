//! What the words of a region at rest count to on a page.
ghost use Rattle.std.specs.Prelude.{◌≡◌};
ghost use Rattle.pas_profile.specs.Profiles.{IsPage};
ghost use Rattle.pas_steps.specs.States.{profile_of};
ghost use Rattle.pas_report.specs.Counts.{free_counted_on, live_counted_on};

use pas_bits::count_ones;
use pas_profile::{Word, read_life};
use pas_steps::State;

/// The blocks that begin on a page, at most 256. It reads each life word of the page once.
#[tactic(auto, using(pas_bits::proofs::Rows::count_more))]
pub(crate) fn live_on(state: &State, page: u32) -> u16
    requires { IsPage (profile_of state.now) page }
    ensures { result ≡ live_counted_on state.now page }
{
    let mut live = 0;
    for grain in 0..256u16 {
        let (_, _, lives) = read_life(state.word(Word::Life(page, grain as u8)));
        live += lives as u16;
    }
    live
}

/// The free grains of a page, at most 256.
pub(crate) fn free_on(state: &State, page: u32) -> u16
    requires { IsPage (profile_of state.now) page }
    ensures { result ≡ free_counted_on state.now page }
{
    let words = [
        state.word(Word::Free(page, 0)),
        state.word(Word::Free(page, 1)),
        state.word(Word::Free(page, 2)),
        state.word(Word::Free(page, 3)),
    ];
    count_ones(&words) as u16
}
