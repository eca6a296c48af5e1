//! Two actors at one plain region: one sits at the desk, and the pass of the other rests.
ghost use Rattle.std.specs.Prelude.{◌≡◌, IfOk};
ghost use Rattle.pas_steps.specs.States.{profile_of as the_profile_of};
ghost use Rattle.pas_plain.specs.{Plain.profile_of, Seats.{region_of, pass_of}};
ghost use Rattle.pas_trials.specs.Trials.{Beside};

use pas_plain::{PlainDesk, PlainPass, close};
use pas_steps::State;
use std::alloc::{AllocError, Global};

/// The actor of the desk rises, and the one whose pass this is takes its seat.
pub fn change(desk: PlainDesk, pass: PlainPass) -> (PlainDesk, PlainPass)
    requires { Beside desk pass }
    ensures beside { Beside result.0 result.1 }
    ensures region { region_of result.0 ≡ region_of desk }
    ensures seated { pass_of result.0 ≡ pass }
    ensures risen { result.1 ≡ pass_of desk }
{
    let (region, risen) = desk.into_parts();
    (region.desk(pass), risen)
}

/// The actor of the desk rises, and the region is closed with both passes. The error is want of memory for the list of the two.
pub fn close_both(alloc: Global, desk: PlainDesk, pass: PlainPass) -> Result<State, AllocError>
    requires { Beside desk pass }
    ensures { IfOk result (λ state. the_profile_of state ≡ profile_of (region_of desk)) }
{
    let (region, risen) = desk.into_parts();
    Ok(close(region, vec![in alloc; risen, pass]?))
}
