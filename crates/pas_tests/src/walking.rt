//! An actor that is alone at a plain region makes steps one by one, whose answers are known beforehand.
ghost use Rattle.std.specs.Prelude.{◌≤◌, [], length};
ghost use Rattle.pas_tests.specs.Walks.{HasMade, MayFollow, view_with};

use pas_plain::PlainDesk;
use pas_steps::{Desk, Made};

/// Makes the steps, at most 16. Whether each had its answer.
pub fn walk(desk: &mut PlainDesk, steps: &[Made]) -> bool
    requires none { HasMade [] desk.old }
    requires steps { MayFollow [] steps.now }
    requires few { length steps.now ≤ 16 }
    ensures { HasMade (view_with [] steps.now) desk.new }
{
    let mut are_told = true;
    for made in steps {
        let answer = desk.make(made.step);
        are_told = are_told & (answer == made.answer);
    }
    are_told
}
