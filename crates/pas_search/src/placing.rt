//! Where the run of a request is placed among the free grains of a page: what the author of a policy as first fit or best fit writes.
use pas_bits::Mask4;

/// A run of grains of one page: the first one, 0 to 255, and how many there are, 1 to 256.
#[derive(Clone, Copy, PartialEq, Eq, Drop)]
pub struct Run {
    pub first: u8,
    pub grains: u16,
}

/// A run without which nothing fits: so many free grains, from a multiple of `align` on.
#[derive(Clone, Copy, PartialEq, Eq, Drop)]
pub struct LeastRun {
    pub grains: u16,
    pub align: u16,
}

/// How a request's run is placed among the free grains of a page.
pub trait Placing {
    ghost use Rattle.std.specs.Prelude.{MatchOption};
    ghost use Rattle.pas_bits.specs.Masks.{is_set};
    ghost use Rattle.pas_search.specs.Placements.{Placement, IsPlacement, IsPlaced, IsLeastRun};

    /// What it means: what is asked, the kind of its pages, when nothing fits, what is chosen, and which run that is.
    ghost placement: { Self → Placement };

    /// The run that is chosen among these free grains. None exactly where none fits.
    fn place(&self, free: &Mask4) -> Option<Run>
        requires asked { (placement self.now).asked }
        ensures { MatchOption result ((placement self.now).no_fit (is_set free.now)) (IsPlaced (placement self.now) (is_set free.now)) };

    /// A run without which nothing fits, where each grain of its pages may be covered. A search asks for it, to pass by pages that are known to have none.
    fn least_run(&self) -> Option<LeastRun>
        requires { (placement self.now).asked }
        ensures { MatchOption result (Unit {0}) (IsLeastRun (placement self.now)) }
    {
        None
    }

    /// The run that is chosen is free and on the page, an empty page has a fit, and fewer free grains fit no better.
    ghost is_placement: { (s : Self) → IsPlacement (placement s) };
}
