//! How pages are ranked.
use pas_bits::Mask4;

/// A rule over pages: which of several offered pages a search tries first, by their free grains.
pub trait Ranking {
    ghost use Rattle.pas_bits.specs.Masks.{is_set};
    ghost use Rattle.pas_search.specs.Ranks.{Measure, IsOfGrains};

    /// What is asked of it.
    ghost asked: { Self → Type 0 };

    /// What it means: the rank of a page, or that it has none, where the page's grains that were read as free are these.
    ghost ranks: { Self → Measure };

    /// The rank of a page with these free grains: the lowest one is the best. None where the page is out of the question.
    fn rank(&self, free: &Mask4) -> Option<u32>
        requires asked { asked self.now }
        ensures { ranks self.now (is_set free.now) result };

    /// It depends on the page's 256 grains alone.
    ghost alike: { (s : Self) → IsOfGrains (ranks s) };
}
