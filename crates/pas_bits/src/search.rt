//! The lowest bits and the lowest runs of a mask. Each search jumps from set bit to set bit by whole words.
ghost use Rattle.std.specs.Prelude.{◌≡◌, ℕ, ◌+◌, ◌<◌, ◌≤◌, MatchBool, MatchOption, true};
ghost use Rattle.pas_bits.specs.Masks.{AllSetBelow, AreClear, IsEmpty, HasMember, IsLowestSet, IsLowestClear, IsRunEnd, IsPlace, IsLowestPlace, HasNoPlace};

use crate::mask::Mask4;

impl Mask4 {
    /// The lowest set bit at or after `from`, which is at most 256. None exactly where there is none. Looks at each word at most once.
    pub fn first_set_from(&self, from: u16) -> Option<u8>
        requires { from ≤ 256 }
        ensures { MatchOption result (AreClear self.now from 256) (λ grain. IsLowestSet self.now from grain) }
    {
        for word in from / 64..4 {
            let low = from.saturating_sub(64 * word);
            let rest = self.0[word as usize] >> low;
            if rest != 0 {
                return Some((64 * word + low + rest.trailing_zeros() as u16) as u8);
            }
        }
        None
    }

    /// Whether no bit is set. Looks at each word once, and branches nowhere.
    #[inline]
    pub fn is_empty(&self) -> bool
        ensures { MatchBool result (IsEmpty self.now) (HasMember self.now) }
    {
        let union = self.0[0] | self.0[1] | self.0[2] | self.0[3];
        union == 0
    }

    /// The lowest clear bit. None exactly where all 256 are set. Looks at each word at most once.
    #[tactic(auto, using(crate::proofs::Masks::lowest_clear))]
    pub fn first_zero(&self) -> Option<u8>
        ensures { MatchOption result (AllSetBelow self.now 256) (λ grain. IsLowestClear self.now grain) }
    {
        self.complement().first_set_from(0)
    }

    /// The lowest multiple g of `align` where the bits g to `g + grains - 1` exist and are all set. None exactly where there is none.
    /// `grains` and `align` are 1 to 256. Looks at most twice at the four words for each run of set bits.
    pub fn first_run(&self, grains: u16, align: u16) -> Option<u8>
        requires grains { (1 ≤ grains) × (grains ≤ 256) }
        requires align { (1 ≤ align) × (align ≤ 256) }
        ensures { MatchOption result (HasNoPlace self.now grains align 256) (λ grain. IsLowestPlace self.now grains align 256 grain) }
    {
        self.first_place(grains, align, 256)
    }

    /// The lowest slot of so many grains that ends within the usable grains and whose bits are all set, by its first grain: slots begin
    /// at the multiples of `grains`. None exactly where there is none. `grains` is 1 to 64, `usable` at most 256. Looks at most
    /// twice at the four words for each run of set bits.
    pub fn first_slot(&self, grains: u16, usable: u16) -> Option<u8>
        requires grains { (1 ≤ grains) × (grains ≤ 64) }
        requires usable { usable ≤ 256 }
        ensures { MatchOption result (HasNoPlace self.now grains grains usable) (λ grain. IsLowestPlace self.now grains grains usable grain) }
    {
        self.first_place(grains, grains, usable)
    }

    /// The lowest clear bit at or after `from`, which is at most 256, or 256 where there is none. Looks at each word at most once.
    pub fn run_end(&self, from: u16) -> u16
        requires { from ≤ 256 }
        ensures { IsRunEnd self.now from result }
    {
        match self.complement().first_set_from(from) {
            Some(clear) => clear as u16,
            None => 256,
        }
    }

    /// The lowest multiple g of `align` with `g + grains` at most `end` where the bits g to `g + grains - 1` are all set. A run that
    /// is too short is left behind with the clear bit that ends it.
    pub fn first_place(&self, grains: u16, align: u16, end: u16) -> Option<u8>
        requires grains { (1 ≤ grains) × (grains ≤ 256) }
        requires align { (1 ≤ align) × (align ≤ 256) }
        requires end { end ≤ 256 }
        ensures { MatchOption result (HasNoPlace self.now grains align end) (λ grain. IsLowestPlace self.now grains align end grain) }
    {
        let mut from = 0;
        while let Some(set) = self.first_set_from(from) {
            let place = (set as u16).div_ceil(align) * align;
            if place + grains > end {
                return None;
            }
            let run_end = self.run_end(place);
            if place + grains <= run_end {
                return Some(place as u8);
            }
            from = run_end + 1;
        }
        None
    }
}
