//! Masks that are moved, joined and spread, by whole words.
ghost use Rattle.std.specs.Prelude.{◌≡◌, ℕ, ◌+◌, ◌-◌, ◌<◌, ◌≤◌, ◌↔◌, ◌&&◌, ◌||◌, nat_le, IsTrue};
ghost use Rattle.pas_bits.specs.{Bits.has_bit, Masks.{is_set, AreSet, IsNear, bit_of_two}};

use crate::mask::Mask4;

/// The 64 bits from bit `from` on, 0 to 63, of the 128 bits of two words.
#[tactic(auto, using(crate::proofs::MovedMasks::window_bit))]
fn window(low: u64, high: u64, from: u8) -> u64
    requires from { from < 64 }
    ensures { (b : ℕ) → b < 64 → has_bit result b ≡ bit_of_two low high (b + from) }
{
    // From bit 0 on, no bit of the higher word is left. A shift by 64 at once isn't allowed.
    low >> from | high << 1 << (63 - from)
}

impl Mask4 {
    /// The mask moved down by so many places, 1 to 63: bit g is what bit `g + by` was.
    pub fn moved_down(&self, by: u8) -> Mask4
        requires by { (1 ≤ by) × (by < 64) }
        ensures { (g : ℕ) → is_set result g ≡ is_set self.now (g + by) }
    {
        let [first, second, third, last] = self.0;
        Mask4([
            window(first, second, by),
            window(second, third, by),
            window(third, last, by),
            window(last, 0, by),
        ])
    }

    /// The mask moved up by so many places, 1 to 64: bit g is what bit `g - by` was, and the lowest ones are clear.
    pub fn moved_up(&self, by: u8) -> Mask4
        requires by { (1 ≤ by) × (by ≤ 64) }
        ensures { (g : ℕ) → g < 256 → is_set result g ≡ (nat_le by g && is_set self.now (g - by)) }
    {
        let [first, second, third, last] = self.0;
        Mask4([
            window(0, first, 64 - by),
            window(first, second, 64 - by),
            window(second, third, 64 - by),
            window(third, last, 64 - by),
        ])
    }

    /// The bits that are set in both.
    pub fn both(&self, other: &Mask4) -> Mask4
        ensures { (g : ℕ) → is_set result g ≡ (is_set self.now g && is_set other.now g) }
    {
        Mask4([
            self.0[0] & other.0[0],
            self.0[1] & other.0[1],
            self.0[2] & other.0[2],
            self.0[3] & other.0[3],
        ])
    }

    /// The bits that are set in one of them.
    pub fn either(&self, other: &Mask4) -> Mask4
        ensures { (g : ℕ) → is_set result g ≡ (is_set self.now g || is_set other.now g) }
    {
        Mask4([
            self.0[0] | other.0[0],
            self.0[1] | other.0[1],
            self.0[2] | other.0[2],
            self.0[3] | other.0[3],
        ])
    }

    /// Where a run of so many set bits begins, 1 to 64. Moves the mask at most six times.
    pub fn runs(&self, grains: u8) -> Mask4
        requires grains { (1 ≤ grains) × (grains ≤ 64) }
        ensures { (g : ℕ) → IsTrue (is_set result g) ↔ AreSet self.now g grains }
    {
        let mut runs = *self;
        let mut length = 1;
        while length < grains {
            let by = length.min(grains - length);
            runs = runs.both(&runs.moved_down(by));
            length += by;
        }
        runs
    }

    /// Each set bit, and the places above it, so many with it, 1 to 64. Moves the mask at most six times.
    pub fn spread(&self, grains: u8) -> Mask4
        requires grains { (1 ≤ grains) × (grains ≤ 64) }
        ensures { (g : ℕ) → g < 256 → IsTrue (is_set result g) ↔ IsNear self.now g grains }
    {
        let mut spread = *self;
        let mut length = 1;
        while length < grains {
            let by = length.min(grains - length);
            spread = spread.either(&spread.moved_up(by));
            length += by;
        }
        spread
    }
}
