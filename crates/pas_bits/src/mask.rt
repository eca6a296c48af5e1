//! The mask, its words and its single bits.
ghost use Rattle.std.specs.Prelude.{◌≡◌, ℕ, ◌<◌, ◌==◌, ◌&&◌, ◌||◌, not};
ghost use Rattle.pas_bits.specs.Masks.{is_set, set_count};

/// A set of grains of a page, as 256 bits: bit g is bit `g % 64` of word `g / 64`. The words, lowest first, are read and given as they are.
#[derive(Clone, Copy, PartialEq, Eq)]
pub struct Mask4(pub [u64; 4]);

impl Mask4 {
    /// Whether the grain's bit is set.
    pub fn get(&self, grain: u8) -> bool
        ensures { result ≡ is_set self.now grain }
    {
        self.0[grain as usize / 64] >> (grain % 64) & 1 == 1
    }

    /// Sets the grain's bit, and changes no other.
    #[tactic(auto, using(crate::proofs::Words::after_set))]
    pub fn set(&mut self, grain: u8)
        ensures { (g : ℕ) → is_set self.new g ≡ ((g == grain) || is_set self.old g) }
    {
        self.0[grain as usize / 64] |= 1 << (grain % 64);
    }

    /// Clears the grain's bit, and changes no other.
    #[tactic(auto, using(crate::proofs::Words::after_clear))]
    pub fn clear(&mut self, grain: u8)
        ensures { (g : ℕ) → is_set self.new g ≡ (not (g == grain) && is_set self.old g) }
    {
        self.0[grain as usize / 64] &= !(1 << (grain % 64));
    }

    /// How many bits are set, from 0 to 256.
    pub fn count(&self) -> u16
        ensures { result ≡ set_count self.now }
    {
        let [first, second, third, last] = self.0;
        let ones = first.count_ones()
            + second.count_ones()
            + third.count_ones()
            + last.count_ones();
        ones as u16
    }

    /// The other bits: those that are clear.
    pub fn complement(&self) -> Mask4
        ensures { (g : ℕ) → g < 256 → is_set result g ≡ not (is_set self.now g) }
    {
        let [first, second, third, last] = self.0;
        Mask4([!first, !second, !third, !last])
    }
}
