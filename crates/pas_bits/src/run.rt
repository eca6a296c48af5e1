//! Runs of grains as masks, and what masks have in common.
ghost use Rattle.std.specs.Prelude.{◌≡◌, ℕ, ◌+◌, ◌-◌, ◌*◌, ◌^◌, ◌<◌, ◌≤◌, ◌↔◌, IsTrue, true, false};
ghost use Rattle.pas_bits.specs.{Bits.has_bit, Masks.{is_set, AreSet, AreApart}, Runs.in_run};

use crate::mask::Mask4;

/// The number whose lowest so many bits are set, at most 64.
#[inline(always)]
#[tactic(auto, using(crate::proofs::Masks::ones_are))]
fn ones(bits: u16) -> u64
    requires { bits ≤ 64 }
    ensures { result ≡ 2 ^ bits - 1 }
{
    if bits == 0 {
        0
    } else {
        u64::MAX >> (64 - bits)
    }
}

/// The bits of a word (0 to 3) whose grains are of the run of so many grains from the first on. 0 at once where it has none.
#[inline(always)]
fn run_word(word: u8, first: u8, grains: u16) -> u64
    requires word { word < 4 }
    requires within { first + grains ≤ 256 }
    ensures { (b : ℕ) → b < 64 → has_bit result b ≡ in_run first grains (64 * word + b) }
{
    let base = 64 * word as u16;
    if first as u16 + grains <= base || base + 64 <= first as u16 {
        return 0;
    }
    let low = (first as u16).saturating_sub(base).min(64);
    let high = (first as u16 + grains).saturating_sub(base).min(64);
    ones(high) - ones(low)
}

impl Mask4 {
    /// The mask of exactly the run of so many grains from the first on. The run ends within the page: `first + grains` is at most 256.
    #[inline(always)]
    pub fn run(first: u8, grains: u16) -> Mask4
        requires { first + grains ≤ 256 }
        ensures { (g : ℕ) → is_set result g ≡ in_run first grains g }
    {
        // Most runs are short, so that one word has all of them.
        if first as u16 % 64 + grains <= 64 {
            let word = first / 64;
            let mut words = [0; 4];
            words[word as usize] = run_word(word, first, grains);
            return Mask4(words);
        }
        Mask4([
            run_word(0, first, grains),
            run_word(1, first, grains),
            run_word(2, first, grains),
            run_word(3, first, grains),
        ])
    }

    /// Whether all bits of the run of so many grains from the first on are set. The run ends within the page: `first + grains` is at
    /// most 256. Compares four words.
    #[tactic(auto, using(crate::proofs::Masks::has_run_where))]
    pub fn has_run(&self, first: u8, grains: u16) -> bool
        requires { first + grains ≤ 256 }
        ensures { IsTrue result ↔ AreSet self.now first grains }
    {
        self.complement().is_full(&Mask4::run(first, grains))
    }

    /// Whether a page with these free grains is full: no bit of the usable ones is set. Compares at most four words.
    pub fn is_full(&self, usable: &Mask4) -> bool
        ensures { IsTrue result ↔ AreApart self.now usable.now }
    {
        for word in 0..4usize {
            if self.0[word] & usable.0[word] != 0 {
                return false;
            }
        }
        true
    }
}
