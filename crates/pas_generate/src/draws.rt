//! Random numbers of a linear congruential sequence.
ghost use Rattle.std.specs.Prelude.{◌≡◌, ◌<◌};
ghost use Rattle.pas_generate.specs.Draws.{drawn, moved};

/// Where the sequence stands.
#[derive(Clone, Copy, Drop)]
pub(crate) struct Draws {
    pub(crate) state: u64,
}

impl Draws {
    /// The next number of the sequence, below this bound.
    #[inline]
    pub(crate) fn draw(&mut self, bound: u32) -> u32
        requires { 0 < bound }
        ensures number { result ≡ drawn (moved self.old.state) bound }
        ensures below { result < bound }
        ensures state { self.new.state ≡ moved self.old.state }
    {
        self.state = self
            .state
            .wrapping_mul(6364136223846793005)
            .wrapping_add(1442695040888963407);
        ((self.state >> 33) % bound as u64) as u32
    }
}
