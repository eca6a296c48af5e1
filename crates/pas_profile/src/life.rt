//! Life words: which block lives at a grain.
ghost use Rattle.std.specs.Prelude.{◌≡◌, ◌<◌, ◌^◌};
ghost use Rattle.pas_profile.specs.Lives.{life_word_of, turn_of, grains_of, is_live};

/// The word of a grain at which so many blocks ended before (`turn`), with a live block of so many grains, or none.
pub fn life_word(turn: u64, grains: u32, live: bool) -> u64
    requires turn { turn < 2 ^ 40 }
    requires grains { grains < 2 ^ 23 }
    ensures { result ≡ life_word_of turn grains live }
{
    turn + grains as u64 * (1 << 40) + if live { 1 << 63 } else { 0 }
}

/// Turn, grains and whether a block lives, as the word records them.
pub fn read_life(word: u64) -> (u64, u32, bool)
    ensures turn { result.0 ≡ turn_of word }
    ensures grains { result.1 ≡ grains_of word }
    ensures live { result.2 ≡ is_live word }
{
    (
        word % (1 << 40),
        (word / (1 << 40) % (1 << 23)) as u32,
        word >= 1 << 63,
    )
}
