//! The marks of a page.
ghost use Rattle.std.specs.Prelude.{⊤, ◌≡◌, [], ◌∷◌, codes};
ghost use Rattle.pas_profile.specs.Profiles.{IsPage};
ghost use Rattle.pas_profile.specs.declared.word.Word.TheVariants as Word;
ghost use Rattle.pas_steps.specs.States.{profile_of, word_in};
ghost use Rattle.pas_report.specs.Counts.{IsDeedWord, marked_in};
ghost use Rattle.pas_records.specs.Marks.{bits_of, marks_of, marks_text};

use bitflags::{Flag, Flags, bitflag_items};
use pas_bits::page_vector::has_page;
use pas_profile::{Word, read_deed};
use pas_steps::State;

/// What a page is marked as: backed by memory; offered to any actor, in its own directory; parked, since it was seen full; hinted to the
/// scavenger.
#[derive(Clone, Copy, PartialEq, Eq)]
pub struct Marks(u8);

bitflag_items! {
    impl Marks: u8 {
        const BACKED = 1;
        const OFFERED = 2;
        const PARKED = 4;
        const HINTED = 8;
    }
}

impl Flags for Marks {
    type Bits = u8;

    ghost exact = { ⊤ };

    ghost table = { (codes "BACKED", 1) ∷ (codes "OFFERED", 2) ∷ (codes "PARKED", 4) ∷ (codes "HINTED", 8) ∷ [] };

    ghost set_of = { λ m. m.0 };

    fn flags<'a>() -> &'a [Flag<Marks>] {
        Marks::FLAGS
    }

    fn bits(&self) -> u8 {
        self.0
    }

    fn from_bits_retain(bits: u8) -> Marks {
        Marks(bits)
    }
}

impl Marks {
    /// The marks whose bits are set: backed 1, offered 2, parked 4, hinted 8.
    pub fn of_bits(bits: u8) -> Marks
        ensures { result.0 ≡ bits }
    {
        Marks(bits)
    }
}

/// Whether any actor may take the right of a page.
fn is_offered(state: &State, page: u32) -> bool
    requires page { IsPage (profile_of state.now) page }
    requires deed { IsDeedWord (profile_of state.now) (word_in state.now (Word.Deed page)) }
    ensures { result ≡ (marked_in state.now page).offered }
{
    match read_deed(state.word(Word::Deed(page))) {
        Some(directory) => {
            has_page(
                state.word(Word::Eligible(directory.number(), page / 64)),
                page,
            )
        }
        None => false,
    }
}

/// The marks of a page whose deed word is 0 or a directory's of the profile. A page without a deed isn't offered.
pub fn page_marks(state: &State, page: u32) -> Marks
    requires page { IsPage (profile_of state.now) page }
    requires deed { IsDeedWord (profile_of state.now) (word_in state.now (Word.Deed page)) }
    ensures { result.0 ≡ bits_of (marked_in state.now page) }
{
    let mut marks = Marks(0);
    marks.set(Marks::BACKED, state.word(Word::Backed(page)) == 1);
    marks.set(Marks::OFFERED, is_offered(state, page));
    marks.set(
        Marks::PARKED,
        has_page(state.word(Word::Parked(page / 64)), page),
    );
    marks.set(
        Marks::HINTED,
        has_page(state.word(Word::Empty(page / 64)), page),
    );
    marks
}

/// The names of the marks, joined by `+`, or `none`.
pub(crate) fn names_of(marks: Marks) -> &'static str
    ensures text { result.now ≡ marks_text (marks_of marks.0) }
{
    match marks.bits() % 16 {
        0 => "none",
        1 => "backed",
        2 => "offered",
        3 => "backed+offered",
        4 => "parked",
        5 => "backed+parked",
        6 => "offered+parked",
        7 => "backed+offered+parked",
        8 => "hinted",
        9 => "backed+hinted",
        10 => "offered+hinted",
        11 => "backed+offered+hinted",
        12 => "parked+hinted",
        13 => "backed+parked+hinted",
        14 => "offered+parked+hinted",
        _ => "backed+offered+parked+hinted",
    }
}
