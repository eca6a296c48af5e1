//! The totals of a region, and the report's last line.
ghost use Rattle.std.specs.Prelude.{◌≡◌, ◌<◌, ◌≤◌, ◌+◌, ◌*◌, ◌^◌, ◌++◌};
ghost use Rattle.arrayvec.specs.ArrayString.{array_string_len};
ghost use Rattle.pas_steps.specs.States.{profile_of};
ghost use Rattle.pas_report.specs.{Counts.{AreCounted, totals_by_words, totals_counted}, Totals.totals_text};

use arrayvec::ArrayString;
use pas_profile::{Word, read_life};
use pas_records::text::{Line, push_field};
use pas_steps::State;

/// What the report tells of a region, in the order of its last line.
#[derive(Clone, Copy, PartialEq, Eq, Drop)]
pub struct Totals {
    /// The pages that have a deed, and the backed ones.
    pub deeds: u32,
    pub backed: u32,
    /// The blocks that live, that were given, and that ended.
    pub live: u64,
    pub given: u64,
    pub ended: u64,
}

/// The number of pages that have a deed.
#[tactic(auto, using(pas_bits::proofs::Rows::count_more))]
fn count_deeds(state: &State) -> u32
    ensures { result ≡ (totals_counted state.now).deeds }
{
    let mut deeds = 0;
    for i in 0..state.profile().pages {
        deeds += (state.word(Word::Deed(i + 1)) != 0) as u32;
    }
    deeds
}

/// The number of backed pages.
#[tactic(auto, using(pas_bits::proofs::Rows::count_more))]
fn count_backed(state: &State) -> u32
    ensures { result ≡ (totals_counted state.now).backed }
{
    let mut backed = 0;
    for i in 0..state.profile().pages {
        backed += (state.word(Word::Backed(i + 1)) == 1) as u32;
    }
    backed
}

/// How many blocks live in a region, and how many ended there.
#[derive(Clone, Copy, PartialEq, Eq, Drop)]
struct Blocks {
    live: u64,
    ended: u64,
}

/// The blocks of the first pages and those of one page more, where these are the blocks of the first.
#[tactic(auto, using(pas_bits::proofs::Rows::count_more, crate::proofs::Counting::sum_more))]
#[inline(always)]
fn with_page(state: &State, before: u32, blocks: Blocks) -> Blocks
    requires page { before < (profile_of state.now).pages }
    requires counted { AreCounted state.now (256 * before) blocks.live blocks.ended }
    ensures { AreCounted state.now (256 * (before + 1)) result.live result.ended }
{
    let Blocks {
        mut live,
        mut ended,
    } = blocks;
    for grain in 0..256u16 {
        let (turn, _, lives) = read_life(state.word(Word::Life(before + 1, grain as u8)));
        ended += turn;
        live += lives as u64;
    }
    Blocks { live, ended }
}

/// The blocks of a region. It reads the life word of each grain of the used pages once.
fn count_blocks(state: &State) -> Blocks
    ensures live { result.live ≡ (totals_counted state.now).live }
    ensures ended { result.ended ≡ (totals_counted state.now).ended }
    ensures fit { result.ended + result.live < 2 ^ 63 }
{
    let mut blocks = Blocks { live: 0, ended: 0 };
    for before in 0..state.used_pages() {
        blocks = with_page(state, before, blocks);
    }
    blocks
}

/// The totals of a region. It reads the life word of each grain of the used pages once, and takes no memory.
fn count_totals(state: &State) -> Totals
    ensures { result ≡ totals_counted state.now }
{
    let Blocks { live, ended } = count_blocks(state);
    Totals {
        deeds: count_deeds(state),
        backed: count_backed(state),
        live,
        given: ended + live,
        ended,
    }
}

/// The line of the totals of a region. It reads the life word of each grain once, and takes no memory.
pub fn total_line(state: &State) -> Line
    ensures { result.bytes ≡ totals_by_words state.now }
{
    let mut line = Line::new();
    push_totals(&mut line, state);
    line
}

/// Adds the line of the totals, of at most 128 bytes.
pub(crate) fn push_totals<const C: usize>(text: &mut ArrayString<C>, state: &State)
    requires { array_string_len text.old + 128 ≤ C }
    ensures { text.new.bytes ≡ text.old.bytes ++ totals_by_words state.now }
{
    push_shown_totals(text, count_totals(state));
}

/// The line of these totals.
pub fn shown_totals(totals: Totals) -> Line
    ensures { result.bytes ≡ totals_text totals }
{
    let mut line = Line::new();
    push_shown_totals(&mut line, totals);
    line
}

/// Adds the line of these totals, of at most 128 bytes.
fn push_shown_totals<const C: usize>(text: &mut ArrayString<C>, totals: Totals)
    requires { array_string_len text.old + 128 ≤ C }
    ensures { text.new.bytes ≡ text.old.bytes ++ totals_text totals }
{
    push_field(text, "total deeds ", totals.deeds);
    push_field(text, " backed ", totals.backed);
    push_field(text, " live ", totals.live);
    push_field(text, " given ", totals.given);
    push_field(text, " ended ", totals.ended);
    text.push_str("\n");
}
