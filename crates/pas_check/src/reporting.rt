//! The lines of the report.
ghost use Rattle.std.specs.Prelude.{ℕ, ◌≡◌, ◌+◌, ◌*◌, ◌^◌, ◌<◌, ◌≤◌, nat_lt, true, not, List, [], ◌∷◌, ◌++◌, length, MatchBool};
ghost use Rattle.pas_profile.specs.{Directories.IsKind, Profiles.{IsPage, IsValid}, declared.event.Event.Event as TheEvent};
ghost use Rattle.pas_profile.specs.declared.profile.Profile.{Profile as TheProfile};
ghost use Rattle.pas_machine.specs.{Machines.{profile_of, StandsFor}, State.{backed_in, deed_in}};
ghost use Rattle.pas_steps.specs.Views.{usable_by_kind};
ghost use Rattle.pas_records.specs.{Marks.{mark_bit, marks_of}, Covered.is_covered};
ghost use Rattle.pas_report.specs.{Reports.{live_on as live_on_page, uncovered_on}, Totals.totals_of};
ghost use Rattle.pas_check.specs.{Begins.{page_due, pages_due, report_due}, Leading.{IsLed, IsWithin, StaysWithin}, Shown.given_on as given_on_page};
ghost use Rattle.pas_check.specs.{Shown.{HasNoRoom, HasRoom, IsBare, IsHinted, IsKnown, IsPageLine, IsUsed, IsWith, TellsPage}, States.{Due, Shows, Stand}};
ghost use Rattle.pas_check.specs.States.{Totals as DueTotals, with_due};

use crate::cutting::{Cursor, next_line, take_line};
use crate::following::take_head;
use pas_machine::Machine;
use pas_profile::classes::class_size;
use pas_profile::{Directory, Kind};
use pas_report::{Marks, Totals, shown_page, shown_totals};

/// What the report tells of a page, and what its marks go by.
#[derive(Clone, Copy, Drop)]
pub(crate) struct Shown {
    pub page: u32,
    pub directory: Directory,
    pub live: u16,
    pub free: u16,
    pub stamp: u64,
    pub backed: bool,
    /// Some grain that blocks of the directory may cover has no block.
    pub room: bool,
    /// It is backed, and no grain has a block.
    pub empty: bool,
}

/// Whether a live block has the grain.
fn is_used(machine: &Machine, page: u32, grain: u16) -> bool
    requires page { IsPage (profile_of machine.now) page }
    requires grain { grain < 256 }
    requires valid { IsValid (profile_of machine.now) }
    ensures { (es : List TheEvent) → StandsFor machine.now es → result ≡ is_covered es (256 * page + grain) }
{
    machine.is_covered(256 * page + grain as u32)
}

/// How many live blocks begin on the page.
fn live_on(machine: &Machine, page: u32) -> u16
    requires page { IsPage (profile_of machine.now) page }
    requires valid { IsValid (profile_of machine.now) }
    ensures { (es : List TheEvent) → StandsFor machine.now es → result ≡ live_on_page es page }
{
    let mut live = 0;
    for grain in 0..256u16 {
        let lives = machine.block_at(256 * page + grain as u32).is_some();
        live += lives as u16;
    }
    live
}

/// How many grains of the page no block has.
fn free_on(machine: &Machine, page: u32) -> u16
    requires page { IsPage (profile_of machine.now) page }
    requires valid { IsValid (profile_of machine.now) }
    ensures { (es : List TheEvent) → StandsFor machine.now es → result ≡ uncovered_on es page }
{
    let mut free = 0;
    for grain in 0..256u16 {
        let used = is_used(machine, page, grain);
        free += !used as u16;
    }
    free
}

/// How many grains of a page, from its first on, blocks of the kind may cover.
fn usable_grains(kind: Kind) -> u16
    requires { IsKind kind }
    ensures usable { (g : ℕ) → g < 256 → usable_by_kind kind g ≡ nat_lt g result }
    ensures few { result ≤ 256 }
{
    match kind {
        Kind::Class(class) => {
            let size = class_size(class);
            (4096 / size * (size / 16)) as u16
        }
        Kind::Bitfit | Kind::Shared | Kind::Large => 256,
    }
}

/// Whether a grain of the page that blocks of the kind may cover has no block.
fn has_room(machine: &Machine, page: u32, kind: Kind) -> bool
    requires page { IsPage (profile_of machine.now) page }
    requires valid { IsValid (profile_of machine.now) }
    requires kind { IsKind kind }
    ensures { (es : List TheEvent) → StandsFor machine.now es → MatchBool result (HasRoom es page kind) (HasNoRoom es page kind) }
{
    for grain in 0..usable_grains(kind) {
        if !is_used(machine, page, grain) {
            return true;
        }
    }
    false
}

/// Whether no grain of the page has a block.
fn is_bare(machine: &Machine, page: u32) -> bool
    requires page { IsPage (profile_of machine.now) page }
    requires valid { IsValid (profile_of machine.now) }
    ensures { (es : List TheEvent) → StandsFor machine.now es → MatchBool result (IsBare es page) (IsUsed es page) }
{
    for grain in 0..256u16 {
        if is_used(machine, page, grain) {
            return false;
        }
    }
    true
}

/// Whether the page is backed, and no grain of it has a block.
fn is_empty(machine: &Machine, page: u32) -> bool
    requires page { IsPage (profile_of machine.now) page }
    requires valid { IsValid (profile_of machine.now) }
    ensures { (es : List TheEvent) → StandsFor machine.now es → MatchBool result ((backed_in es page ≡ true) × IsBare es page) (backed_in es page ≡ true → IsBare es page → ⊥) }
{
    if !machine.is_backed(page) {
        return false;
    }
    is_bare(machine, page)
}

/// What the report tells of the page.
fn show(machine: &Machine, page: u32, directory: Directory) -> Shown
    requires page { IsPage (profile_of machine.now) page }
    requires valid { IsValid (profile_of machine.now) }
    requires kind { IsKind directory.kind }
    ensures tells { (es : List TheEvent) → StandsFor machine.now es → TellsPage es result }
    ensures page { result.page ≡ page }
    ensures directory { result.directory ≡ directory }
{
    Shown {
        page,
        directory,
        live: live_on(machine, page),
        free: free_on(machine, page),
        stamp: machine.last_end(page),
        backed: machine.is_backed(page),
        room: has_room(machine, page, directory.kind),
        empty: is_empty(machine, page),
    }
}

/// The bit of a mark, where it is set.
fn bit(set: bool, value: u8) -> u8
    requires { value ≤ 8 }
    ensures bit { result ≡ mark_bit set value }
    ensures few { result ≤ 8 }
{
    if set { value } else { 0 }
}

/// The marks of a page that is offered or parked.
fn marks_with(backed: bool, offered: bool, hinted: bool) -> Marks
    ensures { marks_of result.0 ≡ record { backed = backed; offered = offered; parked = not offered; hinted = hinted } }
{
    Marks::of_bits(bit(backed, 1) + bit(offered, 2) + bit(!offered, 4) + bit(hinted, 8))
}

/// Whether the line is the page's, which is offered or parked, and hinted or not.
fn is_with(line: &[u8], shown: &Shown, offered: bool, hinted: bool) -> bool
    requires { IsKind shown.now.directory.kind }
    ensures { MatchBool result (IsWith shown.now line.now offered hinted) (IsWith shown.now line.now offered hinted → ⊥) }
{
    let wanted = shown_page(
        shown.page,
        shown.directory,
        shown.live,
        shown.free,
        shown.stamp,
        marks_with(shown.backed, offered, hinted),
    );
    wanted.as_bytes() == line
}

/// Whether the line is the page's, which is hinted or not, and offered where it has to be.
fn is_hinted(line: &[u8], shown: &Shown, hinted: bool) -> bool
    requires { IsKind shown.now.directory.kind }
    ensures { MatchBool result (IsHinted shown.now line.now hinted) (IsHinted shown.now line.now hinted → ⊥) }
{
    if is_with(line, shown, true, hinted) {
        return true;
    }
    if shown.room {
        return false;
    }
    is_with(line, shown, false, hinted)
}

/// Whether the line is the page's, with marks that it may have.
fn is_page_line(line: &[u8], shown: &Shown) -> bool
    requires { IsKind shown.now.directory.kind }
    ensures { MatchBool result (IsPageLine shown.now line.now) (IsPageLine shown.now line.now → ⊥) }
{
    if is_hinted(line, shown, true) {
        return true;
    }
    if shown.empty {
        return false;
    }
    is_hinted(line, shown, false)
}

/// Takes the line of a page with this directory, and says whether it is the next one.
fn take_page(
    machine: &Machine,
    text: &[u8],
    cursor: &mut Cursor,
    page: u32,
    directory: Directory,
) -> bool
    requires within { IsWithin text.now cursor.old }
    requires page { IsPage (profile_of machine.now) page }
    requires valid { IsValid (profile_of machine.now) }
    requires kind { IsKind directory.kind }
    ensures led { (f : TheProfile) (s : Stand) (more : List Due) → StandsFor machine.now s.events → s.due ≡ Shows page directory ∷ more
        → IsLed f text.now s cursor.old (with_due s more) cursor.new result }
    ensures within { StaysWithin text.now cursor.new result }
{
    let Some(line) = next_line(text, cursor) else {
        return false;
    };
    let shown = show(machine, page, directory);
    is_page_line(line, &shown)
}

/// Takes the line of the page, where it has a deed; else it has none.
fn take_next_page(machine: &Machine, text: &[u8], cursor: &mut Cursor, page: u32) -> bool
    requires within { IsWithin text.now cursor.old }
    requires page { IsPage (profile_of machine.now) page }
    requires valid { IsValid (profile_of machine.now) }
    requires known { IsKnown machine.now }
    ensures led { (f : TheProfile) (s : Stand) (more : List Due) → StandsFor machine.now s.events → s.due ≡ page_due page (deed_in s.events page) ++ more
        → IsLed f text.now s cursor.old (with_due s more) cursor.new result }
    ensures within { StaysWithin text.now cursor.new result }
{
    match machine.deed_of(page) {
        None => true,
        Some(directory) => take_page(machine, text, cursor, page, directory),
    }
}

/// Takes the lines of the pages with a deed, in order.
fn take_pages(machine: &Machine, text: &[u8], cursor: &mut Cursor) -> bool
    requires within { IsWithin text.now cursor.old }
    requires valid { IsValid (profile_of machine.now) }
    requires known { IsKnown machine.now }
    ensures led { (s : Stand) (more : List Due) → StandsFor machine.now s.events → s.due ≡ pages_due s.events (profile_of machine.now).pages ++ more
        → IsLed (profile_of machine.now) text.now s cursor.old (with_due s more) cursor.new result }
    ensures within { StaysWithin text.now cursor.new result }
{
    let pages = machine.profile().pages;
    for page in 1..pages + 1 {
        if !take_next_page(machine, text, cursor, page) {
            return false;
        }
    }
    true
}

/// How many pages have a deed, and how many are backed.
fn count_pages(machine: &Machine) -> (u32, u32)
    requires { IsValid (profile_of machine.now) }
    ensures deeds { (es : List TheEvent) → StandsFor machine.now es → result.0 ≡ (totals_of (profile_of machine.now) es).deeds }
    ensures backed { (es : List TheEvent) → StandsFor machine.now es → result.1 ≡ (totals_of (profile_of machine.now) es).backed }
{
    let mut deeds = 0;
    let mut backed = 0;
    for before in 0..machine.profile().pages {
        let has_deed = machine.deed_of(before + 1).is_some();
        deeds += has_deed as u32;
        backed += machine.is_backed(before + 1) as u32;
    }
    (deeds, backed)
}

/// How many live blocks begin on the page: none where it has no deed.
fn live_there(machine: &Machine, page: u32) -> u16
    requires page { IsPage (profile_of machine.now) page }
    requires valid { IsValid (profile_of machine.now) }
    ensures { (es : List TheEvent) → StandsFor machine.now es → result ≡ live_on_page es page }
{
    match machine.deed_of(page) {
        Some(_) => live_on(machine, page),
        None => 0,
    }
}

/// How many blocks live. Looks only at grains of pages with a deed.
fn count_live(machine: &Machine) -> u64
    requires { IsValid (profile_of machine.now) }
    ensures { (es : List TheEvent) → StandsFor machine.now es → result ≡ (totals_of (profile_of machine.now) es).live }
{
    let mut live = 0;
    for before in 0..machine.profile().pages {
        live += live_there(machine, before + 1) as u64;
    }
    live
}

/// How many blocks were given on the page.
fn given_on(machine: &Machine, page: u32) -> u64
    requires page { IsPage (profile_of machine.now) page }
    requires valid { IsValid (profile_of machine.now) }
    requires known { IsKnown machine.now }
    ensures given { (es : List TheEvent) → StandsFor machine.now es → result ≡ given_on_page es page }
    ensures few { result ≤ 2 ^ 32 }
{
    let mut given = 0;
    for grain in 0..256u32 {
        given += machine.gives_at(256 * page + grain);
    }
    given
}

/// .. which are none where it has no deed.
fn given_there(machine: &Machine, page: u32) -> u64
    requires page { IsPage (profile_of machine.now) page }
    requires valid { IsValid (profile_of machine.now) }
    requires known { IsKnown machine.now }
    ensures given { (es : List TheEvent) → StandsFor machine.now es → result ≡ given_on_page es page }
    ensures few { result ≤ 2 ^ 32 }
{
    match machine.deed_of(page) {
        Some(_) => given_on(machine, page),
        None => 0,
    }
}

/// How many blocks were given. Looks only at grains of pages with a deed.
fn count_given(machine: &Machine) -> u64
    requires valid { IsValid (profile_of machine.now) }
    requires known { IsKnown machine.now }
    ensures given { (es : List TheEvent) → StandsFor machine.now es → result ≡ (totals_of (profile_of machine.now) es).given }
    ensures few { result ≤ 2 ^ 46 }
{
    let mut given = 0;
    for before in 0..machine.profile().pages {
        given += given_there(machine, before + 1);
    }
    given
}

/// What the report tells of the region.
fn total(machine: &Machine) -> Totals
    requires valid { IsValid (profile_of machine.now) }
    requires known { IsKnown machine.now }
    ensures { (es : List TheEvent) → StandsFor machine.now es → result ≡ totals_of (profile_of machine.now) es }
{
    let (deeds, backed) = count_pages(machine);
    let live = count_live(machine);
    let given = count_given(machine);
    Totals {
        deeds,
        backed,
        live,
        given,
        ended: given - live,
    }
}

/// Takes the line of the totals, and says whether it is the next one.
fn take_totals(machine: &Machine, text: &[u8], cursor: &mut Cursor) -> bool
    requires within { IsWithin text.now cursor.old }
    requires valid { IsValid (profile_of machine.now) }
    requires known { IsKnown machine.now }
    ensures led { (s : Stand) (more : List Due) → StandsFor machine.now s.events → s.due ≡ DueTotals ∷ more
        → IsLed (profile_of machine.now) text.now s cursor.old (with_due s more) cursor.new result }
    ensures within { StaysWithin text.now cursor.new result }
{
    let wanted = shown_totals(total(machine));
    take_line(text, cursor, wanted.as_bytes())
}

/// Takes the lines of the report: its head, those of the pages with a deed, and that of the totals.
pub(crate) fn take_report(machine: &Machine, text: &[u8], cursor: &mut Cursor) -> bool
    requires within { IsWithin text.now cursor.old }
    requires valid { IsValid (profile_of machine.now) }
    requires known { IsKnown machine.now }
    ensures led { (s : Stand) → StandsFor machine.now s.events → s.due ≡ report_due (profile_of machine.now) s.events
        → IsLed (profile_of machine.now) text.now s cursor.old (with_due s []) cursor.new result }
    ensures within { StaysWithin text.now cursor.new result }
{
    if !take_head(text, cursor) {
        return false;
    }
    if !take_pages(machine, text, cursor) {
        return false;
    }
    take_totals(machine, text, cursor)
}
