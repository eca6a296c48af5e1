//! Local allocators are looked for in their list.
ghost use Rattle.std.specs.{Prelude.{◌≡◌, ◌<◌, ◌++◌, ◌∷◌, [], false, MatchBool, MatchOption, length, remove, slice_index_or}, List.list_any};
ghost use Rattle.pas_bits.specs.Masks.{HasMember, IsEmpty};
ghost use Rattle.pas_segregated.specs.declared.slots.Slots.{Slots as Local};
ghost use Rattle.pas_cache.specs.{Locals.{is_for, HasOneEach, IsPlaceOf}, Parts.BringsCached, Serves.HasNoneCached};

use pas_segregated::Slots;

/// Whether a slot is left.
#[inline(always)]
fn has_slot(slots: &Slots) -> bool
    ensures { MatchBool result (HasMember slots.now.starts) (IsEmpty slots.now.starts) }
{
    !slots.starts.is_empty()
}

/// Whether it serves this heap and class.
#[inline(always)]
fn serves(slots: &Slots, heap: u8, class: u8) -> bool
    ensures { result ≡ is_for heap class slots.now }
{
    slots.heap == heap && slots.class == class
}

/// The place of the local allocator of the heap and the class, looked for from the last used one on.
#[inline(always)]
pub(crate) fn place_of(locals: &[Slots], heap: u8, class: u8) -> Option<usize>
    ensures { MatchOption result (list_any (is_for heap class) locals.now ≡ false) (IsPlaceOf heap class locals.now) }
{
    let mut place = locals.len();
    while place > 0 {
        place -= 1;
        if serves(&locals[place], heap, class) {
            return Some(place);
        }
    }
    None
}

/// Moves the one at this place to the end. It is mostly one of the last, so that those behind it are moved one by one.
#[inline(always)]
fn move_to_end(locals: &mut [Slots], place: usize)
    requires { place < length locals.old }
    ensures { (d : Local) → locals.new ≡ remove locals.old place ++ slice_index_or locals.old place d ∷ [] }
{
    let moved = locals[place];
    let mut hole = place;
    while hole + 1 < locals.len() {
        locals[hole] = locals[hole + 1];
        hole += 1;
    }
    locals[hole] = moved;
}

/// Brings the local allocator of the heap and the class to the end of the list, where it has a slot. False where none has, and the list is unchanged
/// then.
#[inline(always)]
pub(crate) fn bring_cached(locals: &mut [Slots], heap: u8, class: u8) -> bool
    requires { HasOneEach locals.old }
    ensures { MatchBool result (BringsCached heap class locals.old locals.new) (HasNoneCached heap class locals.old × (locals.new ≡ locals.old)) }
{
    let Some(place) = place_of(locals, heap, class) else {
        return false;
    };
    if !has_slot(&locals[place]) {
        return false;
    }
    if place + 1 < locals.len() {
        move_to_end(locals, place);
    }
    true
}
