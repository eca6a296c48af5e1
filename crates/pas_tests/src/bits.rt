use pas_bits::Mask4;
use pas_bits::page_vector::{has_page, lowest_page, page_mask, with_page};

const EMPTY: Mask4 = Mask4([0; 4]);

const WHOLE: Mask4 = Mask4([u64::MAX; 4]);

/// Whether the bit of the grain, set alone, is in just these words and can be cleared again.
fn stands_alone(grain: u8, words: [u64; 4]) -> bool {
    let mut mask = EMPTY;
    mask.set(grain);
    let stands = mask.0 == words && mask.get(grain) && mask == Mask4::run(grain, 1);
    let counts = mask.count() == 1;
    mask.clear(grain);
    stands && counts && mask == EMPTY
}

/// Whether all other bits stay where the grain's is cleared.
fn lacks_alone(grain: u8) -> bool {
    let mut others = WHOLE;
    others.clear(grain);
    let alone = Mask4::run(grain, 1);
    others.first_zero() == Some(grain) && others.count() == 255 && others == alone.complement()
}

#[test]
fn bits_stand_at_their_places(rt: HostRuntime) {
    let grains: [u8; 5] = [0, 63, 64, 130, 255];
    let words: [[u64; 4]; 5] = [
        [1, 0, 0, 0],
        [1 << 63, 0, 0, 0],
        [0, 1, 0, 0],
        [0, 0, 4, 0],
        [0, 0, 0, 1 << 63],
    ];
    for at in 0..5 {
        assert!(rt; stands_alone(grains[at], words[at]) && lacks_alone(grains[at]));
    }
    assert!(rt; WHOLE.first_zero().is_none() && WHOLE.count() == 256);
}

#[test]
fn the_lowest_set_bit_is_found_from_each_place(rt: HostRuntime) {
    let mask = Mask4([1 << 5, 0, 1 << 2 | 1 << 63, 0]);
    let places: [u16; 7] = [0, 5, 6, 130, 131, 192, 256];
    let lowest = [
        Some(5),
        Some(5),
        Some(130),
        Some(130),
        Some(191),
        None,
        None,
    ];
    for at in 0..7 {
        let place = places[at];
        assert!(rt; place <= 256 && mask.first_set_from(place) == lowest[at]);
    }
}

/// Grains 3 to 9, 60 to 70 and 128 to 255.
const RUNS: Mask4 = Mask4([0xf000_0000_0000_03f8, 0x7f, u64::MAX, u64::MAX]);

/// Whether this is the lowest run of so many grains at a multiple of `align`.
fn is_first_run(grains: u16, align: u16, lowest: Option<u8>) -> bool {
    let asked = 1 <= grains && grains <= 256 && 1 <= align && align <= 256;
    asked && RUNS.first_run(grains, align) == lowest
}

#[test]
fn runs_are_the_lowest_aligned_ones(rt: HostRuntime) {
    let grains = [1, 7, 8, 11, 12, 129, 2, 2, 4, 128];
    let aligns = [1, 1, 1, 1, 1, 1, 4, 8, 8, 128];
    let lowest = [
        Some(3),
        Some(3),
        Some(60),
        Some(60),
        Some(128),
        None,
        Some(4),
        Some(8),
        Some(64),
        Some(128),
    ];
    for at in 0..10 {
        assert!(rt; is_first_run(grains[at], aligns[at], lowest[at]));
    }
    assert!(rt; WHOLE.first_run(256, 256) == Some(0) && EMPTY.first_run(1, 1).is_none());
}

#[test]
fn runs_are_free_as_a_whole(rt: HostRuntime) {
    // over two words, and with the grain after them; the last grains; no grain
    assert!(rt; RUNS.has_run(60, 11) && !RUNS.has_run(60, 12));
    assert!(rt; RUNS.has_run(128, 128) && RUNS.has_run(0, 0));
}

/// Whether the last slot of 3 grains is found where it is usable.
fn finds_the_last_slot() -> bool {
    let last = Mask4([0, 0, 0, 0xf << 60]);
    last.first_slot(3, 255) == Some(252) && last.first_slot(3, 252).is_none()
}

/// Whether a slot with a used grain is passed over.
fn passes_over_used_slots() -> bool {
    Mask4::run(1, 5).first_slot(3, 255) == Some(3) && Mask4::run(1, 4).first_slot(3, 255).is_none()
}

#[test]
fn slots_are_the_lowest_free_ones_that_are_usable(rt: HostRuntime) {
    // slots of 3 grains, of which the page has 85: 255 is no grain of one
    let usable = Mask4::run(0, 255);
    assert!(rt; finds_the_last_slot());
    assert!(rt; passes_over_used_slots());
    assert!(rt; WHOLE.first_slot(32, 256) == Some(0));
    assert!(rt; Mask4::run(255, 1).is_full(&usable) && !Mask4::run(254, 2).is_full(&usable));
}

#[test]
fn masks_are_moved(rt: HostRuntime) {
    let run = Mask4::run(62, 4);
    let made = [
        run.moved_down(60),
        run.moved_up(63),
        run.moved_up(64),
        Mask4::run(0, 2).moved_down(1),
        Mask4::run(254, 2).moved_up(1),
    ];
    let wanted = [
        Mask4::run(2, 4),
        Mask4::run(125, 4),
        Mask4::run(126, 4),
        Mask4::run(0, 1),
        Mask4::run(255, 1),
    ];
    assert!(rt; made == wanted);
}

#[test]
fn masks_are_joined_and_spread(rt: HostRuntime) {
    let run = Mask4::run(62, 4);
    let made = [
        run.both(&Mask4::run(0, 64)),
        run.either(&Mask4::run(66, 2)),
        run.runs(3),
        Mask4::run(100, 64).runs(64),
        Mask4::run(62, 1).spread(5),
    ];
    let wanted = [
        Mask4::run(62, 2),
        Mask4::run(62, 6),
        Mask4::run(62, 2),
        Mask4::run(100, 1),
        Mask4::run(62, 5),
    ];
    assert!(rt; made == wanted && EMPTY.is_empty() && !run.is_empty());
}

#[test]
fn pages_stand_in_their_words(rt: HostRuntime) {
    // pages 70 and 127, in word 1
    let word = with_page(with_page(0, 70), 127);
    assert!(rt; word == page_mask(6) | page_mask(4095));
    let pages = [69, 70, 71, 127, 128];
    let lowest = [Some(70), Some(70), Some(127), Some(127), None];
    for at in 0..5 {
        let page = pages[at];
        assert!(rt; has_page(word, page) == (page == 70 || page == 127));
        assert!(rt; lowest_page(word, 1, page) == lowest[at]);
    }
}
