use pas_bits::{all_zero, any_and_not, count_ones, first_set};

/// One bit, behind a group of eight words.
const LAST: [u64; 9] = [0, 0, 0, 0, 0, 0, 0, 0, 0x8000000000000000];

#[test]
fn nine_words_reach_past_one_group(rt: HostRuntime) {
    let found = [first_set(&[]), first_set(&[0; 9]), first_set(&LAST)];
    assert!(rt; found == [None, None, Some(575)] && count_ones(&[u64::MAX; 9]) == 576);
    assert!(rt; all_zero(&[0; 9]) && !all_zero(&LAST) && any_and_not(&LAST, &[0; 9]));
}

#[test]
fn bits_count_only_where_the_other_row_has_none(rt: HostRuntime) {
    // bit 2 is set in one alone; the same bits; fewer bits; no words
    assert!(rt; any_and_not(&[5, 0], &[1, 0]));
    assert!(rt; !any_and_not(&[5, 0], &[5, 0]));
    assert!(rt; !any_and_not(&[1, 0], &[5, 0]));
    assert!(rt; !any_and_not(&[], &[]));
}
