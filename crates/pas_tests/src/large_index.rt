//! An index that is full, and one more page that joins two ranges.
ghost use Rattle.std.specs.Prelude.{◌≤◌, ◌<◌};

use pas_large::LargeIndex;
use pas_profile::Range;

/// Whether the index takes this page.
fn takes(index: &mut LargeIndex, first: u32) -> bool
    requires { (1 ≤ first) × (first < 65536) }
{
    index.insert(Range { first, pages: 1 }).is_ok()
}

/// Whether the lowest range of so many pages begins there, and is none where that is None.
fn fits(index: &LargeIndex, pages: u32, first: Option<u32>) -> bool {
    index.first_fit(pages) == first
}

/// Whether two ranges of a page each become one with the page between them.
fn joins(index: &mut LargeIndex) -> bool {
    takes(index, 2) && fits(index, 3, Some(1)) && fits(index, 4, None) && index.len() == 511
}

/// Whether pages are taken out of the lowest ranges.
fn gives_the_lowest(index: &mut LargeIndex) -> bool {
    let taken = [
        index.take_lowest(2),
        index.take_lowest(1),
        index.take_lowest(2),
    ];
    taken == [Some(1), Some(3), None]
}

#[test]
fn a_full_index_takes_what_joins(rt: HostRuntime) {
    let mut index = LargeIndex::new();
    for number in 0..512u32 {
        assert!(rt; takes(&mut index, 2 * number + 1));
    }
    assert!(rt; index.len() == 512);
    assert!(rt; !takes(&mut index, 1025) && index.len() == 512 && fits(&index, 2, None));
    assert!(rt; joins(&mut index));
    assert!(rt; takes(&mut index, 1025) && gives_the_lowest(&mut index));
}
