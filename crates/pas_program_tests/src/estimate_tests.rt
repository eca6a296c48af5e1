//! What is likely to stand in a text.

use pas_threads::Estimate;

/// Whether these are the lines and the names that are likely in a text, and the requests and frees of threads 1, 2 and 12.
fn has(text: &str, lines: usize, names: usize, by_actor: [usize; 3]) -> bool {
    let likely = Estimate::of(text.as_bytes());
    let found = [likely.by_actor[1], likely.by_actor[2], likely.by_actor[12]];
    likely.lines == lines && likely.names == names && found == by_actor
}

/// Frees that name a size.
const SIZED: &str = "pas 2\nfs 1 1 32 16\nrs 12 0x00001000 0 32 16\nfs 2\nas 1 1\nrsx 1 2\n";

const SEVEN: &str = "pas 1\na 1 1 0 32 16\nf 2 1\r\nr 12 16 0\nflush 1\ntick 2\npass\n";

#[test]
fn short_texts_are_counted_whole(rt: HostRuntime) {
    assert!(rt; has("", 0, 0, [0, 0, 0]));
    assert!(rt; has("pas 1 pages 8 threads 2", 0, 0, [0, 0, 0]));
    assert!(rt; has(SEVEN, 7, 1, [1, 1, 1]));
    assert!(rt; has(SIZED, 6, 1, [1, 1, 1]));
}
