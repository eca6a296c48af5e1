use pas_generate::*;
use pas_profile::NoMemory;

/// What a program that was written from the rules alone gives for this seed.
const TWELVE: &str = "pas 1 pages 1024 threads 4 heaps 6 age 2\n\
shared 5\n\
a 4 1 3 1258 16\n\
a 1 2 0 205 32\n\
a 1 3 2 427 16\n\
a 1 4 5 376 32\n\
a 2 5 0 278 16\n\
a 1 6 1 232 64\n\
a 2 7 1 411 32\n\
f 4 1\n\
f 2 7\n\
a 3 8 0 192 64\n\
f 1 2\n\
a 1 9 0 265 32\n";

/// Whether a trace was made that has so many bytes, the last of which are these.
fn ends(made: Result<Vec<u8>, NoMemory>, length: usize, last: &str) -> bool {
    match made {
        Ok(text) => text.len() == length && text.as_slice().ends_with(last.as_bytes()),
        Err(_) => false,
    }
}

#[test]
fn a_short_trace_is_the_expected_one(rt: HostRuntime) {
    assert!(rt; ends(trace_of(rt.alloc(), 7, 12, 4, 1024), TWELVE.len(), TWELVE));
}

/// The last lines for the same seed, where a phase ends, and the length of the whole.
const LAST: &str = "f 1 458\n\
tick 1\n\
pass\n\
phase\n\
a 2 528 0 208 16\n";

#[test]
fn a_thousand_operations_end_in_a_pass_and_a_phase(rt: HostRuntime) {
    assert!(rt; ends(trace_of(rt.alloc(), 7, 1001, 4, 1024), 12561, LAST));
}
