//! The first line of a trace.
ghost use Rattle.std.specs.Prelude.{◌≡◌, ◌<◌, ◌≤◌, ◌∷◌, IfSome, MatchOption, length};
ghost use Rattle.pas_profile.specs.Profiles.{IsValid};
ghost use Rattle.pas_trace.specs.{FirstLines.first_header, Texts.words_of, Numbers.number_of, Reasons.{within, most_pages, classes_of, header_with, header_of}};

use crate::lines::next_line;
use crate::numbers::number;
use crate::words::{is_word, next_word};
use pas_profile::Profile;
use pas_profile::limits::{
    FEW_CLASSES, FEW_PAGES, MOST_AGE, MOST_CLASSES, MOST_HEAPS, MOST_PAGES, MOST_THREADS,
};

/// The latest version of the format.
const LATEST: u64 = 4;

/// The first version whose regions have all classes, and may have the most pages.
const FIRST_LARGE: u64 = 3;

/// What the first line of a trace names: the version of the text, and its region, before any heap is marked as shared.
#[derive(Clone, Copy, PartialEq, Eq, Drop)]
pub struct Header {
    pub version: u8,
    pub profile: Profile,
}

/// The first two words of a line, and the bytes after them. None where there are fewer.
fn word_pair(line: &[u8]) -> Option<(&[u8], &[u8], &[u8])>
    ensures { MatchOption result (length (words_of line.now) < 2) (λ p. words_of line.now ≡ p.0.now ∷ p.1.now ∷ words_of p.2.now) }
{
    let (first, rest) = next_word(line)?;
    let (second, rest) = next_word(rest)?;
    Some((first, second, rest))
}

/// The number that a word is, if it is within these limits.
fn number_within(least: u64, most: u64, word: &[u8]) -> Option<u64>
    ensures value { result ≡ within least most (number_of word.now) }
    ensures least { IfSome result (λ n. least ≤ n) }
    ensures most { IfSome result (λ n. n ≤ most) }
{
    match number(word) {
        Some(value) if value >= least && value <= most => Some(value),
        _ => None,
    }
}

/// The most pages of a region, by the version of its text.
fn pages_limit(version: u8) -> u32
    ensures value { result ≡ most_pages version }
    ensures most { result ≤ 16384 }
{
    if version as u64 >= FIRST_LARGE {
        MOST_PAGES
    } else {
        FEW_PAGES
    }
}

/// How many classes a region has, by the version of its text.
fn class_count(version: u8) -> u8
    ensures { result ≡ classes_of version }
{
    if version as u64 >= FIRST_LARGE {
        MOST_CLASSES
    } else {
        FEW_CLASSES
    }
}

/// The header of a text of this version with these numbers, if each is within its limits: 1 to 4,096 pages, or 16,384 from version 3 on,
/// 1 to 16 threads, 1 to 32 heaps, and an age from 1 to 1,000,000. No heap is shared.
fn header_with(
    version: u8,
    pages: &[u8],
    threads: &[u8],
    heaps: &[u8],
    age: &[u8],
) -> Option<Header>
    ensures { result ≡ header_with version (within 1 (most_pages version) (number_of pages.now)) (within 1 16 (number_of threads.now)) (within 1 32 (number_of heaps.now)) (within 1 1000000 (number_of age.now)) }
{
    let pages = number_within(1, pages_limit(version) as u64, pages)?;
    let threads = number_within(1, MOST_THREADS as u64, threads)?;
    let heaps = number_within(1, MOST_HEAPS as u64, heaps)?;
    let age = number_within(1, MOST_AGE, age)?;
    let profile = Profile {
        pages: pages as u32,
        threads: threads as u8,
        age,
        heaps: heaps as u8,
        shared: 0,
        classes: class_count(version),
    };
    Some(Header { version, profile })
}

/// The version and the region that a header names: `pas V pages P threads T heaps H age A`. None for any other line.
pub(crate) fn read_header(line: &[u8]) -> Option<Header>
    ensures { result ≡ header_of line.now }
{
    let (format, version, rest) = word_pair(line)?;
    let (pages_label, pages, rest) = word_pair(rest)?;
    let (threads_label, threads, rest) = word_pair(rest)?;
    let (heaps_label, heaps, rest) = word_pair(rest)?;
    let (age_label, age, rest) = word_pair(rest)?;
    if next_word(rest).is_some() {
        return None;
    }
    let labelled = is_word(format, b"pas")
        && is_word(pages_label, b"pages")
        && is_word(threads_label, b"threads")
        && is_word(heaps_label, b"heaps")
        && is_word(age_label, b"age");
    if !labelled {
        return None;
    }
    let version = number_within(1, LATEST, version)?;
    header_with(version as u8, pages, threads, heaps, age)
}

/// The region that the first line of a text names, before any heap is marked as shared. None where there is no line, or where the
/// first is no header. It costs two passes over that line, and looks at no other.
pub fn header_of_text(text: &[u8]) -> Option<Profile>
    ensures header { result ≡ first_header text.now }
    ensures valid { IfSome result (λ header. IsValid header) }
{
    let (line, _) = next_line(text)?;
    let header = read_header(line)?;
    Some(header.profile)
}
