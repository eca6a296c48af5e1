//! The rounds of a job. Each writes the last word of a row by the answers so far, so that no call can be left out.
ghost use Rattle.std.specs.Prelude.{◌≡◌, ◌<◌, ◌≤◌, length};

use crate::lanes::{MOST_WORDS, plain};
use pas_bits::{all_zero, any_and_not, count_ones, first_set};

/// Which of the four calls.
#[derive(Clone, Copy, PartialEq, Eq)]
pub enum Call {
    FirstSet,
    CountOnes,
    AnyAndNot,
    AllZero,
}

/// A job: the call, whether in lanes, and how often.
#[derive(Clone, Copy)]
pub struct Rounds {
    pub call: Call,
    pub in_lanes: bool,
    pub times: u32,
}

impl Rounds {
    /// The sum of the answers on a row of zeros whose last word alone is written.
    pub fn run(self, row: &mut [u64], other: &mut [u64]) -> u64
        requires some { 0 < length row.old }
        requires words { length row.old ≤ MOST_WORDS }
        requires same { length row.old ≡ length other.old }
    {
        match self.call {
            Call::FirstSet => self.first_sets(row),
            Call::CountOnes => self.counts(row),
            Call::AnyAndNot => self.comparisons(row, other),
            Call::AllZero => self.zero_tests(row),
        }
    }

    #[inline(never)]
    fn first_sets(self, row: &mut [u64]) -> u64
        requires some { 0 < length row.old }
        requires words { length row.old ≤ MOST_WORDS }
    {
        let last = row.len() - 1;
        let mut sum = 0u64;
        for _ in 0..self.times {
            row[last] = 1 << (sum % 64);
            let found = if self.in_lanes {
                first_set(row)
            } else {
                plain::first_set(row)
            };
            sum = sum.wrapping_add(found.unwrap_or(0) as u64);
        }
        sum
    }

    #[inline(never)]
    fn counts(self, row: &mut [u64]) -> u64
        requires some { 0 < length row.old }
        requires words { length row.old ≤ MOST_WORDS }
    {
        let last = row.len() - 1;
        let mut sum = 0u64;
        for _ in 0..self.times {
            row[last] = sum.wrapping_add(1);
            let ones = if self.in_lanes {
                count_ones(row)
            } else {
                plain::count_ones(row)
            };
            sum = sum.wrapping_add(ones);
        }
        sum
    }

    #[inline(never)]
    fn comparisons(self, row: &mut [u64], other: &mut [u64]) -> u64
        requires some { 0 < length row.old }
        requires same { length row.old ≡ length other.old }
    {
        let last = row.len() - 1;
        let mut sum = 0u64;
        for _ in 0..self.times {
            row[last] = sum;
            other[last] = sum;
            let any = if self.in_lanes {
                any_and_not(row, other)
            } else {
                plain::any_and_not(row, other)
            };
            sum = sum.wrapping_add(if any { 2 } else { 1 });
        }
        sum
    }

    #[inline(never)]
    fn zero_tests(self, row: &mut [u64]) -> u64
        requires some { 0 < length row.old }
    {
        let last = row.len() - 1;
        let mut sum = 0u64;
        for _ in 0..self.times {
            row[last] = sum >> 60;
            let zero = if self.in_lanes {
                all_zero(row)
            } else {
                plain::all_zero(row)
            };
            sum = sum.wrapping_add(if zero { 1 } else { 2 });
        }
        sum
    }
}
