// An answer as a call gives it: a number that is returned, and values for the start of its last slice.
#![tactic(auto)]

ghost use Rattle.std.specs.Prelude.{ℕ, List, ◌≡◌, ◌≤◌, length};
ghost use Rattle.semantics.specs.Limits.{answer_limit};
ghost use Rattle.reports.specs.Reports.{sizes_of, counts_of, all_counts_of, totals_of, size_of, outcome_of, Reported};

use compiler::Sizes;
use copying::copy_first;
use evaluator::EvaluationCounts;
use refusal::Refused;
use sheets::Totals;
use workspace::Counts;

// What an accepted answer counts, as so many values.
pub trait Counted<const N: usize> {
    ghost values: { Self → List ℕ };

    fn values(self) -> [u64; N]
        ensures { result ≡ values self };
}

// Compiling.
impl Counted<4> for Sizes {
    ghost values = { sizes_of };

    fn values(self) -> [u64; 4] {
        [
            self.lines as u64,
            self.rows as u64,
            self.numbers as u64,
            self.roles as u64,
        ]
    }
}

// Settling.
impl Counted<3> for Counts {
    ghost values = { counts_of };

    fn values(self) -> [u64; 3] {
        [self.levels as u64, self.passes as u64, self.yes as u64]
    }
}

// A sitting, which is both.
impl Counted<7> for EvaluationCounts {
    ghost values = { all_counts_of };

    fn values(self) -> [u64; 7] {
        let [lines, rows, numbers, roles]: [u64; 4] = self.sizes.values();
        let [levels, passes, yes]: [u64; 3] = self.counts.values();
        [lines, rows, numbers, roles, levels, passes, yes]
    }
}

// Marking.
impl Counted<2> for Totals {
    ghost values = { totals_of };

    fn values(self) -> [u64; 2] {
        [self.right, self.wrong]
    }
}

// Converting: the length of a book.
impl Counted<1> for usize {
    ghost values = { size_of };

    fn values(self) -> [u64; 1] {
        [self as u64]
    }
}

// Writes what the answer counts to the start of the slice and returns 0, or the place of its refusal and returns the refusal's number.
pub fn hand_over<const N: usize, T: Counted<N>>(last: &mut [u64], answer: Result<T, Refused>) -> u64
    requires { (answer_limit ≤ length last.old) × (N ≤ answer_limit) }
    ensures { Reported (outcome_of T.values answer) last.old last.new result }
{
    match answer {
        Ok(counts) => {
            copy_first(&counts.values(), last, N);
            0
        }
        Err(refused) => {
            last[0] = refused.place as u64;
            u64::from(refused.why)
        }
    }
}
