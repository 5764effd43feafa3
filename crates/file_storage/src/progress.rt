ghost use Rattle.std.specs.Prelude.{◌≡◌, ◌≤◌};

use std::io::{Stdout, Write};

/// The whole, in hundredths of a percent.
const ALL: u64 = 10000;

/// The least progress that is printed: one percent.
const STEP: u64 = 100;

// The progress of a task, printed on standard output in the form of QEMU's tools.
#[derive(Drop)]
pub(crate) struct Progress {
    output: Stdout,
    total: u64,
    told: u64,
}

impl Progress {
    pub(crate) fn new(output: Stdout) -> Self {
        Progress {
            output,
            total: 0,
            told: 0,
        }
    }

    // Sets the total of the task.
    pub(crate) fn set_total(&mut self, total: u64) {
        self.total = total;
    }

    // Prints the progress up to an offset, if it is at least one percent more than what was printed last.
    pub(crate) fn reach(&mut self, offset: u64) {
        let reached = hundredths(offset, self.total);
        if reached.saturating_sub(self.told) < STEP {
            return;
        }
        self.told = reached;
        let _ = write!(
            self.output,
            "    ({}.{:02}/100%)\r",
            reached / STEP,
            reached % STEP
        );
    }
}

// A part of a total, in hundredths of a percent. Of an empty total it is all.
fn hundredths(part: u64, total: u64) -> u64
    ensures most { result ≤ 10000 }
    ensures all { total ≤ part → result ≡ 10000 }
{
    if total <= part {
        return ALL;
    }
    let found = u128::from(part) * u128::from(ALL) / u128::from(total);
    u64::try_from(found).unwrap_or(ALL).min(ALL)
}
