//! A set of numbers, stored as runs.
#![tactic(auto)]

ghost use Rattle.std.specs.Prelude.{◌≡◌, ◌≢◌, ◌+◌, ◌-◌, ◌<◌, ◌≤◌, ◌^◌, ◌⊎◌, ℕ, length};
ghost use Rattle.std.specs.Prelude.{IsTrue, IsFalse, IfSome, IsNone, Some, None};
ghost use Rattle.number_runs.specs.NumberRuns.{run_at, AreKept, IsIn, IsRun, NoneIn, SameNumbers, Adds, Forgets, IsParted};

use std::alloc::Global;
use std::collections::BTreeMap;
use std::marker::Model;

/// A set of numbers, as an ordered map from the first number of each run to its length. The number of runs is bounded.
#[derive(Drop)]
pub struct NumberRuns {
    runs: BTreeMap<u64, u64>,
    most: usize,
}

impl Model for NumberRuns {
    ghost use Rattle.std.specs.Prelude.{ℕ, List};
    ghost use Rattle.number_runs.specs.NumberRuns.{AreKept};

    ghost Value = { List (ℕ × ℕ) };

    ghost view = { λ a. a.runs.entries };

    ghost invariant = { λ a. AreKept a.runs.entries a.most };
}

// Sets the length of the run that begins at a number. Length 0 removes it.
fn set_length(runs: &mut BTreeMap<u64, u64>, first: u64, n: u64)
    requires { run_at runs.old.entries first ≡ None → ⊥ }
    ensures some { 0 < n → run_at runs.new.entries first ≡ Some n }
    ensures none { n ≡ 0 → run_at runs.new.entries first ≡ None }
    ensures others { (k : ℕ) → k ≢ first → run_at runs.new.entries k ≡ run_at runs.old.entries k }
    ensures few { length runs.new.entries ≤ length runs.old.entries }
{
    if n == 0 {
        runs.remove(&first);
        return;
    }
    if let Some(slot) = runs.get_mut(&first) {
        *slot = n;
    }
}

// Sets the length of the run that begins at a number, or inserts the run. Length 0 changes nothing. False if there is no room.
fn put(runs: &mut BTreeMap<u64, u64>, most: usize, first: u64, n: u64) -> bool
    ensures some { IsTrue result → 0 < n → run_at runs.new.entries first ≡ Some n }
    ensures none { n ≡ 0 → IsTrue result × (runs.new.entries ≡ runs.old.entries) }
    ensures refused { IsFalse result → runs.new.entries ≡ runs.old.entries }
    ensures others { (k : ℕ) → k ≢ first → run_at runs.new.entries k ≡ run_at runs.old.entries k }
    ensures few { length runs.old.entries ≤ most → length runs.new.entries ≤ most }
{
    if n == 0 {
        return true;
    }
    if runs.len() >= most && runs.get(&first).is_none() {
        return false;
    }
    runs.insert(first, n).is_ok()
}

// Removes the run that begins at a number, if it has numbers.
fn drop_run(runs: &mut BTreeMap<u64, u64>, first: u64, n: u64)
    ensures gone { 0 < n → run_at runs.new.entries first ≡ None }
    ensures none { n ≡ 0 → runs.new.entries ≡ runs.old.entries }
    ensures others { (k : ℕ) → k ≢ first → run_at runs.new.entries k ≡ run_at runs.old.entries k }
    ensures few { length runs.new.entries ≤ length runs.old.entries }
{
    if n > 0 {
        runs.remove(&first);
    }
}

// The run that contains a number: its first number, and its length.
fn find(runs: &BTreeMap<u64, u64>, most: usize, number: u64) -> Option<(u64, u64)>
    requires { AreKept runs.now.entries most }
    ensures run { IfSome result (λ run. run_at runs.now.entries run.0 ≡ Some run.1) }
    ensures within { IfSome result (λ run. (run.0 ≤ number) × (number < run.0 + run.1)) }
    ensures near { IfSome result (λ run. run.0 + run.1 < 2 ^ 64) }
    ensures none { IsNone result → IsIn runs.now.entries number → ⊥ }
{
    match runs.range(..=number).next_back() {
        Some((first, n)) => {
            if number - *first < *n {
                Some((*first, *n))
            } else {
                None
            }
        }
        None => None,
    }
}

// The first run that begins at a number or after it.
fn find_from(runs: &BTreeMap<u64, u64>, number: u64) -> Option<(u64, u64)>
    ensures run { IfSome result (λ run. run_at runs.now.entries run.0 ≡ Some run.1) }
    ensures from { IfSome result (λ run. number ≤ run.0) }
    ensures between { IfSome result (λ run. (k : ℕ) → number ≤ k → k < run.0 → run_at runs.now.entries k ≡ None) }
    ensures none { IsNone result → (k : ℕ) → number ≤ k → run_at runs.now.entries k ≡ None }
{
    match runs.range(number..).next() {
        Some((first, n)) => Some((*first, *n)),
        None => None,
    }
}

// Removes the numbers from `low` up to, not including, `high` from a run. False if there is no room for the rest after them, and then nothing
// changed.
fn cut(runs: &mut BTreeMap<u64, u64>, most: usize, run: (u64, u64), low: u64, high: u64) -> bool
    requires kept { AreKept runs.old.entries most }
    requires run { run_at runs.old.entries run.0 ≡ Some run.1 }
    requires order { (run.0 ≤ low) × (low ≤ high) }
    requires past { run.0 < high }
    requires below { high ≤ run.0 + run.1 }
    ensures kept { AreKept runs.new.entries most }
    ensures cut { IsTrue result → Forgets runs.old.entries runs.new.entries low high }
    ensures behind { IsTrue result → high < run.0 + run.1
        → run_at runs.new.entries high ≡ Some (run.0 + run.1 - high) }
    ensures finer { (j : ℕ) → IsParted runs.old.entries j → IsParted runs.new.entries j }
    ensures refused { IsFalse result → runs.new.entries ≡ runs.old.entries }
{
    let (first, n) = run;
    if !put(runs, most, high, n - (high - first)) {
        return false;
    }
    set_length(runs, first, low - first);
    true
}

// Splits the run that crosses a number, if one does. False if there is no room for the second part. The set stays the same.
fn part(runs: &mut BTreeMap<u64, u64>, most: usize, at: u64) -> bool
    requires { AreKept runs.old.entries most }
    ensures kept { AreKept runs.new.entries most }
    ensures parted { IsTrue result → IsParted runs.new.entries at }
    ensures finer { (j : ℕ) → IsParted runs.old.entries j → IsParted runs.new.entries j }
    ensures same { SameNumbers runs.old.entries runs.new.entries }
{
    let Some((first, n)) = find(runs, most, at) else {
        return true;
    };
    first == at || cut(runs, most, (first, n), at, at)
}

// Removes all runs that begin at a number or after it, and before an end.
fn drop_between(runs: &mut BTreeMap<u64, u64>, most: usize, first: u64, end: u64)
    requires kept { AreKept runs.old.entries most }
    requires begins { IsParted runs.old.entries first }
    requires ends { IsParted runs.old.entries end }
    ensures kept { AreKept runs.new.entries most }
    ensures forgets { Forgets runs.old.entries runs.new.entries first end }
{
    'dropping: while let Some((at, _)) = find_from(runs, first) {
        if at >= end {
            return;
        }
        runs.remove(&at);
    }
}

// The first number of the run that ends right before a number. The number itself, if no run does or joining is not asked for.
fn begin_before(runs: &BTreeMap<u64, u64>, most: usize, number: u64, joins: bool) -> u64
    requires kept { AreKept runs.now.entries most }
    requires out { IsIn runs.now.entries number → ⊥ }
    ensures { (result ≡ number)
        ⊎ ((result < number) × (run_at runs.now.entries result ≡ Some (number - result))) }
{
    if !joins || number == 0 {
        return number;
    }
    match find(runs, most, number - 1) {
        Some((first, _)) => first,
        None => number,
    }
}

// The length of the run that begins at a number; 0 if none does or joining is not asked for.
fn length_at(runs: &BTreeMap<u64, u64>, most: usize, number: u64, joins: bool) -> u64
    requires { AreKept runs.now.entries most }
    ensures asked { 0 < result → IsTrue joins }
    ensures run { (result ≡ 0) ⊎ ((0 < result) × (run_at runs.now.entries number ≡ Some result)) }
{
    if !joins {
        return 0;
    }
    match runs.get(&number) {
        Some(n) => *n,
        None => 0,
    }
}

impl NumberRuns {
    /// An empty set, with at most this many runs.
    pub fn new(alloc: Global, most: usize) -> NumberRuns
        ensures { (k : ℕ) → IsIn result k → ⊥ }
    {
        NumberRuns {
            runs: BTreeMap::new(alloc),
            most,
        }
    }

    /// The run that contains a number: its first number, and its length.
    pub fn run_of(&self, number: u64) -> Option<(u64, u64)>
        ensures some { IfSome result (IsRun self.now) }
        ensures within { IfSome result (λ run. (run.0 ≤ number) × (number < run.0 + run.1)) }
        ensures none { IsNone result → IsIn self.now number → ⊥ }
    {
        find(&self.runs, self.most, number)
    }

    /// The first run from a number on: its first number, and its length. If a run contains the number, the rest of it from there on.
    pub fn run_from(&self, number: u64) -> Option<(u64, u64)>
        ensures some { IfSome result (IsRun self.now) }
        ensures from { IfSome result (λ run. number ≤ run.0) }
        ensures between { IfSome result (λ run. NoneIn self.now number run.0) }
        ensures none { IsNone result → (k : ℕ) → number ≤ k → IsIn self.now k → ⊥ }
    {
        if let Some((first, n)) = find(&self.runs, self.most, number) {
            return Some((number, n - (number - first)));
        }
        find_from(&self.runs, number)
    }

    /// The first number from this one on that is not in the set.
    pub fn end_from(&self, number: u64) -> u64
        ensures from { number ≤ result }
        ensures all { (k : ℕ) → number ≤ k → k < result → IsIn self.now k }
        ensures end { IsIn self.now result → ⊥ }
    {
        let mut end = number;
        'passing: while let Some((first, n)) = find(&self.runs, self.most, end) {
            end = first + n;
        }
        end
    }

    /// Adds n numbers from `first` on, none of which is in the set, as one run. False if there is no room, and then nothing changed.
    pub fn add(&mut self, first: u64, n: u64) -> bool
        requires near { first + n < 2 ^ 64 }
        requires apart { NoneIn self.old first (first + n) }
        ensures added { IsTrue result → Adds self.old self.new first n }
        ensures refused { IsFalse result → self.new ≡ self.old }
    {
        put(&mut self.runs, self.most, first, n)
    }

    /// Removes a number, and splits its run. False if there is no room for the second part, and then nothing changed.
    pub fn take(&mut self, number: u64) -> bool
        ensures taken { IsTrue result → Forgets self.old self.new number (number + 1) }
        ensures refused { IsFalse result → self.new ≡ self.old }
    {
        let Some((first, n)) = find(&self.runs, self.most, number) else {
            return true;
        };
        cut(&mut self.runs, self.most, (first, n), number, number + 1)
    }

    /// Adds a number. It joins the run before it and the one after it, if that is asked for. False if there is no room for a run,
    /// and for the greatest number; then nothing changed.
    pub fn give(&mut self, number: u64, joins_before: bool, joins_behind: bool) -> bool
        ensures given { IsTrue result → Adds self.old self.new number 1 }
        ensures refused { IsFalse result → self.new ≡ self.old }
    {
        if find(&self.runs, self.most, number).is_some() {
            return true;
        }
        if number == u64::MAX {
            return false;
        }
        let first = begin_before(&self.runs, self.most, number, joins_before);
        let behind = length_at(&self.runs, self.most, number + 1, joins_behind);
        if !put(
            &mut self.runs,
            self.most,
            first,
            number - first + 1 + behind,
        ) {
            return false;
        }
        drop_run(&mut self.runs, number + 1, behind);
        true
    }

    /// Removes the numbers from `first` up to, not including, `end`. Runs that cross one of these bounds are split before, which takes room: false
    /// if there is none, and then the set stays the same.
    pub fn forget(&mut self, first: u64, end: u64) -> bool
        ensures forgotten { IsTrue result → Forgets self.old self.new first end }
        ensures refused { IsFalse result → SameNumbers self.old self.new }
    {
        if !part(&mut self.runs, self.most, end) {
            return false;
        }
        if !part(&mut self.runs, self.most, first) {
            return false;
        }
        drop_between(&mut self.runs, self.most, first, end);
        true
    }

    /// Joins the run that ends right before a number with the one that begins there. The set stays the same.
    pub fn join_at(&mut self, number: u64)
        ensures { SameNumbers self.old self.new }
    {
        let behind = length_at(&self.runs, self.most, number, number > 0);
        if behind == 0 {
            return;
        }
        if let Some((first, n)) = find(&self.runs, self.most, number - 1) {
            set_length(&mut self.runs, first, n + behind);
            drop_run(&mut self.runs, number, behind);
        }
    }

    /// Removes all numbers.
    pub fn clear(&mut self)
        ensures { (k : ℕ) → IsIn self.new k → ⊥ }
    {
        self.runs.clear();
    }
}
