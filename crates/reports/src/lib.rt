// What is told of the steps of the rules, as numbers in a lent array: thread i's four from i * PER_THREAD on.
#![tactic(auto)]

ghost use Rattle.std.specs.Prelude.{◌≡◌, ◌+◌, ◌*◌, ◌<◌, ◌^◌, get_or};
ghost use Rattle.records.specs.Ranges.{most_threads};
ghost use Rattle.reports.specs.Tallies.{tally, plus, back_tally, per_thread, more, more_of, Tellable};

use records::THREADS;

// Limits reached, quanta ended, replenishments carried out, the sum of their amounts.
pub const PER_THREAD: usize = 4;

// How many numbers there are.
pub const NUMBERS: usize = THREADS * PER_THREAD;

// n more at place k.
fn add(told: &mut [u64; NUMBERS], k: usize, n: u64)
    requires { (k < most_threads * per_thread) × (get_or told.old k 0 + n < 2 ^ 64) }
    ensures { told.new ≡ more k n told.old }
{
    told[k] += n;
}

// A quantum of thread i has ended.
pub fn tell_quantum(told: &mut [u64; NUMBERS], i: usize)
    requires { (i < most_threads) × Tellable 1 told.old }
    ensures { told.new ≡ more_of i (tally 0 1 0 0) told.old }
{
    add(told, i * PER_THREAD + 1, 1);
}

// An amount came back to thread i, 0 for none.
pub fn tell_back(told: &mut [u64; NUMBERS], i: usize, back: u64)
    requires { (i < most_threads) × Tellable (back + 1) told.old }
    ensures { told.new ≡ more_of i (back_tally back) told.old }
{
    if back == 0 {
        return;
    }
    add(told, i * PER_THREAD + 2, 1);
    add(told, i * PER_THREAD + 3, back);
}

// Thread i reached its limit, and an amount came back at once, 0 for none.
pub fn tell_limit(told: &mut [u64; NUMBERS], i: usize, back: u64)
    requires { (i < most_threads) × Tellable (back + 2) told.old }
    ensures { told.new ≡ more_of i (plus (tally 1 0 0 0) (back_tally back)) told.old }
{
    add(told, i * PER_THREAD, 1);
    tell_back(told, i, back);
}
