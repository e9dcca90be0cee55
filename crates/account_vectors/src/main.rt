// Runs stored cases of the account rules and prints each account, for comparison with the file stdout.
// A line: capacity, U, activation time, pending count, then due and amount of each pending replenishment, `|`,
// 1 where the account is sound else 0, and where the thread goes: 0 stays, 1 low, 2 low then upper, 3 upper.
// A case is a function of its own: its title and its numbers.
#![tactic(auto)]

ghost use Rattle.std.specs.Prelude.{◌≡◌, true};
ghost use Rattle.account.specs.Rules.{Schedulable};

use account::{Account, ENTRIES, Outcome, Pending};
use records::{LAST_TIME, MOST_TICKS, Parameters, SCHED_SPORADIC};
use sporadic::Server;
use vector_lines::{end_line, last_number, line, number, text, title};

fn print_entries(q: Pending) {
    for (due, amount) in q
        .dues
        .iter()
        .zip(q.amounts.iter())
        .take(usize::from(q.count))
    {
        number(*due);
        number(*amount);
    }
}

fn print_account(p: Parameters, a: Account, blocked: bool, now: u64) {
    number(a.server.capacity);
    number(a.server.used);
    number(a.server.activation);
    number(u64::from(a.pending.count));
    print_entries(a.pending);
    text(b"|");
    if account_sound::sound(p, a, blocked, 0, now) {
        text(b" 1");
    } else {
        text(b" 0");
    }
}

// Prints the answer of a rule, and goes on with its account.
fn shown(p: Parameters, o: Outcome, blocked: bool, now: u64) -> Account {
    print_account(p, o.account, blocked, now);
    line(b"", o.place as u64);
    o.account
}

fn sporadic(budget: u64, period: u64, max_repl: u8) -> Parameters {
    Parameters {
        policy: SCHED_SPORADIC,
        priority: 20,
        low: 5,
        max_repl,
        flag: 0,
        budget,
        period,
    }
}

// k ticks at the upper priority, up to the time `now`.
fn run(p: Parameters, a: Account, k: u64, now: u64) -> Account {
    let s = a.server;
    if s.capacity < k {
        title(b"no capacity");
        return a;
    }
    if MOST_TICKS < s.capacity {
        title(b"too much capacity");
        return a;
    }
    if MOST_TICKS < s.used {
        title(b"too much used");
        return a;
    }
    let b = Account {
        server: sporadic::charge(s, k),
        ..a
    };
    print_account(p, b, false, now);
    end_line();
    b
}

// Whether the account can take what scheduling U adds.
fn schedulable(p: Parameters, a: Account) -> bool
    ensures { result ≡ true → Schedulable p a.server a.pending.count }
{
    a.server.activation <= LAST_TIME
        && p.period <= MOST_TICKS
        && usize::from(a.pending.count) < ENTRIES
}

fn limit(p: Parameters, a: Account, blocked: bool, now: u64) -> Account {
    if !schedulable(p, a) {
        return a;
    }
    shown(
        p,
        account_moments::limit_reached(p, a, blocked, now),
        blocked,
        now,
    )
}

fn block(p: Parameters, a: Account, blocked: bool, now: u64) -> Account {
    if !schedulable(p, a) {
        return a;
    }
    shown(p, account::block(p, a, blocked, now), true, now)
}

fn wake(p: Parameters, a: Account, blocked: bool, now: u64) -> Account {
    shown(p, account::wake(p, a, blocked, now), false, now)
}

fn due(p: Parameters, a: Account, blocked: bool, now: u64) -> Account {
    shown(
        p,
        account_returns::return_due(p, a, blocked, now),
        blocked,
        now,
    )
}

// 01's worked replay, thread 0.
fn replay() {
    title(b"replay");
    let p = sporadic(10, 40, 2);
    let mut a = account_making::fresh(p, 0);
    a = run(p, a, 6, 6);
    a = block(p, a, false, 6);
    a = wake(p, a, true, 15);
    a = run(p, a, 4, 19);
    a = limit(p, a, false, 19);
    a = due(p, a, false, 40);
    a = run(p, a, 6, 46);
    a = limit(p, a, false, 46);
    last_number(account_moments::first_due(a.pending));
}

// 01's row: one replenishment at a time.
fn one_pending() {
    title(b"max_repl 1");
    let p = sporadic(10, 40, 1);
    let mut a = account_making::fresh(p, 0);
    a = run(p, a, 3, 3);
    a = block(p, a, false, 3);
    a = wake(p, a, true, 5);
    a = due(p, a, false, 39);
    due(p, a, false, 40);
}

// 01's row: the budget is the period.
fn budget_is_period() {
    title(b"budget = period");
    let p = sporadic(10, 10, 2);
    let mut a = account_making::fresh(p, 0);
    a = run(p, a, 10, 10);
    limit(p, a, false, 10);
}

// 01's row: preempted from 4 to 20.
fn preempted() {
    title(b"preempted");
    let p = sporadic(10, 12, 2);
    let mut a = account_making::fresh(p, 0);
    a = run(p, a, 4, 4);
    a = run(p, a, 6, 26);
    limit(p, a, false, 26);
}

// 01's row: a wake and a block at one time schedule nothing.
fn wake_and_block() {
    title(b"wake and block");
    let p = sporadic(10, 40, 2);
    let mut a = account_making::fresh(p, 0);
    a = block(p, a, false, 0);
    a = wake(p, a, true, 7);
    block(p, a, false, 7);
}

// The account of a server with these numbers, with `count` entries: due and amount of the first two.
fn made([capacity, used, activation]: [u64; 3], count: u8, [d, x, e, y]: [u64; 4]) -> Account {
    Account {
        server: Server {
            capacity,
            used,
            activation,
        },
        pending: Pending {
            count,
            dues: [d, e, 0, 0, 0, 0, 0, 0],
            amounts: [x, y, 0, 0, 0, 0, 0, 0],
        },
    }
}

// Instants next to each other.
fn at_once() {
    title(b"due one tick later is pending, due now comes back at once");
    let p = sporadic(10, 10, 2);
    let mut a = account_making::fresh(p, 0);
    a = run(p, a, 4, 9);
    block(p, a, false, 9);
    block(p, a, false, 10);
}

fn returned() {
    title(b"returned while blocked, and while at the upper priority");
    let p = sporadic(10, 40, 2);
    due(p, made([4, 0, 15], 1, [40, 6, 0, 0]), true, 40);
    due(p, made([4, 0, 15], 1, [40, 6, 0, 0]), false, 40);
}

// Accounts that no sound state has.
fn unsound_returned() {
    title(b"held at the budget; two due at one instant");
    let p = sporadic(10, 40, 2);
    due(p, made([8, 0, 0], 1, [40, 6, 0, 0]), true, 40);
    due(p, made([0, 0, 0], 2, [40, 3, 40, 4]), false, 40);
}

fn unsound_edges() {
    let p = sporadic(10, 40, 2);
    title(b"a wake with max_repl pending is at low");
    wake(p, made([2, 0, 15], 2, [40, 4, 41, 4]), true, 20);
    title(b"a limit with nothing charged");
    limit(p, made([0, 0, 15], 1, [40, 10, 0, 0]), false, 20);
}

// A rule that does not concern the thread leaves the account alone.
fn unconcerned_limit() {
    title(b"a limit of a blocked thread, and of a runnable one");
    let p = sporadic(10, 40, 2);
    limit(p, made([0, 10, 0], 0, [0, 0, 0, 0]), true, 20);
    limit(p, made([0, 10, 0], 0, [0, 0, 0, 0]), false, 20);
}

fn unconcerned_block() {
    title(b"a block of a blocked thread, and of a runnable one");
    let p = sporadic(10, 40, 2);
    block(p, made([6, 4, 0], 0, [0, 0, 0, 0]), true, 20);
    block(p, made([6, 4, 0], 0, [0, 0, 0, 0]), false, 20);
}

fn unconcerned_wake() {
    title(b"a wake of a runnable thread, at upper and at low, and of a blocked one");
    let p = sporadic(10, 40, 2);
    wake(p, made([4, 0, 15], 1, [40, 6, 0, 0]), false, 20);
    wake(p, made([2, 0, 15], 2, [40, 4, 41, 4]), false, 20);
    wake(p, made([4, 0, 15], 1, [40, 6, 0, 0]), true, 20);
}

// Whether the account is sound, by a budget of 10 and a period of 40, from `start` on and at the time `now`.
fn check(max_repl: u8, blocked: bool, start: u64, now: u64, a: Account) {
    if account_sound::sound(sporadic(10, 40, max_repl), a, blocked, start, now) {
        text(b"sound ");
    } else {
        text(b"unsound ");
    }
}

// Pairs on the two sides of each clause of soundness, a function for each clause.
fn sum_sound() {
    title(b"sum is the budget");
    check(2, false, 0, 15, made([4, 0, 15], 1, [40, 6, 0, 0]));
    check(2, false, 0, 15, made([5, 0, 15], 1, [40, 6, 0, 0]));
    check(2, false, 0, 15, made([3, 0, 15], 1, [40, 6, 0, 0]));
    check(
        2,
        false,
        0,
        30,
        made([18446744073709551615, 11, 15], 0, [0, 0, 0, 0]),
    );
    check(
        2,
        false,
        0,
        30,
        made([10, 18446744073709551615, 15], 0, [0, 0, 0, 0]),
    );
    end_line();
}

fn used_sound() {
    title(b"U of a blocked or low thread is 0");
    check(2, false, 0, 17, made([2, 2, 15], 1, [40, 6, 0, 0]));
    check(2, true, 0, 17, made([2, 2, 15], 1, [40, 6, 0, 0]));
    check(2, false, 0, 17, made([1, 1, 15], 2, [40, 6, 41, 2]));
    check(2, false, 0, 17, made([0, 2, 15], 1, [40, 8, 0, 0]));
    end_line();
}

fn elapsed_sound() {
    title(b"U is at most now - activation");
    check(2, false, 0, 16, made([2, 2, 15], 1, [40, 6, 0, 0]));
    check(
        2,
        false,
        0,
        17,
        made([2, 2, 18446744073709551615], 1, [40, 6, 0, 0]),
    );
    end_line();
}

fn activation_sound() {
    title(b"activation from start to now");
    check(2, false, 15, 15, made([4, 0, 15], 1, [40, 6, 0, 0]));
    check(2, false, 16, 16, made([4, 0, 15], 1, [40, 6, 0, 0]));
    check(2, false, 0, 14, made([4, 0, 15], 1, [40, 6, 0, 0]));
    end_line();
}

fn dues_after_now() {
    title(b"dues after now");
    check(2, true, 0, 39, made([4, 0, 15], 1, [40, 6, 0, 0]));
    check(2, true, 0, 40, made([4, 0, 15], 1, [40, 6, 0, 0]));
    end_line();
}

fn dues_in_the_window() {
    title(
        b"dues at most 1,000,000,000 ticks after now, past now + period and past activation + period too",
    );
    check(2, true, 0, 15, made([4, 0, 10], 1, [55, 6, 0, 0]));
    check(2, false, 0, 15, made([4, 0, 10], 1, [50, 6, 0, 0]));
    check(2, true, 0, 15, made([4, 0, 10], 1, [1000000015, 6, 0, 0]));
    check(2, true, 0, 15, made([4, 0, 10], 1, [1000000016, 6, 0, 0]));
    check(
        2,
        true,
        0,
        15,
        made([4, 0, 10], 1, [18446744073709551615, 6, 0, 0]),
    );
    end_line();
}

fn dues_in_order() {
    title(b"dues don't fall");
    check(2, true, 0, 20, made([2, 0, 15], 2, [40, 4, 41, 4]));
    check(2, true, 0, 20, made([2, 0, 15], 2, [40, 4, 40, 4]));
    check(2, true, 0, 20, made([2, 0, 15], 2, [41, 4, 40, 4]));
    end_line();
}

fn amounts_sound() {
    title(b"amounts at least 1");
    check(2, true, 0, 20, made([4, 0, 15], 2, [40, 6, 41, 0]));
    end_line();
}

fn count_sound() {
    title(b"count at most max_repl, and at most the places");
    check(1, true, 0, 20, made([2, 0, 15], 2, [40, 4, 41, 4]));
    check(255, true, 0, 20, made([2, 0, 15], 9, [40, 4, 41, 4]));
    check(255, true, 0, 20, made([2, 0, 15], 255, [40, 4, 41, 4]));
    end_line();
}

fn places_sound() {
    title(b"places past the count hold 0");
    check(2, false, 0, 15, made([4, 0, 15], 1, [40, 6, 7, 0]));
    check(2, false, 0, 15, made([4, 0, 15], 1, [40, 6, 0, 7]));
    check(2, false, 0, 15, made([10, 0, 15], 0, [1, 0, 0, 0]));
    end_line();
}

fn main() {
    replay();
    one_pending();
    budget_is_period();
    preempted();
    wake_and_block();
    at_once();
    returned();
    unsound_returned();
    unsound_edges();
    unconcerned_limit();
    unconcerned_block();
    unconcerned_wake();
    sum_sound();
    used_sound();
    elapsed_sound();
    activation_sound();
    dues_after_now();
    dues_in_the_window();
    dues_in_order();
    amounts_sound();
    count_sound();
    places_sound();
}
