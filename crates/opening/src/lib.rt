// Opening: whether a table may be opened, the state that its threads give, and the answer.
#![tactic(auto)]

ghost use Rattle.std.specs.Prelude.{◌≡◌, true, false, cond, ◌&&◌, ◌<◌, ◌≤◌, leb, eqb, get_or, replicate};
ghost use Rattle.base.specs.Status.{as_status};
ghost use Rattle.base.specs.Tests.{below};
ghost use Rattle.records.specs.Ranges.{most_threads, most_replenishments, in_range, no_parameters};
ghost use Rattle.rows.specs.Rows.{all_slots};
ghost use Rattle.ready.specs.Word.{occupancy};
ghost use Rattle.ready.specs.Rules.{Joinable};
ghost use Rattle.state.specs.Sound.{sound_state};
ghost use Rattle.state.specs.Updates.{whole};
ghost use Rattle.events.specs.Opening.{empty_state, without_flag, entered, entered_below, open_status, opening};
ghost use Rattle.answers.specs.Answer.{answer_of, answered};

use account::ENTRIES;
use answers::Answer;
use base::Refusal;
use records::{Header, LAST_TIME, Parameters, THREADS};
use rows::Slots;
use sporadic::Server;
use state::Core;
use thread::Thread;

// A state of N threads in which none of them is there yet.
fn empty_core(header: Header) -> Core
    ensures { whole result (replicate all_slots 0) (replicate all_slots 0) ≡ empty_state header }
{
    let none = Thread {
        parameters: Parameters {
            policy: 0,
            priority: 0,
            low: 0,
            max_repl: 0,
            flag: 0,
            budget: 0,
            period: 0,
        },
        blocked: 0,
        total: 0,
        left: 0,
        server: Server {
            capacity: 0,
            used: 0,
            activation: 0,
        },
    };
    Core {
        header,
        now: header.start,
        idle: 0,
        word: 0,
        threads: [none; THREADS],
        counts: [0u8; THREADS],
        lists: ready::empty(),
    }
}

// The parameters as a state keeps them: the start flag is spent.
fn without_flag(p: Parameters) -> Parameters
    ensures { result ≡ without_flag p }
{
    Parameters { flag: 0, ..p }
}

// Whether a thread may be opened with these parameters.
fn may_open(p: Parameters) -> bool
    ensures { result ≡ (in_range most_replenishments p && leb p.flag 1) }
{
    records::in_range(p, ENTRIES as u8) && p.flag <= 1
}

// Whether the first n threads of the table may be opened.
fn table_holds(n: usize, table: [Parameters; THREADS]) -> bool
    requires { n ≤ most_threads }
    ensures { result ≡ below n (λ i. in_range most_replenishments (get_or table i no_parameters) && leb (get_or table i no_parameters).flag 1) }
{
    for p in &table[..n] {
        if !may_open(*p) {
            return false;
        }
    }
    true
}

// Whether an opening is accepted; it is refused with 5, 3 or 6.
fn open_status(header: Header, table: [Parameters; THREADS]) -> Result<(), Refusal>
    ensures { as_status result ≡ open_status header table }
{
    if header.n < 1 || (THREADS as u32) < header.n {
        return Err(Refusal::WrongThread);
    }
    if LAST_TIME < header.start {
        return Err(Refusal::PastLastTime);
    }
    if !table_holds(header.n as usize, table) {
        return Err(Refusal::WrongParameters);
    }
    Ok(())
}

// A thread opened without the start flag is blocked.
fn starts_blocked(flag: u32) -> u8
    ensures { result ≡ cond (eqb flag 0) 1 0 }
{
    u8::from(flag == 0)
}

// Thread k enters with its parameters; with the start flag it becomes the tail of its list.
fn enter(c: Core, dues: &mut Slots, amounts: &mut Slots, k: u8, p: Parameters) -> Core
    requires { (k < most_threads) × (c.word ≡ occupancy c.lists)
        × (eqb p.flag 0 ≡ false → Joinable c.word p.priority c.lists) }
    ensures { whole result dues.new amounts.new ≡ entered k p (whole c dues.old amounts.old) }
{
    let i = usize::from(k);
    let q = without_flag(p);
    let t = thread_updates::with_blocked(c.threads[i], starts_blocked(p.flag));
    let u = thread::renew(q, t);
    let b = account_making::new_account(q, c.now);
    let mut r = c;
    let served = thread_updates::with_server(u, b.server);
    r.threads[i] = served;
    r.counts[i] = b.pending.count;
    pending_rows::write_pending(dues, amounts, i, b.pending);
    if p.flag == 0 {
        return r;
    }
    r.word = ready_tail::append(&mut r.lists, r.word, p.priority, k);
    r
}

// The first N threads of the table enter, in number order; the slots hold 0 before.
fn opened(
    header: Header,
    table: [Parameters; THREADS],
    dues: &mut Slots,
    amounts: &mut Slots,
) -> Core
    requires { (open_status header table ≡ 0) × (dues.old ≡ replicate all_slots 0) × (amounts.old ≡ replicate all_slots 0) }
    ensures { whole result dues.new amounts.new ≡ entered_below header.n table (empty_state header) }
{
    let mut s = empty_core(header);
    for k in 0..header.n as u8 {
        s = enter(s, dues, amounts, k, table[usize::from(k)]);
    }
    s
}

// The answer to an accepted opening.
fn opened_answer<'a>(c: Core, dues: &'a Slots, amounts: &'a Slots) -> Answer
    requires { sound_state (whole c dues.now amounts.now) ≡ true }
    ensures { answer_of result dues.now amounts.now ≡ answered 0 (whole c dues.now amounts.now) }
{
    let level = ready::highest(c.word);
    let h = running::head_at(&c.lists, level);
    let t = c.threads[usize::from(h)];
    let n = c.header.n as usize;
    let runs = running::running(c.word, &c.lists);
    let next = next_moment::next_moment(c.now, level, t, &c.counts, dues, n);
    answers::answer_of(0, runs, next, c)
}

// Opens a state: the first N threads of the table, at the start time. Any values may be handed in, whatever the slots held.
pub fn open(
    header: Header,
    table: [Parameters; THREADS],
    dues: &mut Slots,
    amounts: &mut Slots,
) -> Answer
    ensures { answer_of result dues.new amounts.new ≡ opening header table }
{
    rows::clear(dues);
    rows::clear(amounts);
    if let Err(refusal) = open_status(header, table) {
        let none = empty_core(Header { n: 0, start: 0 });
        return answers::nothing_runs(u8::from(refusal), none);
    }
    let c = opened(header, table, dues, amounts);
    opened_answer(c, dues, amounts)
}
