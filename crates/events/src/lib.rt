// Opening, events and their answers as definitions, with what is proved of them. What they share with the code: the kinds and one struct; no
// function.
#![tactic(auto)]

use account::Account;
use thread::Thread;

// The kinds of events. Bytes and no enum: C and a file hand in any byte, and one that is no kind is refused.
pub const CLOCK: u8 = 0;

pub const BLOCK: u8 = 1;

pub const YIELD: u8 = 2;

pub const WAKE: u8 = 3;

pub const SET: u8 = 4;

// What an event does to the thread that it concerns: the thread and its account as they then are, the list that it leaves and
// the one whose tail it becomes, 0 for none.
#[derive(Clone, Copy)]
pub struct Change {
    pub thread: Thread,
    pub account: Account,
    pub from: u8,
    pub to: u8,
}
