// The executive's state, by value. When it is sound is defined here; `state_sound` tests it.
#![tactic(auto)]

use ready::LIST_BYTES;
use records::{Header, THREADS};
use rows::SLOTS;
use thread::Thread;

// The pending replenishments of thread i are counts[i] and its slots of dues and amounts (crate `rows`).
// The lists of the priorities are the array of the crate `ready`. Every definition speaks of this record; in code it is a
// `Core` by value and the two arrays of slots, lent.
#[repr(C)]
#[derive(Clone, Copy, PartialEq, Eq)]
pub struct State {
    pub header: Header,
    pub now: u64,
    pub idle: u64,
    pub word: u32,
    pub threads: [Thread; THREADS],
    pub counts: [u8; THREADS],
    pub dues: [u64; SLOTS],
    pub amounts: [u64; SLOTS],
    pub lists: [u8; LIST_BYTES],
}

// A state without its slots.
#[repr(C)]
#[derive(Clone, Copy)]
pub struct Core {
    pub header: Header,
    pub now: u64,
    pub idle: u64,
    pub word: u32,
    pub threads: [Thread; THREADS],
    pub counts: [u8; THREADS],
    pub lists: [u8; LIST_BYTES],
}
