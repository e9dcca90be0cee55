// Runs the stored cases over the lists and the word, and prints what each leaves. The expected output is the file stdout.
// A case is a function of its own: its title and its numbers.
#![tactic(auto)]

ghost use Rattle.std.specs.Prelude.{◌≡◌, get_or};
ghost use Rattle.ready.specs.Sound.{sound_lists};

use ready::{LIST_BYTES, ROW_BYTES};
use records::{HIGHEST_PRIORITY, THREADS};
use vector_lines::{end_line, labelled, text};

// Lists, word and the place of every thread: the priority in whose list it must stand, 0 for none.
#[derive(Clone, Copy)]
struct Case {
    lists: [u8; LIST_BYTES],
    word: u32,
    places: [u8; THREADS],
}

fn fresh() -> Case {
    Case {
        lists: ready::empty(),
        word: 0,
        places: [0u8; THREADS],
    }
}

fn is_sound(c: Case) -> bool
    ensures { result ≡ sound_lists (λ i. get_or c.places i 0) c.word c.lists }
{
    ready_sound::sound(&c.lists, c.word, c.places)
}

// Thread i, in no list, becomes the tail of list p.
fn append(c: Case, p: u8, i: u8) -> Case {
    let at = usize::from(i);
    if !is_sound(c) || THREADS <= at || c.places[at] != 0 || p < 1 || HIGHEST_PRIORITY < p {
        return c;
    }
    let mut lists = c.lists;
    let word = ready_tail::append(&mut lists, c.word, p, i);
    with_place(Case { lists, word, ..c }, at, p)
}

// Thread i leaves the list of its place.
fn remove(c: Case, i: u8) -> Case {
    let at = usize::from(i);
    if !is_sound(c) || THREADS <= at || c.places[at] == 0 {
        return c;
    }
    let mut lists = c.lists;
    let word = ready_removal::remove(&mut lists, c.word, c.places[at], i);
    with_place(Case { lists, word, ..c }, at, 0)
}

// Thread i goes from the list of its place to the tail of list p.
fn move_to_tail(c: Case, i: u8, p: u8) -> Case {
    let at = usize::from(i);
    if !is_sound(c) || THREADS <= at || c.places[at] == 0 || p < 1 || HIGHEST_PRIORITY < p {
        return c;
    }
    let mut lists = c.lists;
    let word = ready_tail::move_to_tail(&mut lists, c.word, i, c.places[at], p);
    with_place(Case { lists, word, ..c }, at, p)
}

// A word, and after a space its number.
fn told(word: &[u8], n: u64) {
    text(word);
    labelled(b" ", n);
}

// The first bytes of a row: at most n after the length.
fn show_row(row: &[u8], n: u8) {
    for x in row.iter().take(usize::from(n) + 1) {
        labelled(b" ", u64::from(*x));
    }
}

// The length byte and the thread numbers of list p, as they stand in the array; nothing for a p that is no priority.
fn show_list(lists: [u8; LIST_BYTES], p: u8) {
    if p < 1 || HIGHEST_PRIORITY < p {
        return;
    }
    let at = ready::row_start(p);
    let n = lists[at];
    told(b" list", u64::from(p));
    text(b":");
    show_row(&lists[at..at + ROW_BYTES], n);
}

// The head of the highest list.
fn show_head(c: Case) {
    let p = ready::highest(c.word);
    told(b" highest", u64::from(p));
    if c.word == 0 || !is_sound(c) {
        return;
    }
    told(b" head", u64::from(ready::head(&c.lists, p)));
}

// A line: the case's name, whether it is sound, the word, the highest list with its head, and the lists p and q.
fn show(name: &[u8], c: Case, p: u8, q: u8) {
    text(name);
    told(b": sound", u64::from(is_sound(c)));
    told(b" word", u64::from(c.word));
    show_head(c);
    show_list(c.lists, p);
    show_list(c.lists, q);
    end_line();
}

// The case with another byte in its array.
fn with_byte(c: Case, at: usize, x: u8) -> Case {
    let mut d = c;
    if at < LIST_BYTES {
        d.lists[at] = x;
    }
    d
}

fn with_word(c: Case, word: u32) -> Case {
    Case { word, ..c }
}

fn with_place(c: Case, i: usize, p: u8) -> Case {
    let mut d = c;
    if i < THREADS {
        d.places[i] = p;
    }
    d
}

// Threads 4, 5, 6 and 7 in list 3, in this order, and 8 in list 9.
fn five() -> Case {
    let a = append(append(fresh(), 3, 4), 3, 5);
    let b = append(append(a, 3, 6), 3, 7);
    append(b, 9, 8)
}

// Every thread in list 17, in number order.
fn full() -> Case {
    let mut c = fresh();
    for i in 0..32 {
        c = append(c, 17, i);
    }
    c
}

fn appends() {
    show(b"empty", fresh(), 1, 32);
    show(b"first of list 1", append(fresh(), 1, 0), 1, 2);
    show(b"first of list 32", append(fresh(), 32, 31), 32, 31);
    show(
        b"one in list 1 and one in list 32",
        append(append(fresh(), 32, 31), 1, 0),
        1,
        32,
    );
    show(b"five", five(), 3, 9);
}

fn full_list() {
    let c = full();
    show(b"all in list 17", c, 17, 18);
    show(
        b"all in list 17, its head to its tail",
        move_to_tail(c, 0, 17),
        17,
        18,
    );
    show(
        b"all in list 17, one to list 18",
        move_to_tail(c, 30, 18),
        17,
        18,
    );
}

// `five` after one thread left, or went to the tail of a list, or with one byte, place or word changed.
fn show_removed(name: &[u8], i: u8) {
    show(name, remove(five(), i), 3, 9);
}

fn show_moved(name: &[u8], i: u8, p: u8, q: u8) {
    show(name, move_to_tail(five(), i, p), 3, q);
}

fn show_byte(name: &[u8], at: usize, x: u8, p: u8) {
    show(name, with_byte(five(), at, x), p, 0);
}

fn show_place(name: &[u8], i: usize, p: u8) {
    show(name, with_place(five(), i, p), 3, 9);
}

fn show_word(name: &[u8], word: u32) {
    show(name, with_word(five(), word), 3, 9);
}

fn removals() {
    show_removed(b"head leaves", 4);
    show_removed(b"middle leaves", 6);
    show_removed(b"tail leaves", 7);
    show_removed(b"only one leaves", 8);
}

fn last_removals() {
    let rest = remove(remove(remove(five(), 4), 5), 7);
    let none = remove(rest, 6);
    show(b"last one leaves", none, 3, 9);
    show(b"both lists emptied", remove(none, 8), 3, 9);
}

fn moves_within() {
    show_moved(b"head to the tail of its list", 4, 3, 9);
    show_moved(b"middle to the tail of its list", 5, 3, 9);
    show_moved(b"tail to the tail of its list", 7, 3, 9);
    show_moved(b"only one to the tail of its list", 8, 9, 9);
}

fn moves_between() {
    show_moved(b"to another list", 5, 9, 9);
    show_moved(b"only one to another list", 8, 3, 9);
    show_moved(b"to an empty list", 6, 32, 32);
}

// The row of list 3 starts at byte 66.
fn bad_lengths() {
    show_byte(b"length 33", 66, 33, 9);
    show_byte(b"length 255", 66, 255, 9);
    show_byte(b"length one too many", 66, 5, 3);
    show_byte(b"length one too few", 66, 3, 3);
}

fn bad_threads() {
    show_byte(b"number 32", 68, 32, 3);
    show_byte(b"number 255", 68, 255, 3);
    show_byte(b"a thread twice in its list", 68, 4, 3);
}

fn bad_places() {
    show_place(b"a thread in the wrong list", 5, 9);
    show_place(b"a thread that must stand in none", 5, 0);
    show_place(b"a thread missing", 9, 3);
    show_place(b"place 33", 9, 33);
}

fn bad_zeros() {
    show_byte(b"not 0 just past the length", 71, 1, 3);
    show_byte(b"not 0 in a row's last place", 98, 1, 3);
    show_byte(b"not 0 in the last place of all", 1055, 1, 3);
}

// The word of `five` is 4 + 256.
fn bad_words() {
    show_word(b"a bit too many", 261);
    show_word(b"a bit too few", 4);
    show_word(b"no bit", 0);
}

fn main() {
    appends();
    full_list();
    removals();
    last_removals();
    moves_within();
    moves_between();
    bad_lengths();
    bad_threads();
    bad_places();
    bad_zeros();
    bad_words();
}
