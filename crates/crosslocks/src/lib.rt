// The crosslocks of a desk: which classes are declared, and which of them are in progress.
#![tactic(auto)]

ghost use Rattle.std.specs.Prelude.{◌≡◌, ◌<◌, ◌≤◌, leb, length};
ghost use Rattle.rules.specs.Limits.{max_classes, max_in_progress, max_kept};
ghost use Rattle.rules.specs.Crosslocks.{size_of, is_idle};
ghost use Rattle.layout.specs.Layout.{member_of, desk_size, declared_of, progress_of, kept_of};
ghost use Rattle.crosslocks.specs.Progress.{Entered, Ended};

use layout::{DECLARED_AT, KEPT_AT, MAX_IN_PROGRESS, MAX_KEPT, NUMBER_SIZE, PROGRESS_AT, SINCE_AT};
use numbers::{number_at, put_number, put_word, word_at};
use words::{count, with, without};

// A class is in a set.
fn has(word: u64, class: u32) -> bool
    requires { class < max_classes }
    ensures { result ≡ member_of word class }
{
    (word >> class) % 2 == 1
}

// Kept: two names over `has`, each one call of it. One function would take the set's place or an enum, and be no shorter.
pub fn is_declared(desk: &[u8], class: u8) -> bool
    requires { (desk_size ≤ length desk.now) × (class < max_classes) }
    ensures { result ≡ member_of (declared_of desk.now) class }
{
    has(word_at(desk, DECLARED_AT), class as u32)
}

pub fn is_in_progress(desk: &[u8], class: u8) -> bool
    requires { (desk_size ≤ length desk.now) × (class < max_classes) }
    ensures { result ≡ member_of (progress_of desk.now) class }
{
    has(word_at(desk, PROGRESS_AT), class as u32)
}

// How many are in progress.
fn in_progress(desk: &[u8]) -> u32
    requires { desk_size ≤ length desk.now }
    ensures { result ≡ size_of (member_of (progress_of desk.now)) }
{
    count(word_at(desk, PROGRESS_AT))
}

// None is in progress.
pub fn is_idle(desk: &[u8]) -> bool
    requires { desk_size ≤ length desk.now }
    ensures { result ≡ is_idle (member_of (progress_of desk.now)) }
{
    in_progress(desk) == 0
}

// No crosslock more can be in progress.
pub fn is_list_full(desk: &[u8]) -> bool
    requires { desk_size ≤ length desk.now }
    ensures { result ≡ leb max_in_progress (size_of (member_of (progress_of desk.now))) }
{
    MAX_IN_PROGRESS <= in_progress(desk)
}

// The history can keep no acquire more.
pub fn is_history_full(desk: &[u8]) -> bool
    requires { desk_size ≤ length desk.now }
    ensures { result ≡ leb max_kept (kept_of desk.now) }
{
    MAX_KEPT <= number_at(desk, KEPT_AT) as usize
}

// A crosslock is acquired: it is in progress, since what is kept now.
pub fn enter(desk: &mut [u8], class: u8)
    requires { (desk_size ≤ length desk.old) × (class < max_classes) }
    ensures { Entered desk.old class desk.new }
{
    let word = word_at(desk, PROGRESS_AT);
    put_word(desk, PROGRESS_AT, with(word, class as u32));
    let kept = number_at(desk, KEPT_AT);
    put_number(desk, SINCE_AT + NUMBER_SIZE * (class as usize), kept);
}

// A crosslock is released: it is no longer in progress, and if none is, nothing is kept.
pub fn end(desk: &mut [u8], class: u8)
    requires { (desk_size ≤ length desk.old) × (class < max_classes) }
    ensures { Ended desk.old class desk.new }
{
    let word = word_at(desk, PROGRESS_AT);
    put_word(desk, PROGRESS_AT, without(word, with(0, class as u32)));
    if is_idle(desk) {
        put_number(desk, KEPT_AT, 0);
    }
}
