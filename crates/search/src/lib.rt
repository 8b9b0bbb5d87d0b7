// Search of a dependency graph that is given as successor words: bit t of rows[4 * c + kind] is a dependency from class c to class t,
// where the kinds ER, EN, SR, SN are 0, 1, 2, 3.
#![tactic(auto)]

ghost use Rattle.std.specs.Prelude.{◌≡◌, ◌+◌, ◌-◌, ◌*◌, ◌<◌, ◌≤◌, IsTrue, ◌↔◌, MatchOption};
ghost use Rattle.rules.specs.HeldLocks.{R, N};
ghost use Rattle.search.specs.Rows.{Ranged, Reached};
ghost use Rattle.search.specs.Arrivals.{none, word_by, In, Put, Next, size};
ghost use Rattle.search.specs.Letters.{first_letter, second_letter, Joined, Less, Successors, HasNone, Taken};
ghost use Rattle.search.specs.Walk.{Settled, Meets, Given, Visited, Decided, words_of};

use words::{both, lowest, with, without};

// The first letter of a dependency: E from an exclusive holder, S from a shared one. Its number is the place of its kinds.
#[derive(Clone, Copy)]
pub enum FirstLetter {
    E = 0,
    S = 2,
}

// The second letter: R to a recursive reader who waits, N to anyone else.
#[derive(Clone, Copy)]
pub enum SecondLetter {
    R,
    N,
}

// A set of arrivals: the classes arrived at by a dependency whose second letter is R, and those by N.
#[derive(Clone, Copy)]
pub struct Arrivals {
    pub r: u64,
    pub n: u64,
}

impl Arrivals {
    pub const NONE: Arrivals = Arrivals { r: 0, n: 0 };

    // The classes arrived at by the letter.
    pub fn by(self, letter: SecondLetter) -> u64
        ensures { result ≡ word_by self (second_letter letter) }
    {
        match letter {
            SecondLetter::R => self.r,
            SecondLetter::N => self.n,
        }
    }

    // The set with class put in under the letter.
    // Kept: a class is a number with its clause, as words::with and the loops to k have it; a type of class and letter would be made anew at each call.
    pub fn with(self, class: u32, letter: SecondLetter) -> Arrivals
        requires { class < 64 }
        ensures { Put class (second_letter letter) self result }
    {
        match letter {
            SecondLetter::R => Arrivals {
                r: with(self.r, class),
                n: self.n,
            },
            SecondLetter::N => Arrivals {
                r: self.r,
                n: with(self.n, class),
            },
        }
    }

    pub fn union(self, other: Arrivals) -> Arrivals
        ensures { Joined self other result }
    {
        Arrivals {
            r: self.r | other.r,
            n: self.n | other.n,
        }
    }

    fn without(self, other: Arrivals) -> Arrivals
        ensures { Less self other result }
    {
        Arrivals {
            r: without(self.r, other.r),
            n: without(self.n, other.n),
        }
    }

    // Whether an arrival is in both sets.
    pub fn meets(self, other: Arrivals) -> bool
        ensures { Meets self other result }
    {
        both(self.r, other.r) != 0 || both(self.n, other.n) != 0
    }

    pub fn contains(self, class: u32, letter: SecondLetter) -> bool
        requires { class < 64 }
        ensures { IsTrue result ↔ In self class (second_letter letter) }
    {
        (self.by(letter) >> class) % 2 == 1
    }

    pub fn is_empty(self) -> bool
        ensures { IsTrue result ↔ HasNone self }
    {
        self.r == 0 && self.n == 0
    }

    // An arrival of the set: the lowest class of those by N, or else of those by R.
    fn first(self) -> Option<(u32, SecondLetter)>
        ensures { MatchOption result (HasNone self) (λ a. Taken self a.0 (second_letter a.1)) }
    {
        if self.n != 0 {
            Some((lowest(self.n), SecondLetter::N))
        } else if self.r != 0 {
            Some((lowest(self.r), SecondLetter::R))
        } else {
            None
        }
    }
}

// The arrivals to which a dependency with the first letter goes from class.
pub fn successors(rows: &[u64; 256], class: u32, first: FirstLetter) -> Arrivals
    requires { class < 64 }
    ensures { Successors rows.now class (first_letter first) result }
{
    let i = 4 * class as usize + first as usize;
    Arrivals {
        r: rows[i],
        n: rows[i + 1],
    }
}

// The arrivals that follow class, arrived at by the letter: after R only a dependency whose first letter is E goes on, after N every one.
fn after(rows: &[u64; 256], class: u32, letter: SecondLetter) -> Arrivals
    requires { class < 64 }
    ensures { Next rows.now class (second_letter letter) result }
{
    let by_e = successors(rows, class, FirstLetter::E);
    match letter {
        SecondLetter::R => by_e,
        SecondLetter::N => by_e.union(successors(rows, class, FirstLetter::S)),
    }
}

// ---- The walk: is there a closed strong path?

// Whether a strong path goes on from class, arrived at by R, to an arrival on the path to here. done: the arrivals whose strong paths all end.
// Kept: that two functions call one another, one for each letter of the arrival, is the form that the project has for the walk (docs/DECISIONS.md, 34).
#[cycle(walk)]
fn arrived_by_r(rows: &[u64; 256], class: u32, on: Arrivals, done: &mut Arrivals) -> bool
    requires { Given rows.now class R on (words_of done.old) (128 - size on) }
    ensures { Visited rows.now class R on (words_of done.old) result (words_of done.new) }
{
    let here = on.with(class, SecondLetter::R);
    if after(rows, class, SecondLetter::R).meets(here) {
        return true;
    }
    while let Some((next, by)) = after(rows, class, SecondLetter::R).without(*done).first() {
        match by {
            SecondLetter::R => {
                if arrived_by_r(rows, next, here, done) {
                    return true;
                }
            }
            SecondLetter::N => {
                if arrived_by_n(rows, next, here, done) {
                    return true;
                }
            }
        }
    }
    *done = done.with(class, SecondLetter::R);
    false
}

// The same from class, arrived at by N. What ends after N ends after R too.
#[cycle(walk)]
fn arrived_by_n(rows: &[u64; 256], class: u32, on: Arrivals, done: &mut Arrivals) -> bool
    requires { Given rows.now class N on (words_of done.old) (128 - size on) }
    ensures { Visited rows.now class N on (words_of done.old) result (words_of done.new) }
{
    let here = on.with(class, SecondLetter::N);
    if after(rows, class, SecondLetter::N).meets(here) {
        return true;
    }
    while let Some((next, by)) = after(rows, class, SecondLetter::N).without(*done).first() {
        match by {
            SecondLetter::R => {
                if arrived_by_r(rows, next, here, done) {
                    return true;
                }
            }
            SecondLetter::N => {
                if arrived_by_n(rows, next, here, done) {
                    return true;
                }
            }
        }
    }
    *done = done
        .with(class, SecondLetter::R)
        .with(class, SecondLetter::N);
    false
}

// Whether a closed strong path is met from class. Classes that are done are not visited again.
fn met_from(rows: &[u64; 256], class: u32, done: &mut Arrivals) -> bool
    requires { (class < 64) × Settled rows.now (words_of done.old) }
    ensures { Visited rows.now class N none (words_of done.old) result (words_of done.new) }
{
    !done.contains(class, SecondLetter::N) && arrived_by_n(rows, class, Arrivals::NONE, done)
}

// Whether there is a closed strong path.
pub fn is_cyclic(rows: &[u64; 256], k: u32) -> bool
    requires { k ≤ 64 }
    ensures { Decided k rows.now result }
{
    let mut done = Arrivals::NONE;
    for class in 0..k {
        if met_from(rows, class, &mut done) {
            return true;
        }
    }
    false
}

// ---- The question.

// The classes that a strong path from class reaches.
pub fn reach(rows: &[u64; 256], k: u32, class: u32) -> u64
    requires { Ranged k rows.now × (class < k) }
    ensures { Reached k rows.now class result }
{
    let mut reached = after(rows, class, SecondLetter::N);
    let mut expanded = Arrivals::NONE;
    while let Some((next, by)) = reached.without(expanded).first() {
        expanded = expanded.with(next, by);
        reached = reached.union(after(rows, next, by));
    }
    reached.r | reached.n
}
