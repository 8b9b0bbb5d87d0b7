// Document 01, "Logs for the bench": the text of what came of a log.
#![tactic(auto)]

ghost use Rattle.std.specs.Prelude.{◌≡◌, ◌++◌, ◌+◌, ◌*◌, ◌<◌, ◌≤◌, length};
ghost use Rattle.rules.specs.Limits.{max_classes};
ghost use Rattle.layout.specs.Layout.{slip_size, entries_at, entry_size, count_of};
ghost use Rattle.rules.specs.Ranks.{kind_of_byte, source_of_byte};
ghost use Rattle.layout.specs.Slip.{entries_of, next_place};
ghost use Rattle.log_text.specs.Text.{digits, kind_text, source_text, cycle_text, clean_text, refused_text, refused_line, fault_text, line_size, entry_line_size, cycle_size, Appended, EntryPut, Showable, text_of};

use layout::{COUNT_AT, ENTRIES_AT, ENTRY_SIZE, MAX_CLASSES};
use outcome::Outcome;

// Room for the longest text: a line, and a line for each entry of a cycle.
pub const TEXT_SIZE: usize = 64 + 16 * MAX_CLASSES;

// A digit's character.
fn numeral(d: u64) -> u8
    requires { d < 10 }
    ensures { result ≡ 48 + d }
{
    b'0' + d as u8
}

// Where the entry after entry i of n begins in the slip.
fn next_entry(n: usize, i: usize) -> usize
    requires { (i < n) × (n ≤ max_classes) }
    ensures { result ≡ entries_at + entry_size * next_place n i }
{
    if i + 1 < n {
        return ENTRIES_AT + ENTRY_SIZE * (i + 1);
    }
    ENTRIES_AT
}

// A text in a lent buffer: it stands before `end`.
#[derive(Drop)]
pub struct Text<'a> {
    pub out: &'a mut [u8],
    pub end: usize,
}

impl Text<'_> {
    pub fn put_word(&mut self, word: &[u8])
        requires { self.old.end + length word.now ≤ length self.old.out.now }
        ensures same { self.new.out.ghost_name ≡ self.old.out.ghost_name }
        ensures put { Appended self.old.out.now self.old.end word.now self.new.out.now self.new.end }
    {
        let end = self.end + word.len();
        self.out[self.end..end].copy_from_slice(word);
        self.end = end;
    }

    // The decimal digits of a number.
    // Kept: there is no heap, and the text's bytes are promised one by one (`digits`).
    pub fn put_number(&mut self, n: u64)
        requires { self.old.end + length (digits n) ≤ length self.old.out.now }
        ensures same { self.new.out.ghost_name ≡ self.old.out.ghost_name }
        ensures put { Appended self.old.out.now self.old.end (digits n) self.new.out.now self.new.end }
    {
        if n >= 10 {
            self.put_number(n / 10);
        }
        self.out[self.end] = numeral(n % 10);
        self.end += 1;
    }

    // "clean, N records"
    fn put_clean(&mut self, records: u64)
        requires { self.old.end + line_size ≤ length self.old.out.now }
        ensures same { self.new.out.ghost_name ≡ self.old.out.ghost_name }
        ensures put { Appended self.old.out.now self.old.end (clean_text records) self.new.out.now self.new.end }
    {
        self.put_word(b"clean, ");
        self.put_number(records);
        self.put_word(b" records\n");
    }

    // "refused A at record I"
    fn put_refused(&mut self, answer: u8, number: u64)
        requires { self.old.end + line_size ≤ length self.old.out.now }
        ensures same { self.new.out.ghost_name ≡ self.old.out.ghost_name }
        ensures put { Appended self.old.out.now self.old.end (refused_text answer number) self.new.out.now self.new.end }
    {
        self.put_word(b"refused ");
        self.put_number(u64::from(answer));
        self.put_word(b" at record ");
        self.put_number(number);
        self.put_word(b"\n");
    }

    // "refused A"
    pub fn put_refusal(&mut self, answer: u8)
        requires { self.old.end + 32 ≤ length self.old.out.now }
        ensures same { self.new.out.ghost_name ≡ self.old.out.ghost_name }
        ensures put { Appended self.old.out.now self.old.end (refused_line answer) self.new.out.now self.new.end }
    {
        self.put_word(b"refused ");
        self.put_number(u64::from(answer));
        self.put_word(b"\n");
    }

    // "fault at record I"
    fn put_fault(&mut self, number: u64)
        requires { self.old.end + line_size ≤ length self.old.out.now }
        ensures same { self.new.out.ghost_name ≡ self.old.out.ghost_name }
        ensures put { Appended self.old.out.now self.old.end (fault_text number) self.new.out.now self.new.end }
    {
        self.put_word(b"fault at record ");
        self.put_number(number);
        self.put_word(b"\n");
    }

    // The kind of a dependency, between spaces.
    // Kept: kind and source are the slip's bytes, and what any byte reads as is promised (`kind_of_byte`, `source_of_byte`).
    fn put_kind(&mut self, kind: u8)
        requires { self.old.end + 4 ≤ length self.old.out.now }
        ensures same { self.new.out.ghost_name ≡ self.old.out.ghost_name }
        ensures put { Appended self.old.out.now self.old.end (kind_text (kind_of_byte kind)) self.new.out.now self.new.end }
    {
        match kind {
            1 => self.put_word(b" ER "),
            4 => self.put_word(b" SR "),
            0..=3 => self.put_word(b" EN "),
            _ => self.put_word(b" SN "),
        }
    }

    // The source of a dependency, at the end of its line.
    fn put_source(&mut self, source: u8)
        requires { self.old.end + 6 ≤ length self.old.out.now }
        ensures same { self.new.out.ghost_name ≡ self.old.out.ghost_name }
        ensures put { Appended self.old.out.now self.old.end (source_text (source_of_byte source)) self.new.out.now self.new.end }
    {
        match source {
            0 => self.put_word(b" hold\n"),
            1 => self.put_word(b" hard\n"),
            _ => self.put_word(b" soft\n"),
        }
    }

    // An entry of a cycle, as "1 EN 2 hold".
    fn put_entry(&mut self, class: u8, kind: u8, source: u8, to: u8)
        requires { self.old.end + entry_line_size ≤ length self.old.out.now }
        ensures same { self.new.out.ghost_name ≡ self.old.out.ghost_name }
        ensures put { EntryPut self.old.out.now self.old.end class kind source to self.new.out.now self.new.end }
    {
        self.put_number(u64::from(class));
        self.put_kind(kind);
        self.put_number(u64::from(to));
        self.put_source(source);
    }

    // The cycle of a slip, a line for each entry.
    pub fn put_cycle(&mut self, slip: &[u8])
        requires { (self.old.end + cycle_size ≤ length self.old.out.now) × (count_of slip.now ≤ max_classes) × (slip_size max_classes ≤ length slip.now) }
        ensures same { self.new.out.ghost_name ≡ self.old.out.ghost_name }
        ensures put { Appended self.old.out.now self.old.end (cycle_text (entries_of slip.now)) self.new.out.now self.new.end }
    {
        let n = slip[COUNT_AT] as usize;
        for i in 0..n {
            let entry = ENTRIES_AT + ENTRY_SIZE * i;
            let to = next_entry(n, i);
            self.put_entry(slip[entry], slip[entry + 1], slip[entry + 2], slip[to]);
        }
    }

    // "fault at record I", and the cycle of the slip.
    fn put_fault_cycle(&mut self, number: u64, slip: &[u8])
        requires { (self.old.end + (line_size + cycle_size) ≤ length self.old.out.now) × (count_of slip.now ≤ max_classes) × (slip_size max_classes ≤ length slip.now) }
        ensures same { self.new.out.ghost_name ≡ self.old.out.ghost_name }
        ensures put { Appended self.old.out.now self.old.end (fault_text number ++ cycle_text (entries_of slip.now)) self.new.out.now self.new.end }
    {
        self.put_fault(number);
        self.put_cycle(slip);
    }

    // What came of a log.
    pub fn put_outcome(&mut self, outcome: Outcome, slip: &[u8])
        requires { (self.old.end + (line_size + cycle_size) ≤ length self.old.out.now) × (slip_size max_classes ≤ length slip.now) × Showable outcome slip.now }
        ensures same { self.new.out.ghost_name ≡ self.old.out.ghost_name }
        ensures put { Appended self.old.out.now self.old.end (text_of outcome slip.now) self.new.out.now self.new.end }
    {
        match outcome {
            Outcome::Clean(records) => self.put_clean(records),
            Outcome::Refused(answer, number) => self.put_refused(answer, number),
            Outcome::Fault(number) => self.put_fault_cycle(number, slip),
            Outcome::Unread => self.put_word(b"read failed\n"),
        }
    }
}

// The text of what came of a log.
// Kept: the buffer and the place in it are docs/PROMISES.md's `put_text`; the work is `Text`'s.
pub fn put_text(out: &mut [u8], at: usize, outcome: Outcome, slip: &[u8]) -> usize
    requires { (at + (line_size + cycle_size) ≤ length out.old) × (slip_size max_classes ≤ length slip.now) × Showable outcome slip.now }
    ensures { Appended out.old at (text_of outcome slip.now) out.new result }
{
    let mut text = Text { out, end: at };
    text.put_outcome(outcome, slip);
    text.end
}
