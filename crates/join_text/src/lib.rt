// Document 02, i: the text of a join of two logs.
#![tactic(auto)]

ghost use Rattle.std.specs.Prelude.{◌≡◌, ◌++◌, ◌+◌, ◌≤◌, length};
ghost use Rattle.rules.specs.Limits.{max_classes};
ghost use Rattle.layout.specs.Layout.{slip_size, count_of};
ghost use Rattle.layout.specs.Slip.{entries_of};
ghost use Rattle.answers.specs.Numbers.{answer_number};
ghost use Rattle.benches.specs.Benches.{bench};
ghost use Rattle.log_text.specs.Text.{cycle_text, line_size, cycle_size, Appended, Showable};
ghost use Rattle.join_text.specs.JoinText.{fault_line, joined_text, is_clean, own_text, JoinTold};

use answers::{Refusal, Verdict};
use joiner::join;
use log_text::Text;
use outcome::Outcome;

// "fault", and the cycle of the slip.
fn put_fault(text: &mut Text<'_>, slip: &[u8])
    requires { (text.old.end + (line_size + cycle_size) ≤ length text.old.out.now) × (count_of slip.now ≤ max_classes) × (slip_size max_classes ≤ length slip.now) }
    ensures same { text.new.out.ghost_name ≡ text.old.out.ghost_name }
    ensures put { Appended text.old.out.now text.old.end (fault_line ++ cycle_text (entries_of slip.now)) text.new.out.now text.new.end }
{
    text.put_word(b"fault\n");
    text.put_cycle(slip);
}

// What the joiner's answer says.
fn put_joined(text: &mut Text<'_>, answer: Result<Verdict, Refusal>, slip: &[u8])
    requires { (text.old.end + (line_size + cycle_size) ≤ length text.old.out.now) × (answer_number answer ≡ 1 → count_of slip.now ≤ max_classes) × (slip_size max_classes ≤ length slip.now) }
    ensures same { text.new.out.ghost_name ≡ text.old.out.ghost_name }
    ensures put { Appended text.old.out.now text.old.end (joined_text (answer_number answer) slip.now) text.new.out.now text.new.end }
{
    match answer {
        Ok(Verdict::Clean) => text.put_word(b"clean\n"),
        Ok(Verdict::Fault) => put_fault(text, slip),
        Err(refusal) => text.put_refusal(refusal.number()),
    }
}

// Joins two benches, and makes the text of what came of it.
pub fn tell_join(
    desk1: &[u8],
    sheet1: &[u8],
    seen1: &[u8],
    desk2: &[u8],
    sheet2: &[u8],
    seen2: &[u8],
    desk: &mut [u8],
    sheet: &mut [u8],
    seen: &mut [u8],
    slip: &mut [u8],
    out: &mut [u8],
) -> usize
    requires { (line_size + cycle_size ≤ length out.old) × (slip_size max_classes ≤ length slip.old) }
    ensures { JoinTold (bench desk1.now sheet1.now seen1.now) (bench desk2.now sheet2.now seen2.now) desk.old sheet.old seen.old slip.old out.old desk.new sheet.new seen.new slip.new out.new result }
{
    let answer = join(
        desk1, sheet1, seen1, desk2, sheet2, seen2, desk, sheet, seen, slip,
    );
    let mut text = Text { out, end: 0 };
    put_joined(&mut text, answer, slip);
    text.end
}

// Whether each record was accepted and clean, up to the end of the log.
pub fn is_clean(outcome: Outcome) -> bool
    ensures { result ≡ is_clean outcome }
{
    matches!(outcome, Outcome::Clean(_))
}

// What a log says by itself where it is not clean, behind its name.
fn put_named(text: &mut Text<'_>, name: &[u8], outcome: Outcome, slip: &[u8])
    requires { (text.old.end + (length name.now + (line_size + cycle_size)) ≤ length text.old.out.now) × (slip_size max_classes ≤ length slip.now) × Showable outcome slip.now }
    ensures same { text.new.out.ghost_name ≡ text.old.out.ghost_name }
    ensures put { Appended text.old.out.now text.old.end (own_text name.now outcome slip.now) text.new.out.now text.new.end }
{
    if is_clean(outcome) {
        return;
    }
    text.put_word(name);
    text.put_outcome(outcome, slip);
}

// The text of that.
pub fn put_own(out: &mut [u8], name: &[u8], outcome: Outcome, slip: &[u8]) -> usize
    requires { (length name.now + (line_size + cycle_size) ≤ length out.old) × (slip_size max_classes ≤ length slip.now) × Showable outcome slip.now }
    ensures { Appended out.old 0 (own_text name.now outcome slip.now) out.new result }
{
    let mut text = Text { out, end: 0 };
    put_named(&mut text, name, outcome, slip);
    text.end
}
