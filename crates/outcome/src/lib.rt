// What comes of a log, and where it is told.
#![tactic(auto)]

ghost use Rattle.std.specs.Prelude.{◌≡◌};
ghost use Rattle.outcome.specs.Outcomes.{outcome_of, is_answer};

use answers::Verdict;

// The answers that are no refusal, by their numbers.
// Kept: the feed's answer is a byte (see `Progress`), and `outcome_of` promises what comes of any.
const CLEAN: u8 = Verdict::Clean as u8;

const FAULT: u8 = Verdict::Fault as u8;

// What came of a log.
#[derive(Clone, Copy)]
pub enum Outcome {
    // So many records, each accepted and clean.
    Clean(u64),
    // The number of the refusal, and the record: 0 is the header.
    Refused(u8, u64),
    Fault(u64),
    // A read failed, or the log was not ended when the turns were used up.
    Unread,
}

// What the answer at the end of a log, or the first answer but 0, and the number with it say.
pub fn outcome_of(answer: u8, number: u64) -> Outcome
    ensures { result ≡ outcome_of answer number }
{
    match answer {
        CLEAN => Outcome::Clean(number),
        FAULT => Outcome::Fault(number),
        _ => Outcome::Refused(answer, number),
    }
}

// Whether the text is an answer, for standard output, or a complaint, for standard error.
pub fn is_answer(outcome: Outcome) -> bool
    ensures { result ≡ is_answer outcome }
{
    !matches!(outcome, Outcome::Unread)
}
