// What the calls answer, once for the code: what became of an accepted record, or why a call is refused. A host in C gets the number.
#![tactic(auto)]

ghost use Rattle.std.specs.Prelude.{◌≡◌};
ghost use Rattle.answers.specs.Numbers.{refusal_number, verdict_number, answer_number};

// Why a call is refused. Opening gives BadOpening, the question Unfit or NoClass, the step all but BadOpening, OtherClasses, BenchClosed and BadPiece, the
// joiner Unfit to BenchClosed, the balance BadPiece.
#[derive(Clone, Copy, Debug, PartialEq, Eq)]
pub enum Refusal {
    BadOpening = 2,
    Malformed = 3,
    NoClass = 4,
    NotHeld = 5,
    NoTransition = 6,
    StillHeld = 7,
    TooDeep = 8,
    CountFull = 9,
    Closed = 10,
    Unfit = 11,
    OtherClasses = 12,
    BenchClosed = 13,
    BadPiece = 14,
    WrongSort = 15,
    InProgress = 16,
    NotInProgress = 17,
    ListFull = 18,
    HistoryFull = 19,
}

// What becomes of an accepted record, or of two benches that are joined.
#[derive(Clone, Copy, Debug, PartialEq, Eq)]
pub enum Verdict {
    Clean = 0,
    Fault = 1,
}

impl Refusal {
    pub fn number(self) -> u8
        ensures { result ≡ refusal_number self }
    {
        self as u8
    }
}

impl Verdict {
    pub fn number(self) -> u8
        ensures { result ≡ verdict_number self }
    {
        self as u8
    }
}

// The number of the step's and the joiner's answer.
pub fn answer_number(answer: Result<Verdict, Refusal>) -> u8
    ensures { result ≡ answer_number answer }
{
    match answer {
        Ok(verdict) => verdict.number(),
        Err(refusal) => refusal.number(),
    }
}
