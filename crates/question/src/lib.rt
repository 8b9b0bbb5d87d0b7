// The question: which lock classes end a strong path from one.
#![tactic(auto)]

ghost use Rattle.question.specs.Question.{Asked};
ghost use Rattle.answers.specs.Numbers.{refused_number};
ghost use Rattle.question.specs.Answer.{word_of, count_of};

use answers::Refusal;
use fit::fits;
use layout::CLASSES_AT;
use search::reach;
use successors::{ROWS, put_successors};
use words::count;

// The classes, one bit for each, and how many.
#[derive(Clone, Copy)]
pub struct Reach {
    pub word: u64,
    pub count: u32,
}

// Which classes end a strong path of one or more dependencies from a class.
pub fn ask(desk: &[u8], sheet: &[u8], seen: &[u8], class: u64) -> Result<Reach, Refusal>
    ensures { Asked desk.now sheet.now seen.now class (refused_number result) (word_of result) (count_of result) }
{
    if !fits(desk, sheet, seen) {
        return Err(Refusal::Unfit);
    }
    let k = desk[CLASSES_AT];
    if u64::from(k) <= class {
        return Err(Refusal::NoClass);
    }
    let mut rows = [0; ROWS];
    put_successors(desk, sheet, k as usize, &mut rows);
    let word = reach(&rows, k as u32, class as u32);
    let count = count(word);
    Ok(Reach { word, count })
}
