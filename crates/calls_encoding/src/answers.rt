// Answers written as numbers, five to a call.
ghost use Rattle.std.specs.Prelude.{◌≡◌};
ghost use Rattle.calls_encoding.specs.Answers.{with_answer};

use model::{ANSWER_WIDTH, Outcome};

// Writes an answer from place at on; nothing where the table has no five places there.
pub fn put_answer(a: Outcome, table: &mut [u64], at: usize)
    ensures { table.new ≡ with_answer a table.old at }
{
    if text::lacks(table.len(), at, ANSWER_WIDTH) {
        return;
    }
    let numbers = [a.refusal as u64, a.first, a.second, a.third, a.fourth];
    table[at..at + ANSWER_WIDTH].copy_from_slice(&numbers);
}
