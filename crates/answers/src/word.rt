// The packed word in which a call's results travel to C.
ghost use Rattle.std.specs.Prelude.{◌≡◌};
ghost use Rattle.answers.specs.Answer.{answer_of, numbered};
ghost use Rattle.answers.specs.Word.{packed, number_in, first_in, third_in};

use crate::answer::Answer;
use crate::refusal::Refusal;

// Bits 0 to 7 the number, 8 to 23 the first result, 24 to 39 the second, 40 to 63 the third: the lowest bit of each
// result.
#[derive(Drop)]
pub struct PackedWord;

impl PackedWord {
    pub const FIRST: u64 = 1 << 8;

    pub const SECOND: u64 = 1 << 24;

    pub const THIRD: u64 = 1 << 40;
}

// What a call gives, with a refusal by its number.
pub fn numbered(answer: Result<Answer, Refusal>) -> Result<Answer, u8>
    ensures { numbered result ≡ answer_of answer }
{
    answer.map_err(Refusal::number)
}

// A refusal is any byte here, also one that is no refusal's number: the word has room for each, and `packed` says what
// it becomes.
pub fn pack(answer: Result<Answer, u8>) -> u64
    ensures { result ≡ packed (numbered answer) }
{
    match answer {
        Ok(answer) => {
            PackedWord::FIRST * answer.first
                + PackedWord::SECOND * answer.second
                + PackedWord::THIRD * answer.third
        }
        Err(number) => u64::from(number),
    }
}

// A packed word taken apart again.
pub fn number_in(word: u64) -> u64
    ensures { result ≡ number_in word }
{
    word % PackedWord::FIRST
}

pub fn first_in(word: u64) -> u64
    ensures { result ≡ first_in word }
{
    word % PackedWord::SECOND / PackedWord::FIRST
}

pub fn third_in(word: u64) -> u64
    ensures { result ≡ third_in word }
{
    word / PackedWord::THIRD
}
