// A whole typed question.
ghost use Rattle.syntax.specs.Machine.{question_of};
ghost use Rattle.parser.specs.Reading.{Fits, MemberReadable, MemberRead, TextRead};

use crate::groups::{Place, close_groups, open_groups};
use conditions::condition::read_condition;
use lexer::word::read_word;

#[derive(Drop)]
pub struct TypedText;

impl TypedText {
    // The most bytes of a text.
    pub const LIMIT: usize = 16384;

    // Room for the question of any such text, and for a condition that turns out wrong.
    pub const ROOM: usize = 24592;
}

// A condition with the groups that begin before it and end behind it, and the place behind them. Inlined: with calls
// here and at `read_operand` of operands, typed questions took 5 to 10 % longer.
#[inline(always)]
fn read_member(tags: &[u8], text: &[u8], out: &mut [u8], from: Place) -> Option<Place>
    requires { MemberReadable tags.now text.now from out.old }
    ensures { MemberRead tags.now text.now from out.old result out.new }
{
    let opened = open_groups(text, out, from);
    let condition = read_condition(tags, text, opened.at, out, opened.end)?;
    let behind = Place {
        at: condition.next,
        end: condition.end,
        innermost: opened.innermost,
    };
    Some(close_groups(text, out, behind))
}

// Reads a text over columns with these tags into the output's front, and gives how many bytes of it are the question's.
pub fn read_text(tags: &[u8], text: &[u8], out: &mut [u8]) -> Option<usize>
    requires { Fits text.now out.old }
    ensures { TextRead (question_of tags.now text.now) result out.new }
{
    let first = Place {
        at: 0,
        end: 0,
        innermost: 0,
    };
    let mut here = read_member(tags, text, out, first)?;
    while here.innermost != 0 {
        let at = read_word(text, here.at, b",")?;
        here = read_member(tags, text, out, Place { at, ..here })?;
    }
    if here.at == text.len() {
        Some(here.end)
    } else {
        None
    }
}
