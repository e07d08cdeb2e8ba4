// Fixed words.
ghost use Rattle.std.specs.Prelude.{◌≤◌, length};
ghost use Rattle.lexer.specs.Lexed.{WordRead};

// The place behind the word, if it stands at a place of the text. Text and place, not the rest as a slice: the
// contracts from here to `read_text` are over places of the whole text (`ParsedTo`: behind `at`, within the text).
pub fn read_word(text: &[u8], at: usize, word: &[u8]) -> Option<usize>
    requires { at ≤ length text.now }
    ensures { WordRead text.now at word.now result }
{
    if text[at..].starts_with(word) {
        Some(at + word.len())
    } else {
        None
    }
}
