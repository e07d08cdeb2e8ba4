// The ones of the lines of a run's own tables, of which a run has up to 64.
ghost use Rattle.std.specs.Prelude.{◌≡◌, ◌+◌, ◌-◌, ◌*◌, ◌^◌, ◌≤◌, ◌<◌, length, drop};
ghost use Rattle.bitmaps.specs.Bitmap.{ones_in};
ghost use Rattle.bitmaps.specs.Table.{line_size, lines_of};
ghost use Rattle.bitmaps.specs.Word.{word_size};
ghost use Rattle.counts.specs.Whole.{whole_words, NoneBehind};

use crate::adder::ones_of_seven;
use crate::ones::count_ones;
use bitmaps::copy::{Line, Lines};
use bitmaps::word::Word;
use words::word_at;

// The ones of the words at one place of seven lines.
fn ones_across(table: &[u8], at: usize) -> u64
    requires { at + 6 * line_size + word_size ≤ length table.now }
    ensures { (result ≡ ones_in (lines_of word_size (drop at table.now) 7)) × (result ≤ 8 * (7 * word_size)) }
{
    ones_of_seven(
        word_at(table, at),
        word_at(table, at + Line::SIZE),
        word_at(table, at + 2 * Line::SIZE),
        word_at(table, at + 3 * Line::SIZE),
        word_at(table, at + 4 * Line::SIZE),
        word_at(table, at + 5 * Line::SIZE),
        word_at(table, at + 6 * Line::SIZE),
    )
}

// The number of ones in the bytes from i on of each of n lines, line by line.
fn count_each_line(lines: Lines, first: usize, n: usize, i: usize) -> u64
    requires { (n ≤ 7) × (first + n ≤ lines.n) × (i ≤ lines.size) }
    ensures { (result ≡ ones_in (lines_of (lines.entry.size - i) (drop (first * line_size + i) lines.entry.table.now) n))
        × (result ≤ 8 * (n * (lines.entry.size - i))) }
{
    let mut sum = 0;
    for c in 0..n {
        let line = (first + c) * Line::SIZE;
        sum += count_ones(&lines.table[line + i..line + lines.size]);
    }
    sum
}

// The number of ones in seven lines, side by side where eight bytes remain.
fn count_seven_lines(lines: Lines, first: usize) -> u64
    requires { first + 7 ≤ lines.n }
    ensures { (result ≡ ones_in (lines_of lines.entry.size (drop (first * line_size) lines.entry.table.now) 7))
        × (result ≤ 8 * (7 * lines.entry.size)) }
{
    let line = first * Line::SIZE;
    let mut sum = 0;
    let words = lines.size / Word::SIZE;
    for w in 0..words {
        sum += ones_across(lines.table, line + w * Word::SIZE);
    }
    sum + count_each_line(lines, first, 7, words * Word::SIZE)
}

// The number of ones in lines: in what copy_lines copies of them. That the table is shorter than 2^61 bytes is no part
// of `Lines`: `copy_lines` does not ask it.
pub fn count_lines(lines: Lines) -> u64
    requires { length lines.table.now < 2 ^ 61 }
    ensures { (result ≡ ones_in (lines_of lines.entry.size lines.entry.table.now lines.entry.n))
        × (result ≤ 8 * (lines.entry.n * lines.entry.size)) }
{
    let mut sum = 0;
    let sevens = lines.n / 7;
    for s in 0..sevens {
        sum += count_seven_lines(lines, s * 7);
    }
    let c = sevens * 7;
    sum + count_each_line(lines, c, lines.n - c, 0)
}

fn whole_words(lines: Lines) -> usize
    ensures { result ≡ whole_words lines.entry.size }
{
    (lines.size + 7) / Word::SIZE * Word::SIZE
}

// The same where all bits behind those bytes are zeros: counted to the end of a word, so that no byte is counted by
// itself.
pub fn count_whole_lines(lines: Lines) -> u64
    requires { (length lines.table.now < 2 ^ 61) × NoneBehind lines.size lines.n lines.table.now }
    ensures { (result ≡ ones_in (lines_of lines.entry.size lines.entry.table.now lines.entry.n))
        × (result ≤ 8 * (lines.entry.n * line_size)) }
{
    let whole = Lines {
        table: lines.table,
        n: lines.n,
        size: whole_words(lines),
    };
    count_lines(whole)
}
