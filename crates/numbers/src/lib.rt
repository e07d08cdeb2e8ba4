// A number condition at the due rows of a block of 64 rows, as a word: bit d is row base + d.
#![tactic(auto)]

pub mod range;

ghost use Rattle.std.specs.Prelude.{◌≡◌, ◌+◌, ◌%◌, ◌^◌, ◌<◌, ◌≤◌, length};
ghost use Rattle.fields.specs.Numbers.{number_at};
ghost use Rattle.catalogue.specs.Format.{number_tag, number_size};
ghost use Rattle.catalogue.specs.InPlace.{HasRow};
ghost use Rattle.predicate.specs.Meaning.{number_blank};
ghost use Rattle.sets.specs.Kept.{KeptBy};
ghost use Rattle.numbers.specs.Within.{number_in_row, within};

use crate::range::Range;
use catalogue::cell::Cell;
use catalogue::format::{Column, Number};
use heads::rows::DueRows;

// Whether n is low or one of the numbers after it, as many as width: one comparison. Written with <= it becomes a
// branch in the loop over due rows, which a processor guesses wrong where the answers are mixed.
fn is_within(low: u32, width: u32, n: u32) -> bool
    requires { low + width < 2 ^ 32 }
    ensures { result ≡ within low width n }
{
    !(width < std::num::wrapping_sub_u32(n, low))
}

// The number at a place less low, wrapping. The four bytes are read with the least significant first, and low is
// taken away between the two steps that put them in order: a reversal that the compiler sees as one instruction would
// keep the loop over it from vector code. Lanes are compared as signed numbers: with 2^31 taken off low and off the
// sum, none needs its top bit turned for that.
fn above(b: &[u8], at: usize, low: u32) -> u32
    requires { at + number_size ≤ length b.now }
    ensures { ((result + low) % 2 ^ 32 ≡ number_at b.now at number_size) × (result < 2 ^ 32) }
{
    let x = words::half_at(b, at) as u32;
    let y = (x & 0xff_00ff) * 256 + (x >> 8u8 & 0xff_00ff);
    let turned = std::num::wrapping_sub_u32(low, 0x8000_0000);
    let first = std::num::wrapping_sub_u32(y << 16u8, turned);
    std::num::wrapping_sub_u32(std::num::wrapping_add_u32(first, y >> 16u8), 0x8000_0000)
}

// Whether the number at a place is among those.
fn is_within_at(b: &[u8], at: usize, low: u32, width: u32) -> bool
    requires { (at + number_size ≤ length b.now) × (low + width < 2 ^ 32) }
    ensures { result ≡ within low width (number_at b.now at number_size) }
{
    !(width < above(b, at, low))
}

// Whether it is the blank, which is the same from either end.
fn is_blank_at(b: &[u8], at: usize) -> bool
    requires { at + number_size ≤ length b.now }
    ensures { result ≡ number_blank (number_at b.now at number_size) }
{
    words::half_at(b, at) as u32 == Number::BLANK
}

// The due rows whose numbers are among those.
fn due_within(rows: DueRows, range: Range) -> u64
    requires { rows.tag ≡ number_tag }
    ensures { let r = rows.entry in
        KeptBy (λ d. within range.low range.width (number_in_row r.b.now r.start (r.base + d))) r.due result }
{
    let (low, width) = (range.low, range.width);
    let (b, start, base) = (rows.b, rows.start, rows.base);
    sets::kept_where(
        rows.due,
        |d| -> bool
            requires { HasRow b.now number_tag start (base + d) × (low + width < 2 ^ 32) }
            ensures { result ≡ within low width (number_in_row b.entry.now start (base + d)) }
        {
            is_within(
                low,
                width,
                catalogue::column::number_at(Cell {
                    b,
                    tag: Column::NUMBER_TAG,
                    start,
                    row: base + usize::from(d),
                }),
            )
        },
    )
}

// The same, by the shorter way. Not by `met_where`, which asks one test on both ways: a whole block's reads the four
// bytes in the order that becomes vector code, the other way by `number_at`.
pub fn numbers_within(rows: DueRows, range: Range) -> u64
    requires { rows.tag ≡ number_tag }
    ensures { let r = rows.entry in
        KeptBy (λ d. within range.low range.width (number_in_row r.b.now r.start (r.base + d))) r.due result }
{
    let (low, width) = (range.low, range.width);
    let (b, start, base) = (rows.b, rows.start, rows.base);
    if rows.due == sets::below(64) {
        return sets::all_where(
            |d| -> bool
                requires { HasRow b.now number_tag start (base + d) × (low + width < 2 ^ 32) }
                ensures { result ≡ within low width (number_in_row b.entry.now start (base + d)) }
            {
                is_within_at(
                    b,
                    start + Number::SIZE * (base + usize::from(d)),
                    low,
                    width,
                )
            },
        );
    }
    due_within(rows, range)
}

// The due rows whose numbers are blank. Not by `met_where`: in the loop over due rows an equality would become a
// branch.
pub fn numbers_blank(rows: DueRows) -> u64
    requires { rows.tag ≡ number_tag }
    ensures { let r = rows.entry in KeptBy (λ d. number_blank (number_in_row r.b.now r.start (r.base + d))) r.due result }
{
    let (b, start, base) = (rows.b, rows.start, rows.base);
    let full = sets::below(64);
    if rows.due == full {
        return sets::all_where(
            |d| -> bool
                requires { HasRow b.now number_tag start (base + d) }
                ensures { result ≡ number_blank (number_in_row b.entry.now start (base + d)) }
            { is_blank_at(b, start + Number::SIZE * (base + usize::from(d))) },
        );
    }
    let blank = Range {
        low: Number::BLANK,
        width: 0,
    };
    due_within(rows, blank)
}
