// The register: its first line, and what a run found or the number of its refusal.
ghost use Rattle.std.specs.Prelude.{◌+◌, ◌*◌, ◌/◌, ◌^◌, ◌≤◌, ◌<◌, length};
ghost use Rattle.fields.specs.Output.{Wrote};
ghost use Rattle.bitmaps.specs.Bitmap.{bytes_for};
ghost use Rattle.bitmaps.specs.Bit.{bit};
ghost use Rattle.register.specs.Register.{header, entry_if, entries, condition_line, conditions, accepted, refused, register_of, Printed};
ghost use Rattle.register.specs.Writing.{entry_room, condition_room, refused_room, room_for};

fn put_entry(out: &mut [u8], at: usize, listed: &[u8], row: usize) -> usize
    requires { (row / 8 < length listed.now) × (at + entry_room ≤ length out.old) }
    ensures { Wrote at (entry_if (bit listed.now row) row) out.old result out.new × (result ≤ at + entry_room) }
{
    if bitmaps::bit::is_marked(listed, row) {
        return lines::put_line(out, at, b"entry ", row as u64);
    }
    at
}

fn put_entries(out: &mut [u8], at: usize, listed: &[u8], rows: usize) -> usize
    requires { (rows ≤ length listed.now * 8) × (at + entry_room * rows ≤ length out.old) }
    ensures { Wrote at (entries listed.now rows) out.old result out.new × (result ≤ at + entry_room * rows) }
{
    let mut end = at;
    for row in 0..rows {
        end = put_entry(out, end, listed, row);
    }
    end
}

fn put_condition(out: &mut [u8], at: usize, c: usize, count: u64) -> usize
    requires { at + condition_room ≤ length out.old }
    ensures { Wrote at (condition_line c count) out.old result out.new × (result ≤ at + condition_room) }
{
    let number = fields::output::put(out, at, b"condition ");
    let end = lines::put_number(out, number, c as u64);
    lines::put_line(out, end, b" ", count)
}

fn put_conditions(out: &mut [u8], at: usize, looks: &[u8], size: usize, n: usize) -> usize
    requires { (size < 2 ^ 61) × (n * size ≤ length looks.now) × (at + condition_room * n ≤ length out.old) }
    ensures { Wrote at (conditions looks.now size n) out.old result out.new × (result ≤ at + condition_room * n) }
{
    let mut end = at;
    for c in 0..n {
        let from = c * size;
        let count = counts::ones::count_ones(&looks[from..from + size]);
        end = put_condition(out, end, c, count);
    }
    end
}

fn put_header(out: &mut [u8]) -> usize
    requires { length header ≤ length out.old }
    ensures { Wrote 0 header out.old result out.new }
{
    fields::output::put(out, 0, b"consultation register\n")
}

// A run as its register tells it: its two counts, and the tables that it wrote, of so many rows and predicates.
#[derive(Clone, Copy)]
pub struct Run<'a> {
    pub found: u64,
    pub looked: u64,
    pub rows: usize,
    pub n: usize,
    pub listed: &'a [u8],
    pub looks: &'a [u8],
}

fn write_accepted(run: Run, out: &mut [u8]) -> usize
    requires { (bytes_for run.rows ≤ length run.listed.now) × (run.n * bytes_for run.rows ≤ length run.looks.now)
        × (room_for run.rows run.n ≤ length out.old) }
    ensures { let r = run.entry in
        Printed (accepted r.found r.looked r.rows r.n r.listed.now r.looks.now) out.old result out.new }
{
    let Run {
        found,
        looked,
        rows,
        n,
        listed,
        looks,
    } = run;
    let found_line = put_header(out);
    let entry_lines = lines::put_line(out, found_line, b"found ", found);
    let looks_line = put_entries(out, entry_lines, listed, rows);
    let condition_lines = lines::put_line(out, looks_line, b"looks ", looked);
    put_conditions(
        out,
        condition_lines,
        looks,
        bitmaps::size::bytes_for(rows),
        n,
    )
}

// The register of a refusal, to the front of the output; its length.
pub fn write_refused(number: u64, out: &mut [u8]) -> usize
    requires { refused_room ≤ length out.old }
    ensures { Printed (refused number) out.old result out.new }
{
    let next = put_header(out);
    lines::put_line(out, next, b"refused ", number)
}

// The register of a run that gave this number, to the front of the output; its length. The number is bits 0 to 7 of the
// word that `searchroom_run` gives, 0 where nothing is refused: `register_of` is defined at every number,
// and a Result would be made of it here only to be taken apart again.
pub fn write_register(number: u64, run: Run, out: &mut [u8]) -> usize
    requires { (bytes_for run.rows ≤ length run.listed.now) × (run.n * bytes_for run.rows ≤ length run.looks.now)
        × (room_for run.rows run.n ≤ length out.old) }
    ensures { let r = run.entry in
        Printed (register_of number r.found r.looked r.rows r.n r.listed.now r.looks.now) out.old result out.new }
{
    if number != 0 {
        return write_refused(number, out);
    }
    write_accepted(run, out)
}
