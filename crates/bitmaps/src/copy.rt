// Copying a run's own tables to the front of lent ones.
ghost use Rattle.std.specs.Prelude.{◌≡◌, ◌*◌, ◌≤◌, length};
ghost use Rattle.fields.specs.Output.{put_front};
ghost use Rattle.bitmaps.specs.Table.{line_size, lines_of};

// A line of a run's own tables: a bit for each row that a catalogue may have (catalogue's Row::LIMIT).
#[derive(Drop)]
pub struct Line;

impl Line {
    pub const SIZE: usize = 256;
}

// The first bytes of each of the first n lines of a run's own table.
#[derive(Clone, Copy)]
pub struct Lines<'a> {
    pub table: &'a [u8],
    pub n: usize,
    pub size: usize,
    pub ghost inside: { (size ≤ line_size) × (n * line_size ≤ length table.now) },
}

// The first bytes of lines, to the front of a table, which keeps its further bytes.
pub fn copy_lines(from: Lines, to: &mut [u8])
    requires { from.n * from.size ≤ length to.old }
    ensures { to.new ≡ put_front (lines_of from.entry.size from.entry.table.now from.entry.n) to.old }
{
    let mut at = 0;
    for c in 0..from.n {
        let line = c * Line::SIZE;
        at = fields::output::put(to, at, &from.table[line..line + from.size]);
    }
}
