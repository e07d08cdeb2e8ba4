// What a copy is written from: the tables of the marks, by turn.
ghost use Rattle.gather.specs.Turns.{HasLines};

// The predicates of the turns, and a line for each of them in two tables: its probes, and those with outcome yes.
#[derive(Clone, Copy)]
pub struct Probes<'a> {
    pub turns: &'a [u8],
    pub probed: &'a [u8],
    pub met: &'a [u8],
    pub ghost lines: { HasLines turns.now probed.now },
    pub ghost met_lines: { HasLines turns.now met.now },
}
