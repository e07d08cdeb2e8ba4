// The fields of a row's probes.
ghost use Rattle.std.specs.Prelude.{◌+◌, ◌≤◌, length};
ghost use Rattle.fields.specs.Output.{Wrote};
ghost use Rattle.task.specs.Log.{probe_field_size, probe_field};
ghost use Rattle.copy_log.specs.MarkedLog.{turn_fields, HasTurns};

use sets::numbers::Numbers;

#[derive(Drop)]
pub struct ProbeField;

impl ProbeField {
    pub const TAG: u8 = 76;

    pub const SIZE: usize = 7;

    pub const PAYLOAD_SIZE: u8 = 4;
}

// Writes the field of a probe from `at` on and gives the place behind it. The outcome is the format's byte: of a row
// two sets of turns tell it, and no `Outcome` is made.
fn put_probe(out: &mut [u8], at: usize, row: usize, c: u8, outcome: u8) -> usize
    requires { at + probe_field_size ≤ length out.old }
    ensures { Wrote at (probe_field row c outcome) out.old result out.new }
{
    let [high, low] = ((row % 0x1_0000) as u16).to_be_bytes();
    let field = [
        ProbeField::TAG,
        0,
        ProbeField::PAYLOAD_SIZE,
        high,
        low,
        c,
        outcome,
    ];
    fields::output::put(out, at, &field)
}

// Writes the fields of a row in the turns' sequence: of the turns of `due`, each with a yes where it is in `met`, a
// blank where it is in `blank`.
pub fn put_row(
    out: &mut [u8],
    at: usize,
    turns: &[u8],
    row: usize,
    due: u64,
    met: u64,
    blank: u64,
) -> usize
    requires has_turns { HasTurns turns.now due }
    requires blank_in_bounds { at + length (turn_fields turns.now row due met blank) ≤ length out.old }
    ensures { Wrote at (turn_fields turns.now row due met blank) out.old result out.new }
{
    let mut end = at;
    for i in Numbers(due) {
        let c = turns[usize::from(i)];
        // The cast is `as`: by `u8::from` a copy takes up to a sixth longer. Of 12 conditions over four columns it
        // takes 1.20 times as long as a copy by the engine written by hand, by `as` 1.04 times.
        let outcome = sets::has(met, i) as u8 + 2 * (sets::has(blank, i) as u8);
        end = put_probe(out, end, row, c, outcome);
    }
    end
}
