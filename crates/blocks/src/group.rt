// What the outcomes of a probe do to one group around it.
ghost use Rattle.std.specs.Prelude.{◌+◌, ◌≤◌, length};
ghost use Rattle.ancestors.specs.Ancestors.{ancestor_of};
ghost use Rattle.blocks.specs.Block.{TakenOut, StillActiveIs, SettledRows, Passed};

use ancestors::Ancestor;

// Takes the rows of gone out of a group's words; the rows at which one of them is live still.
fn take_out(words: &mut [u64], gone: u64) -> u64
    ensures { TakenOut 0 (length words.old) gone result words.old words.new }
{
    let mut left = 0;
    for rows in words.iter_mut() {
        *rows = sets::minus(*rows, gone);
        left |= *rows;
    }
    left
}

// The active rows at which none of a group's words is live. It ends where no row is left.
fn still_active(words: &[u64], active: u64) -> u64
    ensures { StillActiveIs 0 (length words.now) active result words.now }
{
    let mut left = active;
    for rows in words {
        left = sets::minus(left, *rows);
        if left == 0 {
            return 0;
        }
    }
    left
}

// The active rows at which the outcome settles the group.
fn settled_rows(settling: bool, active: u64, met: u64) -> u64
    ensures { SettledRows settling active met result }
{
    if settling {
        active & met
    } else {
        sets::minus(active, met)
    }
}

// Outward through a group; the rows at which the propagation goes on: the active ones at which nothing of the group is
// live any more, as where the outcome settles it. Where it settles the group at no row, no word changes.
pub fn pass_group(live: &mut [u64], group: Ancestor, active: u64, met: u64) -> u64
    requires { group.first + group.count ≤ length live.old }
    ensures { Passed (ancestor_of group) met active result live.old live.new }
{
    let settled = settled_rows(group.settling, active, met);
    let end = group.first + group.count;
    if settled == 0 {
        return still_active(&live[group.first..end], active);
    }
    let left = take_out(&mut live[group.first..end], settled);
    sets::minus(active, left)
}
