// From group to group outward: what a probe leaves live, at 64 rows at once.
ghost use Rattle.std.specs.Prelude.{length};
ghost use Rattle.ancestors.specs.Ancestors.{ancestor_at, ancestors_of};
ghost use Rattle.blocks.specs.Block.{HasAncestor, HasAncestors, Passed, Propagated};

use ancestors::{Ancestor, Ancestors};

// Outward through the ancestor at place i of the table; the rows at which the propagation goes on.
fn pass_ancestor(ancestors: &[u8], i: usize, live: &mut [u64], active: u64, met: u64) -> u64
    requires { HasAncestor ancestors.now i (length live.old) }
    ensures { Passed (ancestor_at ancestors.now i) met active result live.old live.new }
{
    let group = Ancestor::at(ancestors, i);
    crate::group::pass_group(live, group, active, met)
}

// Through the groups around predicate c, after its probe at the due rows with the outcome yes at those of met; the rows
// at which the propagation passed the outermost group, so that the outcome is the query's value.
pub fn propagate_rows(ancestors: &[u8], c: usize, live: &mut [u64], due: u64, met: u64) -> u64
    requires { HasAncestors ancestors.now c (length live.old) }
    ensures { Propagated (ancestors_of ancestors.now c) met due result live.old live.new }
{
    let line = Ancestors::LINE_SIZE * c;
    let mut active = due;
    for k in 0..ancestors[line] {
        let i = Ancestors::place(line, k);
        active = pass_ancestor(ancestors, i, live, active, met);
        if active == 0 {
            return 0;
        }
    }
    active
}
