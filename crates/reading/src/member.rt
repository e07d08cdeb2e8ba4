// The reading of a query: a group holds members, and a member may be a group again.
ghost use Rattle.query.specs.Format.{depth_of};
ghost use Rattle.reading.specs.MemberRead.{Readable, MemberRead, MembersRead};

use crate::tables::Tables;
use ancestors::Ancestors;
use query::member::MemberField;
use query::refusal::Refusal;
use records::Predicates;

// How far a reading is: the place after what was read, and the number of predicates up to there.
#[derive(Clone, Copy)]
pub struct Progress {
    pub at: usize,
    pub n: usize,
}

// The member at a place inside an enclosing end, with n predicates found before it and so many more groups allowed.
#[cycle(read_group_read_member)]
pub fn read_member(
    tags: &[u8],
    q: &[u8],
    at: usize,
    end: usize,
    allowed: usize,
    n: usize,
    found: &mut Tables,
) -> Result<Progress, Refusal>
    requires { Readable at end allowed n q.now found.old }
    ensures { MemberRead tags.now q.now at end (depth_of allowed) n result
        found.old found.new }
{
    let earlier = Predicates {
        q,
        offsets: &found.offsets,
        n,
    };
    let field = members::field::read_field(tags, earlier, at, end, allowed)?;
    match field {
        MemberField::Leaf {
            start: _,
            end: stop,
        } => {
            found.offsets[n] = at;
            found.ancestors[Ancestors::LINE_SIZE * n] = 0;
            Ok(Progress { at: stop, n: n + 1 })
        }
        MemberField::Group {
            tag,
            start,
            end: stop,
        } => {
            let read = read_group(tags, q, start, stop, allowed - 1, n, found)?;
            ancestors::close_group(&mut found.ancestors, n, read.n, tag);
            Ok(read)
        }
    }
}

// The members from a place up to the end of their group.
#[cycle(read_group_read_member)]
fn read_group(
    tags: &[u8],
    q: &[u8],
    at: usize,
    end: usize,
    allowed: usize,
    n: usize,
    found: &mut Tables,
) -> Result<Progress, Refusal>
    requires { Readable at end allowed n q.now found.old }
    ensures { MembersRead tags.now q.now at end (depth_of allowed) n result
        found.old found.new }
{
    let mut read = Progress { at, n };
    while read.at < end {
        read = read_member(tags, q, read.at, end, allowed, read.n, found)?;
    }
    Ok(read)
}
