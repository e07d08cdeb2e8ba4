// One field of a query.
ghost use Rattle.std.specs.Prelude.{◌≡◌, ◌≤◌, length, IfOk};
ghost use Rattle.fields.specs.Header.{header_at};
ghost use Rattle.query.specs.Format.{depth_of};
ghost use Rattle.query.specs.Decode.{group_field, predicate_field, member_field};
ghost use Rattle.records.specs.Table.{predicates_at};
ghost use Rattle.query.specs.Sound.{SoundField};

use fields::header::Field;
use query::format::{Group, Predicate};
use query::member::MemberField;
use query::refusal::Refusal;
use records::Predicates;

fn group_field(allowed: usize, field: Field) -> Result<MemberField, Refusal>
    ensures { result ≡ group_field (depth_of allowed) field.tag field.start field.end }
{
    let Field { tag, start, end } = field;
    if allowed == 0 {
        return Err(Refusal::TooDeep);
    }
    if start == end {
        return Err(Refusal::EmptyGroup);
    }
    Ok(MemberField::Group { tag, start, end })
}

fn predicate_field(
    tags: &[u8],
    earlier: Predicates,
    start: usize,
    end: usize,
) -> Result<MemberField, Refusal>
    requires { (start ≤ end) × (end ≤ length earlier.q.now) }
    ensures { result ≡ predicate_field tags.now earlier.entry.q.now
        (predicates_at earlier.entry.q.now earlier.entry.offsets.now earlier.entry.n) start end }
{
    if Predicate::LIMIT <= earlier.n {
        return Err(Refusal::TooManyPredicates);
    }
    let payload = &earlier.q[start..end];
    if !payload::payload_is_valid(tags, payload) {
        return Err(Refusal::InvalidPayload);
    }
    if crate::repeated::is_repeated(payload, earlier) {
        return Err(Refusal::RepeatedPayload);
    }
    Ok(MemberField::Leaf { start, end })
}

// The member expected at a place behind the earlier predicates, inside an enclosing end, with so many more groups
// allowed.
pub fn read_field(
    tags: &[u8],
    earlier: Predicates,
    at: usize,
    end: usize,
    allowed: usize,
) -> Result<MemberField, Refusal>
    requires { (at ≤ end) × (end ≤ length earlier.q.now) }
    ensures exact { result ≡ member_field tags.now earlier.entry.q.now (depth_of allowed)
        (predicates_at earlier.entry.q.now earlier.entry.offsets.now earlier.entry.n)
        (header_at earlier.entry.q.now at end) }
    ensures sound { IfOk result (SoundField tags.now earlier.entry.q.now at end (depth_of allowed) earlier.entry.n) }
{
    let field = fields::header::read_header(earlier.q, at, end).ok_or(Refusal::MemberCut)?;
    match field.tag {
        Predicate::TAG => predicate_field(tags, earlier, field.start, field.end),
        Group::CONJUNCTION_TAG | Group::DISJUNCTION_TAG => group_field(allowed, field),
        _ => Err(Refusal::UnknownTag),
    }
}
