// A whole query read into the tables of the reading.
ghost use Rattle.query.specs.Decode.{decode_tagged};
ghost use Rattle.reading.specs.QueryRead.{QueryRead};

use crate::tables::Tables;
use query::format::Group;
use query::refusal::Refusal;

// Checks a query against a catalogue whose columns have these tags, and tells where the fields of its n
// predicates begin and which groups are around each; gives n.
pub fn read_query(tags: &[u8], q: &[u8], found: &mut Tables) -> Result<usize, Refusal>
    ensures { QueryRead tags.now q.now (decode_tagged tags.now q.now) result found.new }
{
    let read = crate::member::read_member(tags, q, 0, q.len(), Group::DEPTH_LIMIT, 0, found)?;
    if read.at != q.len() {
        return Err(Refusal::BytesAfterQuery);
    }
    Ok(read.n)
}
