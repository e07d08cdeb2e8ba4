// How every call on a question begins: the catalogue laid out, the question read against it.
ghost use Rattle.input.specs.Beginning.{InputRead};

use answers::refusal::Refusal;
use catalogue::format::Column;
use reading::tables::Tables;

// What the later steps ask for.
#[derive(Clone, Copy)]
pub struct Beginning {
    pub rows: usize,
    pub n: usize,
    pub tags: [u8; Column::LIMIT],
    pub starts: [usize; Column::LIMIT],
    pub mark: usize,
}

// Lays out the catalogue and reads the question against it, into the tables of the reading.
pub fn begin(catalogue: &[u8], question: &[u8], found: &mut Tables) -> Result<Beginning, Refusal>
    ensures { InputRead catalogue.now question.now result found.new }
{
    let layout = layout::lay_out(catalogue)?;
    let tags = &layout.tags[..layout.columns];
    let n = reading::whole::read_query(tags, question, found)?;
    Ok(Beginning {
        rows: layout.rows,
        n,
        tags: layout.tags,
        starts: layout.starts,
        mark: layout.mark,
    })
}
