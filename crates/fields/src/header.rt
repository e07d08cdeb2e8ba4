// The header of a field: a one-byte tag and a two-byte length before the payload.
ghost use Rattle.std.specs.Prelude.{◌≡◌, ◌+◌, ◌≤◌, length};
ghost use Rattle.fields.specs.Header.{header_size, field_end, header_at, Inside, header_of};
ghost use Rattle.fields.specs.Output.{Wrote};

// A field, told by its header: the payload is the bytes from start up to end. The tag is any byte: catalogue, question
// and output have tags of their own, and each reader refuses the others by a number of its own.
#[derive(Clone, Copy)]
pub struct Field {
    pub tag: u8,
    pub start: usize,
    pub end: usize,
}

#[derive(Drop)]
pub struct Header;

impl Header {
    // The bytes of a header.
    pub const SIZE: usize = 3;
}

// The field expected at a place inside an enclosing end; none where it is cut: fewer than three bytes are left, or the
// length passes the end.
pub fn read_header(b: &[u8], at: usize, end: usize) -> Option<Field>
    requires { (at ≤ end) × (end ≤ length b.now) }
    ensures { (result ≡ header_at b.now at end) × Inside at end result }
{
    if end - at < Header::SIZE {
        return None;
    }
    let start = at + Header::SIZE;
    let size = crate::number::two_bytes(b, at + 1);
    if end - start < size {
        return None;
    }
    Some(Field {
        tag: b[at],
        start,
        end: start + size,
    })
}

// The place after the field that begins at a place.
pub fn field_end(b: &[u8], at: usize) -> usize
    requires { field_end b.now at ≤ length b.now }
    ensures { result ≡ field_end b.now at }
{
    at + Header::SIZE + crate::number::two_bytes(b, at + 1)
}

// Writes the header of a field with a payload of so many bytes from `at` on and gives the place behind it.
pub fn put_header(out: &mut [u8], at: usize, tag: u8, size: usize) -> usize
    requires { at + header_size ≤ length out.old }
    ensures { Wrote at (header_of tag size) out.old result out.new }
{
    let length = ((size % 0x1_0000) as u16).to_be_bytes();
    crate::output::put(out, at, &[tag, length[0], length[1]])
}
