// A member's field.

// What stands where a member is expected, every check of it done but those of its own members; the payload is the
// bytes from start up to end.
#[derive(Clone, Copy)]
pub enum MemberField {
    Leaf { start: usize, end: usize },
    Group { tag: u8, start: usize, end: usize },
}
