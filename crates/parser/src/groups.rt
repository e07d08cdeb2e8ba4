// Groups opened and closed. While a group is open, the two bytes of its length hold where the enclosing group's stand:
// so the open groups need no table of their own, however many there are.
ghost use Rattle.std.specs.Prelude.{◌≤◌, length};
ghost use Rattle.parser.specs.Reading.{GroupAt, GroupsOpenable, Opened, GroupsClosable, Closed};

use lexer::word::read_word;
use query::format::Group;

// How far the text is read and the output written, and where the length of the innermost open group stands, 0 where
// none is open. An Option would be no plainer: the number is written to the output as it is, and read back from there.
#[derive(Clone, Copy, PartialEq, Eq, Debug)]
pub struct Place {
    pub at: usize,
    pub end: usize,
    pub innermost: usize,
}

// A group that begins: its tag, and the place behind its word.
#[derive(Clone, Copy, PartialEq, Eq, Debug)]
pub struct GroupWord {
    pub tag: u8,
    pub next: usize,
}

impl GroupWord {
    // The bytes of its word, which `read_word` passes.
    pub const SIZE: usize = 4;

    // The byte that closes a group.
    pub const CLOSING: u8 = b')';
}

const _: () = prove!(b"all(".len() == GroupWord::SIZE && b"any(".len() == GroupWord::SIZE);

// The group that begins at a place of the text.
fn read_group(text: &[u8], at: usize) -> Option<GroupWord>
    requires { at ≤ length text.now }
    ensures { GroupAt text.now at result }
{
    if let Some(next) = read_word(text, at, b"all(") {
        return Some(GroupWord {
            tag: Group::CONJUNCTION_TAG,
            next,
        });
    }
    let next = read_word(text, at, b"any(")?;
    Some(GroupWord {
        tag: Group::DISJUNCTION_TAG,
        next,
    })
}

// Opens the groups that begin at a place where a member is expected.
pub fn open_groups(text: &[u8], out: &mut [u8], from: Place) -> Place
    requires { GroupsOpenable text.now from out.old }
    ensures { Opened text.now from out.old result out.new }
{
    let mut here = from;
    while let Some(group) = read_group(text, here.at) {
        let next = fields::header::put_header(out, here.end, group.tag, here.innermost);
        here = Place {
            at: group.next,
            end: next,
            innermost: here.end + 1,
        };
    }
    here
}

// Closes the groups that end behind a member: the length takes the place of where the enclosing group's stands.
pub fn close_groups(text: &[u8], out: &mut [u8], from: Place) -> Place
    requires { GroupsClosable text.now from out.old }
    ensures { Closed text.now from out.old result out.new }
{
    let mut here = from;
    while here.innermost != 0 && here.at < text.len() && text[here.at] == GroupWord::CLOSING {
        let outer = fields::number::two_bytes(out, here.innermost);
        let size = here.end - (here.innermost + 2);
        fields::number::put_two_bytes(out, here.innermost, size);
        here = Place {
            at: here.at + 1,
            innermost: outer,
            ..here
        };
    }
    here
}
