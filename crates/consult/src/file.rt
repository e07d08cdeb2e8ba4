// Reading a file whole.
ghost use Rattle.consult.specs.File.{Held};

use std::fs;
use std::io::Read;
use std::rt::Files;

// How long each file may be.
#[derive(Drop)]
pub struct CatalogueFile;

impl CatalogueFile {
    pub const LIMIT: usize = 65536;
}

#[derive(Drop)]
pub struct QuestionFile;

impl QuestionFile {
    pub const LIMIT: usize = 4096;
}

#[derive(Drop)]
pub struct OrderFile;

impl OrderFile {
    pub const LIMIT: usize = 64;
}

// One read; no bytes at the end of the file, and none told where it fails.
fn read_some(file: &mut impl Read, space: &mut [u8]) -> Option<usize>
    ensures { Held space.new result }
{
    file.read(space).ok()
}

// All bytes of an open file; none told where a read fails or the file is longer than the space.
fn read_all(file: &mut impl Read, space: &mut [u8]) -> Option<usize>
    ensures { Held space.new result }
{
    let mut at = 0;
    // By hand: of a file shorter than the space `read_exact` does not tell how much it read, and `read_to_end` reads
    // into a Vec, on the heap.
    while at < space.len() {
        let n = read_some(file, &mut space[at..])?;
        if n == 0 {
            return Some(at);
        }
        at += n;
    }
    let mut more = [0u8; 1];
    match read_some(file, &mut more)? {
        0 => Some(at),
        _ => None,
    }
}

// How many bytes of a file stand in the space; none told where it cannot be read. The path is bytes and no `&str`,
// which would ask more of a caller: one that is no text names no file here.
pub fn read_file(rt: &impl Files, path: &[u8], space: &mut [u8]) -> Option<usize>
    ensures { Held space.new result }
{
    let path = str::from_utf8(path).ok()?;
    let mut file = fs::open(rt, path).ok()?;
    read_all(&mut file, space)
}
