// The program `consult`: reads three files from the folder it is run in and prints the register.
#![tactic(auto)]

mod file;

ghost use Rattle.std.specs.Prelude.{◌≤◌, length};
ghost use Rattle.consultation.specs.Consultation.{longest};
ghost use Rattle.consult.specs.File.{IsPrefixLen};
ghost use Rattle.consult.specs.Prints.{Prints};

use file::{CatalogueFile, OrderFile, QuestionFile};
use std::io;
use std::io::Write;
use std::rt::Files;

// The register of the files, or of a file that cannot be read; its length.
fn consult(rt: &impl Files, out: &mut [u8]) -> usize
    requires { longest ≤ length out.old }
    ensures prints { Prints out.old result out.new }
    ensures prefix_len { IsPrefixLen result out.new }
{
    let mut catalogue = [0u8; CatalogueFile::LIMIT];
    let mut question = [0u8; QuestionFile::LIMIT];
    let mut order = [0u8; OrderFile::LIMIT];
    let first = file::read_file(rt, b"catalogue.bin", &mut catalogue);
    let second = file::read_file(rt, b"question.bin", &mut question);
    let third = file::read_file(rt, b"order.bin", &mut order);
    let (Some(c), Some(q), Some(o)) = (first, second, third) else {
        return consultation::write_unreadable(out);
    };
    consultation::write_consultation(&catalogue[..c], &question[..q], &order[..o], out)
}

fn main(rt: HostRuntime) -> io::Result<()> {
    let mut out = [0u8; 65536];
    let n = consult(&rt, &mut out);
    io::writer(&rt).write_all(&out[..n])
}
