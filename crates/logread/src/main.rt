// Gives the records of a link log.
//
// It is called as `logread LOG`. For each record it prints a line: `pdu`, the PDU's length and its bytes in hexadecimal, `-` for none, or
// `close` and the number of a local close. A file that is not whole blocks or has more than 65,536 has `refused 22` alone. LOG is a regular
// file: one that can't be opened or read, that has no size or ends before it, is said on standard error, and no more is printed. What is
// printed is the work of `logging`.
#![tactic(auto)]

ghost use Rattle.std.specs.Prelude.{◌≤◌, ◌≡◌, length};
ghost use Rattle.linklog.specs.Reading.{BLOCKS_MAX};
ghost use Rattle.logging.specs.Lines.{SAID_MAX};

use blocks::BLOCK;
use files::{ARGUMENT, Failed};
use lines::REFUSED_MAX;
use linklog::{ROOM, Reader};
use logging::SAID_MAX;
use std::io::{Read, Seek, SeekFrom};
use std::rt::Files;

// The blocks of a piece, and its bytes.
const PIECE_BLOCKS: u32 = 64;

const PIECE: usize = PIECE_BLOCKS as usize * BLOCK;

// Prints the lines of a piece's blocks, the first of which has this number. Answers where reading stands behind them.
fn tell(
    rt: &(impl Print + Eprint),
    reader: Reader,
    blocks: u32,
    first: u32,
    piece: &[u8],
    room: &mut [u8],
    out: &mut [u8],
) -> Result<Reader, Failed>
    requires { SAID_MAX ≤ length out.old }
    ensures { piece.now ≡ piece.now }
{
    let mut next = reader;
    for (number, block) in (first..blocks).zip(piece.chunks_exact(BLOCK)) {
        let told = match logging::tell(next, blocks, number, block, room, out) {
            Ok(told) => told,
            Err(why) => {
                let said = lines::refused(out, 0, paper::refusal_number(why));
                files::complain(rt, &out[..said]);
                return Err(Failed);
            }
        };
        files::write(rt, &out[..told.laid])?;
        next = told.reader;
    }
    Ok(next)
}

// Prints the lines of so many blocks, piece by piece.
fn read<R: Read>(
    rt: &(impl Print + Eprint),
    file: &mut R,
    name: &[u8],
    blocks: u32,
) -> Result<(), Failed>
    requires { blocks ≤ BLOCKS_MAX }
    ensures { name.now ≡ name.now }
{
    let mut buffer = [0u8; PIECE];
    let mut room = [0u8; ROOM];
    let mut out = [0u8; SAID_MAX];
    let mut reader = linklog::begin();
    let mut number = 0;
    // Piece by piece, of which the last may be smaller.
    while number < blocks {
        let count = (blocks - number).min(PIECE_BLOCKS);
        let size = count as usize * BLOCK;
        let got = files::load(rt, file, name, &mut buffer[..size])?;
        if got < size {
            files::complain(rt, name);
            files::complain(rt, b": it ends before its size\n");
            return Err(Failed);
        }
        reader = tell(
            rt,
            reader,
            blocks,
            number,
            &buffer[..size],
            &mut room,
            &mut out,
        )?;
        number += count;
    }
    Ok(())
}

// Prints the lines of a file of such a size.
fn report<R: Read>(
    rt: &(impl Print + Eprint),
    file: &mut R,
    name: &[u8],
    size: u64,
) -> Result<(), Failed>
    ensures { name.now ≡ name.now }
{
    match logging::judge(size) {
        Ok(blocks) => read(rt, file, name, blocks),
        Err(why) => {
            let mut out = [0u8; REFUSED_MAX];
            let said = lines::refused(&mut out, 0, paper::refusal_number(why));
            files::write(rt, &out[..said])
        }
    }
}

// Asks for the file's size, once a read has told that it can be read, and reports.
fn measure<R: Read + Seek>(
    rt: &(impl Print + Eprint),
    file: &mut R,
    name: &[u8],
) -> Result<(), Failed>
    ensures { name.now ≡ name.now }
{
    let mut one = [0u8; 1];
    let got = files::fill(rt, file, name, &mut one, 0)?;
    let size = seek(rt, file, name, SeekFrom::End(0))?;
    seek(rt, file, name, SeekFrom::Start(0))?;
    if size == 0 && 0 < got {
        files::complain(rt, name);
        files::complain(rt, b": it has no size\n");
        return Err(Failed);
    }
    report(rt, file, name, size)
}

// Goes to a place of the file, or says on standard error why it can't.
fn seek<S: Seek>(rt: &impl Eprint, file: &mut S, name: &[u8], to: SeekFrom) -> Result<u64, Failed>
    ensures { name.now ≡ name.now }
{
    file.seek(to).map_err(|why| files::fail(rt, name, why))
}

// Opens the file, and reports.
fn run(rt: &(impl Files + Print + Eprint), name: &[u8]) -> Result<(), Failed>
    ensures { name.now ≡ name.now }
{
    let mut file = files::open(rt, name)?;
    measure(rt, &mut file, name)
}

fn main(rt: HostRuntime) {
    if files::arguments(&rt) != 1 {
        files::complain(&rt, b"logread: call it as `logread LOG`, a link log\n");
        return;
    }
    let mut name = [0u8; ARGUMENT];
    if let Ok(n) = files::file_name(&rt, 1, b"logread: the file's name", &mut name) {
        let _ = run(&rt, &name[..n]);
    }
}
