// Recorded streams of command packets, delivered in pieces. Standard input holds little-endian words: for each stream the length that the engine is opened for,
// a seed for the memory's bytes, the number of its pieces and 0; for each piece how many bytes it has, at most 4096, and its kind (1: the memory is lent without
// its last byte; 2: the reader is opened anew first; 3: both), then the bytes, filled up to a multiple of four. For each stream it prints a head, a line
// `number count changed` for each answer, `tail HELD WORD KIND OFFSET LEFT CLOSED` and checksums of registers and memory. A piece has no line of its own, so that
// a stream prints the same text however it is cut.
#![tactic(auto)]

ghost use Rattle.std.specs.Prelude.{◌≤◌, length, IfOk};

use engine::Engine;
use packets::{Reader, Rest};
use std::io::{self, BufReader, BufWriter, Read, Write};

// What ends a stream before its time.
#[derive(Drop)]
enum Stop {
    Inside,
    LongPiece,
    Failed(io::Error),
}

impl From<io::Error> for Stop {
    fn from(e: io::Error) -> Stop {
        Stop::Failed(e)
    }
}

// A reader of packets and the engine that its writes go to.
#[derive(Clone, Copy)]
struct Pair {
    reader: Reader,
    engine: Engine,
}

// Reads until b is full or the input ends; how many bytes there were. Here and in the other program that reads records: what a reader brings is settled by no contract, and every public function has a contract that settles it.
fn read_full<R: Read>(input: &mut R, b: &mut [u8]) -> io::Result<usize>
    ensures { IfOk result (λ n. n ≤ length b.new) }
{
    let mut done = 0;
    // while: a read brings as many bytes as it has
    while done < b.len() {
        let n = input.read(&mut b[done..])?;
        if n == 0 {
            break;
        }
        done += n;
    }
    Ok(done)
}

// Two words, and how many of their eight bytes the input had.
fn read_two<R: Read>(input: &mut R) -> io::Result<([u32; 2], usize)> {
    let mut b = [0u8; 8];
    let came = read_full(input, &mut b)?;
    let first = u32::from_le_bytes([b[0], b[1], b[2], b[3]]);
    let second = u32::from_le_bytes([b[4], b[5], b[6], b[7]]);
    Ok(([first, second], came))
}

// The first two words of a stream; None where the input has ended. Where it ends among them, so it does before the next two.
fn read_head<R: Read>(input: &mut R) -> io::Result<Option<[u32; 2]>> {
    let (head, came) = read_two(input)?;
    Ok(if came == 0 { None } else { Some(head) })
}

// Two words inside a stream, where they must be there.
fn read_words<R: Read>(input: &mut R) -> Result<[u32; 2], Stop> {
    match read_two(input)? {
        (words, 8) => Ok(words),
        _ => Err(Stop::Inside),
    }
}

// A piece, its answers sixteen at a time.
fn play_piece<W: Write>(out: &mut W, pair: Pair, mem: &mut [u8], piece: &[u8]) -> io::Result<Pair> {
    let mut p = pair;
    let mut rest = piece;
    let mut answers = [0u32; 48];
    // a proved loop has to end: the turns are counted from a number that no piece uses up
    for _ in 0..4097 {
        let fed = intake::feed(p.reader, p.engine, mem, rest, &mut answers);
        p = Pair {
            reader: fed.reader,
            engine: fed.engine,
        };
        for answer in answers[..fed.answered * 3].chunks(3) {
            if let [number, count, changed] = answer {
                writeln!(out, "{number} {count} {changed}")?;
            }
        }
        rest = &rest[fed.used..];
        if rest.is_empty() {
            break;
        }
    }
    Ok(p)
}

// What is left of a packet: nothing, words for one address, words along the addresses, or a mask.
fn kind_of(rest: Rest) -> u32 {
    match rest {
        Rest::Empty => 0,
        Rest::Counted(_, 0, _) => 1,
        Rest::Counted(_, _, _) => 2,
        Rest::Masked(_, _) => 3,
    }
}

fn say_tail<W: Write>(out: &mut W, r: Reader) -> io::Result<()> {
    writeln!(
        out,
        "tail {:x} {:08x} {:x} {:08x} {:08x} {:x}",
        r.held,
        r.word,
        kind_of(r.rest),
        tail::offset_of(r.rest),
        tail::left_of(r.rest),
        r.closed as u32
    )
}

// The bytes of a piece, filled up to a multiple of four.
fn next_piece<R: Read, W: Write>(
    input: &mut R,
    out: &mut W,
    pair: Pair,
    mem: &mut [u8],
) -> Result<Pair, Stop> {
    let [size, kind] = read_words(input)?;
    let n = size as usize;
    let mut bytes = [0u8; 4096];
    if 4096 < n {
        return Err(Stop::LongPiece);
    }
    let filled = n.next_multiple_of(4);
    if read_full(input, &mut bytes[..filled])? < filled {
        return Err(Stop::Inside);
    }
    let reader = if kind / 2 % 2 == 1 {
        Reader::open()
    } else {
        pair.reader
    };
    let len = recorded::lent(mem.len(), kind % 2);
    Ok(play_piece(out, Pair { reader, ..pair }, &mut mem[..len], &bytes[..n])?)
}

// The pieces of a stream on an engine opened for a length.
fn play<R: Read, W: Write>(
    input: &mut R,
    out: &mut W,
    mem: &mut [u8],
    opened: usize,
    pieces: u32,
) -> Result<(), Stop> {
    let mut p = Pair {
        reader: Reader::open(),
        engine: Engine::open(opened),
    };
    for _ in 0..pieces {
        p = next_piece(input, out, p, mem)?;
    }
    say_tail(out, p.reader)?;
    let registers = recorded::sum_registers(p.engine);
    let memory = recorded::sum_memory(mem);
    writeln!(out, "registers {registers:08x} memory {memory:08x}")?;
    Ok(())
}

// All streams. One for a longer memory than there is gets all there is.
fn play_all<R: Read, W: Write>(input: &mut R, out: &mut W, mem: &mut [u8]) -> Result<(), Stop> {
    for k in 0..0x1_0000_0000u64 {
        let Some(head) = read_head(input)? else {
            return Ok(());
        };
        let [opened, seed] = head;
        let [pieces, _] = read_words(input)?;
        writeln!(out, "stream {k}: {opened} bytes")?;
        let len = mem.len().min(opened as usize);
        recorded::fill(&mut mem[..len], seed);
        play(input, out, &mut mem[..len], opened as usize, pieces)?;
    }
    Ok(())
}

fn main(rt: HostRuntime) -> io::Result<()> {
    let alloc = rt.alloc();
    let mut input = BufReader::new(alloc, rt.stdin())?;
    let mut out = BufWriter::new(alloc, rt.stdout())?;
    let mut mem = vec![in alloc; 0u8; 65536]?;
    match play_all(&mut input, &mut out, &mut mem) {
        Ok(()) => {}
        Err(Stop::Inside) => writeln!(out, "the input ends inside a stream")?,
        Err(Stop::LongPiece) => writeln!(out, "a piece has more than 4096 bytes")?,
        Err(Stop::Failed(e)) => return Err(e),
    }
    out.flush()
}
