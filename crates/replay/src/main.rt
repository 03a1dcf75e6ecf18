// Recorded streams of register writes, replayed on the engine. Standard input holds little-endian words: for each stream the length that the
// engine is opened for, the number of its records and a seed for the memory's bytes, then the records. One of kind 0 or 1 is a write: offset, word and
// kind (kind 1: the memory is lent without its last byte). One of kind 2 is a run of words for the launch area: how many they are, at most 1023,
// whether the memory is lent as for kind 1, and kind; then the words, filled up to a multiple of three. For each stream it prints a head, a line
// `number count changed` for each write, `run number taken count changed` for each run, and checksums of registers and memory.
#![tactic(auto)]

ghost use Rattle.std.specs.Prelude.{◌≤◌, length, IfOk};

use engine::{Engine, Outcome, changed_of, count_of, number_of};
use std::io::{self, BufReader, BufWriter, Read, Write};

// What ends a stream before its time.
#[derive(Drop)]
enum Stop {
    Inside,
    LongRun,
    Failed(io::Error),
}

impl From<io::Error> for Stop {
    fn from(e: io::Error) -> Stop {
        Stop::Failed(e)
    }
}

// Reads until b is full or the input ends; how many bytes there were. Here and in the other program that reads records: what a reader brings is settled by no contract, and every public function has a contract that settles it.
fn read_full<R: Read>(input: &mut R, b: &mut [u8]) -> io::Result<usize>
    ensures { IfOk result (λ n. n ≤ length b.new) }
{
    let mut done = 0;
    // while: a read brings as many bytes as it has
    while done < b.len() {
        let n = input.read(&mut b[done..])?;
        if n == 0 {
            break;
        }
        done += n;
    }
    Ok(done)
}

// The next three words; None where the input has ended.
fn read_head<R: Read>(input: &mut R) -> Result<Option<[u32; 3]>, Stop> {
    let mut b = [0u8; 12];
    match read_full(input, &mut b)? {
        12 => Ok(Some([
            u32::from_le_bytes([b[0], b[1], b[2], b[3]]),
            u32::from_le_bytes([b[4], b[5], b[6], b[7]]),
            u32::from_le_bytes([b[8], b[9], b[10], b[11]]),
        ])),
        0 => Ok(None),
        _ => Err(Stop::Inside),
    }
}

// The same inside a stream, where they must be there.
fn read_record<R: Read>(input: &mut R) -> Result<[u32; 3], Stop> {
    read_head(input)?.ok_or(Stop::Inside)
}

fn play_write<W: Write>(
    out: &mut W,
    e: Engine,
    mem: &mut [u8],
    record: [u32; 3],
) -> io::Result<Engine> {
    let [offset, word, kind] = record;
    let len = recorded::lent(mem.len(), kind);
    let Outcome { engine, answer } = e.write(&mut mem[..len], offset, word);
    writeln!(
        out,
        "{} {} {}",
        number_of(answer),
        count_of(answer),
        changed_of(answer)
    )?;
    Ok(engine)
}

// The words of a run, three to a record.
fn play_run<R: Read, W: Write>(
    input: &mut R,
    out: &mut W,
    e: Engine,
    mem: &mut [u8],
    record: [u32; 3],
) -> Result<Engine, Stop> {
    let n = record[0] as usize;
    let mut run = [0u32; 1026];
    if 1023 < n {
        return Err(Stop::LongRun);
    }
    for i in 0..n.div_ceil(3) {
        run[3 * i..3 * i + 3].copy_from_slice(&read_record(input)?);
    }
    let len = recorded::lent(mem.len(), record[1]);
    let done = words::take_run(e, &mut mem[..len], &run[..n]);
    let number = done.number();
    writeln!(
        out,
        "run {number} {} {} {}",
        done.sums.taken, done.sums.count, done.sums.changed
    )?;
    Ok(done.engine)
}

// The records of a stream on an engine opened for a length.
fn play<R: Read, W: Write>(
    input: &mut R,
    out: &mut W,
    mem: &mut [u8],
    opened: usize,
    records: u32,
) -> Result<(), Stop> {
    let mut e = Engine::open(opened);
    for _ in 0..records {
        let record = read_record(input)?;
        e = if record[2] == 2 {
            play_run(input, out, e, mem, record)?
        } else {
            play_write(out, e, mem, record)?
        };
    }
    let registers = recorded::sum_registers(e);
    let memory = recorded::sum_memory(mem);
    writeln!(out, "registers {registers:08x} memory {memory:08x}")?;
    Ok(())
}

// All streams. One for a longer memory than there is gets all there is.
fn play_all<R: Read, W: Write>(input: &mut R, out: &mut W, mem: &mut [u8]) -> Result<(), Stop> {
    for k in 0..0x1_0000_0000u64 {
        let Some(head) = read_head(input)? else {
            return Ok(());
        };
        let [opened, records, seed] = head;
        writeln!(out, "stream {k}: {opened} bytes")?;
        let len = mem.len().min(opened as usize);
        recorded::fill(&mut mem[..len], seed);
        play(input, out, &mut mem[..len], opened as usize, records)?;
    }
    Ok(())
}

fn main(rt: HostRuntime) -> io::Result<()> {
    let alloc = rt.alloc();
    let mut input = BufReader::new(alloc, rt.stdin())?;
    let mut out = BufWriter::new(alloc, rt.stdout())?;
    let mut mem = vec![in alloc; 0u8; 65536]?;
    match play_all(&mut input, &mut out, &mut mem) {
        Ok(()) => {}
        Err(Stop::Inside) => writeln!(out, "the input ends inside a stream")?,
        Err(Stop::LongRun) => writeln!(out, "a run has more than 1023 words")?,
        Err(Stop::Failed(e)) => return Err(e),
    }
    out.flush()
}
