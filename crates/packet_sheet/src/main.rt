// The program for command packets: bytes of the command FIFO from standard input, delivered on 65,536 zero bytes. It prints clip0's rectangle of the target
// surface as a plain PPM, or the first fault met: `refused N at K`, where K counts the answers from 0, or `short write` where the input ends inside a packet.
#![tactic(auto)]

use engine::Engine;
use packets::{Reader, Rest};
use picture::Player;
use std::io::{self, Read, Write};

// Reader and engine so far, how many answers were 0 before the first that was not, and the number of that one, or 0; it may be the reader's 9.
#[derive(Clone, Copy)]
struct Course {
    reader: Reader,
    engine: Engine,
    taken: u64,
    refused: u32,
}

impl Course {
    // The answers of a piece, up to the first that is not 0.
    fn look(&mut self, answers: &[u32]) {
        for &number in answers.iter().step_by(3) {
            if number != 0 {
                self.refused = number;
                return;
            }
            self.taken = self.taken.wrapping_add(1);
        }
    }
}

// A proved loop has to end: the turns are counted from a number that no run uses up. A piece of 4,096 bytes has at most 1,024 answers: RoomEnough of the crate packets.
fn play_all<R: Read>(input: &mut R, mem: &mut [u8]) -> io::Result<Course> {
    let mut course = Course {
        reader: Reader::open(),
        engine: Engine::open(65536),
        taken: 0,
        refused: 0,
    };
    let mut bytes = [0u8; 4096];
    let mut answers = [0u32; 3075];
    for _ in 0..u64::MAX {
        let n = input.read(&mut bytes)?;
        let fed = intake::feed(course.reader, course.engine, mem, &bytes[..n], &mut answers);
        course.reader = fed.reader;
        course.engine = fed.engine;
        course.look(&answers[..fed.answered * 3]);
        if (n == 0) | (course.refused != 0) {
            break;
        }
    }
    Ok(course)
}

// How many bytes are held, or one where words of a packet are left.
fn unfinished(r: Reader) -> u32 {
    match r.rest {
        Rest::Empty => r.held,
        _ => 1,
    }
}

// The text, printed. Each program prints by itself: no contract settles what a writer gets, and every public function has a contract that settles it.
fn write_text<W: Write>(to: &mut W, p: Player, mem: &[u8], out: &mut [u8]) -> io::Result<()> {
    let n = p.text(mem, out);
    to.write_all(&out[..n])
}

// The same in the arrays that hold them: apart, since the check would look at each byte of an array that it sees made.
fn show<W: Write>(
    to: &mut W,
    p: Player,
    mem: &[u8; 65536],
    out: &mut [u8; 786449],
) -> io::Result<()> {
    write_text(to, p, mem, out)
}

fn main(rt: HostRuntime) -> io::Result<()> {
    // On the stack, so that no run ends for want of heap.
    let mut mem = [0u8; 65536];
    let course = play_all(&mut rt.stdin(), &mut mem)?;
    let player = Player {
        engine: course.engine,
        window: 0,
        held: unfinished(course.reader),
        played: course.taken,
        refused: course.refused,
    };
    // No text is longer than 786,449 bytes: WholeText of the crate picture.
    let mut out = [0u8; 786449];
    show(&mut rt.stdout(), player, &mem, &mut out)
}
