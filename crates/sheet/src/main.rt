// The program: a recorded stream of register writes from standard input, played on 65,536 zero bytes. It prints clip0's rectangle of the target
// surface as a plain PPM, or the first fault met.
#![tactic(auto)]

use picture::Player;
use std::io::{self, Read, Write};

// A proved loop has to end: the turns are counted from a number that no run uses up.
fn play_all<R: Read>(input: &mut R, mem: &mut [u8]) -> io::Result<Player> {
    let mut player = Player::open(65536);
    let mut buf = [0u8; 4096];
    for _ in 0..u64::MAX {
        let n = input.read(&mut buf)?;
        player = player.feed(mem, &buf[..n]);
        if (n == 0) | (player.refused != 0) {
            break;
        }
    }
    Ok(player)
}

// The text, printed. Each program prints by itself: no contract settles what a writer gets, and every public function has a contract that settles it.
fn write_text<W: Write>(to: &mut W, p: Player, mem: &[u8], out: &mut [u8]) -> io::Result<()> {
    let n = p.text(mem, out);
    to.write_all(&out[..n])
}

// The same in the arrays that hold them: apart, since the check would look at each byte of an array that it sees made.
fn show<W: Write>(
    to: &mut W,
    p: Player,
    mem: &[u8; 65536],
    out: &mut [u8; 786449],
) -> io::Result<()> {
    write_text(to, p, mem, out)
}

fn main(rt: HostRuntime) -> io::Result<()> {
    // On the stack, so that no run ends for want of heap.
    let mut mem = [0u8; 65536];
    let player = play_all(&mut rt.stdin(), &mut mem)?;
    // No text is longer than 786,449 bytes, three lines and 65,536 lines of 12: WholeSheet of the crate picture.
    let mut out = [0u8; 786449];
    show(&mut rt.stdout(), player, &mem, &mut out)
}
