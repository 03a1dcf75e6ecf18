// A stream of register writes played byte by byte, and what is printed of it.
#![tactic(auto)]

ghost use Rattle.std.specs.Prelude.{◌≡◌, ◌+◌, ◌/◌, ◌%◌, ◌^◌, ◌<◌, ◌≤◌, length};
ghost use Rattle.engine.specs.Step.{written};
ghost use Rattle.ppm.specs.Text.{page, said};
ghost use Rattle.ppm.specs.Says.{Says};
ghost use Rattle.picture.specs.Player.{sheet, fresh_player, shifted, counted, wrote, arrived, taken, fed, refusal, printed};

use engine::{Engine, Outcome};
use ppm::Page;

// The engine, the last eight bytes that came and how many of them are of an unfinished pair, the number of pairs taken, and the number of
// the refusal met, or 0: a number, since the program for packets may put the packet reader's 9 there, which is no refusal of the engine.
#[derive(Clone, Copy)]
pub struct Player {
    pub engine: Engine,
    pub window: u64,
    pub held: u32,
    pub played: u64,
    pub refused: u32,
}

#[tactic(auto, unfolding(crate::specs::Player::counted))]
fn count(number: u32, played: u64) -> u64
    ensures { result ≡ counted number played }
{
    if number == 0 {
        played.wrapping_add(1)
    } else {
        played
    }
}

fn say_refusal(page: &mut Page, number: u32, index: u64)
    ensures { Says (refusal number index) page.old page.new }
{
    page.say(b"refused ");
    page.number(number as u64, b' ');
    page.say(b"at ");
    page.number(index, b'\n');
}

// The number of the last eight bytes, the new one highest.
fn shift(window: u64, byte: u8) -> u64
    ensures { result ≡ shifted window byte }
{
    window / 0x100 + u64::from(byte) * 0x100_0000_0000_0000
}

impl Player {
    // Nothing played, for a memory of len bytes.
    #[tactic(auto, unfolding(crate::specs::Player::fresh_player))]
    pub fn open(len: usize) -> Player
        ensures { result ≡ fresh_player len }
    {
        Player {
            engine: Engine::open(len),
            window: 0,
            held: 0,
            played: 0,
            refused: 0,
        }
    }

    // A whole pair is one register write.
    fn play(self, mem: &mut [u8], window: u64) -> Player
        ensures { sheet result mem.new ≡ wrote self window (written self.engine mem.old (window % 2 ^ 32) (window / 2 ^ 32)) }
    {
        let offset = (window % 0x1_0000_0000) as u32;
        let word = (window / 0x1_0000_0000) as u32;
        let Outcome { engine, answer } = self.engine.write(mem, offset, word);
        let refused = engine::number_of(answer);
        Player {
            engine,
            window,
            held: 0,
            played: count(refused, self.played),
            refused,
        }
    }

    #[tactic(auto, unfolding(crate::specs::Player::arrived))]
    fn arrive(self, mem: &mut [u8], window: u64) -> Player
        ensures { sheet result mem.new ≡ arrived (sheet self mem.old) window }
    {
        if self.held < 7 {
            return Player {
                window,
                held: self.held + 1,
                refused: 0,
                ..self
            };
        }
        self.play(mem, window)
    }

    // One byte of the stream.
    #[tactic(auto, unfolding(crate::specs::Player::taken))]
    pub fn take(self, mem: &mut [u8], byte: u8) -> Player
        ensures { sheet result mem.new ≡ taken byte (sheet self mem.old) }
    {
        if self.refused == 0 {
            self.arrive(mem, shift(self.window, byte))
        } else {
            self
        }
    }

    // Some bytes of the stream.
    pub fn feed(self, mem: &mut [u8], chunk: &[u8]) -> Player
        ensures { sheet result mem.new ≡ fed chunk.now (sheet self mem.old) }
    {
        let mut p = self;
        for &byte in chunk {
            p = p.take(mem, byte);
        }
        p
    }

    // What is printed at the stream's end.
    #[tactic(auto, unfolding(crate::specs::Player::printed))]
    fn print(self, mem: &[u8], page: &mut Page)
        ensures { Says (printed (sheet self mem.now)) page.old page.new }
    {
        if self.refused != 0 {
            say_refusal(page, self.refused, self.played);
        } else if self.held != 0 {
            page.say(b"short write\n");
        } else {
            page.picture(mem, self.engine.bank.regs);
        }
    }

    // The text of what is printed at the stream's end, put at the start of out; how many bytes it has there.
    pub fn text(self, mem: &[u8], out: &mut [u8]) -> usize
        ensures result_after { page out.new result ≡ said (printed (sheet self mem.now)) (page out.old 0) }
        ensures within { result ≤ length out.new }
    {
        let mut page = Page {
            bytes: out,
            used: 0,
        };
        self.print(mem, &mut page);
        page.used
    }
}
