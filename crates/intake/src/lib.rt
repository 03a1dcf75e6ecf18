// Command packets for the engine: a reader finds the register writes in bytes that come in pieces, cut anywhere, and the engine carries each out once its last
// byte is there.
#![tactic(auto)]

ghost use Rattle.std.specs.Prelude.{◌≡◌, ◌*◌, ◌≤◌, length, ℕ};
ghost use Rattle.packets.specs.Answers.{called};
ghost use Rattle.intake.specs.Intake.{Machine as EngineAndMemory, machine, by_engine, fed_of};

use engine::{Engine, Outcome, changed_of, count_of, number_of};
use packets::{Answer, Machine, Reader};

// What a piece left: reader and engine, how many of its bytes were used, and how many answers were given.
#[derive(Clone, Copy)]
pub struct Fed {
    pub reader: Reader,
    pub engine: Engine,
    pub used: usize,
    pub answered: usize,
}

// The engine with the memory that it is lent.
#[derive(Drop)]
struct ByEngine<'a> {
    engine: Engine,
    mem: &'a mut [u8],
}

impl Machine for ByEngine<'_> {
    ghost Seen = { EngineAndMemory };

    ghost Stays = { ℕ };

    ghost seen = { λ m. machine m.engine m.mem.now };

    ghost stays = { λ m. m.mem.ghost_name };

    ghost by = { by_engine };

    fn write(&mut self, offset: u32, word: u32) -> Answer {
        let Outcome { engine, answer } = self.engine.write(self.mem, offset, word);
        self.engine = engine;
        Answer {
            number: number_of(answer),
            count: count_of(answer),
            changed: changed_of(answer),
        }
    }
}

// A piece of bytes. The answers go into the lent run, three words each: number, count of pixels written, how many of them changed. The call stops before the
// last byte of a word where the run has no room for one more answer.
pub fn feed(
    reader: Reader,
    engine: Engine,
    mem: &mut [u8],
    piece: &[u8],
    answers: &mut [u32],
) -> Fed
    ensures answers_after { fed_of result mem.new answers.new ≡ called by_engine reader (machine engine mem.old) piece.now answers.old }
    ensures within { (result.used ≤ length piece.now) × (result.answered * 3 ≤ length answers.new) }
{
    let mut machine = ByEngine { engine, mem };
    let packets::Fed {
        reader,
        used,
        answered,
    } = packets::feed(reader, &mut machine, piece, answers);
    Fed {
        reader,
        engine: machine.engine,
        used,
        answered,
    }
}
