// The engine: a register write decoded, judged by the table of answers, and carried out.
#![tactic(auto)]

ghost use Rattle.std.specs.Prelude.{◌≡◌, ◌^◌, ◌≤◌};
ghost use Rattle.table.specs.Fault.{fault_number};
ghost use Rattle.engine.specs.Step.{number_in, number_of, count_of, changed_of, refusal, fresh_engine, settled, step, launched, commanded, to_register, to_pattern, written, read_from};

use acts::{Act, Blit};
use bank::Bank;
use paint::Tally;
use registers::{Place, Regs};
use rooms::Rooms;
use std::error::Error;
use std::fmt;
use table::Fault;

// The register state, the host blit, the length of the memory that the engine was opened for, and what is kept of both surfaces beside the registers.
#[derive(Clone, Copy)]
pub struct Engine {
    pub bank: Bank,
    pub blit: Blit,
    pub opened: usize,
    pub rooms: Rooms,
}

// The refusals of document 01's table, by their numbers there.
#[derive(Clone, Copy, PartialEq, Eq, Debug)]
pub enum Refusal {
    Memory = 1,
    Offset = 2,
    Waiting = 3,
    NotBuilt = 4,
    Format = 5,
    Host = 6,
    Off = 7,
    Meet = 8,
}

impl Refusal {
    pub fn number(self) -> u32
        ensures { result ≡ number_in self }
    {
        self as u32
    }
}

impl fmt::Display for Refusal {
    ghost use Rattle.std.specs.Prelude.{Some};
    ghost use Rattle.engine.specs.Reasons.{reason};

    ghost output = { λ refusal. Some (reason refusal) };

    fn fmt<W: fmt::Write>(&self, f: &mut fmt::Formatter<W>) -> fmt::Result {
        match self {
            Refusal::Memory => f.write_str(
                "the memory is too long, or not of the length that the engine was opened with",
            ),
            Refusal::Offset => f.write_str("the offset names no register"),
            Refusal::Waiting => f.write_str(
                "a host blit waits for its data, and this write is neither launch data nor to command",
            ),
            Refusal::NotBuilt => f.write_str("the command is not built"),
            Refusal::Format => f.write_str(
                "a surface it uses has a format that is not listed, or the conversion is not allowed, or a source that is mono, packed or a host blit's is tiled",
            ),
            Refusal::Host => f.write_str(
                "host blit: swizzle bits, direction bits or srcXY not 0, or a stride below the row's bytes; stretch copy: a source of no width or no height, and a target that has both",
            ),
            Refusal::Off => f.write_str(
                "a covered pixel, or a source pixel that it needs, is off its surface",
            ),
            Refusal::Meet => f.write_str(
                "a screen copy between different surfaces, or a stretch copy, whose spans meet",
            ),
        }
    }
}

impl Error for Refusal {}

impl From<Fault> for Refusal {
    ghost from_gives = { λ fault refused. refused ≡ refusal (fault_number fault) };

    #[tactic(auto, unfolding(crate::specs::Step::refusal))]
    fn from(fault: Fault) -> Refusal {
        match fault {
            Fault::NotBuilt => Refusal::NotBuilt,
            Fault::Format => Refusal::Format,
            Fault::Host => Refusal::Host,
            Fault::Off => Refusal::Off,
            Fault::Meet => Refusal::Meet,
        }
    }
}

// What a write is answered: how many pixels it wrote, and how many of them have other bytes than just before; or why it is refused.
pub type Answer = Result<Tally, Refusal>;

// An answer's number in the table: 0 where the write is taken.
pub fn number_of(answer: Answer) -> u32
    ensures { result ≡ number_of answer }
{
    match answer {
        Ok(_) => 0,
        Err(refusal) => refusal.number(),
    }
}

// The count of pixels written, 0 for a refusal.
pub fn count_of(answer: Answer) -> u32
    ensures { result ≡ count_of answer }
{
    answer.map_or(0, |tally| tally.count)
}

// How many of them changed, 0 for a refusal.
pub fn changed_of(answer: Answer) -> u32
    ensures { result ≡ changed_of answer }
{
    answer.map_or(0, |tally| tally.changed)
}

#[derive(Clone, Copy)]
pub struct Outcome {
    pub engine: Engine,
    pub answer: Answer,
}

const NOTHING: Tally = Tally {
    count: 0,
    changed: 0,
};

impl Engine {
    // A fresh engine for a memory of len bytes.
    #[tactic(auto, unfolding(crate::specs::Step::fresh_engine))]
    pub fn open(len: usize) -> Engine
        ensures { result ≡ fresh_engine len }
    {
        Engine {
            bank: Bank::fresh(),
            blit: acts::no_blit(),
            opened: len,
            rooms: rooms::no_rooms(),
        }
    }

    // What a register holds.
    pub fn read(self, offset: u32) -> Option<u32>
        ensures { result ≡ read_from self offset }
    {
        self.bank.read(offset)
    }

    // What becomes of the engine by a command that had these registers: refused, it stays.
    fn settle(self, regs: Regs, act: Result<Act, Fault>) -> Outcome
        ensures { result ≡ settled self regs act }
    {
        match act {
            Ok(act) => {
                let bank = Bank {
                    regs: acts::with_ends(regs, act.ends),
                    ..self.bank
                };
                let engine = Engine {
                    bank,
                    blit: act.blit,
                    ..self
                };
                Outcome {
                    engine,
                    answer: Ok(act.tally),
                }
            }
            Err(fault) => Outcome {
                engine: self,
                answer: Err(Refusal::from(fault)),
            },
        }
    }

    fn launch(self, mem: &mut [u8], word: u32) -> Outcome
        ensures { step result.engine mem.new result.answer ≡ launched self mem.old word }
    {
        let act = acts::launch(
            self.bank.regs,
            self.bank.pattern,
            self.blit,
            mem,
            word,
            self.rooms,
        );
        self.settle(self.bank.regs, act)
    }

    fn take_command(self, mem: &mut [u8], word: u32) -> Outcome
        ensures { step result.engine mem.new result.answer ≡ commanded self mem.old word }
    {
        let next = Engine {
            bank: self.bank.store(0x70, word),
            blit: acts::no_blit(),
            ..self
        };
        if word / 0x100 % 2 == 1 {
            // a copy, made in this branch alone: a field that is lent keeps the whole engine in memory
            let pattern = self.bank.pattern;
            let act = acts::carry(next.bank.regs, &pattern, next.blit, mem, next.rooms);
            return self.settle(next.bank.regs, act);
        }
        Outcome {
            engine: next,
            answer: Ok(NOTHING),
        }
    }

    #[tactic(auto, unfolding(crate::specs::Step::to_register, crate::specs::Step::stored_in))]
    fn take_register(self, mem: &mut [u8], offset: u32, word: u32) -> Outcome
        requires { self.opened ≤ 2 ^ 24 }
        ensures { step result.engine mem.new result.answer ≡ to_register self mem.old offset word }
    {
        if offset == 0x70 {
            return self.take_command(mem, word);
        }
        if self.blit.waiting {
            return Outcome {
                engine: self,
                answer: Err(Refusal::Waiting),
            };
        }
        let bank = self.bank.store(offset, word);
        let rooms = rooms::follow(self.opened as u32, offset, bank.regs, self.rooms);
        let engine = Engine {
            bank,
            rooms,
            ..self
        };
        Outcome {
            engine,
            answer: Ok(NOTHING),
        }
    }

    #[tactic(auto, unfolding(crate::specs::Step::to_pattern))]
    fn take_pattern(self, mem: &[u8], at: usize, word: u32) -> Outcome
        ensures { step result.engine mem.now result.answer ≡ to_pattern self mem.now at word }
    {
        if self.blit.waiting {
            return Outcome {
                engine: self,
                answer: Err(Refusal::Waiting),
            };
        }
        let bank = self.bank.store_pattern(at, word);
        Outcome {
            engine: Engine { bank, ..self },
            answer: Ok(NOTHING),
        }
    }

    // One register write: the engine after it, and the answer.
    #[tactic(auto, unfolding(crate::specs::Step::written))]
    pub fn write(self, mem: &mut [u8], offset: u32, word: u32) -> Outcome
        ensures { step result.engine mem.new result.answer ≡ written self mem.old offset word }
    {
        let len = mem.len();
        if 0x100_0000 < len || len != self.opened {
            return Outcome {
                engine: self,
                answer: Err(Refusal::Memory),
            };
        }
        match registers::find_place(offset) {
            Place::Register => self.take_register(mem, offset, word),
            Place::Pattern(at) => self.take_pattern(mem, at, word),
            Place::Launch => self.launch(mem, word),
            Place::Nowhere => Outcome {
                engine: self,
                answer: Err(Refusal::Offset),
            },
        }
    }
}
