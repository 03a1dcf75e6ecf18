// Runs of words for the launch area: launch writes in order, up to the first that is refused.
#![tactic(auto)]

ghost use Rattle.std.specs.Prelude.{◌≡◌, ◌+◌, ◌%◌, ◌^◌, ◌<◌, length};
ghost use Rattle.words.specs.Words.{ran, ran_of, stop_number};
ghost use Rattle.words.specs.Turn.{sofar, turned, Went};

use acts::Operation;
use engine::{Engine, Refusal};
use paint::Tally;

// How many words of a run were taken, and the sums of their two counts.
#[derive(Clone, Copy)]
pub struct Sums {
    pub taken: usize,
    pub count: u64,
    pub changed: u64,
}

// What became of a run: the engine after the words that were taken, the refusal that stopped it, if one did, and what is told of those words.
#[derive(Clone, Copy)]
pub struct Run {
    pub engine: Engine,
    pub stopped: Option<Refusal>,
    pub sums: Sums,
}

impl Run {
    // The number of the refusal that stopped it, or 0.
    pub fn number(self) -> u32
        ensures { result ≡ stop_number self.stopped }
    {
        self.stopped.map_or(0, Refusal::number)
    }
}

// The sums after n words more.
fn add(t: Sums, n: usize, tally: Tally) -> Sums
    requires { t.taken + n < 2 ^ 64 }
    ensures { result ≡ record { taken = t.taken + n; count = (t.count + tally.count) % 2 ^ 64; changed = (t.changed + tally.changed) % 2 ^ 64 } }
{
    Sums {
        taken: t.taken + n,
        count: t.count.wrapping_add(u64::from(tally.count)),
        changed: t.changed.wrapping_add(u64::from(tally.changed)),
    }
}

// One turn of a run: those words up to the end of a host blit, or one of another command.
fn turn(e: &mut Engine, mem: &mut [u8], words: &[u32], sums: &mut Sums) -> Result<(), Refusal>
    requires { sums.old.taken < length words.now }
    ensures { Went words.now (sofar e.old mem.old sums.old) (turned result (sofar e.new mem.new sums.new)) }
{
    if 0x100_0000 < mem.len() || mem.len() != e.opened {
        return Err(Refusal::Memory);
    }
    match Operation::of(e.bank.regs) {
        Operation::HostBlit => {
            let fed = acts::feed_run(e.bank, e.blit, mem, &words[sums.taken..], e.rooms)?;
            e.bank = acts::end_feed(e.bank, fed.blit);
            e.blit = fed.blit;
            *sums = add(*sums, fed.used, fed.tally);
        }
        _ => {
            let act = acts::start(
                e.bank.regs,
                &e.bank.pattern,
                e.blit,
                mem,
                words[sums.taken],
                e.rooms,
            )?;
            e.bank.regs = acts::with_ends(e.bank.regs, act.ends);
            e.blit = act.blit;
            *sums = add(*sums, 1, act.tally);
        }
    }
    Ok(())
}

// The words of a run, each a launch write.
pub fn take_run(mut e: Engine, mem: &mut [u8], words: &[u32]) -> Run
    ensures { ran_of result mem.new ≡ ran e mem.old words.now }
{
    let mut sums = Sums {
        taken: 0,
        count: 0,
        changed: 0,
    };
    // while: a turn takes as many words as the host blit still needs.
    while sums.taken < words.len() {
        match turn(&mut e, mem, words, &mut sums) {
            Ok(()) => {}
            Err(refusal) => {
                return Run {
                    engine: e,
                    stopped: Some(refusal),
                    sums,
                };
            }
        }
    }
    Run {
        engine: e,
        stopped: None,
        sums,
    }
}
