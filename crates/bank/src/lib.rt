// The whole register state: the registers and the pattern, stored into and read.
#![tactic(auto)]

ghost use Rattle.std.specs.Prelude.{◌≡◌};
ghost use Rattle.bank.specs.Bank.{put_word, get_word, fresh_bank, stored, patterned, read_at};

use registers::{Place, Regs};

// The whole register state: the registers and the 256 bytes of the colour pattern.
#[derive(Clone, Copy)]
pub struct Bank {
    pub regs: Regs,
    pub pattern: [u8; 256],
}

// A word into four bytes of the pattern, low byte first. Of an array by value, and nothing past its end, as the definitions say: so neither is one of basics' two.
#[tactic(auto, unfolding(crate::specs::Bank::put_word))]
fn put_word(mut p: [u8; 256], at: usize, word: u32) -> [u8; 256]
    ensures { result ≡ put_word p at word }
{
    if at <= 252 {
        [p[at], p[at + 1], p[at + 2], p[at + 3]] = word.to_le_bytes();
    }
    p
}

#[tactic(auto, unfolding(crate::specs::Bank::get_word))]
fn get_word(p: [u8; 256], at: usize) -> u32
    ensures { result ≡ get_word p at }
{
    if at <= 252 {
        u32::from_le_bytes([p[at], p[at + 1], p[at + 2], p[at + 3]])
    } else {
        0
    }
}

impl Bank {
    #[tactic(auto, unfolding(crate::specs::Bank::fresh_bank))]
    pub fn fresh() -> Bank
        ensures { result ≡ fresh_bank }
    {
        Bank {
            regs: Regs::zero(),
            pattern: [0; 256],
        }
    }

    #[tactic(auto, unfolding(crate::specs::Bank::stored))]
    pub fn store(mut self, offset: u32, word: u32) -> Bank
        ensures { result ≡ stored self offset word }
    {
        self.regs = self.regs.put(offset, registers::kept_bits(offset, word));
        self
    }

    #[tactic(auto, unfolding(crate::specs::Bank::patterned))]
    pub fn store_pattern(mut self, at: usize, word: u32) -> Bank
        ensures { result ≡ patterned self at word }
    {
        self.pattern = put_word(self.pattern, at, word);
        self
    }

    // What the register or the word of the pattern at an offset holds; None where the offset is none that can be read.
    #[tactic(auto, using(crate::proofs::BackLaws::read_of))]
    pub fn read(self, offset: u32) -> Option<u32>
        ensures { result ≡ read_at self offset }
    {
        match registers::find_place(offset) {
            Place::Register => Some(self.regs.get(offset)),
            Place::Pattern(at) => Some(get_word(self.pattern, at)),
            Place::Launch | Place::Nowhere => None,
        }
    }
}
