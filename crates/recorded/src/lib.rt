// What the programs that play recorded streams share: the memory at the start, how much of it is lent, and checksums.
#![tactic(auto)]

ghost use Rattle.std.specs.Prelude.{◌≡◌, ◌+◌, ◌*◌, ◌/◌, ◌%◌, ◌^◌, ◌≤◌, ◌<◌, length};
ghost use Rattle.basics.specs.Each.{each};
ghost use Rattle.recorded.specs.Recorded.{start_byte, Started, lent_of, mixed, mixed_word, memory_sum, reads_from, room_words, register_sum};

use engine::Engine;
use rooms::Rooms;

// Byte i of the memory at the start.
fn start_byte(i: usize, seed: u32) -> u8
    ensures { result ≡ start_byte i seed }
{
    let k = i % 256;
    ((k * k % 256 * 7 + k * 13 + (seed % 256) as usize) % 256) as u8
}

pub fn fill(mem: &mut [u8], seed: u32)
    ensures { Started mem.new (length mem.old) seed }
{
    for i in 0..mem.len() {
        mem[i] = start_byte(i, seed);
    }
}

// How much of a memory of len bytes a record of this kind is lent; the kind is a number of the recorded input.
pub fn lent(len: usize, kind: u32) -> usize
    ensures { (result ≡ lent_of len kind) × (result ≤ len) }
{
    if kind == 1 {
        len.saturating_sub(1)
    } else {
        len
    }
}

// The checksum after one byte more.
fn mix_byte(sum: u64, byte: u8) -> u64
    ensures { result ≡ mixed byte sum }
{
    (sum ^ u64::from(byte)) % 0x1_0000_0000 * 16777619 % 0x1_0000_0000
}

// After a word's four bytes, low byte first.
fn mix_word(sum: u64, word: u32) -> u64
    ensures { result ≡ mixed_word word sum }
{
    let [a, b, c, d] = word.to_le_bytes();
    mix_byte(mix_byte(mix_byte(mix_byte(sum, a), b), c), d)
}

// The checksum after so many words that are read back from an offset on.
#[tactic(auto, using(crate::proofs::Laws::reads_again, crate::proofs::Laws::reads_end))]
fn mix_reads(e: Engine, sum: u64, offset: u32, words: u32) -> u64
    requires { offset + 4 * words ≤ 0x200 }
    ensures { result ≡ each mixed_word (reads_from e offset words) sum }
{
    let mut h = sum;
    for i in 0..words {
        h = mix_word(h, e.read(offset + 4 * i).unwrap_or(0));
    }
    h
}

// After what is kept of source and target.
#[tactic(auto, unfolding(basics::specs::Each::each))]
fn mix_rooms(sum: u64, k: Rooms) -> u64
    ensures { result ≡ each mixed_word (room_words k) sum }
{
    let source = mix_word(mix_word(sum, k.source.pixels), k.source.rows);
    mix_word(mix_word(source, k.target.pixels), k.target.rows)
}

pub fn sum_registers(e: Engine) -> u64
    ensures { result ≡ register_sum e }
{
    let registers = mix_reads(e, 2166136261, 0x08, 27);
    let pattern = mix_reads(e, registers, 0x100, 64);
    mix_rooms(mix_byte(pattern, u8::from(e.blit.waiting)), e.rooms)
}

pub fn sum_memory(mem: &[u8]) -> u64
    ensures { result ≡ memory_sum mem.now }
{
    let mut h = 2166136261;
    for &byte in mem {
        h = mix_byte(h, byte);
    }
    h
}
