// The engine for callers in C, C++ and Rust. Its state lies in bytes that the caller lends: crate state.
#![tactic(auto)]

ghost use Rattle.std.specs.Prelude.{◌≡◌, ℕ, true, ◌+◌, ◌<◌, ◌≤◌, length};
ghost use Rattle.state.specs.Layout.{state_size, is_state, Bytes};
ghost use Rattle.capi.specs.Calls.{packed_answer, call, opening, written_to, run_call, ran_to, opened_to, read_of, part, part_of, plainly, registered};
ghost use Rattle.capi.specs.Asked.{Draws};
ghost use Rattle.capi.specs.Packets.{Kept, kept, by_call, opened_reader, packet_call, packets_to};

use engine::{Answer, Outcome, changed_of};
use packets::{Machine, Reader};
use registers::Place;

// An answer's number in the high 32 bits, its count in the low 32.
fn pack(a: Answer) -> u64
    ensures { result ≡ packed_answer a }
{
    u64::from(engine::number_of(a)) * 0x1_0000_0000 + u64::from(engine::count_of(a))
}

// A word that draws nothing, stored at its place in the state where the tests let it.
#[tactic(auto, unfolding(crate::specs::Calls::tested))]
fn put_plain(s: &mut [u8], len: usize, at: usize, word: u32) -> u64
    requires { (length s.old ≡ state_size) × (at + 4 ≤ state_size) }
    ensures { opening s.new result ≡ plainly s.old len at word }
{
    if 0x100_0000 < len || len != state::opened_for(s) {
        return 0x1_0000_0000;
    }
    if basics::word_at(s, 4) == 1 {
        return 0x3_0000_0000;
    }
    basics::put_word(s, at, word);
    0
}

// A word for a register that starts nothing: its kept bits are stored, and of a surface's register what is kept of that surface.
fn put_register(s: &mut [u8], len: usize, offset: u32, word: u32) -> u64
    requires { (length s.old ≡ state_size) × (offset + 4 ≤ state_size) }
    ensures { opening s.new result ≡ registered s.old len offset word }
{
    let kept = registers::kept_bits(offset, word);
    let answer = put_plain(s, len, offset as usize, kept);
    if answer != 0 {
        return answer;
    }
    state::follow(s, len as u32, offset);
    0
}

// A write to command, a launch write, or one to no register.
fn run(s: &mut [u8], mem: &mut [u8], offset: u32, word: u32, changed: &mut u32) -> u64
    requires { (is_state s.old ≡ true) × (Bytes s.old × Draws offset) }
    ensures { call s.new mem.new result changed.new ≡ written_to s.old mem.old offset word }
{
    let Outcome { engine, answer } = state::decode(s).write(mem, offset, word);
    state::save(s, engine);
    *changed = changed_of(answer);
    pack(answer)
}

// The bytes of a state.
#[unsafe(no_mangle)]
pub extern "C" fn rimebarrow_state_size() -> usize
    ensures { result ≡ state_size }
{
    396
}

// A fresh engine for a memory of size bytes: 0, or 255 where the state has another length.
#[unsafe(no_mangle)]
pub extern "C" fn rimebarrow_open(state: &mut [u8], size: usize) -> u32
    ensures { opening state.new result ≡ opened_to state.old size }
{
    if state.len() != 396 {
        return 255;
    }
    state::clear(state);
    basics::put_word(state, 0, 0x656d_6952);
    basics::put_word(state, 0x74, (size % 0x1_0000_0000) as u32);
    basics::put_word(state, 0x78, (size / 0x1_0000_0000) as u32);
    0
}

// One register write: the answer's number in the high 32 bits and the count in the low ones; `changed` gets how many of the pixels changed. A word that
// draws nothing goes to its place in the state; for any other the engine is taken out of its bytes and put back.
#[unsafe(no_mangle)]
pub extern "C" fn rimebarrow_write(
    state: &mut [u8],
    memory: &mut [u8],
    offset: u32,
    word: u32,
    changed: &mut u32,
) -> u64
    ensures { call state.new memory.new result changed.new ≡ written_to state.old memory.old offset word }
{
    *changed = 0;
    if !state::is_state(state) {
        return 0xff_0000_0000;
    }
    match registers::find_place(offset) {
        Place::Register => {
            if offset == 0x70 {
                return run(state, memory, offset, word, changed);
            }
            put_register(state, memory.len(), offset, word)
        }
        Place::Pattern(at) => put_plain(state, memory.len(), 0x8c + at, word),
        Place::Launch | Place::Nowhere => run(state, memory, offset, word, changed),
    }
}

// A run of words for the launch area, each a launch write: the number of the answer that stopped it, or 0. The other numbers get how many words were taken, and
// the sums of their counts and of what changed.
#[unsafe(no_mangle)]
pub extern "C" fn rimebarrow_run(
    state: &mut [u8],
    memory: &mut [u8],
    run: &[u32],
    taken: &mut usize,
    count: &mut u64,
    changes: &mut u64,
) -> u32
    ensures { run_call state.new memory.new result taken.new count.new changes.new ≡ ran_to state.old memory.old run.now }
{
    *taken = 0;
    *count = 0;
    *changes = 0;
    if !state::is_state(state) {
        return 255;
    }
    let e = state::decode(state);
    let out = words::take_run(e, memory, run);
    state::save(state, out.engine);
    *taken = out.sums.taken;
    *count = out.sums.count;
    *changes = out.sums.changed;
    out.number()
}

// The state and the memory that are lent: `rimebarrow_write` carries a register write out.
#[derive(Drop)]
struct ByCall<'a> {
    state: &'a mut [u8],
    memory: &'a mut [u8],
}

impl Machine for ByCall<'_> {
    ghost Seen = { Kept };

    ghost Stays = { ℕ × ℕ };

    ghost seen = { λ m. kept m.state.now m.memory.now };

    ghost stays = { λ m. (m.state.ghost_name, m.memory.ghost_name) };

    ghost by = { by_call };

    fn write(&mut self, offset: u32, word: u32) -> packets::Answer {
        let mut changed: u32 = 0;
        let answer = rimebarrow_write(self.state, self.memory, offset, word, &mut changed);
        packets::Answer {
            number: (answer / 0x1_0000_0000) as u32,
            count: (answer % 0x1_0000_0000) as u32,
            changed,
        }
    }
}

// An empty reader: 0, or 255 where its bytes have another number.
#[unsafe(no_mangle)]
#[tactic(auto, unfolding(crate::specs::Packets::opened_reader))]
pub extern "C" fn rimebarrow_reader(reader: &mut [u8]) -> u32
    ensures { opening reader.new result ≡ opened_reader reader.old }
{
    if reader.len() != 32 {
        return 255;
    }
    tail::save(reader, Reader::open());
    0
}

// A piece of command packets: 0, or 255 where the reader or the state is none. Each register write is one of `rimebarrow_write`; the answers go into the lent
// run, three words each.
#[unsafe(no_mangle)]
pub extern "C" fn rimebarrow_packets(
    reader: &mut [u8],
    state: &mut [u8],
    memory: &mut [u8],
    piece: &[u8],
    answers: &mut [u32],
    used: &mut usize,
    answered: &mut usize,
) -> u32
    ensures { packet_call reader.new state.new memory.new answers.new result used.new answered.new ≡ packets_to reader.old state.old memory.old piece.now answers.old }
{
    *used = 0;
    *answered = 0;
    if !tail::is_reader(reader) || !state::is_state(state) {
        return 255;
    }
    let mut machine = ByCall { state, memory };
    let fed = packets::feed(tail::decode(reader), &mut machine, piece, answers);
    tail::save(reader, fed.reader);
    *used = fed.used;
    *answered = fed.answered;
    0
}

// What a register holds: the number in the high 32 bits, and the word in the low ones.
#[unsafe(no_mangle)]
pub extern "C" fn rimebarrow_read(state: &[u8], offset: u32) -> u64
    ensures { result ≡ read_of state.now offset }
{
    if !state::is_state(state) {
        return 0xff_0000_0000;
    }
    match registers::find_place(offset) {
        Place::Register => u64::from(basics::word_at(state, offset as usize)),
        Place::Pattern(at) => u64::from(basics::word_at(state, 0x8c + at)),
        Place::Launch | Place::Nowhere => 0x2_0000_0000,
    }
}

// The bytes of some pixels of a row of a surface: the place of the first and their number, both 0 where the view is refused.
#[unsafe(no_mangle)]
pub extern "C" fn rimebarrow_view(
    memory: &[u8],
    base: u32,
    format: u32,
    x: u32,
    y: u32,
    width: u32,
    start: &mut usize,
    count: &mut usize,
) -> u32
    ensures { part result start.new count.new ≡ part_of memory.now base format x y width }
{
    let answer = views::view_answer(memory.len(), base, format, x, y, width);
    if answer != 0 {
        *start = 0;
        *count = 0;
        return answer;
    }
    let s = formats::target_of(base, format);
    *start = surface::byte_of(s, x, y, 0);
    *count = width as usize * s.bytes as usize;
    0
}
