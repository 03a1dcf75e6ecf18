// The reader of packets as bytes, laid out as specs/Layout.antt says.
#![tactic(auto)]

ghost use Rattle.std.specs.Prelude.{◌≡◌, length};
ghost use Rattle.tail.specs.Layout.{reader_size, kind_of, offset_of, step_of, left_of, rest_of, encoded, decoded, is_reader, with_rest};

use packets::{Reader, Rest};

// Whether bytes are a reader's.
#[tactic(auto, unfolding(crate::specs::Layout::is_reader))]
pub fn is_reader(s: &[u8]) -> bool
    ensures { result ≡ is_reader s.now }
{
    if s.len() != 32 {
        return false;
    }
    (basics::word_at(s, 0) == 0x6c69_6154)
        & (basics::word_at(s, 8) < 4)
        & (basics::word_at(s, 0xc) < 2)
        & (basics::word_at(s, 0x10) < 3)
}

#[tactic(auto, unfolding(crate::specs::Layout::rest_of))]
fn rest_of(kind: u32, offset: u32, step: u32, left: u32) -> Rest
    ensures { result ≡ rest_of kind offset step left }
{
    match kind {
        1 => Rest::Counted(offset, step, left),
        2 => Rest::Masked(offset, left),
        _ => Rest::Empty,
    }
}

#[tactic(auto, unfolding(crate::specs::Layout::decoded))]
pub fn decode(s: &[u8]) -> Reader
    requires { length s.now ≡ reader_size }
    ensures { result ≡ decoded s.now }
{
    Reader {
        word: basics::word_at(s, 0x04),
        held: basics::word_at(s, 0x08),
        rest: rest_of(
            basics::word_at(s, 0x10),
            basics::word_at(s, 0x14),
            basics::word_at(s, 0x18),
            basics::word_at(s, 0x1c),
        ),
        closed: basics::word_at(s, 0x0c) == 1,
    }
}

// A number, since it is stored: specs/Layout.antt fixes it.
fn kind_of(rest: Rest) -> u32
    ensures { result ≡ kind_of rest }
{
    match rest {
        Rest::Empty => 0,
        Rest::Counted(_, _, _) => 1,
        Rest::Masked(_, _) => 2,
    }
}

pub fn offset_of(rest: Rest) -> u32
    ensures { result ≡ offset_of rest }
{
    match rest {
        Rest::Empty => 0,
        Rest::Counted(offset, _, _) | Rest::Masked(offset, _) => offset,
    }
}

fn step_of(rest: Rest) -> u32
    ensures { result ≡ step_of rest }
{
    match rest {
        Rest::Counted(_, step, _) => step,
        Rest::Empty | Rest::Masked(_, _) => 0,
    }
}

pub fn left_of(rest: Rest) -> u32
    ensures { result ≡ left_of rest }
{
    match rest {
        Rest::Empty => 0,
        Rest::Counted(_, _, left) | Rest::Masked(_, left) => left,
    }
}

#[tactic(auto, unfolding(crate::specs::Layout::with_rest))]
fn save_rest(s: &mut [u8], rest: Rest)
    requires { length s.old ≡ reader_size }
    ensures { (s.new ≡ with_rest s.old rest) × (length s.new ≡ reader_size) }
{
    basics::put_word(s, 0x10, kind_of(rest));
    basics::put_word(s, 0x14, offset_of(rest));
    basics::put_word(s, 0x18, step_of(rest));
    basics::put_word(s, 0x1c, left_of(rest));
}

pub fn save(s: &mut [u8], r: Reader)
    requires { length s.old ≡ reader_size }
    ensures { s.new ≡ encoded r }
{
    basics::put_word(s, 0, 0x6c69_6154);
    basics::put_word(s, 0x04, r.word);
    basics::put_word(s, 0x08, r.held);
    basics::put_word(s, 0x0c, r.closed as u32);
    save_rest(s, r.rest);
}
