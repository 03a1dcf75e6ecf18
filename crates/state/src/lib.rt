// The state of an engine as bytes, laid out as specs/Layout.antt says.
#![tactic(auto)]

ghost use Rattle.std.specs.Prelude.{◌≡◌, true, ◌^◌, ◌≤◌, length, replicate};
ghost use Rattle.state.specs.Layout.{state_size, regs_in, pattern_in, opened_in, room_in, decoded, is_state, Bytes, with_slots, command_slots, followed};

use acts::Blit;
use bank::Bank;
use engine::Engine;
use registers::Regs;
use rooms::{Room, Rooms};

// Whether open made these bytes: their number, the mark, and a flag that is one.
#[tactic(auto, unfolding(crate::specs::Layout::is_state))]
pub fn is_state(s: &[u8]) -> bool
    ensures { (result ≡ is_state s.now) × (result ≡ true → Bytes s.now) }
{
    s.len() == 396 && basics::word_at(s, 0) == 0x656d_6952 && basics::word_at(s, 4) < 2
}

#[tactic(auto, unfolding(crate::specs::Layout::regs_in))]
fn decode_regs(s: &[u8]) -> Regs
    requires { length s.now ≡ state_size }
    ensures { result ≡ regs_in s.now }
{
    Regs {
        clip0_min: basics::word_at(s, 0x08),
        clip0_max: basics::word_at(s, 0x0c),
        dst_base_addr: basics::word_at(s, 0x10),
        dst_format: basics::word_at(s, 0x14),
        src_colorkey_min: basics::word_at(s, 0x18),
        src_colorkey_max: basics::word_at(s, 0x1c),
        dst_colorkey_min: basics::word_at(s, 0x20),
        dst_colorkey_max: basics::word_at(s, 0x24),
        bres_error0: basics::word_at(s, 0x28),
        bres_error1: basics::word_at(s, 0x2c),
        rop: basics::word_at(s, 0x30),
        src_base_addr: basics::word_at(s, 0x34),
        command_extra: basics::word_at(s, 0x38),
        line_stipple: basics::word_at(s, 0x3c),
        line_style: basics::word_at(s, 0x40),
        clip1_min: basics::word_at(s, 0x4c),
        clip1_max: basics::word_at(s, 0x50),
        src_format: basics::word_at(s, 0x54),
        src_size: basics::word_at(s, 0x58),
        src_xy: basics::word_at(s, 0x5c),
        color_back: basics::word_at(s, 0x60),
        color_fore: basics::word_at(s, 0x64),
        dst_size: basics::word_at(s, 0x68),
        dst_xy: basics::word_at(s, 0x6c),
        command: basics::word_at(s, 0x70),
    }
}

fn decode_pattern(s: &[u8]) -> [u8; 256]
    requires { length s.now ≡ state_size }
    ensures { result ≡ pattern_in s.now }
{
    let mut p = [0; 256];
    p.copy_from_slice(&s[0x8c..0x18c]);
    p
}

pub fn opened_for(s: &[u8]) -> usize
    requires { length s.now ≡ state_size }
    ensures { result ≡ opened_in s.now }
{
    basics::word_at(s, 0x74) as usize + basics::word_at(s, 0x78) as usize * 0x1_0000_0000
}

fn decode_room(s: &[u8], at: usize) -> Room
    requires { (length s.now ≡ state_size) × (at ≤ 0x84) }
    ensures { result ≡ room_in s.now at }
{
    Room {
        pixels: basics::word_at(s, at),
        rows: basics::word_at(s, at + 4),
    }
}

#[tactic(auto, unfolding(crate::specs::Layout::decoded))]
pub fn decode(s: &[u8]) -> Engine
    requires { length s.now ≡ state_size }
    ensures { result ≡ decoded s.now }
{
    Engine {
        bank: Bank {
            regs: decode_regs(s),
            pattern: decode_pattern(s),
        },
        blit: Blit {
            waiting: basics::word_at(s, 4) == 1,
            taken: basics::word_at(s, 0x44),
            last: basics::word_at(s, 0x48),
        },
        opened: opened_for(s),
        rooms: Rooms {
            source: decode_room(s, 0x7c),
            target: decode_room(s, 0x84),
        },
    }
}

// What a command can change: four registers and the host blit.
#[tactic(auto, unfolding(crate::specs::Layout::slot, registers::specs::Regs::get_reg))]
pub fn save(s: &mut [u8], e: Engine)
    requires { length s.old ≡ state_size }
    ensures { s.new ≡ with_slots s.old e command_slots }
{
    basics::put_word(s, 0x40, e.bank.regs.line_style);
    basics::put_word(s, 0x5c, e.bank.regs.src_xy);
    basics::put_word(s, 0x6c, e.bank.regs.dst_xy);
    basics::put_word(s, 0x70, e.bank.regs.command);
    basics::put_word(s, 4, u32::from(e.blit.waiting));
    basics::put_word(s, 0x44, e.blit.taken);
    basics::put_word(s, 0x48, e.blit.last);
}

// What is kept of the surface that a register belongs to, worked out anew after a store into it.
#[tactic(auto, unfolding(crate::specs::Layout::followed))]
pub fn follow(s: &mut [u8], len: u32, offset: u32)
    requires { (length s.old ≡ state_size) × (len ≤ 2 ^ 24) }
    ensures { s.new ≡ followed s.old len offset }
{
    match offset {
        0x10 | 0x14 => {
            let k = rooms::target_room(len, basics::word_at(s, 0x10), basics::word_at(s, 0x14));
            basics::put_word(s, 0x84, k.pixels);
            basics::put_word(s, 0x88, k.rows);
        }
        0x34 | 0x54 => {
            let k = rooms::source_room(len, basics::word_at(s, 0x34), basics::word_at(s, 0x54));
            basics::put_word(s, 0x7c, k.pixels);
            basics::put_word(s, 0x80, k.rows);
        }
        _ => {}
    }
}

pub fn clear(s: &mut [u8])
    requires { length s.old ≡ state_size }
    ensures { s.new ≡ replicate state_size 0 }
{
    s.fill(0);
}
