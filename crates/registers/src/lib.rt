// The registers of the engine: what an offset names, which bits a register keeps, and storing and reading back.
#![tactic(auto)]

ghost use Rattle.std.specs.Prelude.{◌≡◌};
ghost use Rattle.registers.specs.Regs.{no_regs, put_reg, get_reg};
ghost use Rattle.registers.specs.Kept.{kept};
ghost use Rattle.registers.specs.Offsets.{place_of};

#[derive(Clone, Copy)]
pub struct Regs {
    pub clip0_min: u32,
    pub clip0_max: u32,
    pub dst_base_addr: u32,
    pub dst_format: u32,
    pub src_colorkey_min: u32,
    pub src_colorkey_max: u32,
    pub dst_colorkey_min: u32,
    pub dst_colorkey_max: u32,
    pub bres_error0: u32,
    pub bres_error1: u32,
    pub rop: u32,
    pub src_base_addr: u32,
    pub command_extra: u32,
    pub line_stipple: u32,
    pub line_style: u32,
    pub clip1_min: u32,
    pub clip1_max: u32,
    pub src_format: u32,
    pub src_size: u32,
    pub src_xy: u32,
    pub color_back: u32,
    pub color_fore: u32,
    pub dst_size: u32,
    pub dst_xy: u32,
    pub command: u32,
}

// What an offset names: a register, a word of the pattern by its first byte, the launch area, or nothing.
#[derive(Clone, Copy)]
pub enum Place {
    Register,
    Pattern(usize),
    Launch,
    Nowhere,
}

pub fn find_place(offset: u32) -> Place
    ensures { result ≡ place_of offset }
{
    if offset % 4 != 0 {
        return Place::Nowhere;
    }
    match offset {
        0x44 => Place::Pattern(0),
        0x48 => Place::Pattern(4),
        0x08..=0x70 => Place::Register,
        0x80..=0xfc => Place::Launch,
        0x100..=0x1fc => Place::Pattern((offset - 0x100) as usize),
        _ => Place::Nowhere,
    }
}

// The bits of a word that the register at an offset keeps.
pub fn kept_bits(offset: u32, word: u32) -> u32
    ensures { result ≡ kept offset word }
{
    match offset {
        0x08 | 0x0c | 0x4c | 0x50 => word % 0x1000 + word / 0x10000 % 0x1000 * 0x10000,
        0x10 | 0x34 => word % 0x1000000 + word / 0x80000000 % 2 * 0x80000000,
        0x14 => word % 0x4000 + word / 0x10000 % 0x8 * 0x10000,
        0x54 => word % 0x4000 + word / 0x10000 % 0x100 * 0x10000,
        0x40 | 0x58 | 0x5c | 0x68 | 0x6c => word % 0x2000 + word / 0x10000 % 0x2000 * 0x10000,
        0x18 | 0x1c | 0x20 | 0x24 | 0x30 => word % 0x1000000,
        0x38 => word % 0x10,
        _ => word,
    }
}

impl Regs {
    pub fn zero() -> Regs
        ensures { result ≡ no_regs }
    {
        Regs {
            clip0_min: 0,
            clip0_max: 0,
            dst_base_addr: 0,
            dst_format: 0,
            src_colorkey_min: 0,
            src_colorkey_max: 0,
            dst_colorkey_min: 0,
            dst_colorkey_max: 0,
            bres_error0: 0,
            bres_error1: 0,
            rop: 0,
            src_base_addr: 0,
            command_extra: 0,
            line_stipple: 0,
            line_style: 0,
            clip1_min: 0,
            clip1_max: 0,
            src_format: 0,
            src_size: 0,
            src_xy: 0,
            color_back: 0,
            color_fore: 0,
            dst_size: 0,
            dst_xy: 0,
            command: 0,
        }
    }

    pub fn put(mut self, offset: u32, v: u32) -> Regs
        ensures { result ≡ put_reg offset v self }
    {
        match offset {
            0x08 => self.clip0_min = v,
            0x0c => self.clip0_max = v,
            0x10 => self.dst_base_addr = v,
            0x14 => self.dst_format = v,
            0x18 => self.src_colorkey_min = v,
            0x1c => self.src_colorkey_max = v,
            0x20 => self.dst_colorkey_min = v,
            0x24 => self.dst_colorkey_max = v,
            0x28 => self.bres_error0 = v,
            0x2c => self.bres_error1 = v,
            0x30 => self.rop = v,
            0x34 => self.src_base_addr = v,
            0x38 => self.command_extra = v,
            0x3c => self.line_stipple = v,
            0x40 => self.line_style = v,
            0x4c => self.clip1_min = v,
            0x50 => self.clip1_max = v,
            0x54 => self.src_format = v,
            0x58 => self.src_size = v,
            0x5c => self.src_xy = v,
            0x60 => self.color_back = v,
            0x64 => self.color_fore = v,
            0x68 => self.dst_size = v,
            0x6c => self.dst_xy = v,
            0x70 => self.command = v,
            _ => {}
        }
        self
    }

    pub fn get(self, offset: u32) -> u32
        ensures { result ≡ get_reg offset self }
    {
        match offset {
            0x08 => self.clip0_min,
            0x0c => self.clip0_max,
            0x10 => self.dst_base_addr,
            0x14 => self.dst_format,
            0x18 => self.src_colorkey_min,
            0x1c => self.src_colorkey_max,
            0x20 => self.dst_colorkey_min,
            0x24 => self.dst_colorkey_max,
            0x28 => self.bres_error0,
            0x2c => self.bres_error1,
            0x30 => self.rop,
            0x34 => self.src_base_addr,
            0x38 => self.command_extra,
            0x3c => self.line_stipple,
            0x40 => self.line_style,
            0x4c => self.clip1_min,
            0x50 => self.clip1_max,
            0x54 => self.src_format,
            0x58 => self.src_size,
            0x5c => self.src_xy,
            0x60 => self.color_back,
            0x64 => self.color_fore,
            0x68 => self.dst_size,
            0x6c => self.dst_xy,
            0x70 => self.command,
            _ => 0,
        }
    }
}
