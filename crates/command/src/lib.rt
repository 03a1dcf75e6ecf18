// What the registers say of a command's surfaces, its ink and its work.
#![tactic(auto)]

ghost use Rattle.std.specs.Prelude.{◌≡◌};
ghost use Rattle.command.specs.Decode.{target, origins, stretch_origins, ink_of, plain_blit, plain_of, fill_task, copy_task, stretch_of, line_of, pen_of, feed_of};

use bits::Plain;
use host::Feed;
use ink::Ink;
use line::{Line, Pen};
use registers::Regs;
use scale::{Scale, Stretch};
use surface::Surface;
use sweep::Task;

pub fn target_surface(r: Regs) -> Surface
    ensures { result ≡ target r }
{
    formats::target_of(r.dst_base_addr, r.dst_format)
}

pub fn source_surface(r: Regs) -> Surface
    ensures { result ≡ origins r }
{
    formats::source_of(r.src_base_addr, r.src_format, r.dst_size % 0x2000)
}

fn stretch_surface(r: Regs) -> Surface
    ensures { result ≡ stretch_origins r }
{
    formats::source_of(r.src_base_addr, r.src_format, r.src_size % 0x2000)
}

#[tactic(auto, unfolding(crate::specs::Decode::ink_of))]
pub fn decode_ink(r: Regs) -> Ink
    ensures { result ≡ ink_of r }
{
    let c = r.command;
    let e = r.command_extra;
    Ink {
        target: target_surface(r),
        fore: r.color_fore,
        back: r.color_back,
        rop0: c / 0x100_0000 % 0x100,
        rop1: r.rop % 0x100,
        rop2: r.rop / 0x100 % 0x100,
        rop3: r.rop / 0x1_0000 % 0x100,
        // e / 1: bit 0, as the definition says a bit.
        src_key: e / 1 % 2 == 1,
        src_min: r.src_colorkey_min,
        src_max: r.src_colorkey_max,
        dst_key: e / 2 % 2 == 1,
        dst_min: r.dst_colorkey_min,
        dst_max: r.dst_colorkey_max,
        mono: c / 0x2000 % 2 == 1,
        forced: e / 8 % 2 == 1,
        pat_x: c / 0x2_0000 % 8,
        pat_y: c / 0x10_0000 % 8,
        clear: c / 0x1_0000 % 2 == 1,
    }
}

// Whether a host blit is plain: its pixels get their sources, by raster operation CC and no keys.
pub fn is_plain(r: Regs) -> bool
    ensures { result ≡ plain_blit r }
{
    let e = r.command_extra;
    (r.command / 0x100_0000 % 0x100 == 0xcc) & (!(e / 1 % 2 == 1) & !(e / 2 % 2 == 1))
}

#[tactic(auto, unfolding(crate::specs::Decode::plain_of))]
pub fn decode_plain(r: Regs) -> Plain
    ensures { result ≡ plain_of r }
{
    Plain {
        target: target_surface(r),
        fore: r.color_fore,
        back: r.color_back,
        clear: r.command / 0x1_0000 % 2 == 1,
    }
}

#[tactic(auto, unfolding(crate::specs::Decode::fill_task))]
pub fn fill_task(r: Regs) -> Task
    ensures { result ≡ fill_task r }
{
    let c = cuts::fill_cut(r);
    let none = Surface {
        base: 0,
        stride: 0,
        bytes: 0,
        tiled: false,
    };
    Task {
        ink: decode_ink(r),
        copies: false,
        from: none,
        sx: 0,
        sy: 0,
        x: c.x,
        y: c.y,
    }
}

#[tactic(auto, unfolding(crate::specs::Decode::copy_task))]
pub fn copy_task(r: Regs) -> Task
    ensures { result ≡ copy_task r }
{
    let c = cuts::copy_cut(r);
    Task {
        ink: decode_ink(r),
        copies: true,
        from: source_surface(r),
        sx: c.sx.saturating_sub(16384),
        sy: c.sy.saturating_sub(16384),
        x: c.x,
        y: c.y,
    }
}

#[tactic(auto, unfolding(crate::specs::Decode::stretch_of))]
pub fn decode_stretch(r: Regs) -> Stretch
    ensures { result ≡ stretch_of r }
{
    Stretch {
        ink: decode_ink(r),
        from: stretch_surface(r),
        columns: Scale {
            to: positions::place13(r.dst_xy),
            size: r.dst_size % 0x2000,
            from: positions::place13(r.src_xy),
            source_size: r.src_size % 0x2000,
        },
        rows: Scale {
            to: positions::place13(r.dst_xy / 0x1_0000),
            size: r.dst_size / 0x1_0000 % 0x2000,
            from: positions::place13(r.src_xy / 0x1_0000),
            source_size: r.src_size / 0x1_0000 % 0x2000,
        },
    }
}

#[tactic(auto, unfolding(crate::specs::Decode::line_of))]
pub fn decode_line(r: Regs) -> Line
    ensures { result ≡ line_of r }
{
    Line {
        x0: positions::place13(r.src_xy),
        y0: positions::place13(r.src_xy / 0x1_0000),
        x1: positions::place13(r.dst_xy),
        y1: positions::place13(r.dst_xy / 0x1_0000),
        poly: r.command % 16 == 7, // a polyline's number, as `line_of` reads it
    }
}

pub fn decode_pen(r: Regs) -> Pen
    ensures { result ≡ pen_of r }
{
    Pen {
        stipple: r.line_stipple,
        stippled: r.command / 0x1000 % 2 == 1,
    }
}

#[tactic(auto, unfolding(crate::specs::Decode::feed_of))]
pub fn decode_feed(r: Regs) -> Feed
    ensures { result ≡ feed_of r }
{
    let s = source_surface(r);
    Feed {
        step: s.stride,
        width: r.dst_size % 0x2000,
        height: r.dst_size / 0x1_0000 % 0x2000,
        bytes: s.bytes,
        x: positions::place13(r.dst_xy),
        y: positions::place13(r.dst_xy / 0x1_0000),
    }
}
