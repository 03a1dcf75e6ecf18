// The clip, and what it leaves of a rectangle.
#![tactic(auto)]

ghost use Rattle.std.specs.Prelude.{◌≡◌, ◌-◌, ◌^◌, ◌<◌, ◌≤◌};
ghost use Rattle.cuts.specs.Cut.{bit, clip_by, clip_of, first_of, cut_low, cut_size, cut_at, fill_cut, copy_cut};
ghost use Rattle.cuts.specs.Asked.{Axis, CutRange};

use paint::Clip;
use registers::Regs;

// What the clip leaves of a rectangle: its first pixel and size, and the position of its first source pixel, counted from 16384.
#[derive(Clone, Copy)]
pub struct Cut {
    pub x: u32,
    pub y: u32,
    pub w: u32,
    pub h: u32,
    pub sx: u32,
    pub sy: u32,
}

fn clip_by(least: u32, most: u32) -> Clip
    ensures { result ≡ clip_by least most }
{
    Clip {
        left: least % 0x1000,
        right: most % 0x1000,
        top: least / 0x1_0000 % 0x1000,
        bottom: most / 0x1_0000 % 0x1000,
    }
}

#[tactic(auto, unfolding(crate::specs::Cut::clip_of))]
pub fn decode_clip(r: Regs) -> Clip
    ensures { result ≡ clip_of r }
{
    if r.command / 0x80_0000 % 2 == 1 {
        return clip_by(r.clip1_min, r.clip1_max);
    }
    clip_by(r.clip0_min, r.clip0_max)
}

// The first of n places that end at `at`, or begin there.
fn first_of(last: bool, at: u32, n: u32) -> u32
    requires { (n < 2 ^ 13) × ((12288 ≤ at) × (at < 20480)) }
    ensures { (result ≡ first_of last at n) × (result < 20480) }
{
    if last { at - n.saturating_sub(1) } else { at }
}

fn cut_low(least: u32, at: u32) -> u32
    requires { Axis least at }
    ensures { result ≡ cut_low least at }
{
    at.max(16384 + least)
}

fn cut_size(least: u32, most: u32, at: u32, n: u32) -> u32
    requires { Axis least at × ((most < 2 ^ 12) × (n < 2 ^ 13)) }
    ensures { result ≡ cut_size least most at n }
{
    (at + n)
        .min(16384 + most)
        .saturating_sub(cut_low(least, at))
}

// What the clip leaves of w by h pixels from (x, y), whose source begins at (sx, sy).
#[tactic(auto, unfolding(crate::specs::Cut::cut_at))]
fn cut_at(c: Clip, x: u32, y: u32, w: u32, h: u32, sx: u32, sy: u32) -> Cut
    requires { CutRange c x y w h sx sy }
    ensures { result ≡ cut_at c x y w h sx sy }
{
    let left = cut_low(c.left, x);
    let top = cut_low(c.top, y);
    Cut {
        x: left - 16384,
        y: top - 16384,
        w: cut_size(c.left, c.right, x, w),
        h: cut_size(c.top, c.bottom, y, h),
        sx: sx + (left - x),
        sy: sy + (top - y),
    }
}

#[tactic(auto, using(crate::proofs::CutLaws::clips), unfolding(crate::specs::Cut::fill_cut))]
pub fn fill_cut(r: Regs) -> Cut
    ensures { result ≡ fill_cut r }
{
    let clip = decode_clip(r);
    let x = positions::place13(r.dst_xy);
    let y = positions::place13(r.dst_xy / 0x1_0000);
    cut_at(
        clip,
        x,
        y,
        r.dst_size % 0x2000,
        r.dst_size / 0x1_0000 % 0x2000,
        16384,
        16384,
    )
}

// Whether a copy begins at the right column.
pub fn from_right(r: Regs) -> bool
    ensures { result ≡ bit r.command 14 }
{
    r.command / 0x4000 % 2 == 1
}

// Whether it begins at the bottom row.
pub fn from_bottom(r: Regs) -> bool
    ensures { result ≡ bit r.command 15 }
{
    r.command / 0x8000 % 2 == 1
}

// The rectangle of a copy, cut by its clip. Inline: as a call it makes small commands take longer.
#[tactic(auto, using(crate::proofs::CutLaws::clips), unfolding(crate::specs::Cut::copy_cut))]
#[inline(always)]
pub fn copy_cut(r: Regs) -> Cut
    ensures { result ≡ copy_cut r }
{
    let clip = decode_clip(r);
    let w = r.dst_size % 0x2000;
    let h = r.dst_size / 0x1_0000 % 0x2000;
    let right = from_right(r);
    let bottom = from_bottom(r);
    let x = first_of(right, positions::place13(r.dst_xy), w);
    let y = first_of(bottom, positions::place13(r.dst_xy / 0x1_0000), h);
    let sx = first_of(right, positions::place13(r.src_xy), w);
    let sy = first_of(bottom, positions::place13(r.src_xy / 0x1_0000), h);
    cut_at(clip, x, y, w, h, sx, sy)
}
