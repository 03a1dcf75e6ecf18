// Rows 5 to 8 of the table of answers, for a command as the registers have it. What is kept of both surfaces shortens the tests of row 7; no answer hangs on it.
#![tactic(auto)]

ghost use Rattle.std.specs.Prelude.{◌≡◌, ◌-◌, ◌<◌};
ghost use Rattle.surface.specs.Asked.{Small};
ghost use Rattle.spans.specs.Span.{span_of, meet};
ghost use Rattle.cuts.specs.Cut.{covered, needed};
ghost use Rattle.table.specs.Fault.{verdict_number};
ghost use Rattle.table.specs.Table.{fine_with, both_fine, host_fine, all_on_at, pixels, reach_of, taken_cut, target_row, source_rows, stretch_rows, stretch_fault, host_fault, fill_verdict, copy_verdict, stretch_verdict, host_verdict, line_verdict};
ghost use Rattle.table.specs.Asked.{InRows, Reaches, OnScales};

use cuts::Cut;
use registers::Regs;
use rooms::{Room, Rooms};
use scale::{Scale, Stretch};
use surface::Surface;

// The rows of the table of answers that refuse a command, 4 to 8 in this order.
#[derive(Clone, Copy, Debug, PartialEq, Eq)]
pub enum Fault {
    NotBuilt,
    Format,
    Host,
    Off,
    Meet,
}

fn fine_with(named: bool, r: Regs) -> bool
    ensures { result ≡ fine_with named r }
{
    let s = command::source_surface(r);
    let t = command::target_surface(r);
    formats::names_target(r.dst_format) & (named & colour::may_convert(s.bytes, t.bytes))
}

fn both_fine(r: Regs) -> bool
    ensures { result ≡ both_fine r }
{
    fine_with(formats::names_source(r.src_base_addr, r.src_format), r)
}

// The same for a host blit.
fn host_fine(r: Regs) -> bool
    ensures { result ≡ host_fine r }
{
    fine_with(formats::names_host(r.src_base_addr, r.src_format), r)
}

// Whether every source pixel that a copy needs is on its surface: the first is not negative, and the last is there.
#[tactic(auto, using(crate::proofs::Sources::needs))]
fn needed_on(len: usize, s: Surface, c: Cut, room: Room) -> bool
    requires { Small s }
    ensures { result ≡ all_on_at s len (needed c) }
{
    if c.w == 0 || c.h == 0 {
        return true;
    }
    if c.sx < 16384 || c.sy < 16384 {
        return false;
    }
    rooms::rect_in(len, s, room, c.sx - 16384, c.sy - 16384, c.w, c.h)
}

// Whether the spans of what a copy paints and of what it needs meet; the source's rectangle is that of cut b.
#[tactic(auto, using(crate::proofs::Sources::clashes))]
fn spans_clash(t: Surface, s: Surface, c: Cut, b: Cut) -> bool
    requires { InRows t s c b }
    ensures { result ≡ meet (span_of t (covered c)) (span_of s (pixels (needed b))) }
{
    if c.w == 0 || c.h == 0 {
        return false;
    }
    let painted = spans::rect_span(t, c.x, c.y, c.w, c.h);
    let taken = spans::rect_span(s, b.sx - 16384, b.sy - 16384, b.w, b.h);
    spans::spans_meet(painted, taken)
}

// Rows 7 and 8 of a command that paints cut c of t and takes box b of s: something is off its surface, or the spans meet.
// A lenient command may have both on one surface.
#[tactic(auto, unfolding(crate::specs::Table::source_rows))]
fn source_rows(
    len: usize,
    t: Surface,
    s: Surface,
    c: Cut,
    b: Cut,
    lenient: bool,
    k: Rooms,
) -> Result<(), Fault>
    requires { Small t × Small s × (0 < c.w → 0 < c.h → (0 < b.w) × (0 < b.h)) }
    ensures { verdict_number result ≡ source_rows t s len c (needed b) lenient }
{
    if !rooms::rect_in(len, t, k.target, c.x, c.y, c.w, c.h) | !needed_on(len, s, b, k.source) {
        return Err(Fault::Off);
    }
    if !(lenient & surface::same_surface(t, s)) & spans_clash(t, s, c, b) {
        return Err(Fault::Meet);
    }
    Ok(())
}

// Row 7 of a command that paints what the clip leaves of its target rectangle. Inline: as a call it makes small commands take longer.
#[tactic(auto, using(formats::proofs::FormatLaws::target_small))]
#[inline(always)]
fn target_row(len: usize, r: Regs, k: Rooms) -> Result<(), Fault>
    ensures { verdict_number result ≡ target_row r len }
{
    let t = command::target_surface(r);
    let c = cuts::fill_cut(r);
    if !rooms::rect_in(len, t, k.target, c.x, c.y, c.w, c.h) {
        return Err(Fault::Off);
    }
    Ok(())
}

#[tactic(auto, unfolding(crate::specs::Table::fill_verdict))]
pub fn fill_verdict(len: usize, r: Regs, k: Rooms) -> Result<(), Fault>
    ensures { verdict_number result ≡ fill_verdict r len }
{
    if !formats::names_target(r.dst_format) {
        return Err(Fault::Format);
    }
    target_row(len, r, k)
}

#[tactic(auto, using(crate::proofs::Verdicts::smalls), unfolding(crate::specs::Table::copy_verdict, crate::specs::Table::source_rows))]
pub fn copy_verdict(len: usize, r: Regs, k: Rooms) -> Result<(), Fault>
    ensures { verdict_number result ≡ copy_verdict r len }
{
    if !both_fine(r) {
        return Err(Fault::Format);
    }
    let c = cuts::copy_cut(r);
    let t = command::target_surface(r);
    let s = command::source_surface(r);
    source_rows(len, t, s, c, c, true, rooms::tell(r.src_format, k))
}

// The source places that target places take, on one axis: the first, and how many there are from it to the last.
#[derive(Clone, Copy)]
struct Reach {
    pub at: u32,
    pub n: u32,
}

#[tactic(auto, using(crate::proofs::Stretches::ups), unfolding(crate::specs::Table::reach_of))]
fn reach_of(s: Scale, at: u32, n: u32) -> Reach
    requires { Reaches s at n }
    ensures { result ≡ reach_of s at n }
{
    let first = scale::place_of(s, 16384 + at);
    let last = scale::place_of(s, 16384 + (at + (n - 1)));
    Reach {
        at: first,
        n: last - first + 1,
    }
}

// The box of the source positions that the pixels of a cut take.
#[tactic(auto, unfolding(crate::specs::Table::taken_cut))]
fn taken_cut(t: Stretch, c: Cut) -> Cut
    requires { Reaches t.columns c.x c.w × Reaches t.rows c.y c.h }
    ensures { result ≡ taken_cut t c }
{
    let across = reach_of(t.columns, c.x, c.w);
    let down = reach_of(t.rows, c.y, c.h);
    Cut {
        x: 0,
        y: 0,
        w: across.n,
        h: down.n,
        sx: across.at,
        sy: down.at,
    }
}

// Rows 7 and 8 of a stretch to the pixels of a cut. Source positions go up with the target's, so that the box has them all, and its corners are taken.
#[tactic(auto, using(crate::proofs::Stretches::boxes))]
fn stretch_rows(len: usize, t: Stretch, c: Cut, k: Rooms) -> Result<(), Fault>
    requires { OnScales t c }
    ensures { verdict_number result ≡ stretch_rows t c len }
{
    if c.w == 0 || c.h == 0 {
        return Ok(());
    }
    source_rows(len, t.ink.target, t.from, c, taken_cut(t, c), false, k)
}

// Whether row 6 applies to a stretch: its source has no width or no height, and its target has both.
fn stretch_fault(r: Regs) -> bool
    ensures { result ≡ stretch_fault r }
{
    ((0 < r.dst_size % 0x2000) & (0 < r.dst_size / 0x1_0000 % 0x2000))
        & ((r.src_size % 0x2000 == 0) | (r.src_size / 0x1_0000 % 0x2000 == 0))
}

#[tactic(auto, using(crate::proofs::Stretches::stretches), unfolding(crate::specs::Table::stretch_verdict))]
pub fn stretch_verdict(len: usize, r: Regs, k: Rooms) -> Result<(), Fault>
    ensures { verdict_number result ≡ stretch_verdict r len }
{
    if !both_fine(r) {
        return Err(Fault::Format);
    }
    if stretch_fault(r) {
        return Err(Fault::Host);
    }
    let t = command::decode_stretch(r);
    stretch_rows(len, t, cuts::fill_cut(r), rooms::tell(r.src_format, k))
}

// Whether row 6 applies to a host blit.
#[tactic(auto, using(crate::proofs::Verdicts::smalls))]
fn host_fault(r: Regs) -> bool
    ensures { result ≡ host_fault r }
{
    let s = command::source_surface(r);
    let row = formats::row_length(s.bytes, r.dst_size % 0x2000);
    (r.src_format / 0x10_0000 % 4 != 0)
        | ((r.command / 0x4000 % 4 != 0)
            | ((r.src_xy != 0) | ((r.src_format / 0x40_0000 % 4 == 0) & (s.stride < row))))
}

#[tactic(auto, unfolding(crate::specs::Table::host_verdict))]
pub fn host_verdict(len: usize, r: Regs, k: Rooms) -> Result<(), Fault>
    ensures { verdict_number result ≡ host_verdict r len }
{
    if !host_fine(r) {
        return Err(Fault::Format);
    }
    if host_fault(r) {
        return Err(Fault::Host);
    }
    target_row(len, r, k)
}

#[tactic(auto, using(crate::proofs::Verdicts::drawables), unfolding(crate::specs::Table::line_verdict))]
pub fn line_verdict(len: usize, r: Regs) -> Result<(), Fault>
    ensures { verdict_number result ≡ line_verdict r len }
{
    if !formats::names_target(r.dst_format) {
        return Err(Fault::Format);
    }
    let t = command::target_surface(r);
    if line::line_off(len, t, cuts::decode_clip(r), command::decode_line(r)) {
        return Err(Fault::Off);
    }
    Ok(())
}
