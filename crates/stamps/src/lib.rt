// The pages of the pixels that a command has written, marked in lent bytes that hold the marks as bits.
#![tactic(auto)]

ghost use Rattle.std.specs.Prelude.{◌≡◌, ◌+◌, ◌≤◌, length};
ghost use Rattle.command.specs.Decode.{target};
ghost use Rattle.pages.specs.Pages.{marking};
ghost use Rattle.bitmap.specs.Bits.{bits_in};
ghost use Rattle.acts.specs.Deed.{bank_of};
ghost use Rattle.trail.specs.Trail.{wet_by};
ghost use Rattle.trail.specs.Asked.{Went};
ghost use Rattle.stamps.specs.Stamps.{Stamped};

use acts::Blit;
use registers::Regs;

// A command that wrote `count` pixels. Where all pages of its rectangle are to be marked, their bits are set; else the pages are found on marks of their own, all clear
// before, and their bits are added. Public: its parameters stay as docs/PUBLIC.md has them.
pub fn stamp(
    s: &mut [u8],
    at: usize,
    r: Regs,
    pattern: &[u8; 256],
    blit: Blit,
    mem: &[u8],
    words: &[u32],
    count: u32,
)
    requires { Went (bank_of r pattern.now) blit words.now mem.now count × (at + 512 ≤ length s.old) }
    ensures { Stamped s.old s.new at (marking (target r) (wet_by (bank_of r pattern.now) blit words.now mem.now) (bits_in s.old at)) }
{
    let e = trail::extent_of(r, blit.taken, words.len() as u32, count);
    if e.whole {
        bitmap::set_bits(s, at, e.first, e.past);
        return;
    }
    let mut found = pages::no_marks();
    trail::walk(&mut found, r, pattern, blit, mem, words, count);
    bitmap::add_marks(s, at, &found, e.first, e.past);
}
