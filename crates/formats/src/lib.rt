// What the two words of a surface say: where it is, how its rows step, and its format.
#![tactic(auto)]

ghost use Rattle.std.specs.Prelude.{◌≡◌, ◌+◌, ◌-◌, ◌%◌, ◌^◌, ◌<◌};
ghost use Rattle.formats.specs.Format.{bytes_of, coloured, is_tiled, target_named, view_named, target_of, source_named, host_named, source_of};
ghost use Rattle.formats.specs.Step.{row_length, step_of};
ghost use Rattle.formats.specs.Asked.{Sized};

use surface::Surface;

// A code is the format's number as the registers have it; the specs name formats by it.
fn bytes_of(code: u32) -> u32
    ensures { result ≡ bytes_of code }
{
    match code {
        3 => 2,
        4 => 3,
        5 => 4,
        1 => 1,
        _ => 0,
    }
}

fn is_coloured(code: u32) -> bool
    ensures { result ≡ coloured code }
{
    matches!(code, 1 | 3 | 4 | 5)
}

fn is_tiled(base: u32) -> bool
    ensures { result ≡ is_tiled base }
{
    base / 0x8000_0000 % 2 == 1
}

// Whether a target's words name a surface.
pub fn names_target(format: u32) -> bool
    ensures { result ≡ target_named format }
{
    is_coloured(format / 0x1_0000 % 8)
}

// Whether they name one whose rows can be viewed.
pub fn names_view(base: u32, format: u32) -> bool
    ensures { result ≡ view_named base format }
{
    !is_tiled(base) & names_target(format)
}

#[tactic(auto, unfolding(crate::specs::Format::target_of))]
pub fn target_of(base: u32, format: u32) -> Surface
    ensures { result ≡ target_of base format }
{
    Surface {
        base: base % 0x100_0000,
        stride: format % 0x4000,
        bytes: bytes_of(format / 0x1_0000 % 8),
        tiled: is_tiled(base),
    }
}

// Whether a source's words do.
pub fn names_source(base: u32, format: u32) -> bool
    ensures { result ≡ source_named base format }
{
    let code = format / 0x1_0000 % 16;
    if is_tiled(base) {
        return is_coloured(code) & (format / 0x40_0000 % 4 == 0);
    }
    (code == 0) | is_coloured(code)
}

// Whether a host blit's do.
pub fn names_host(base: u32, format: u32) -> bool
    ensures { result ≡ host_named base format }
{
    let code = format / 0x1_0000 % 16;
    !is_tiled(base) & ((code == 0) | is_coloured(code))
}

// The bytes of a row of so many pixels.
#[tactic(auto, unfolding(crate::specs::Step::row_length))]
pub fn row_length(bytes: u32, width: u32) -> u32
    requires { Sized bytes width }
    ensures { result ≡ row_length bytes width }
{
    let bits = if bytes == 0 { 1 } else { 8 * bytes };
    (width * bits).div_ceil(8)
}

// The step from row to row under a packing.
#[tactic(auto, using(crate::proofs::FormatLaws::row_small), unfolding(crate::specs::Step::step_of))]
fn step_of(packing: u32, bytes: u32, width: u32, stride: u32) -> u32
    requires { Sized bytes width }
    ensures { result ≡ step_of packing bytes width stride }
{
    let row = row_length(bytes, width);
    // the packing's number in the register
    match packing {
        0 => stride,
        1 => row,
        2 => row.next_multiple_of(2),
        _ => row.next_multiple_of(4),
    }
}

#[tactic(auto, using(crate::proofs::FormatLaws::bytes_small), unfolding(crate::specs::Format::source_of))]
pub fn source_of(base: u32, format: u32, width: u32) -> Surface
    requires { width < 2 ^ 13 }
    ensures { result ≡ source_of base format width }
{
    let bytes = bytes_of(format / 0x1_0000 % 16);
    Surface {
        base: base % 0x100_0000,
        stride: step_of(format / 0x40_0000 % 4, bytes, width, format % 0x4000),
        bytes,
        tiled: is_tiled(base),
    }
}
