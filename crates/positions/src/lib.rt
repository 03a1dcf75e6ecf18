// Positions of 13 signed bits: read, counted from 16384, and stepped.
#![tactic(auto)]

ghost use Rattle.std.specs.Prelude.{◌≡◌, ◌<◌};
ghost use Rattle.positions.specs.Position.{signed_of, placed, moved, stepped, stepped_xy};

// The low 13 bits as a signed number: turned by half their range, and that half taken away. A test of the sign costs a host word some 3 ns more.
fn signed13(raw: u32) -> i32
    ensures { result ≡ signed_of raw }
{
    ((raw % 8192 + 4096) % 8192) as i32 - 4096
}

// The same position as a natural number: read as signed, with the origin at 16384.
pub fn place13(raw: u32) -> u32
    ensures { result ≡ placed raw }
{
    (16384 + signed13(raw)) as u32
}

// A position moved by a size, wrapped within its 13 bits.
fn step13(raw: u32, size: u32) -> u32
    ensures { result ≡ moved raw size }
{
    (raw % 8192 + size % 8192) % 8192
}

fn step_if(on: bool, raw: u32, size: u32) -> u32
    ensures { (result ≡ stepped on raw size) × (result < 8192) }
{
    if on { step13(raw, size) } else { raw % 8192 }
}

// Both positions of an XY register, each moved by its half of a size register where its flag is set.
#[tactic(auto, unfolding(crate::specs::Position::stepped_xy))]
pub fn step_xy(xy: u32, size: u32, across: bool, down: bool) -> u32
    ensures { result ≡ stepped_xy xy size across down }
{
    let x = step_if(across, xy, size);
    let y = step_if(down, xy / 0x10000, size / 0x10000);
    x + y * 0x10000
}
