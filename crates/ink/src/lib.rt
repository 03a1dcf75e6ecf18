// What does not change within a command, and how its pattern lies.
#![tactic(auto)]

ghost use Rattle.std.specs.Prelude.{◌≡◌, cond, ◌+◌, ◌-◌, ◌*◌, ◌/◌, ◌%◌, ◌^◌, ◌<◌, ◌≤◌, eqb, get_or};
ghost use Rattle.surface.specs.Asked.{Colour};
ghost use Rattle.ink.specs.Pattern.{pattern_column, pattern_row, pattern_in, pattern_value, RowOf, ValuesOf};
ghost use Rattle.ink.specs.Asked.{Cell};

use surface::Surface;

// What does not change within a command: the target, the colours, the four raster operations, the two keys, and how the pattern lies. The operations and the keys
// are fields of their own and not an array or a struct: the specs of the crates above name them so.
#[derive(Clone, Copy)]
pub struct Ink {
    pub target: Surface,
    pub fore: u32,
    pub back: u32,
    pub rop0: u32,
    pub rop1: u32,
    pub rop2: u32,
    pub rop3: u32,
    pub src_key: bool,
    pub src_min: u32,
    pub src_max: u32,
    pub dst_key: bool,
    pub dst_min: u32,
    pub dst_max: u32,
    pub mono: bool,
    pub forced: bool,
    pub pat_x: u32,
    pub pat_y: u32,
    pub clear: bool,
}

pub fn pattern_column(ink: Ink, x: u32) -> u32
    ensures { (result ≡ pattern_column ink x) × (result < 8) }
{
    (x % 8 + ink.pat_x % 8) % 8
}

pub fn pattern_row(ink: Ink, y: u32) -> u32
    ensures { (result ≡ pattern_row ink y) × (result < 8) }
{
    if ink.forced {
        return 0;
    }
    (y % 8 + ink.pat_y % 8) % 8
}

pub fn pattern_byte(pattern: [u8; 256], at: u32) -> u32
    requires { at < 256 }
    ensures { (result ≡ get_or pattern at 0) × (result < 256) }
{
    u32::from(pattern[at as usize])
}

// The bit of one row of a mono pattern.
pub fn bit_of(byte: u32, column: u32) -> u32
    requires { column < 8 }
    ensures { result ≡ byte / 2 ^ (7 - column) % 2 }
{
    (byte >> (7 - column)) % 2
}

// The value at a column and a row: of a mono pattern by its row's byte, of a colour pattern by the four bytes from the pixel's place on.
#[tactic(auto, unfolding(crate::specs::Pattern::pattern_in, crate::specs::Pattern::pattern_bit))]
fn pattern_in(ink: Ink, pattern: &[u8; 256], column: u32, row: u32) -> u32
    requires { Cell ink.target.bytes column row }
    ensures { result ≡ pattern_in ink pattern.now column row }
{
    if ink.mono {
        if bit_of(u32::from(pattern[row as usize]), column) == 1 {
            return ink.fore;
        }
        return ink.back;
    }
    let n = ink.target.bytes;
    let at = ((row * 8 + column) * n) as usize;
    surface::low_bytes(n, surface::get_bytes(pattern, at, 4))
}

// The pattern at a pixel.
pub fn pattern_at(ink: Ink, pattern: [u8; 256], x: u32, y: u32) -> u32
    requires { Colour ink.target }
    ensures { result ≡ pattern_value ink pattern x y }
{
    pattern_seen(ink, &pattern, x, y)
}

// The same of a pattern that is lent, so that a loop over many pixels copies it once.
pub fn pattern_seen(ink: Ink, pattern: &[u8; 256], x: u32, y: u32) -> u32
    requires { Colour ink.target }
    ensures { result ≡ pattern_value ink pattern.now x y }
{
    pattern_in(ink, pattern, pattern_column(ink, x), pattern_row(ink, y))
}

// The eight values of a row of the pattern.
pub fn row_values(ink: Ink, pattern: [u8; 256], row: u32) -> [u32; 8]
    requires { Colour ink.target × (row < 8) }
    ensures { RowOf ink pattern row result }
{
    let mut values = [0u32; 8];
    for column in 0..8 {
        values[column as usize] = pattern_in(ink, &pattern, column, row);
    }
    values
}

// The values at the first rows, at most eight, of eight pixels from (x, y) on.
pub fn values_at(ink: Ink, pattern: [u8; 256], x: u32, y: u32, rows: u32) -> [u32; 64]
    requires { Colour ink.target × (x ≤ 2 ^ 13) × (y ≤ 2 ^ 13) × (rows ≤ 8) }
    ensures { ValuesOf ink pattern x y rows result }
{
    let mut values = [0u32; 64];
    for j in 0..rows {
        let row = pattern_row(ink, y + j);
        for i in 0..8 {
            values[(j * 8 + i) as usize] = pattern_in(
                ink,
                &pattern,
                pattern_column(ink, x + i),
                row,
            );
        }
    }
    values
}
