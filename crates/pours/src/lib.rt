// Words of host data put into memory as they are: whole pixels of the data's own format, one after the other from an address on.
#![tactic(auto)]

ghost use Rattle.std.specs.Prelude.{◌≡◌, ◌+◌, ◌*◌, ◌/◌, ◌%◌, ◌<◌, ◌≤◌, length};
ghost use Rattle.surface.specs.Asked.{Held};
ghost use Rattle.paint.specs.Paint.{state};
ghost use Rattle.pours.specs.Pours.{word_in, unlike, poured_at};
ghost use Rattle.pours.specs.Asked.{Pours, WordRead, unlike_word};

// The word in the four bytes from an address on, low byte first: one line, told as the laws of this room read it.
fn word_at(mem: &[u8], at: usize) -> u32
    requires { Held at 4 (length mem.now) }
    ensures { WordRead mem.now at result }
{
    u32::from_le_bytes([mem[at], mem[at + 1], mem[at + 2], mem[at + 3]])
}

// How many of the pixels of B bytes that two words are, four, two or one each, are not alike.
fn unlike_word<const B: u32>(old: u32, new: u32) -> u32
    requires { (0 < B) × (B < 5) × (B ≡ 3 → ⊥) }
    ensures { (result ≡ unlike_word B old new) × (result ≤ 4 / B) }
{
    match B {
        1 => {
            u32::from(old % 0x100 != new % 0x100)
                + u32::from(old / 0x100 % 0x100 != new / 0x100 % 0x100)
                + u32::from(old / 0x1_0000 % 0x100 != new / 0x1_0000 % 0x100)
                + u32::from(old / 0x100_0000 != new / 0x100_0000)
        }
        2 => {
            u32::from(old % 0x1_0000 != new % 0x1_0000)
                + u32::from(old / 0x1_0000 != new / 0x1_0000)
        }
        _ => u32::from(old != new),
    }
}

// How many of the four pixels of three bytes that three words are.
fn unlike_threes(x: u32, y: u32, z: u32, a: u32, b: u32, c: u32) -> u32
    ensures { (result ≡ unlike (x % 0x1000000) (a % 0x1000000) + unlike (x / 0x1000000 + 0x100 * (y % 0x10000)) (a / 0x1000000 + 0x100 * (b % 0x10000)) + unlike (y / 0x10000 + 0x10000 * (z % 0x100)) (b / 0x10000 + 0x10000 * (c % 0x100)) + unlike (z / 0x100) (c / 0x100)) × (result ≤ 4) }
{
    u32::from(x % 0x100_0000 != a % 0x100_0000)
        + u32::from((x / 0x100_0000 != a / 0x100_0000) | (y % 0x1_0000 != b % 0x1_0000))
        + u32::from((y / 0x1_0000 != b / 0x1_0000) | (z % 0x100 != c % 0x100))
        + u32::from(z / 0x100 != c / 0x100)
}

// Words as whole pixels of B bytes, from an address on; how many of the pixels change.
fn put_wholes<const B: u32>(mem: &mut [u8], at: usize, words: &[u32]) -> u32
    requires { Pours at B (length words.now) (length mem.old) × (B ≡ 3 → ⊥) }
    ensures { state mem.new (4 / B * length words.now) result ≡ poured_at (word_in words.now) B 0 at (4 / B * length words.now) (state mem.old 0 0) }
{
    let mut r = 0;
    let mut a = at;
    for word in words {
        let old = word_at(mem, a);
        surface::put_bytes(mem, a, 4, *word);
        r += unlike_word::<B>(old, *word);
        a += 4;
    }
    r
}

// Of three bytes: four of them are three words.
fn put_threes(mem: &mut [u8], at: usize, words: &[u32]) -> u32
    requires { Pours at 3 (length words.now) (length mem.old) }
    ensures { state mem.new (length words.now / 3 * 4) result ≡ poured_at (word_in words.now) 3 0 at (length words.now / 3 * 4) (state mem.old 0 0) }
{
    let mut r = 0;
    for t in 0..words.len() / 3 {
        let i = 3 * t;
        let one = words[i];
        let two = words[i + 1];
        let three = words[i + 2];
        let a = at + 4 * i;
        let x = word_at(mem, a);
        let y = word_at(mem, a + 4);
        let z = word_at(mem, a + 8);
        surface::put_bytes(mem, a, 4, one);
        surface::put_bytes(mem, a + 4, 4, two);
        surface::put_bytes(mem, a + 8, 4, three);
        r += unlike_threes(x, y, z, one, two, three);
    }
    r
}

// Words as whole pixels of so many bytes, from an address on; how many of the pixels change.
pub fn put_words(mem: &mut [u8], at: usize, bytes: u32, words: &[u32]) -> u32
    requires { Pours at bytes (length words.now) (length mem.old) }
    ensures { state mem.new (4 * length words.now / bytes) result ≡ poured_at (word_in words.now) bytes 0 at (4 * length words.now / bytes) (state mem.old 0 0) }
{
    match bytes {
        1 => put_wholes::<1>(mem, at, words),
        2 => put_wholes::<2>(mem, at, words),
        3 => put_threes(mem, at, words),
        _ => put_wholes::<4>(mem, at, words),
    }
}
