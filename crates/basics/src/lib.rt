// What several rooms cite and none owns: words in bytes (specs/Word.antt), a list's numbers taken one after the other (specs/Each.antt and its laws), and that an
// equation allows one outcome.
#![tactic(auto)]

ghost use Rattle.std.specs.Prelude.{◌≡◌, ◌+◌, ◌<◌, ◌≤◌, length};
ghost use Rattle.basics.specs.Word.{word_at, with_word};

// Four bytes as a word, low byte first.
#[tactic(auto, unfolding(crate::specs::Word::word_at))]
pub fn word_at(s: &[u8], at: usize) -> u32
    requires { at + 4 ≤ length s.now }
    ensures { result ≡ word_at s.now at }
{
    u32::from_le_bytes([s[at], s[at + 1], s[at + 2], s[at + 3]])
}

pub fn put_word(s: &mut [u8], at: usize, word: u32)
    requires { at + 4 ≤ length s.old }
    ensures { (s.new ≡ with_word s.old at word) × (length s.new ≡ length s.old) }
{
    s[at..at + 4].copy_from_slice(&word.to_le_bytes());
}
