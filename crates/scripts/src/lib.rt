// Register writes in order, for the programs that show what the engine does.
#![tactic(auto)]

ghost use Rattle.std.specs.Prelude.{◌≡◌};
ghost use Rattle.engine.specs.Writes.{played};
ghost use Rattle.scripts.specs.Script.{writes_of};

use engine::Engine;

// Writes of a word at an offset, in order, whatever they are answered.
pub fn play(engine: Engine, mem: &mut [u8], writes: &[(u32, u32)]) -> Engine
    ensures engine { result ≡ (played engine mem.old (writes_of writes.now)).engine }
    ensures memory { mem.new ≡ (played engine mem.old (writes_of writes.now)).memory }
{
    let mut e = engine;
    for &(offset, word) in writes {
        e = e.write(mem, offset, word).engine;
    }
    e
}
