// Command packets: a reader takes the bytes of the command FIFO, cut anywhere, and says which register writes they bring. What carries the writes out is its
// caller's.
#![tactic(auto)]

ghost use Rattle.std.specs.Prelude.{◌≡◌, ◌+◌, ◌*◌, ◌/◌, ◌%◌, ◌^◌, ◌<◌, ◌≤◌, length};
ghost use Rattle.packets.specs.Header.{turned_down};
ghost use Rattle.packets.specs.Reader.{counted, skipped, opened, advanced, between, blank, heard, headed, worded, shifted, took, is_between, next_of};
ghost use Rattle.packets.specs.Delivery.{note, wrote, Writer};
ghost use Rattle.packets.specs.Answers.{spare, lent, put, call, called, Done};

// What is left of the open packet: the offset of its next word, and either the step to the one after it and how many words are left, or the mask's bits that
// are left, the lowest of them the next word's.
#[derive(Clone, Copy)]
pub enum Rest {
    Empty,
    Counted(u32, u32, u32),
    Masked(u32, u32),
}

// The unfinished tail: the bytes of a part of a word, the newest on top, and how many they are; what is left of the open packet. And whether a packet was
// turned down.
#[derive(Clone, Copy)]
pub struct Reader {
    pub word: u32,
    pub held: u32,
    pub rest: Rest,
    pub closed: bool,
}

// What bytes bring: nothing, a register write of a word at an offset, or the 9 of a packet turned down.
#[derive(Clone, Copy)]
pub enum Event {
    Nothing,
    Write(u32, u32),
    Closed,
}

#[derive(Clone, Copy)]
pub struct Heard {
    pub reader: Reader,
    pub event: Event,
}

// The same, and how many bytes of the piece are used then.
#[derive(Clone, Copy)]
pub struct Next {
    pub reader: Reader,
    pub event: Event,
    pub used: usize,
}

fn shift(word: u32, byte: u8) -> u32
    ensures { result ≡ shifted word byte }
{
    word / 0x100 + (byte as u32) * 0x100_0000
}

// ---- headers

fn turn_down(header: u32) -> bool
    ensures { result ≡ turned_down header }
{
    match header % 8 {
        1 => header / 0x4000 % 2 != 1,
        2 => false,
        _ => true,
    }
}

#[tactic(auto, unfolding(crate::specs::Reader::counted))]
fn count_from(offset: u32, step: u32, left: u32) -> Rest
    ensures { result ≡ counted offset step left }
{
    if left == 0 {
        return Rest::Empty;
    }
    Rest::Counted(offset, step, left)
}

// The bits of a mask that are 0 are passed over.
fn skip(offset: u32, mask: u32) -> Rest
    ensures { result ≡ skipped 32 offset mask }
{
    if mask == 0 {
        return Rest::Empty;
    }
    let zeros = mask.trailing_zeros();
    Rest::Masked(offset.wrapping_add(4 * zeros), mask >> zeros)
}

#[tactic(auto, unfolding(crate::specs::Reader::opened))]
fn open_packet(header: u32) -> Rest
    ensures { result ≡ opened header }
{
    if header % 8 == 2 {
        return skip(8, header / 8);
    }
    let first = header / 8 % 0x100 * 4;
    let left = header / 0x1_0000;
    let step = if header / 0x8000 % 2 == 1 { 4 } else { 0 };
    count_from(first, step, left)
}

// What is left after a word.
#[tactic(auto, unfolding(crate::specs::Reader::advanced))]
fn advance(rest: Rest) -> Rest
    ensures { result ≡ advanced rest }
{
    match rest {
        Rest::Empty => Rest::Empty,
        Rest::Counted(offset, step, left) => {
            if left < 2 {
                return Rest::Empty;
            }
            Rest::Counted(offset.wrapping_add(step), step, left - 1)
        }
        Rest::Masked(offset, mask) => skip(offset.wrapping_add(4), mask / 2),
    }
}

// ---- words

#[tactic(auto, unfolding(crate::specs::Reader::headed))]
fn read_header(header: u32) -> Heard
    ensures { result ≡ headed header }
{
    if turn_down(header) {
        return Heard {
            reader: Reader {
                closed: true,
                ..Reader::open()
            },
            event: Event::Closed,
        };
    }
    Heard {
        reader: Reader::between(open_packet(header)),
        event: Event::Nothing,
    }
}

fn read_data(rest: Rest, offset: u32, word: u32) -> Heard
    ensures { result ≡ heard (between (advanced rest)) (Event.Write offset word) }
{
    Heard {
        reader: Reader::between(advance(rest)),
        event: Event::Write(offset, word),
    }
}

fn read_word(rest: Rest, word: u32) -> Heard
    ensures { result ≡ worded rest word }
{
    match rest {
        Rest::Empty => read_header(word),
        Rest::Counted(offset, _, _) | Rest::Masked(offset, _) => read_data(rest, offset, word),
    }
}

impl Reader {
    // Nothing held, no packet open, none turned down.
    pub fn open() -> Reader
        ensures { result ≡ blank }
    {
        Reader::between(Rest::Empty)
    }

    // Nothing held, none turned down.
    fn between(rest: Rest) -> Reader
        ensures { result ≡ between rest }
    {
        Reader {
            word: 0,
            held: 0,
            rest,
            closed: false,
        }
    }

    // One byte.
    #[tactic(auto, unfolding(crate::specs::Reader::took))]
    pub fn take(self, byte: u8) -> Heard
        ensures { result ≡ took byte self }
    {
        if self.closed {
            return Heard {
                reader: self,
                event: Event::Nothing,
            };
        }
        let word = shift(self.word, byte);
        if self.held < 3 {
            return Heard {
                reader: Reader {
                    word,
                    held: self.held + 1,
                    ..self
                },
                event: Event::Nothing,
            };
        }
        read_word(self.rest, word)
    }

    // Nothing held, and no packet turned down.
    fn is_between(self) -> bool
        ensures { result ≡ is_between self }
    {
        (self.held == 0) & (self.word == 0) & !self.closed
    }

    // The next word of a piece where it is whole and there is room for its answer, else the next byte.
    pub fn next(self, piece: &[u8], at: usize, room: bool) -> Next
        requires { at < length piece.now }
        ensures { result ≡ next_of self piece.now at room }
    {
        if self.is_between() & room & (4 <= piece.len() - at) {
            let Heard { reader, event } = read_word(self.rest, basics::word_at(piece, at));
            return Next {
                reader,
                event,
                used: at + 4,
            };
        }
        let Heard { reader, event } = self.take(piece[at]);
        Next {
            reader,
            event,
            used: at + 1,
        }
    }
}

// ---- answers in a lent run

// Room for one more answer in a run of so many words.
pub fn has_room(len: usize, answered: usize) -> bool
    ensures { result ≡ spare len answered }
{
    answered < len / 3
}

// One answer behind those that are there; how many there are then. A run and its length, and the answer as a number: C lends the one and reads the other.
#[tactic(auto, unfolding(crate::specs::Answers::put))]
pub fn put_answer(
    answers: &mut [u32],
    answered: usize,
    number: u32,
    count: u32,
    changed: u32,
) -> usize
    ensures { lent answers.new result ≡ put (note number count changed) (lent answers.old answered) }
{
    if has_room(answers.len(), answered) {
        let at = answered * 3;
        answers[at] = number;
        answers[at + 1] = count;
        answers[at + 2] = changed;
        return answered + 1;
    }
    answered
}

// ---- whatever carries the register writes out

// Its answer to a write: the answer's number, how many pixels it wrote and how many of them changed.
#[derive(Clone, Copy)]
pub struct Answer {
    pub number: u32,
    pub count: u32,
    pub changed: u32,
}

// Of what carries writes out, proofs name what it is seen as, what a write makes of that, and what stays as it is, such as which memory is lent to it.
pub trait Machine {
    ghost Seen: { Type 0 };

    ghost Stays: { Type 0 };

    ghost seen: { Self → Self.Seen };

    ghost stays: { Self → Self.Stays };

    ghost by: { Writer Self.Seen };

    fn write(&mut self, offset: u32, word: u32) -> Answer
        ensures written { wrote (Self.seen self.new) (note result.number result.count result.changed) ≡ Self.by offset word (Self.seen self.old) }
        ensures stays { Self.stays self.new ≡ Self.stays self.old };
}

// Bytes brought an event: a register write is carried out, and answered as the 9 is. How many answers there are then.
fn tell<M: Machine>(machine: &mut M, answers: &mut [u32], answered: usize, event: Event) -> usize
    ensures done { Done M.by event (M.seen machine.old) (lent answers.old answered) (M.seen machine.new) (lent answers.new result) }
    ensures stays { M.stays machine.new ≡ M.stays machine.old }
{
    match event {
        Event::Nothing => answered,
        Event::Write(offset, word) => {
            let Answer {
                number,
                count,
                changed,
            } = machine.write(offset, word);
            put_answer(answers, answered, number, count, changed)
        }
        Event::Closed => put_answer(answers, answered, 9, 0, 0),
    }
}

// What became of a piece: the reader, how many bytes were used, and how many answers were given.
#[derive(Clone, Copy)]
pub struct Fed {
    pub reader: Reader,
    pub used: usize,
    pub answered: usize,
}

// A piece of bytes, and the answers to the writes that they bring, in the lent run. The call stops before the last byte of a word where the run has no room for
// one more answer.
pub fn feed<M: Machine>(reader: Reader, machine: &mut M, piece: &[u8], answers: &mut [u32]) -> Fed
    ensures answers_after { call result.reader (M.seen machine.new) (lent answers.new result.answered) result.used ≡ called M.by reader (M.seen machine.old) piece.now answers.old }
    ensures within { (result.used ≤ length piece.now) × (result.answered * 3 ≤ length answers.new) }
    ensures stays { M.stays machine.new ≡ M.stays machine.old }
{
    let mut f = Fed {
        reader,
        used: 0,
        answered: 0,
    };
    // while: a turn uses as many bytes as the reader takes at once.
    while f.used < piece.len() {
        let room = has_room(answers.len(), f.answered);
        if (2 < f.reader.held) & !room {
            return f;
        }
        let Next {
            reader,
            event,
            used,
        } = f.reader.next(piece, f.used, room);
        f = Fed {
            reader,
            used,
            answered: tell(machine, answers, f.answered, event),
        };
    }
    f
}
