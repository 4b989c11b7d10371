// Seals, checks and opens one message under many cuttings, with refused calls in between, right and tampered with; finishes it at each of its points; and tries the
// stream cases that the rules list to be run. The file `stdout` holds the second program's ciphertexts, tags and round counts.
#![tactic(auto)]

use answers::Answer;
use stream::{Direction, Outcome, Stream};

// The number of standard output.
const STDOUT_FILENO: i32 = 1;

// How many cuttings are tried in each set and direction.
const CUTTINGS: usize = 216;

// The largest limit of a stream's text.
const LIMIT: u64 = 1048576;

// The points of a message: before each byte of its data and of its text, and behind the last.
const POINTS: usize = 91;

// The key and the nonce, of which a set takes as many bytes as it needs, the associated data and the text.
const KEY: [u8; 16] = [0, 1, 2, 3, 4, 5, 6, 7, 8, 9, 10, 11, 12, 13, 14, 15];

const NONCE: [u8; 16] = [
    16, 17, 18, 19, 20, 21, 22, 23, 24, 25, 26, 27, 28, 29, 30, 31,
];

const AD: [u8; 37] = [
    1, 8, 15, 22, 29, 36, 43, 50, 57, 64, 71, 78, 85, 92, 99, 106, 113, 120, 127, 134, 141, 148,
    155, 162, 169, 176, 183, 190, 197, 204, 211, 218, 225, 232, 239, 246, 253,
];

const TEXT: [u8; 53] = [
    3, 14, 25, 36, 47, 58, 69, 80, 91, 102, 113, 124, 135, 146, 157, 168, 179, 190, 201, 212, 223,
    234, 245, 0, 11, 22, 33, 44, 55, 66, 77, 88, 99, 110, 121, 132, 143, 154, 165, 176, 187, 198,
    209, 220, 231, 242, 253, 8, 19, 30, 41, 52, 63,
];

// Associated data, a text or its ciphertext, and a tag.
#[derive(Clone, Copy)]
struct Message {
    ad: [u8; 37],
    text: [u8; 53],
    tag: [u8; 16],
}

// The message before it is sealed.
const PLAIN: Message = Message {
    ad: AD,
    text: TEXT,
    tag: [0; 16],
};

// What of a message is tampered with.
#[derive(Clone, Copy)]
enum Tampering {
    Tag,
    Text,
    Data,
}

// A set, and a key and a nonce of its length, which is that of its tags too.
#[derive(Clone, Copy)]
struct Setting<'a> {
    set: u64,
    key: &'a [u8],
    nonce: &'a [u8],
}

// What a stream gave out, its tag, the rounds reported so far, or None once an answer was not the expected one, and the stream.
#[derive(Clone, Copy)]
struct Walk {
    out: [u8; 53],
    tag: [u8; 16],
    rounds: Option<u64>,
    stream: Stream,
}

// `say`, `say_line`, `next_of`, STDOUT_FILENO, KEY and NONCE stand in limits, walks or rewriting as they stand here, and what `part`, `text_call` and `finish_call` do is
// done in limits too. A crate for these few lines, which programs alone use, would be no plainer: its functions would want contracts and edits, and printing can have none.

// Writes a name and a number. Kept on `io`, which rests on `write` alone (docs/ANSWERS.md): std's `print!` would trust two more declarations of the C library.
fn say(name: &[u8], n: u64) {
    io::write_all(STDOUT_FILENO, name);
    io::print_decimal(STDOUT_FILENO, n);
}

// Writes a name and a number, and ends the line.
fn say_line(name: &[u8], n: u64) {
    say(name, n);
    io::write_all(STDOUT_FILENO, b"\n");
}

// Writes a name and bytes, and ends the line.
fn say_bytes(name: &[u8], bytes: &[u8]) {
    io::write_all(STDOUT_FILENO, name);
    for byte in bytes {
        io::print_hex(STDOUT_FILENO, u64::from(*byte), 2);
    }
    io::write_all(STDOUT_FILENO, b"\n");
}

// Writes a name and the number of an answer, and ends the line.
fn say_answer(name: &[u8], o: Outcome) {
    say_line(name, answers::number(o.answer));
}

// The bytes of a string from a place up to another, or none.
fn part(s: &[u8], from: usize, to: usize) -> &[u8] {
    s.get(from..to).unwrap_or(&[])
}

// The next direction, and behind the last one the first.
fn next_of(direction: Direction) -> Direction {
    match direction {
        Direction::Sealing => Direction::Checking,
        Direction::Checking => Direction::Opening,
        Direction::Opening => Direction::Sealing,
    }
}

// The text call of a direction, with a place for the output that it may have.
fn text_call(direction: Direction, stream: Stream, piece: &[u8], out: &mut [u8]) -> Outcome {
    match direction {
        Direction::Sealing => stream.seal(piece, out),
        Direction::Checking => stream.check(piece),
        Direction::Opening => stream.open(piece, out),
    }
}

// The finish of a direction, with a place that a sealing's tag comes to, and that holds the tag of the others.
fn finish_call(direction: Direction, stream: Stream, tag: &mut [u8]) -> Outcome {
    match direction {
        Direction::Sealing => stream.finish_sealing(tag),
        Direction::Checking => stream.finish_checking(tag),
        Direction::Opening => stream.finish_opening(tag),
    }
}

// The text call of a direction, with room for three bytes.
fn short_call(direction: Direction, stream: Stream, text: &[u8]) -> Outcome {
    text_call(direction, stream, text, &mut [0; 3])
}

impl Setting<'_> {
    // A walk in a direction, at its start.
    fn start(self, direction: Direction) -> Walk {
        let o = Stream::start(direction, self.set, LIMIT, self.key, self.nonce);
        Walk {
            out: [0; 53],
            tag: [0; 16],
            rounds: Some(o.rounds),
            stream: o.next,
        }
    }
}

impl Walk {
    // The walk after a call that has to get an answer.
    fn after(self, o: Outcome, answer: Answer) -> Walk {
        let rounds = match self.rounds {
            Some(so_far) if o.answer == answer => Some(so_far.wrapping_add(o.rounds)),
            _ => None,
        };
        Walk {
            rounds,
            stream: o.next,
            ..self
        }
    }

    // A piece of the associated data.
    fn ad(self, piece: &[u8]) -> Walk {
        self.after(self.stream.ad(piece), Answer::Done)
    }

    // The associated data cut at `a`, with an empty piece and a refused call in between: a sealing finish with a tag of three bytes.
    fn with_ad(self, direction: Direction, ad: &[u8], a: usize) -> Walk {
        let answer = match direction {
            Direction::Sealing => Answer::TagLength,
            Direction::Checking | Direction::Opening => Answer::OutOfPhase,
        };
        self.ad(part(ad, 0, a))
            .finish(Direction::Sealing, 3, answer)
            .ad(&[])
            .ad(part(ad, a, ad.len()))
    }

    // A state that breaks a rule is answered 8 and comes back as it was: with its place put right, it is the stream.
    fn broken(self, text: &[u8]) -> Walk {
        let place = self.stream.place;
        let o = Stream {
            place: 99,
            ..self.stream
        }
        .ad(text);
        let next = Stream { place, ..o.next };
        self.after(Outcome { next, ..o }, Answer::BrokenState)
    }

    // The finish of a direction, with the first n bytes of the walk's tag, which has to get an answer.
    fn finish(mut self, direction: Direction, n: usize, answer: Answer) -> Walk {
        let n = n.min(self.tag.len());
        let o = finish_call(direction, self.stream, &mut self.tag[..n]);
        self.after(o, answer)
    }

    // The text from a place up to another, sealed, checked or opened into the same places of the output.
    fn piece(mut self, direction: Direction, text: &[u8; 53], from: usize, to: usize) -> Walk {
        let to = to.min(text.len());
        let from = from.min(to);
        let o = text_call(
            direction,
            self.stream,
            &text[from..to],
            &mut self.out[from..to],
        );
        self.after(o, Answer::Done)
    }

    // The text calls of the two other directions.
    fn other_ways(self, direction: Direction, text: &[u8]) -> Walk {
        let next = next_of(direction);
        let w = self.after(short_call(next, self.stream, text), Answer::OutOfPhase);
        w.after(
            short_call(next_of(next), w.stream, text),
            Answer::OutOfPhase,
        )
    }

    // Calls that an open stream refuses behind its first piece of text: data; a text call without room, or of sealing where its own has no output; and data in a broken
    // state.
    fn refused_in_text(self, direction: Direction, text: &[u8]) -> Walk {
        let (way, answer) = match direction {
            Direction::Sealing | Direction::Opening => (direction, Answer::NoRoom),
            Direction::Checking => (Direction::Sealing, Answer::OutOfPhase),
        };
        let late = self.after(self.stream.ad(text), Answer::OutOfPhase);
        late.after(short_call(way, late.stream, text), answer)
            .broken(text)
    }

    // The k-th cutting of the text in three, with an empty piece and refused calls in between.
    fn with_text(self, direction: Direction, text: &[u8; 53], k: usize) -> Walk {
        let t = k % 54 * 7 % 54;
        let u = t.max(k % 54 * 13 % 54);
        self.other_ways(direction, text)
            .piece(direction, text, 0, t)
            .piece(direction, text, t, t)
            .refused_in_text(direction, text)
            .piece(direction, text, t, u)
            .piece(direction, text, u, text.len())
    }

    // The finish, which has to get an answer, with refused ones before and after it, those of the other directions among them, one with a tag of three bytes.
    fn with_finish(self, direction: Direction, n: usize, answer: Answer) -> Walk {
        let next = next_of(direction);
        self.finish(direction, 3, Answer::TagLength)
            .finish(next, 3, Answer::OutOfPhase)
            .finish(next_of(next), n, Answer::OutOfPhase)
            .finish(direction, n, answer)
            .finish(direction, n, Answer::OutOfPhase)
    }

    // A message under the k-th cutting.
    fn walked(
        self,
        direction: Direction,
        message: Message,
        k: usize,
        n: usize,
        answer: Answer,
    ) -> Walk {
        let tag = message.tag;
        Walk { tag, ..self }
            .with_ad(direction, &message.ad, k % 38)
            .with_text(direction, &message.text, k)
            .with_finish(direction, n, answer)
    }

    // A message up to a point: its data and its text up to there, and the finish, from the data phase where there is no text.
    fn pointed(
        self,
        direction: Direction,
        message: Message,
        p: usize,
        n: usize,
        answer: Answer,
    ) -> Walk {
        let tag = message.tag;
        let a = p.min(message.ad.len());
        let begun = Walk { tag, ..self }.ad(&message.ad[..a]);
        if p == a {
            return begun.finish(direction, n, answer);
        }
        begun
            .piece(direction, &message.text, 0, p - a)
            .finish(direction, n, answer)
    }
}

// Flips one of the eight bits of a byte of a string, both by a number: the place, and the bit by the turns before it.
fn flip(s: &mut [u8], k: usize) {
    let places = s.len().max(1);
    if let Some(byte) = s.get_mut(k % places) {
        *byte ^= 1 << (k / places % 8);
    }
}

// A message with one bit flipped, by a number: of its tag, which has n bytes, of its text or of its data, or of none.
fn tampered(message: Message, tampering: Option<Tampering>, k: usize, n: usize) -> Message {
    let mut other = message;
    match tampering {
        None => {}
        Some(Tampering::Tag) => flip(&mut other.tag[..n.min(16)], k),
        Some(Tampering::Text) => flip(&mut other.text, k),
        Some(Tampering::Data) => flip(&mut other.ad, k),
    }
    other
}

// Whether an opening gave out the text where at most the tag was tampered with, and another one elsewhere; a checking gives nothing out.
fn handed(direction: Direction, tampering: Option<Tampering>, walk: Walk) -> bool {
    match (direction, tampering) {
        (Direction::Opening, Some(Tampering::Text | Tampering::Data)) => walk.out != TEXT,
        (Direction::Opening, _) => walk.out == TEXT,
        (_, _) => true,
    }
}

// A message of a set under its first cutting: what the sealing gave.
#[derive(Clone, Copy)]
struct Sealed<'a> {
    setting: Setting<'a>,
    walk: Walk,
}

impl Sealed<'_> {
    // How many bytes its tag has.
    fn tag_size(self) -> usize {
        self.setting.key.len()
    }

    // What is to be checked and opened.
    fn message(self) -> Message {
        Message {
            text: self.walk.out,
            tag: self.walk.tag,
            ..PLAIN
        }
    }

    // How many cuttings are sealed as the first one is.
    fn alike(self) -> u64 {
        let n = self.tag_size();
        let first = self.walk;
        let start = self.setting.start(Direction::Sealing);
        (0..CUTTINGS)
            .map(|k| start.walked(Direction::Sealing, PLAIN, k, n, Answer::Done))
            .filter(|w| w.rounds == first.rounds && w.tag == first.tag && w.out == first.out)
            .count() as u64
    }

    // Whether the k-th cutting of what was sealed, tampered with or not, gets its answer in checking or opening, with all of the rounds.
    fn agrees(self, direction: Direction, tampering: Option<Tampering>, k: usize) -> bool {
        let n = self.tag_size();
        let answer = match tampering {
            None => Answer::Done,
            Some(_) => Answer::TagDiffers,
        };
        let message = tampered(self.message(), tampering, k, n);
        let w = self
            .setting
            .start(direction)
            .walked(direction, message, k, n, answer);
        w.rounds == self.walk.rounds && handed(direction, tampering, w)
    }

    // How many cuttings get their answer.
    fn agreeing(self, direction: Direction, tampering: Option<Tampering>) -> u64 {
        (0..CUTTINGS)
            .filter(|k| self.agrees(direction, tampering, *k))
            .count() as u64
    }

    // How many cuttings are refused, in both directions that are given a ciphertext, where they are tampered with.
    fn refused(self, tampering: Tampering) -> u64 {
        self.agreeing(Direction::Checking, Some(tampering))
            .wrapping_add(self.agreeing(Direction::Opening, Some(tampering)))
    }

    // Whether a direction that is given a ciphertext says yes at a point to the tag that a sealing has there, and 9 to another, with all of the rounds, and gives out
    // the text so far where it is an opening.
    fn agrees_at(self, direction: Direction, sealing: Walk, p: usize) -> bool {
        let n = self.tag_size();
        let start = self.setting.start(direction);
        let right = Message {
            tag: sealing.tag,
            ..self.message()
        };
        let wrong = tampered(right, Some(Tampering::Tag), p, n);
        let yes = start.pointed(direction, right, p, n, Answer::Done);
        let nine = start.pointed(direction, wrong, p, n, Answer::TagDiffers);
        let t = p.saturating_sub(AD.len());
        yes.rounds == sealing.rounds
            && nine.rounds == sealing.rounds
            && (!matches!(direction, Direction::Opening)
                || part(&yes.out, 0, t) == part(&TEXT, 0, t))
    }

    // Writes what the sealing gave, with 0 rounds if an answer was not the expected one.
    fn say(self) {
        say_bytes(b"cipher=", &self.walk.out);
        say_bytes(b"tag=", part(&self.walk.tag, 0, self.tag_size()));
        say_line(b"rounds=", self.walk.rounds.unwrap_or(0));
    }

    // The finish at a point: the rounds and the tag of a sealing, and 0 rounds where an answer was not the expected one, or a checking or an opening does not agree.
    fn try_point(self, p: usize) {
        let n = self.tag_size();
        let start = self.setting.start(Direction::Sealing);
        let w = start.pointed(Direction::Sealing, PLAIN, p, n, Answer::Done);
        let agree = self.agrees_at(Direction::Checking, w, p)
            && self.agrees_at(Direction::Opening, w, p);
        say(b"point=", p as u64);
        say(b" rounds=", w.rounds.filter(|_| agree).unwrap_or(0));
        say_bytes(b" tag=", part(&w.tag, 0, n));
    }
}

// One message of a set under every cutting: the first one's answers, and how many were the same; in checking and opening, yes to it and 9 where it is tampered with;
// then its points.
fn try_set(setting: Setting) {
    say_line(b"set=", setting.set);
    let start = setting.start(Direction::Sealing);
    let walk = start.walked(
        Direction::Sealing,
        PLAIN,
        0,
        setting.key.len(),
        Answer::Done,
    );
    let sealed = Sealed { setting, walk };
    sealed.say();
    say_line(b"sealed alike=", sealed.alike());
    say_line(
        b"checked right=",
        sealed.agreeing(Direction::Checking, None),
    );
    say_line(b"opened right=", sealed.agreeing(Direction::Opening, None));
    say_line(b"another tag refused=", sealed.refused(Tampering::Tag));
    say_line(
        b"another ciphertext refused=",
        sealed.refused(Tampering::Text),
    );
    say_line(b"other data refused=", sealed.refused(Tampering::Data));
    for p in 0..POINTS {
        sealed.try_point(p);
    }
}

// The answers at the limits: as many bytes of data, and of text, as a message may have, and one more.
fn try_limits(stream: Stream) {
    let long = [0; 65537];
    let block = &long[..65536];
    say_answer(b"65537 bytes of data=", stream.ad(&long));
    say_answer(b"65536 bytes of data=", stream.ad(block));
    let full = (0..16).fold(stream, |s, _| s.check(block).next);
    say_answer(b"1048576 bytes of text=", full.check(&[]));
    say_answer(b"1048577 bytes of text=", full.check(&[0]));
}

// The answers to calls on a sealing stream that the rules name: a text of 53 bytes with room for 52, a second finish, data after an empty text call.
fn try_sealing(stream: Stream) {
    let mut room = [0; 52];
    say_answer(b"room one byte short=", stream.seal(&TEXT, &mut room));
    let mut tag = [0; 16];
    let ended = stream.finish_sealing(&mut tag).next;
    say_answer(b"finishing twice=", ended.finish_sealing(&mut tag));
    let closed = stream.seal(&[], &mut [0; 3]).next;
    say_answer(b"data after an empty text call=", closed.ad(&TEXT));
}

// The answers to starts with a short key.
fn try_starts() {
    let few = &KEY[..15];
    say_answer(
        b"key of 15 bytes=",
        Stream::start(Direction::Sealing, 1, LIMIT, few, &NONCE),
    );
    say_answer(
        b"key of 15 bytes, nonce of 15=",
        Stream::start(Direction::Sealing, 1, LIMIT, few, &NONCE[..15]),
    );
}

// The answers to calls on an opening stream: a ciphertext of 53 bytes with room for 52, and with enough; a finish with a tag of its length, which is another one,
// a second finish, and one of a checking.
fn try_opening(stream: Stream) {
    let mut room = [0; 52];
    say_answer(
        b"opening, room one byte short=",
        stream.open(&TEXT, &mut room),
    );
    let mut enough = [0; 53];
    say_answer(b"opening, room enough=", stream.open(&TEXT, &mut enough));
    let tag = [0; 16];
    say_answer(
        b"opening, finished as a checking=",
        stream.finish_checking(&tag),
    );
    let o = stream.finish_opening(&tag);
    say_answer(b"opening, another tag=", o);
    say_answer(b"opening, finishing twice=", o.next.finish_opening(&tag));
}

// A message in each set, and the cases.
fn main() {
    let one = Setting {
        set: 1,
        key: &KEY,
        nonce: &NONCE,
    };
    try_set(one);
    try_set(Setting {
        set: 2,
        key: &KEY[..12],
        nonce: &NONCE[..12],
    });
    try_set(Setting { set: 3, ..one });
    try_set(Setting { set: 4, ..one });
    try_limits(one.start(Direction::Checking).stream);
    try_sealing(one.start(Direction::Sealing).stream);
    try_starts();
    try_opening(one.start(Direction::Opening).stream);
}
