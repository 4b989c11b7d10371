// A long order, opened by a second walk, in each set: 1,048,576 bytes of ciphertext are checked in pieces, and then opened in smaller ones, with room for one of them.
// Under another nonce both walks end with 9, and what the second one handed out was never verified. The file `stdout` holds the second program's answers.
#![tactic(auto)]

use answers::Answer;
use stream::{Direction, Outcome, Stream};

// The number of standard output.
const STDOUT_FILENO: i32 = 1;

// The limit of the streams, which is the length of the order.
const LIMIT: u64 = 1048576;

// The length of the pieces of the second walk, of which the last has 576.
const PIECE: usize = 1000;

// The key, and the nonce that the order was sealed under.
const KEY: [u8; 16] = [0, 1, 2, 3, 4, 5, 6, 7, 8, 9, 10, 11, 12, 13, 14, 15];

const NONCE: [u8; 16] = [
    16, 17, 18, 19, 20, 21, 22, 23, 24, 25, 26, 27, 28, 29, 30, 31,
];

// A stream, the rounds that it reported so far, how many of its calls were done, and all that it handed out, mixed.
#[derive(Clone, Copy)]
struct Walk {
    stream: Stream,
    rounds: u64,
    done: u64,
    handed: u64,
}

// `say`, `mixed`, STDOUT_FILENO, KEY and NONCE stand in cuttings, limits or rewriting too. A crate for these few lines, which programs alone use, would be no plainer: its
// functions would want contracts and edits, and printing can have none.

// Writes a name and a number. Kept on `io`, which rests on `write` alone (docs/ANSWERS.md): std's `print!` would trust two more declarations of the C library.
fn say(name: &[u8], n: u64) {
    io::write_all(STDOUT_FILENO, name);
    io::print_decimal(STDOUT_FILENO, n);
}

// Bytes mixed in, one after the other: the mixture turned left by 7 bits, and combined with each.
fn mixed(before: u64, bytes: &[u8]) -> u64 {
    bytes.iter().fold(
        before,
        |mixture, byte| mixture.rotate_left(7) ^ u64::from(*byte),
    )
}

impl Walk {
    // A walk at its start, behind the order's data.
    fn begun(direction: Direction, set: u64, key: &[u8], nonce: &[u8]) -> Walk {
        let o = Stream::start(direction, set, LIMIT, key, nonce);
        let start = Walk {
            stream: o.next,
            rounds: o.rounds,
            done: 0,
            handed: 0,
        };
        start.after(start.stream.ad(b"valve 12"))
    }

    // The walk after a call.
    fn after(self, o: Outcome) -> Walk {
        Walk {
            stream: o.next,
            rounds: self.rounds.wrapping_add(o.rounds),
            done: self.done.wrapping_add(u64::from(o.answer == Answer::Done)),
            ..self
        }
    }

    // A piece of the first walk, which is checked.
    fn checked(self, piece: &[u8]) -> Walk {
        self.after(self.stream.check(piece))
    }

    // A piece of the second walk, with room for no other: what it hands out is unverified until the finish.
    fn opened(self, piece: &[u8]) -> Walk {
        let mut room = [0; PIECE];
        let walk = self.after(self.stream.open(piece, &mut room));
        let handed = mixed(self.handed, &room[..piece.len().min(PIECE)]);
        Walk { handed, ..walk }
    }

    // Writes how the walk ended: the answer of its finish, the calls that were done before it, and all the rounds.
    fn say_end(self, name: &[u8], end: Outcome) {
        say(name, answers::number(end.answer));
        say(b" calls=", self.done);
        say(b" rounds=", self.rounds.wrapping_add(end.rounds));
    }
}

// Both walks, one after the other.
fn walk_twice(set: u64, key: &[u8], nonce: &[u8], flash: &[u8; 65536], tag: &[u8]) {
    let start = Walk::begun(Direction::Checking, set, key, nonce);
    let first = (0..16).fold(start, |walk, _| walk.checked(flash));
    say(b"set=", set);
    first.say_end(b" checked=", first.stream.finish_checking(tag));
    let start = Walk::begun(Direction::Opening, set, key, nonce);
    let second = (0..1048)
        .fold(start, |walk, _| walk.opened(&flash[..PIECE]))
        .opened(&flash[..576]);
    second.say_end(b" opened=", second.stream.finish_opening(tag));
    io::write_all(STDOUT_FILENO, b" handed=");
    io::print_hex(STDOUT_FILENO, second.handed, 16);
    io::write_all(STDOUT_FILENO, b"\n");
}

// The walks under the right nonce, and under one that begins with another byte.
fn try_set(set: u64, flash: &[u8; 65536], tag: &[u8]) {
    let n = tag.len().min(KEY.len());
    let mut other = NONCE;
    other[0] = 99;
    walk_twice(set, &KEY[..n], &NONCE[..n], flash, tag);
    walk_twice(set, &KEY[..n], &other[..n], flash, tag);
}

// An order whose ciphertext is one byte again and again, with its tag in each set.
fn main() {
    let flash = [165u8; 65536];
    try_set(
        1,
        &flash,
        b"\xf9\x32\x0e\x77\x29\x90\xbc\x88\xa3\xef\xd4\xf7\xa8\x17\x71\x27",
    );
    try_set(
        2,
        &flash,
        b"\x49\x9f\xc3\x38\x08\x3b\x00\x6d\xcd\x47\x2e\x61",
    );
    try_set(
        3,
        &flash,
        b"\x0e\x0f\x0f\x22\x23\x54\x17\x57\x1a\x0c\x84\x9a\x7d\xa6\x5a\x3f",
    );
    try_set(
        4,
        &flash,
        b"\xff\xff\xc9\xa9\x3e\x64\x91\x84\x05\x69\x8c\x18\xad\xc2\xed\x81",
    );
}
