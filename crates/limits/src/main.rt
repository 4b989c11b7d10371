// Streams under many limits: starts, walks up to a limit and past it, and states that no start gives. Of each call of a start and a walk it writes the answer, the
// rounds, and one number into which all of the next state and the lent place is mixed; of a state the answers of several calls, and one such number for all of
// them, with their rounds. The file `stdout` holds the second program's answers.
#![tactic(auto)]

ghost use Rattle.std.specs.Prelude.{◌<◌, ◌≤◌};

use stream::{Direction, Outcome, Phase, Stream};

// The number of standard output.
const STDOUT_FILENO: i32 = 1;

// The sets of starts: 1 to 4, and three numbers that no set has.
const SETS: [u64; 7] = [1, 2, 3, 4, 5, 0, 4294967299];

// The limits that are tried.
const LIMITS: [u64; 10] = [
    0,
    1,
    199,
    200,
    201,
    1048575,
    1048576,
    1048577,
    1 << 63,
    u64::MAX,
];

// The counts of text that states have.
const TEXTS: [u64; 10] = [
    0,
    1,
    199,
    200,
    201,
    1048574,
    1048575,
    1048576,
    1048577,
    u64::MAX,
];

// The counts of data that states before the text have.
const DATA: [u64; 10] = [0, 1, 7, 8, 200, 65534, 65535, 65536, 65537, u64::MAX];

// The directions, and the phases, in the order of their numbers.
const DIRECTIONS: [Direction; 3] = [Direction::Sealing, Direction::Checking, Direction::Opening];

const PHASES: [Phase; 3] = [Phase::Ad, Phase::Text, Phase::Ended];

// The key and the nonce, of which a set takes as many bytes as it needs.
const KEY: [u8; 16] = [0, 1, 2, 3, 4, 5, 6, 7, 8, 9, 10, 11, 12, 13, 14, 15];

const NONCE: [u8; 16] = [
    16, 17, 18, 19, 20, 21, 22, 23, 24, 25, 26, 27, 28, 29, 30, 31,
];

// What a call gave, and what its lent place then holds, mixed.
#[derive(Clone, Copy)]
struct Called {
    outcome: Outcome,
    lent: u64,
}

// `say`, `next_of`, STDOUT_FILENO, KEY and NONCE stand in cuttings, walks or rewriting as they stand here, and what `first_of`, `mixed`, `text` and `finish` do is done in
// cuttings or walks too. A crate for these few lines, which programs alone use, would be no plainer: its functions would want contracts and edits, and printing can have none.

// Writes a name and a number. Kept on `io`, which rests on `write` alone (docs/ANSWERS.md): std's `print!` would trust two more declarations of the C library.
fn say(name: &[u8], n: u64) {
    io::write_all(STDOUT_FILENO, name);
    io::print_decimal(STDOUT_FILENO, n);
}

// Writes a word as 16 digits.
fn say_word(name: &[u8], word: u64) {
    io::write_all(STDOUT_FILENO, name);
    io::print_hex(STDOUT_FILENO, word, 16);
}

// The first n bytes of a string, or none.
fn first_of(s: &[u8], n: usize) -> &[u8] {
    s.get(..n).unwrap_or(&[])
}

// The next direction, and behind the last one the first.
fn next_of(direction: Direction) -> Direction {
    match direction {
        Direction::Sealing => Direction::Checking,
        Direction::Checking => Direction::Opening,
        Direction::Opening => Direction::Sealing,
    }
}

// ---- all that something holds, mixed

// Numbers or bytes mixed in, one after the other: the mixture turned left by 7 bits, and combined with each.
fn mixed<T: Copy + Into<u64>>(before: u64, numbers: &[T]) -> u64 {
    numbers
        .iter()
        .fold(before, |mixture, n| mixture.rotate_left(7) ^ (*n).into())
}

// All of a state, mixed.
fn mixed_state(s: Stream) -> u64 {
    mixed(
        mixed(0, &s.words),
        &[
            mixed(0, &s.key),
            s.set,
            stream::rank(s.direction),
            s.phase as u64,
            s.ad as u64,
            s.text as u64,
            s.place as u64,
            s.limit,
        ],
    )
}

impl Called {
    // A call that is lent no place.
    fn placeless(outcome: Outcome) -> Called {
        Called { outcome, lent: 0 }
    }

    // The number of the answer.
    fn answer(self) -> u64 {
        answers::number(self.outcome.answer)
    }

    // All that the call gave, mixed, but for its answer.
    fn mixed(self) -> u64 {
        mixed(
            mixed_state(self.outcome.next),
            &[self.lent, self.outcome.rounds],
        )
    }

    // Writes the answer and the rounds, and all else that the call gave, mixed; gives the next state.
    fn told(self) -> Stream {
        say(b" ", self.answer());
        say(b",", self.outcome.rounds);
        say_word(b",", self.mixed());
        self.outcome.next
    }
}

// ---- calls

// The text call of a direction, with room for so many bytes of output.
fn text<const ROOM: usize>(direction: Direction, stream: Stream, piece: &[u8]) -> Called
    requires { ROOM < 256 }
{
    let mut out = [90; ROOM];
    let outcome = match direction {
        Direction::Sealing => stream.seal(piece, &mut out),
        Direction::Checking => return Called::placeless(stream.check(piece)),
        Direction::Opening => stream.open(piece, &mut out),
    };
    let lent = mixed(0, &out);
    Called { outcome, lent }
}

// The length of a set's keys, nonces and tags.
fn key_length(set: u64) -> usize
    ensures { result ≤ 16 }
{
    sets::key_length(set).min(16)
}

// The tag that the words of a stream would be sealed with, its first byte combined with `change`.
fn own_tag(stream: Stream, change: u8) -> [u8; 16] {
    let mut tag = [90; 16];
    let sealing = Stream {
        direction: Direction::Sealing,
        ..stream
    };
    sealing.finish_sealing(&mut tag[..key_length(stream.set)]);
    tag[0] ^= change;
    tag
}

// The finish of a direction, with a tag of the set's length: a checking or an opening is given its own one, changed or not.
fn finish(direction: Direction, stream: Stream, change: u8) -> Called {
    let n = key_length(stream.set);
    match direction {
        Direction::Sealing => {
            let mut tag = [90; 16];
            let outcome = stream.finish_sealing(&mut tag[..n]);
            let lent = mixed(0, &tag[..n]);
            Called { outcome, lent }
        }
        Direction::Checking => {
            Called::placeless(stream.finish_checking(&own_tag(stream, change)[..n]))
        }
        Direction::Opening => {
            Called::placeless(stream.finish_opening(&own_tag(stream, change)[..n]))
        }
    }
}

// ---- starts

// The starts of a direction with a set or a number that no set has, ten to a line: by the lengths of key and nonce, which are those of set 1 or 2, and the limit.
fn try_starts(direction: Direction, set: u64) {
    for key in [&KEY[..16], &KEY[..12]] {
        for nonce in [&NONCE[..16], &NONCE[..12]] {
            say(b"starts direction=", stream::rank(direction));
            say(b" set=", set);
            say(b" key=", key.len() as u64);
            say(b" nonce=", nonce.len() as u64);
            io::write_all(STDOUT_FILENO, b":");
            for limit in LIMITS {
                Called::placeless(Stream::start(direction, set, limit, key, nonce)).told();
            }
            io::write_all(STDOUT_FILENO, b"\n");
        }
    }
}

// ---- walks

// The lengths of a walk's four pieces of text under a limit l, which is below 256: in the first five walks up to the limit and past it, in the others mixed.
// A walk has no name but its number.
fn piece_lengths(walk: usize, l: usize) -> [usize; 4] {
    let l = l % 256;
    match walk {
        0 => [l, 0, 1, 0],
        1 => [l + 1, l, 1, 0],
        2 => [l / 2, l - l / 2, 1, 0],
        3 => [l / 3, l, l - l / 3, 1],
        4 => [65537, l, 65537, 0],
        _ => {
            let place = walk % 16 * 37;
            let places = l + 3;
            [
                place % places,
                (place + 101) % places,
                (place + 202) % places,
                (place + 303) % places,
            ]
        }
    }
}

// A walk under a limit of one of the sets: three bytes of data, four pieces of text, the finish with another tag, and with the right one, and a second one behind it.
fn try_walk(direction: Direction, set: u64, limit: u64, walk: usize, bytes: &[u8]) {
    say(b"walk direction=", stream::rank(direction));
    say(b" set=", set);
    say(b" limit=", limit);
    say(b" number=", walk as u64);
    io::write_all(STDOUT_FILENO, b":");
    let key = &KEY[..key_length(set)];
    let nonce = &NONCE[..key_length(set)];
    let begun = Called::placeless(Stream::start(direction, set, limit, key, nonce)).told();
    let mut stream = Called::placeless(begun.ad(first_of(bytes, 3))).told();
    for length in piece_lengths(walk, limit as usize) {
        stream = text::<255>(direction, stream, first_of(bytes, length)).told();
    }
    finish(direction, stream, 1).told();
    let ended = finish(direction, stream, 0).told();
    finish(direction, ended, 0).told();
    io::write_all(STDOUT_FILENO, b"\n");
}

// ---- states

// The answers to calls on a state, and all that they gave, mixed: a byte of data; no byte of text, one, two, and 65,537; a byte behind two; two with room for one;
// the finish with the right tag, where its state breaks no rule, and with another; a byte of text and the finish for each of the other directions.
fn try_calls(direction: Direction, s: Stream, bytes: &[u8]) {
    let one = first_of(bytes, 1);
    let two = first_of(bytes, 2);
    let next = next_of(direction);
    let last = next_of(next);
    let calls = [
        Called::placeless(s.ad(one)),
        text::<255>(direction, s, &[]),
        text::<255>(direction, s, one),
        text::<255>(direction, s, two),
        text::<255>(direction, s, bytes),
        text::<255>(direction, text::<255>(direction, s, two).outcome.next, one),
        text::<1>(direction, s, two),
        finish(direction, s, 0),
        finish(direction, s, 1),
        text::<255>(next, s, one),
        finish(next, s, 0),
        text::<255>(last, s, one),
        finish(last, s, 0),
    ];
    io::write_all(STDOUT_FILENO, b" ");
    let mut mixture = 0;
    for call in calls {
        io::print_decimal(STDOUT_FILENO, call.answer());
        mixture = mixed(mixture, &[call.mixed()]);
    }
    say_word(b",", mixture);
}

// The key of a state that has not ended: zeros in sets 1 and 2; in sets 3 and 4 no zero, since a byte behind the twelfth breaks no rule there.
fn key_in(set: u64) -> [u8; 16] {
    if set <= 2 { [0; 16] } else { [7; 16] }
}

// A state under words of zeros: by its direction, set, phase, limit, and the count of its phase, of data before the text and else of text.
fn state_of(direction: Direction, set: u64, phase: Phase, limit: u64, count: usize) -> Stream {
    let key = key_in(set);
    let place = count % sets::block_length(set);
    let zeros = Stream {
        words: [0; 5],
        set,
        direction,
        phase,
        key: [0; 16],
        ad: 0,
        text: 0,
        place: 0,
        limit,
    };
    match phase {
        Phase::Ad => Stream {
            key,
            ad: count,
            place,
            ..zeros
        },
        Phase::Text => Stream {
            key,
            text: count,
            place,
            ..zeros
        },
        Phase::Ended => Stream {
            text: count,
            ..zeros
        },
    }
}

// The states of a direction, a set, a phase and a limit, ten to a line: by their count.
fn try_states(direction: Direction, set: u64, phase: Phase, limit: u64, bytes: &[u8]) {
    say(b"states direction=", stream::rank(direction));
    say(b" set=", set);
    say(b" phase=", phase as u64);
    say(b" limit=", limit);
    io::write_all(STDOUT_FILENO, b":");
    let counts = match phase {
        Phase::Ad => DATA,
        Phase::Text | Phase::Ended => TEXTS,
    };
    for count in counts {
        let s = state_of(direction, set, phase, limit, count as usize);
        try_calls(direction, s, bytes);
    }
    io::write_all(STDOUT_FILENO, b"\n");
}

// All cases, under a key and a nonce that count up.
fn main() {
    let bytes = [165; 65537];
    for direction in DIRECTIONS {
        for set in SETS {
            try_starts(direction, set);
        }
    }
    for direction in DIRECTIONS {
        for set in 1..=4 {
            for limit in &LIMITS[..5] {
                for walk in 0..10 {
                    try_walk(direction, set, *limit, walk, &bytes);
                }
            }
        }
    }
    for direction in DIRECTIONS {
        for set in 1..=4 {
            for phase in PHASES {
                for limit in LIMITS {
                    try_states(direction, set, phase, limit, &bytes);
                }
            }
        }
    }
}
