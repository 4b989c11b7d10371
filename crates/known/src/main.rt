// Prints what the permutation makes of published inputs. The file `stdout` beside src/ holds the published answers, none of which this project's code printed.
#![tactic(auto)]

use permutation::{Run, State};

// The number of standard output.
const STDOUT_FILENO: i32 = 1;

// Writes a line of text. Kept on `io`, which rests on `write` alone (docs/ANSWERS.md): std's `println!` would trust two more declarations of the C library.
fn say(text: &[u8]) {
    io::write_all(STDOUT_FILENO, text);
    io::write_all(STDOUT_FILENO, b"\n");
}

// Writes what the state is of, and on the next line its five words.
fn show(of: &[u8], s: State) {
    say(of);
    for word in [s.x0, s.x1, s.x2, s.x3] {
        io::print_hex(STDOUT_FILENO, word, 16);
        io::write_all(STDOUT_FILENO, b" ");
    }
    io::print_hex(STDOUT_FILENO, s.x4, 16);
    say(b"");
}

// Writes whether two states are one.
fn compare(of: &[u8], s: State, t: State) {
    io::write_all(STDOUT_FILENO, of);
    say(if s == t { b" yes" } else { b" no" });
}

fn main() {
    let one = State {
        x0: 0x0123456789abcdef,
        x1: 0x23456789abcdef01,
        x2: 0x456789abcdef0123,
        x3: 0x6789abcdef012345,
        x4: 0x89abcde01234567f,
    };
    let run = State {
        x0: 0x0123456789abcdef,
        x1: 0xef0123456789abcd,
        x2: 0xcdef0123456789ab,
        x3: 0xabcdef0123456789,
        x4: 0x89abcdef01234567,
    };
    let zeros = State {
        x0: 0,
        x1: 0,
        x2: 0,
        x3: 0,
        x4: 0,
    };
    show(b"one round, constant 1f", permutation::rounded(one, 0x1f));
    show(b"twelve rounds", permutation::permuted(run, Run::Twelve));
    show(
        b"twelve rounds from zeros",
        permutation::permuted(zeros, Run::Twelve),
    );
    let last_eight = permutation::permuted(run, Run::LastEight);
    let last_six = permutation::permuted(run, Run::LastSix);
    show(b"the last eight constants", last_eight);
    show(b"the last six constants", last_six);
    compare(
        b"the first eight constants give the same as the last:",
        permutation::permuted(run, Run::FirstEight),
        last_eight,
    );
    compare(
        b"the first six constants give the same as the last:",
        permutation::permuted(run, Run::FirstSix),
        last_six,
    );
}
