// Prints the first differences of pairs of texts: of any two with at most three letters, and of texts with twenty letters, beside their beginnings and with another
// letter. The file `stdout` holds the second program's answers.
#![tactic(auto)]

ghost use Rattle.std.specs.Prelude.{◌≡◌, ◌≤◌, length};

// The number of standard output. Kept on `io`, which rests on `write` alone (docs/ANSWERS.md): std's `print!` would trust two more declarations of the C library.
const STDOUT_FILENO: i32 = 1;

// Writes the place of a difference, or that there is none.
fn say_place(difference: Option<usize>) {
    match difference {
        Some(place) => {
            io::write_all(STDOUT_FILENO, b" at=");
            io::print_decimal(STDOUT_FILENO, place as u64);
        }
        None => {
            io::write_all(STDOUT_FILENO, b" same");
        }
    }
}

// Writes two texts, their first difference, and the part of the found one from there on.
fn tell(wanted: &[u8], found: &[u8]) {
    io::write_all(STDOUT_FILENO, b"wanted=");
    io::write_all(STDOUT_FILENO, wanted);
    io::write_all(STDOUT_FILENO, b" found=");
    io::write_all(STDOUT_FILENO, found);
    say_place(judge::first_difference(wanted, found));
    io::write_all(STDOUT_FILENO, b" part=");
    io::write_all(STDOUT_FILENO, judge::difference_tail(wanted, found));
    io::write_all(STDOUT_FILENO, b"\n");
}

// How many letters the text of a number from 1 to 15 has.
fn size(number: u64) -> usize
    ensures { result ≤ 3 }
{
    match number {
        0..=1 => 0,
        2..=3 => 1,
        4..=7 => 2,
        _ => 3,
    }
}

// The letter `a` or `b` of an even or an odd number.
fn letter(number: u64) -> u8 {
    b'a' + (number % 2) as u8
}

// The letters of a number: its binary digits, the lowest first.
fn letters(number: u64) -> [u8; 3]
    ensures { 3 ≡ length result }
{
    [letter(number), letter(number / 2), letter(number / 4)]
}

// Tells of the texts of two numbers.
fn tell_short(number: u64, other: u64) {
    tell(
        &letters(number)[..size(number)],
        &letters(other)[..size(other)],
    );
}

// Tells of a text beside each of its beginnings, either way, and beside itself.
fn tell_beginnings(text: &[u8]) {
    for i in 0..text.len() {
        tell(text, &text[..i]);
        tell(&text[..i], text);
    }
    tell(text, text);
}

// Tells of twenty times one letter beside the same with another letter at each place.
fn tell_changes() {
    for i in 0..20 {
        let mut other = [b'a'; 20];
        other[i] = b'b';
        tell(&[b'a'; 20], &other);
    }
}

fn main() {
    for number in 1..16 {
        for other in 1..16 {
            tell_short(number, other);
        }
    }
    tell_beginnings(b"abcdefghijklmnopqrst");
    tell_changes();
}
