// The kinds of lines: what a line is called, and what may stand behind its name.
ghost use Rattle.std.specs.Prelude.{◌≡◌};
ghost use Rattle.lines.specs.Right.{named, value_in};

use digits::Case;

// A name: the first `size` of 32 places. It owns them, with no heap, since the name of an entry's first line is made from a number.
#[derive(Clone, Copy)]
pub struct Name {
    pub bytes: [u8; 32],
    pub size: usize,
}

// What may stand between a line's name and its line feed. `Fixed`: nothing; the name is the whole line, a fixed word, and the number tells which. `Number`: a decimal
// with no needless zero, from 0 or 1 up to a bound. `Bytes`: bytes in hex, at least and at most so many.
#[derive(Clone, Copy)]
pub enum Value {
    Fixed(u64),
    Number(u64, u64),
    Bytes(u16, u16, Case),
}

// A kind of line: its name and its value.
#[derive(Clone, Copy)]
pub struct Kind {
    pub name: Name,
    pub value: Value,
}

// A text of at most 32 bytes as a name, with zeros behind it; the empty name for a longer text. No Option: the definition `named` and row `lines_named` of `every_call` have
// the empty name there.
#[tactic(auto, unfolding(crate::specs::Right::named))]
pub fn named(text: &[u8]) -> Name
    ensures { result ≡ named text.now }
{
    let mut bytes = [0; 32];
    if 32 < text.len() {
        return Name { bytes, size: 0 };
    }
    bytes[..text.len()].copy_from_slice(text);
    Name {
        bytes,
        size: text.len(),
    }
}

// What stands between the name and the line feed of a line; nothing in a line too short for both.
pub fn value_in(kind: Kind, line: &[u8]) -> &[u8]
    ensures { result.now ≡ value_in kind line.now }
{
    line.get(kind.name.size..line.len().saturating_sub(1))
        .unwrap_or(b"")
}
