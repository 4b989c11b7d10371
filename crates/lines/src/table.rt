// Lines one after another by a table: how each is read, from what those before it gave.
ghost use Rattle.std.specs.Prelude.{◌≡◌, List, ℕ, ◌≤◌};
ghost use Rattle.lines.specs.Steps.{Found};
ghost use Rattle.lines.specs.Tables.{Inside, lines_from, outcome_of};

use crate::walk::{Line, Stopped};

// What was read, and of how many bytes.
#[derive(Clone, Copy)]
pub struct Read<T> {
    pub content: T,
    pub taken: usize,
}

// The line and column at which a text is wrong, and whether it only ended too early, so that more of it can be right.
#[derive(Clone, Copy)]
pub struct Unread {
    pub line: usize,
    pub column: usize,
    pub early: bool,
}

// A table of lines: how many there are; what is known before the first; how each is read, by its number and from what those before it gave; and what they give with it.
// A line that was read lies in its text. A line goes by its number, as refusals tell it, so the bounds of that are clauses.
pub trait Table {
    type Content: Copy;

    ghost count: { Self → ℕ };

    ghost first: { Self → Self.Content };

    ghost read_at: { Self → ℕ → Self.Content → List ℕ → Found };

    ghost given: { Self → ℕ → Self.Content → ℕ → List ℕ → Self.Content };

    fn count(&self) -> usize
        ensures { result ≡ count self.now };

    fn first(&self) -> Self::Content
        ensures { result ≡ first self.now };

    fn read_line(&self, line: usize, content: &Self::Content, text: &[u8]) -> Result<Line, Stopped>
        requires first { 1 ≤ line }
        requires last { line ≤ count self.now }
        ensures { result ≡ read_at self.now line content.now text.now };

    fn take_line(&self, line: usize, content: &mut Self::Content, says: u64, text: &[u8])
        requires first { 1 ≤ line }
        requires last { line ≤ count self.now }
        ensures { content.new ≡ given self.now line content.old says text.now };

    ghost inside: { (table : Self) (line : ℕ) (content : Self.Content) (text : List ℕ) → Inside text (read_at table line content text) };
}

// Reads the lines of a table that a text begins with, each straight after the one before. No `for`: the rules ask for a loop that is left with the bad line's number.
pub fn read_table<T: Table>(table: &T, text: &[u8]) -> Result<Read<T::Content>, Unread>
    ensures { outcome_of result ≡ lines_from (T.read_at table.now) (T.given table.now) (T.count table.now) 1 0 (T.first table.now) text.now }
{
    let mut content = table.first();
    let mut taken = 0;
    let mut line = 0;
    let bad = loop {
        if table.count() <= line {
            break None;
        }
        line += 1;
        let rest = &text[taken..];
        match table.read_line(line, &content, rest) {
            Ok(found) => {
                table.take_line(line, &mut content, found.number, &rest[..found.size]);
                taken += found.size;
            }
            Err(stopped) => {
                break Some(Unread {
                    line,
                    column: stopped.column,
                    early: rest.len() < stopped.column,
                });
            }
        }
    };
    match bad {
        Some(unread) => Err(unread),
        None => Ok(Read { content, taken }),
    }
}
