// Words put one behind another in a place of their own, seen as the bytes that they are so far.
ghost use Rattle.std.specs.Prelude.{◌≡◌, [], ◌++◌, ◌+◌, ◌≤◌, length};
ghost use Rattle.digits.specs.Numbers.{numeral};
ghost use Rattle.turns.specs.Tallies.{numbered};

use std::fmt;
use std::marker::Model;

// Words of at most `N` bytes, with their size beside them: there is no heap.
#[derive(Drop)]
pub(crate) struct Words<const N: usize> {
    place: [u8; N],
    size: usize,
}

impl<const N: usize> Model for Words<N> {
    ghost use Rattle.std.specs.Prelude.{List, ℕ, ◌≤◌, take};

    ghost Value = { List ℕ };

    ghost view = { λ w. take w.size w.place };

    ghost invariant = { λ w. w.size ≤ N };
}

impl<const N: usize> Words<N> {
    // No words yet.
    pub(crate) fn new() -> Words<N>
        ensures { result ≡ [] }
    {
        Words {
            place: [0; N],
            size: 0,
        }
    }

    // The words so far.
    pub(crate) fn bytes(&self) -> &[u8]
        ensures words { result.now ≡ self.now }
        ensures room { length self.now ≤ N }
    {
        &self.place[..self.size]
    }

    // Puts a text behind them. `number` is alike in shape; one method for both, which takes what puts, would be no plainer.
    pub(crate) fn text(&mut self, text: &[u8])
        requires { length self.old + length text.now ≤ N }
        ensures { self.new ≡ self.old ++ text.now }
    {
        let place = &mut self.place[..];
        self.size += digits::put_text(text, &mut place[self.size..]);
    }

    // Puts a number behind them.
    pub(crate) fn number(&mut self, number: u64)
        requires { length self.old + 20 ≤ N }
        ensures { self.new ≡ self.old ++ numeral number }
    {
        let place = &mut self.place[..];
        self.size += digits::put_number(number, &mut place[self.size..]);
    }

    // Puts a text and a number behind them.
    #[tactic(auto, unfolding(turns::specs::Tallies::numbered))]
    pub(crate) fn numbered(&mut self, text: &[u8], number: u64)
        requires { length self.old + length text.now + 20 ≤ N }
        ensures words { self.new ≡ self.old ++ numbered text.now number }
        ensures room { length self.new ≤ length self.old + length text.now + 20 }
    {
        self.text(text);
        self.number(number);
    }
}

// What has no room is left out.
impl<const N: usize> fmt::Write for Words<N> {
    fn write_str(&mut self, s: &str) -> fmt::Result {
        let bytes = s.as_bytes();
        let room = N - self.size;
        self.text(&bytes[..bytes.len().min(room)]);
        Ok(())
    }
}
