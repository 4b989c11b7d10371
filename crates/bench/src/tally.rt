// How many records were judged, and how: counted verdict by verdict, and said in the last words of a run.
ghost use Rattle.std.specs.Prelude.{◌≡◌, ◌++◌, ◌≤◌, ◌<◌, length};
ghost use Rattle.turns.specs.Tallies.{records_of, largest, counted_with, end_line, fault_line, last_words};

use crate::words::Words;
use report::Verdict;
use turns::Tally;

// How many records were judged. The bound is a clause here and in what follows, and no invariant of `Tally`: the definitions of `turns` build any tally.
pub(crate) fn records(tally: Tally) -> u64
    requires { records_of tally ≤ largest }
    ensures { result ≡ records_of tally }
{
    tally.equal + tally.differ + tally.unread
}

// The tally with one verdict more.
pub(crate) fn counted(mut tally: Tally, verdict: Verdict) -> Tally
    requires { records_of tally < largest }
    ensures { result ≡ counted_with tally verdict }
{
    match verdict {
        Verdict::Equal => tally.equal += 1,
        Verdict::Rounds | Verdict::Cipher | Verdict::Tag => tally.differ += 1,
        Verdict::Unread { line, column } => {
            tally.unread += 1;
            tally.line = line;
            tally.column = column;
        }
    }
    tally
}

// Puts the line that ends a run behind words.
#[tactic(auto, unfolding(turns::specs::Tallies::end_line))]
fn put_end(words: &mut Words<256>, tally: Tally)
    requires tally_bound { records_of tally ≤ largest }
    requires room { length words.old ≤ 128 }
    ensures { words.new ≡ words.old ++ end_line tally }
{
    words.numbered(b"bench: ", records(tally));
    words.numbered(b" records: ", tally.equal);
    words.numbered(b" equal, ", tally.differ);
    words.numbered(b" differ, ", tally.unread);
    words.text(b" unread\n");
}

// The line that says where a record or an entry broke, by this word for it.
#[tactic(auto, unfolding(turns::specs::Tallies::fault_line))]
pub(crate) fn fault_line(word: &[u8], number: u64, line: usize, column: usize) -> Words<256>
    requires { length word.now ≤ 32 }
    ensures words { result ≡ fault_line word.now number line column }
    ensures room { length result ≤ 128 }
{
    let mut words = Words::new();
    words.numbered(word, number);
    words.numbered(b": line ", line as u64);
    words.numbered(b", column ", column as u64);
    words.text(b"\n");
    words
}

// The last words of a run.
#[tactic(auto, unfolding(turns::specs::Tallies::last_words))]
pub(crate) fn last_words(tally: Tally) -> Words<256>
    requires { records_of tally ≤ largest }
    ensures { result ≡ last_words tally }
{
    let mut words = if tally.unread == 0 {
        Words::new()
    } else {
        fault_line(b"bench: record ", records(tally), tally.line, tally.column)
    };
    put_end(&mut words, tally);
    words
}
