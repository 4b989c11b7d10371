// The verdict on a record, and its report: three lines.
#![tactic(auto)]

ghost use Rattle.std.specs.Prelude.{◌≡◌, ◌≤◌, length};
ghost use Rattle.digits.specs.Room.{laid, put};
ghost use Rattle.report.specs.Reports.{word, part, report_leaves, report_call, reported_of};

// What the bench says of a record: all agrees, or the first field that differs, or it can't be read.
#[derive(Clone, Copy)]
pub enum Verdict {
    Equal,
    Rounds,
    Cipher,
    Tag,
    // The first broken line of a record out of form, and the column at which it is wrong; 0 where the record was handed over as a struct.
    // The column stays a number: the definition `verdict_on` and the theorems on `Unread line column` have it so.
    Unread { line: usize, column: usize },
}

// Why nothing was reported: the place has no room for the report.
#[derive(Clone, Copy, PartialEq, Eq)]
pub struct NoRoom;

// What the verdict's line says of it.
fn word(verdict: Verdict) -> &'static [u8]
    ensures { result.now ≡ word verdict }
{
    match verdict {
        Verdict::Equal => b"equal",
        Verdict::Rounds | Verdict::Cipher | Verdict::Tag => b"differs",
        Verdict::Unread { .. } => b"unread",
    }
}

// Puts what the last line says, the differing field or the broken line, at the beginning of a place.
#[tactic(auto, using(crate::proofs::Lengths::numeral_most))]
fn put_part(verdict: Verdict, out: &mut [u8]) -> usize
    ensures value { laid result out.new ≡ put (part verdict) out.old }
    ensures upper_bound { length (part verdict) ≤ 20 }
{
    match verdict {
        Verdict::Equal => digits::put_text(b"none", out),
        Verdict::Rounds => digits::put_text(b"rounds", out),
        Verdict::Cipher => digits::put_text(b"cipher", out),
        Verdict::Tag => digits::put_text(b"tag", out),
        Verdict::Unread { line, .. } => digits::put_number(line as u64, out),
    }
}

// Writes the report on a record with a number at the beginning of a place, and gives its length; a place too short for it stays as it is.
// No Display: into lent room, all or nothing, it would need a writer of its own and its measure, where three calls of `put_line` stand.
pub fn report(number: u64, verdict: Verdict, out: &mut [u8]) -> Result<usize, NoRoom>
    ensures { report_leaves (reported_of result) out.new ≡ report_call number verdict out.old }
{
    // No heap: a number's digits go into a place, of which as many count as were put.
    let mut place = [0; 20];
    let size = digits::put_number(number, &mut place);
    let numeral = &place[..size];
    let mut place = [0; 20];
    let size = put_part(verdict, &mut place);
    let part = &place[..size];
    let word = word(verdict);
    let names = b"record=\nverdict=\nfield=\n";
    if out.len() < names.len() + numeral.len() + word.len() + part.len() {
        return Err(NoRoom);
    }
    let one = digits::put_line(b"record=", numeral, out);
    let two = one + digits::put_line(b"verdict=", word, &mut out[one..]);
    Ok(two + digits::put_line(b"field=", part, &mut out[two..]))
}
