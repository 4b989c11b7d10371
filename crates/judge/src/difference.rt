// The first difference of a wanted and a found text.
ghost use Rattle.std.specs.Prelude.{◌≡◌, min};
ghost use Rattle.record.specs.Form.{held};
ghost use Rattle.judge.specs.Difference.{first_difference, differ, difference_of, part_of, difference_part, comparison_of, comparison};

use record::Field;

// The place at which two texts differ first; where they are the same, their length.
// No Option: `difference_tail` begins there either way, with an empty part where they are the same.
fn first_place(wanted: &[u8], found: &[u8]) -> usize
    ensures { result ≡ (first_difference wanted.now found.now).place }
{
    let shorter = wanted.len().min(found.len());
    wanted
        .iter()
        .zip(found)
        .position(|(ours, theirs)| *ours != *theirs)
        .unwrap_or(shorter)
}

// Where two texts differ first, if they differ: their bytes differ there, or one has ended and the other has not.
#[tactic(auto, using(crate::proofs::Differences::goes_on, crate::proofs::Differences::both_end))]
pub fn first_difference(wanted: &[u8], found: &[u8]) -> Option<usize>
    ensures { result ≡ difference_of wanted.now found.now }
{
    let place = first_place(wanted, found);
    if place < wanted.len().max(found.len()) {
        Some(place)
    } else {
        None
    }
}

// The rest of the found text itself, from the first difference on; the empty end of the found text where that is the wanted text or a beginning of it.
#[tactic(auto, using(crate::proofs::Differences::inside, crate::proofs::Differences::part_from))]
pub fn difference_tail<'a>(wanted: &[u8], found: &'a [u8]) -> &'a [u8]
    ensures { part_of result ≡ difference_part wanted.now found.entry }
{
    &found[first_place(wanted, found)..]
}

// Where two texts differ first, if they differ, and the found text from there on.
#[derive(Clone, Copy)]
pub struct Comparison<'a> {
    pub difference: Option<usize>,
    pub part: &'a [u8],
}

// The first difference of two texts, and the rest of the found text itself from there on.
pub fn compare<'a>(wanted: &[u8], found: &'a [u8]) -> Comparison<'a>
    ensures { comparison_of result ≡ comparison wanted.now found.entry }
{
    Comparison {
        difference: first_difference(wanted, found),
        part: difference_tail(wanted, found),
    }
}

// The bytes that a field holds: as many as it says, and no more than it has places. `Field::held` of record is that crate's own, and asks for a size that the places have.
pub(crate) fn held(field: &Field) -> &[u8]
    ensures { result.now ≡ held field.now }
{
    &field.bytes[..field.size.min(256)]
}

// Whether the bytes that two fields hold differ.
#[tactic(auto, using(crate::proofs::Differences::not_same))]
pub fn fields_differ(wanted: Field, found: Field) -> bool
    ensures { result ≡ differ (held wanted) (held found) }
{
    held(&wanted) != held(&found)
}
