// Keys and tags, strings of at most 16 bytes: put into 16 bytes, given out, compared.
#![tactic(auto)]

ghost use Rattle.std.specs.Prelude.{◌≡◌};
ghost use Rattle.permutation.specs.Strings.{same};
ghost use Rattle.tags.specs.Tags.{sixteen_of, given_tag};

// A string of at most 16 bytes with zeros behind it; zeros for a longer one.
#[tactic(auto, using(permutation::proofs::Strings::drop_zeros), unfolding(crate::specs::Tags::sixteen_of))]
pub fn sixteen(string: &[u8]) -> [u8; 16]
    ensures { result ≡ sixteen_of string.now }
{
    let mut all = [0; 16];
    if string.len() <= 16 {
        all[..string.len()].copy_from_slice(string);
    }
    all
}

// Puts the first bytes of a tag into a place of at most 16; a longer place stays as it is.
#[tactic(auto, unfolding(crate::specs::Tags::given_tag))]
pub fn give_tag(ours: [u8; 16], tag: &mut [u8])
    ensures { tag.new ≡ given_tag ours tag.old }
{
    let n = tag.len();
    if n <= 16 {
        tag.copy_from_slice(&ours[..n]);
    }
}

// Whether two strings are one; where their lengths agree, every byte is looked at, which `==` would not do.
#[tactic(auto, using(crate::proofs::Compared::same_lengths))]
pub fn same_tag(ours: &[u8], theirs: &[u8]) -> bool
    ensures { result ≡ same theirs.now ours.now }
{
    if theirs.len() != ours.len() {
        return false;
    }
    let mut equal = true;
    for (their, our) in theirs.iter().zip(ours) {
        equal &= their == our;
    }
    equal
}
