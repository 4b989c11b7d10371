// A field: up to 256 bytes, with zeros behind them.
ghost use Rattle.std.specs.Prelude.{◌≡◌, ◌≤◌, []};
ghost use Rattle.digits.specs.Hex.{from_hex_in};
ghost use Rattle.record.specs.Form.{field_of, held, is_field};
ghost use Rattle.record.specs.Calls.{fitted};

use digits::Case;

// The bytes of a line: the first `size` of 256 places. There is no heap, so they stand here; and since records out of form are handed in and refused (`first_broken`),
// no invariant bounds the size.
#[derive(Clone, Copy)]
pub struct Field {
    pub bytes: [u8; 256],
    pub size: usize,
}

impl Field {
    // A field with no bytes.
    #[tactic(auto, unfolding(crate::specs::Form::field_of))]
    pub(crate) fn empty() -> Field
        ensures { result ≡ field_of [] }
    {
        Field {
            bytes: [0; 256],
            size: 0,
        }
    }

    // The bytes that a field holds.
    pub(crate) fn held(&self) -> &[u8]
        requires { self.now.size ≤ 256 }
        ensures { result.now ≡ held self.now }
    {
        &self.bytes[..self.size]
    }

    // Whether a field has at most 256 bytes, and zeros in every place past them.
    #[tactic(auto, unfolding(crate::specs::Form::is_field))]
    pub(crate) fn is_in_form(&self) -> bool
        ensures { result ≡ is_field self.now }
    {
        self.size <= 256 && self.bytes[self.size..].iter().all(|&b| b == 0)
    }
}

// The field of digits, two a byte; the empty one where they are no bytes, or more than 256.
// No Option: row `record_read_field` of `every_call` and the definition `fitted` have the empty field there.
pub fn read_field(case: Case, text: &[u8]) -> Field
    ensures { result ≡ fitted (from_hex_in case text.now) }
{
    let size = text.len() / 2;
    if 256 < size || text.len() % 2 != 0 {
        return Field::empty();
    }
    let mut bytes = [0; 256];
    // By index: two digits go to one place.
    for i in 0..size {
        let Ok(b) = digits::read_pair(case, text[2 * i], text[2 * i + 1]) else {
            return Field::empty();
        };
        bytes[i] = b;
    }
    Field { bytes, size }
}
