// The parts of a record: what each is called, and what it may hold.
ghost use Rattle.std.specs.Prelude.{◌≡◌};
ghost use Rattle.lines.specs.Right.{named};
ghost use Rattle.record.specs.Form.{number_of, value_kind};
ghost use Rattle.record.specs.Text.{name, kind_of};

use digits::Case;
use lines::{Kind, Name, Value};

// The parts of a record, in the order of form 2's lines; the first is the form's own word. The definitions (`part_at`, `keeps`) speak of them by number, 1 to 10.
#[derive(Clone, Copy)]
pub(crate) enum Part {
    Form,
    Set,
    Chip,
    Key,
    Nonce,
    Ad,
    Text,
    Cipher,
    Tag,
    Rounds,
}

impl Part {
    // The name of a part, with which its line begins; that of the form is its whole line.
    #[tactic(auto, unfolding(crate::specs::Text::name, crate::specs::Text::names))]
    pub(crate) fn name(self) -> Name
        ensures { result ≡ named (name (number_of self)) }
    {
        match self {
            Part::Form => lines::named(b"form=2"),
            Part::Set => lines::named(b"set="),
            Part::Chip => lines::named(b"chip="),
            Part::Key => lines::named(b"key="),
            Part::Nonce => lines::named(b"nonce="),
            Part::Ad => lines::named(b"ad="),
            Part::Text => lines::named(b"text="),
            Part::Cipher => lines::named(b"cipher="),
            Part::Tag => lines::named(b"tag="),
            Part::Rounds => lines::named(b"rounds="),
        }
    }

    // What a part may hold, where the set is this.
    #[tactic(auto, using(sets::proofs::Rows::row_sizes), unfolding(crate::specs::Form::value_kind, ascon::specs::Sets::table))]
    pub(crate) fn value(self, set: u64) -> Value
        ensures { result ≡ value_kind (number_of self) set }
    {
        match self {
            Part::Form => Value::Fixed(2),
            Part::Set => Value::Number(1, sets::ROWS as u64),
            Part::Chip => Value::Number(0, 65535),
            Part::Rounds => Value::Number(0, 9999999),
            Part::Key | Part::Nonce | Part::Tag => {
                // A cast, since a length always fits: `try_from` would make a refusal that never comes.
                let key = sets::key_length(set) as u16;
                Value::Bytes(key, key, Case::Lower)
            }
            Part::Ad | Part::Text | Part::Cipher => Value::Bytes(0, 256, Case::Lower),
        }
    }

    // The kind of a part's line, where the set is this. Entries and logs have the like, each of its own parts: a name and a value joined.
    #[tactic(auto, unfolding(crate::specs::Text::kind_of))]
    pub(crate) fn kind(self, set: u64) -> Kind
        ensures { result ≡ kind_of (number_of self) set }
    {
        Kind {
            name: self.name(),
            value: self.value(set),
        }
    }
}
