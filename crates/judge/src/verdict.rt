// The verdict on a record: our own sealing against what the record says.
ghost use Rattle.std.specs.Prelude.{◌≡◌};
ghost use Rattle.record.specs.declared.form.Form.TheVariants.{One};
ghost use Rattle.record.specs.Form.{broken};
ghost use Rattle.judge.specs.Verdicts.{verdict_on, ours_of};

use crate::difference;
use crate::difference::held;
use record::{Field, Form, Record};
use report::Verdict;

// Our own sealing of a record's text.
#[derive(Clone, Copy)]
pub struct Ours {
    pub rounds: u64,
    pub cipher: Field,
    pub tag: Field,
}

// Our own sealing of the text of a record in form, through the promise of whole messages. There is no heap: cipher and tag are made where their
// fields will have them.
fn seal_record(entry: Record) -> Ours
    requires { broken One entry ≡ 0 }
    ensures { result ≡ ours_of entry }
{
    let Record {
        set,
        key,
        nonce,
        ad,
        text,
        ..
    } = entry;
    let mut cipher = [0; 256];
    let mut tag = [0; 256];
    let outcome = message::seal(
        set,
        held(&key),
        held(&nonce),
        held(&ad),
        held(&text),
        &mut cipher,
        &mut tag[..key.size],
    );
    Ours {
        rounds: outcome.rounds,
        cipher: Field {
            bytes: cipher,
            size: text.size,
        },
        tag: Field {
            bytes: tag,
            size: key.size,
        },
    }
}

// The verdict on a record.
#[tactic(auto, using(crate::proofs::Ours::our_rounds_are, crate::proofs::Ours::our_cipher_is, crate::proofs::Ours::our_tag_is, record::proofs::Written::none_found, record::proofs::Written::found_line), unfolding(crate::specs::Verdicts::verdict_on))]
pub fn judge(entry: Record) -> Verdict
    ensures { result ≡ verdict_on entry }
{
    if let Some(line) = record::first_broken(Form::One, entry) {
        return Verdict::Unread { line, column: 0 };
    }
    let ours = seal_record(entry);
    if entry.rounds != ours.rounds {
        Verdict::Rounds
    } else if difference::fields_differ(ours.cipher, entry.cipher) {
        Verdict::Cipher
    } else if difference::fields_differ(ours.tag, entry.tag) {
        Verdict::Tag
    } else {
        Verdict::Equal
    }
}
