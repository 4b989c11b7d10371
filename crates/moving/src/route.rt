// The routes from one kind of text to another: what is read, and what is written.
ghost use Rattle.std.specs.Prelude.{◌≡◌};
ghost use Rattle.record.specs.Calls.{writing_of, write_leaves};
ghost use Rattle.entry.specs.Calls.{reading_of};
ghost use Rattle.moving.specs.Moves.{is_known, read_by, write_by};

use entry::Unread;
use record::{Form, Read, Record, Unwritten};

// Where records are moved: from form 1 to form 2, and back; from the entries of a published test file of a set to form 1, and from form 1 to entries.
#[derive(Clone, Copy)]
pub enum Route {
    Forward,
    Back,
    Import(u64),
    Export,
}

impl Route {
    // Whether a route's set is known, where it has one.
    pub(crate) fn is_known(self) -> bool
        ensures { result ≡ is_known self }
    {
        match self {
            Route::Import(set) => sets::is_set(set),
            Route::Forward | Route::Back | Route::Export => true,
        }
    }

    // Reads the record of a number that a text begins with.
    pub(crate) fn read(self, number: u64, text: &[u8]) -> Result<Read<Record>, Unread>
        ensures { reading_of result ≡ read_by self number text.now }
    {
        match self {
            Route::Forward | Route::Export => Ok(record::read(Form::One, text)?),
            Route::Back => Ok(record::read(Form::Two, text)?),
            Route::Import(set) => entry::read(set, number, text),
        }
    }

    // Writes the record of a number at the beginning of a place.
    #[tactic(auto, unfolding(record::specs::Calls::write_call, entry::specs::Calls::write_entry))]
    pub(crate) fn write(
        self,
        number: u64,
        content: Record,
        out: &mut [u8],
    ) -> Result<usize, Unwritten>
        ensures { write_leaves (writing_of result) out.new ≡ write_by self number content out.old }
    {
        match self {
            Route::Forward => record::write(Form::Two, content, out),
            Route::Back | Route::Import(_) => record::write(Form::One, content, out),
            Route::Export => entry::write(number, content, out),
        }
    }
}
