//! The bytes of numbers and of kinds of time, as a line book has them.
#![tactic(auto)]

ghost use Rattle.std.specs.Prelude.{◌≡◌, ℕ, length, refl};
ghost use Rattle.kinds.specs.Time.{within};
ghost use Rattle.book_bytes.specs.Spelling.{Spelling, Spells, Reads};
ghost use Rattle.book_bytes.specs.Kinds.{seconds_spelling, changes_spelling};
ghost use Rattle.std.proofs.Common.{rules};

use kinds::{Changes, Kind, SIZE_LIMIT, Seconds};

pub mod numbers;

use numbers::read_signed;
pub use numbers::{read_four, read_two};

/// A kind of time that is also written as bytes: by a one-byte code of its own, and each value in as many bytes. It reads just what it
/// writes, for sizes up to 400,000,000.
pub trait BookKind: Kind {
    /// How the kind is spelt.
    ghost spelling: { Spelling Self };

    /// The code that a book names the kind by.
    const CODE: u8;

    ghost CODE: { ℕ };

    /// How many bytes a value takes.
    const WIDTH: usize;

    ghost WIDTH: { ℕ };

    /// The value of a size up to 400,000,000 that the bytes spell, or none if there is none.
    fn read(bytes: &[u8]) -> Option<Self>
        ensures { Reads Self.Kind.time spelling bytes.now result };

    /// Spells the value into memory of its width.
    fn write(self, out: &mut [u8])
        requires { length out.old ≡ spelling.width }
        ensures { out.new ≡ spelling.spelt self };

    /// What each implementation proves of that spelling.
    ghost spells: { Spells Self.Kind.time spelling };

    /// The two constants are the spelling's.
    ghost coded: { CODE ≡ spelling.code };

    ghost wide: { WIDTH ≡ spelling.width };
}

// A value, or none if it is over its size.
fn within_size<K: Kind>(value: K) -> Option<K>
    ensures { result ≡ within (K.Kind.time.size value) value }
{
    (value.size() as u64 <= SIZE_LIMIT).then_some(value)
}

impl BookKind for Seconds {
    const CODE: u8 = 1;

    const WIDTH: usize = 4;

    ghost CODE = { seconds_spelling.code };

    ghost WIDTH = { seconds_spelling.width };

    ghost spelling = { seconds_spelling };

    ghost spells = { Prim.search rules };

    ghost coded = { refl };

    ghost wide = { refl };

    fn read(bytes: &[u8]) -> Option<Seconds> {
        let value = read_signed(bytes)?;
        within_size(Seconds { value })
    }

    fn write(self, out: &mut [u8]) {
        out.copy_from_slice(&self.value.to_be_bytes());
    }
}

impl BookKind for Changes {
    const CODE: u8 = 2;

    const WIDTH: usize = 8;

    ghost CODE = { changes_spelling.code };

    ghost WIDTH = { changes_spelling.width };

    ghost spelling = { changes_spelling };

    ghost spells = { Prim.search rules };

    ghost coded = { refl };

    ghost wide = { refl };

    fn read(bytes: &[u8]) -> Option<Changes> {
        let (front, back) = bytes.split_at_checked(4)?;
        let seconds = read_signed(front)?;
        let count = read_four(back)?;
        within_size(Changes { seconds, count })
    }

    fn write(self, out: &mut [u8]) {
        let (seconds, count) = out.split_at_mut(4);
        seconds.copy_from_slice(&self.seconds.to_be_bytes());
        count.copy_from_slice(&self.count.to_be_bytes());
    }
}
