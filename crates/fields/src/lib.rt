//! The mark and the fields of a line book.
#![tactic(auto)]

ghost use Rattle.std.specs.Prelude.{◌≡◌};
ghost use Rattle.fields.specs.Fields.{Marked, Names, Splits, tag_of};

pub mod faults;

pub use faults::{BookFault, Placed, at_place};

/// The four bytes that a book begins with.
pub const MARK: &[u8; 4] = b"RBK1";

/// What follows the mark, or none if the book does not begin with it.
pub fn after_mark(book: &[u8]) -> Option<&[u8]>
    ensures { Marked book.now result }
{
    book.strip_prefix(MARK)
}

/// A field by its tag, with its own bytes in the book.
#[derive(Clone, Copy, Debug, PartialEq, Eq)]
pub enum Field<'a> {
    Kind(&'a [u8]),
    Track(&'a [u8]),
    Run(&'a [u8]),
    Connection(&'a [u8]),
    Turned(&'a [u8]),
    Broken(&'a [u8]),
    /// A tag without a meaning.
    Unknown { tag: u8, bytes: &'a [u8] },
}

impl<'a> Field<'a> {
    /// The tag of the field.
    pub fn tag(&self) -> u8
        ensures { result ≡ tag_of self.now }
    {
        match self {
            Field::Kind(_) => 1,
            Field::Track(_) => 2,
            Field::Run(_) => 3,
            Field::Connection(_) => 4,
            Field::Turned(_) => 5,
            Field::Broken(_) => 6,
            Field::Unknown { tag, .. } => *tag,
        }
    }
}

/// A field, and the offset of its tag in the book.
#[derive(Clone, Copy, Debug, PartialEq, Eq)]
pub struct Found<'a> {
    pub field: Field<'a>,
    pub offset: usize,
}

// The field of a tag and its bytes.
// Stays: a tag alone makes no field, and a `From` of the pair is no plainer.
fn field_of<'a>(tag: u8, body: &'a [u8]) -> Field<'a>
    ensures { Names tag body.now result }
{
    match tag {
        1 => Field::Kind(body),
        2 => Field::Track(body),
        3 => Field::Run(body),
        4 => Field::Connection(body),
        5 => Field::Turned(body),
        6 => Field::Broken(body),
        _ => Field::Unknown { tag, bytes: body },
    }
}

/// The first field of what is left of a book at an offset, and what follows it; nothing if nothing is left, and a fault at the offset if the
/// field is cut.
pub fn next_field<'a>(
    rest: &'a [u8],
    offset: usize,
) -> Result<Option<(Found<'a>, &'a [u8])>, BookFault>
    ensures { Splits rest.now offset result }
{
    match rest {
        [] => Ok(None),
        [tag, high, low, behind @ ..] => {
            let long = u16::from_be_bytes([*high, *low]) as usize;
            let (body, after) = behind
                .split_at_checked(long)
                .ok_or(BookFault::Field { place: offset })?;
            let field = field_of(*tag, body);
            Ok(Some((Found { field, offset }, after)))
        }
        _ => Err(BookFault::Field { place: offset }),
    }
}
