//! What a refused reading or writing of a book tells.
ghost use Rattle.std.specs.Prelude.{◌≡◌};
ghost use Rattle.fields.specs.Faults.{book_number, book_layer, book_place, placed_at};
ghost use Rattle.fields.specs.declared.faults.BookFault.TheVariants.{Plan};

use network::Layer;
use rules::PlanFault;

/// Why a book was not read or written.
#[derive(Clone, Copy, Debug, PartialEq, Eq)]
pub enum BookFault {
    /// A memory has another length than listed.
    Length,
    /// The book does not begin with the mark.
    Mark,
    /// The field names another kind of time by its code.
    Code { place: usize },
    /// A field is cut, has a wrong length, or holds a value that its kind cannot read.
    Field { place: usize },
    /// A tag without a meaning, or a field out of order.
    Order { place: usize },
    /// The memory for the book is too short.
    Short,
    /// What the plan refused, whole, and where the field stands that was entered.
    Plan { fault: PlanFault, place: usize },
}

/// A fault of a plan, and where the field stands that was entered.
#[derive(Clone, Copy, Debug, PartialEq, Eq)]
pub struct Placed {
    pub fault: PlanFault,
    pub place: usize,
}

impl From<Placed> for BookFault {
    ghost from_gives = { λ e r. r ≡ Plan e.fault e.place };

    fn from(e: Placed) -> BookFault {
        BookFault::Plan {
            fault: e.fault,
            place: e.place,
        }
    }
}

/// An answer of a plan's call, its fault with the place of the field that was entered.
pub fn at_place<X>(answer: Result<X, PlanFault>, place: usize) -> Result<X, Placed>
    ensures { result ≡ placed_at place answer }
{
    answer.map_err(|fault| Placed { fault, place })
}

impl BookFault {
    /// The number of the refusal.
    pub fn number(&self) -> u8
        ensures { result ≡ book_number self.now }
    {
        match self {
            BookFault::Length => 1,
            BookFault::Mark | BookFault::Code { .. } => 13,
            BookFault::Field { .. } => 14,
            BookFault::Order { .. } => 15,
            BookFault::Short => 16,
            BookFault::Plan { fault, .. } => fault.number(),
        }
    }

    /// The layer that tells the fault.
    pub fn layer(&self) -> Layer
        ensures { result ≡ book_layer self.now }
    {
        Layer::Book
    }

    /// The offset of the field's tag, and 0 where no field is at fault.
    pub fn place(&self) -> usize
        ensures { result ≡ book_place self.now }
    {
        match self {
            BookFault::Code { place }
            | BookFault::Field { place }
            | BookFault::Order { place }
            | BookFault::Plan { place, .. } => *place,
            BookFault::Length | BookFault::Mark | BookFault::Short => 0,
        }
    }
}
