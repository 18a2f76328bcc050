//! Kinds of time: what the library asks of a time, and the two kinds of the base.
#![tactic(auto)]

ghost use Rattle.std.specs.Prelude.{◌≡◌, ℕ, ◌+◌, nat_le};
ghost use Rattle.kinds.specs.Time.{Time, Laws, within};
ghost use Rattle.kinds.specs.Models.{over, seconds_time, changes_time};
ghost use Rattle.kinds.specs.Kept.{seconds_laws, changes_laws};

mod words;

pub use words::ChangesError;

/// The most that the sizes of two joined values may sum to.
pub const SIZE_LIMIT: u64 = 400_000_000;

/// A kind of time. Its meaning is an order, a joining, a value called nothing, a lateness and a size; everything above this
/// trait compares and joins times only by asking these questions, and is proved from the laws alone.
pub trait Kind: Copy {
    /// What the values mean.
    ghost time: { Time Self };

    /// Whether `self` stands at or before `b`.
    fn compare(self, b: Self) -> bool
        ensures { result ≡ time.before self b };

    /// `self` then `w`, or none exactly if their sizes sum to more than 400,000,000.
    fn then(self, w: Self) -> Option<Self>
        ensures { result ≡ within (time.size self + time.size w) (time.join self w) };

    /// How much later than `p` is `self`, or none exactly if their sizes sum to more than 400,000,000.
    fn lateness(self, p: Self) -> Option<u32>
        ensures { result ≡ within (time.size self + time.size p) (time.late self p) };

    /// The duration that changes no time.
    fn nothing() -> Self
        ensures { result ≡ time.none };

    /// How large the value is.
    fn size(self) -> u32
        ensures { result ≡ time.size self };

    /// What each implementation proves of that meaning.
    ghost laws: { Laws time };
}

// Whether two sizes sum to at most the limit.
fn fits(a: u32, b: u32) -> bool
    ensures { result ≡ nat_le (a + b) SIZE_LIMIT }
{
    a as u64 + b as u64 <= SIZE_LIMIT
}

// How many seconds `a` is later than `p`.
fn over(a: i32, p: i32) -> u32
    ensures { result ≡ over a p }
{
    a.max(p).abs_diff(p)
}

/// Whole seconds.
#[derive(Clone, Copy, Debug, PartialEq, Eq, PartialOrd, Ord)]
pub struct Seconds {
    pub value: i32,
}

impl Kind for Seconds {
    ghost time = { seconds_time };

    ghost laws = { seconds_laws };

    fn compare(self, b: Seconds) -> bool {
        self <= b
    }

    fn then(self, w: Seconds) -> Option<Seconds> {
        fits(self.size(), w.size()).then(|| Seconds {
            value: self.value + w.value,
        })
    }

    fn lateness(self, p: Seconds) -> Option<u32> {
        fits(self.size(), p.size()).then(|| over(self.value, p.value))
    }

    fn nothing() -> Seconds {
        Seconds { value: 0 }
    }

    fn size(self) -> u32 {
        self.value.unsigned_abs()
    }
}

/// Whole seconds, and among equal seconds a count of changes of train.
#[derive(Clone, Copy, Debug, PartialEq, Eq, PartialOrd, Ord)]
pub struct Changes {
    pub seconds: i32,
    pub count: u32,
}

impl Kind for Changes {
    ghost time = { changes_time };

    ghost laws = { changes_laws };

    fn compare(self, b: Changes) -> bool {
        self <= b
    }

    fn then(self, w: Changes) -> Option<Changes> {
        fits(self.size(), w.size()).then(|| Changes {
            seconds: self.seconds + w.seconds,
            count: self.count + w.count,
        })
    }

    fn lateness(self, p: Changes) -> Option<u32> {
        fits(self.size(), p.size()).then(|| over(self.seconds, p.seconds))
    }

    fn nothing() -> Changes {
        Changes {
            seconds: 0,
            count: 0,
        }
    }

    fn size(self) -> u32 {
        self.count.max(self.seconds.unsigned_abs())
    }
}
