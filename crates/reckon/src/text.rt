//! Lines of words, and what they enter in a network.
ghost use Rattle.std.specs.Prelude.{◌≡◌, IfOk, IfSome, IsTrue, All};
ghost use Rattle.reckon.specs.Text.{plain};

use kinds::Kind;
use network::Arc;
use std::alloc::{AllocError, AllocFailed};
use std::str::FromStr;

/// Why a line is not taken.
#[derive(Debug, Drop)]
pub enum LineFault {
    Misread,
    Memory(AllocError),
}

impl<T: Drop> From<AllocFailed<T>> for LineFault {
    fn from(e: AllocFailed<T>) -> LineFault {
        LineFault::Memory(AllocError::from(e))
    }
}

/// What a line enters in a network.
#[derive(Clone, Copy)]
pub enum Entry<K> {
    Event { floor: K },
    Arc(Arc<K>),
}

/// The line that the bytes are, or none where it is blank or a comment.
pub(crate) fn line_of(bytes: &[u8]) -> Result<Option<&str>, LineFault>
    ensures { IfOk result (λ line. IfSome line (λ l. All (λ b. IsTrue (plain b)) l.now)) }
{
    let line = std::str::from_utf8(bytes).map_err(|_| LineFault::Misread)?;
    let line = line.strip_suffix('\r').unwrap_or(line);
    match line.split_whitespace().next() {
        None => Ok(None),
        Some(first) if first.starts_with('#') => Ok(None),
        Some(_) if line.bytes().all(is_plain) => Ok(Some(line)),
        Some(_) => Err(LineFault::Misread),
    }
}

// Whether a byte is of words, which are parted by spaces or tabs.
fn is_plain(byte: u8) -> bool
    ensures { result ≡ plain byte }
{
    matches!(byte, b'\t' | b' '..=b'~')
}

/// The entry that a line is, or none where it is misread.
pub(crate) fn entry_of<K: Kind + FromStr>(line: &str) -> Option<Entry<K>>
where
    K::Err: Drop,
{
    let mut words = line.split_whitespace();
    let entry = match words.next()? {
        "event" => Entry::Event {
            floor: words.next()?.parse().ok()?,
        },
        "arc" => Entry::Arc(Arc {
            from: words.next()?.parse().ok()?,
            to: words.next()?.parse().ok()?,
            duration: words.next()?.parse().ok()?,
        }),
        _ => return None,
    };
    match words.next() {
        None => Some(entry),
        Some(_) => None,
    }
}
