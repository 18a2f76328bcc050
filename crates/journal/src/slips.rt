//! Slips of held runs, each in the slot of its run.
ghost use Rattle.std.specs.Prelude.{◌≡◌, ℕ, ◌<◌, length, is_some, Some, None, slice_index_or, slice_set};

use plan::Slip;

/// Puts a slip into an empty slot.
pub(crate) fn put_slip(slips: &mut [Option<Slip>], run: u16, slip: Slip)
    requires inside { run < length slips.old }
    requires free { slice_index_or slips.old run None ≡ None }
    ensures { slips.new ≡ slice_set slips.old run (Some slip) }
{
    match slips[run as usize].replace(slip) {
        None => {}
        Some(_) => unreachable(),
    }
}

/// Takes a slip out of its slot.
pub(crate) fn pick_slip(slips: &mut [Option<Slip>], run: u16) -> Option<Slip>
    ensures was { result ≡ slice_index_or slips.old run None }
    ensures left { slips.new ≡ slice_set slips.old run None }
{
    if run as usize >= slips.len() {
        return None;
    }
    slips[run as usize].take()
}

/// Whether a slip is kept for a run.
pub(crate) fn kept_slip(slips: &[Option<Slip>], run: u16) -> bool
    ensures { result ≡ is_some (slice_index_or slips.now run None) }
{
    slips.get(run as usize).is_some_and(Option::is_some)
}
