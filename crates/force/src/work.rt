//! The working memory of a reckoning.
ghost use Rattle.std.specs.Prelude.{Decides};
ghost use Rattle.force.specs.Work.{WorkListed, work_lengths};

use kinds::Kind;
use network::Arc;
use records::Place;

/// The working memory of a reckoning, lent: 512 places of orders, 1,024 floors, 9,728 arcs, 2,048 times of two tables, and
/// 1,050,624 marks. What it holds is of no account, before a call or after it.
// Stays without the times and the ring: they are what a call answers with, and no working memory; a trial is lent other times.
#[derive(Drop)]
pub struct Work<'w, K> {
    pub places: &'w mut [Place],
    pub floors: &'w mut [K],
    pub arcs: &'w mut [Arc<K>],
    pub tables: &'w mut [K],
    pub marks: &'w mut [u16],
}

impl<K: Kind> Work<'_, K> {
    /// Whether each memory has its listed length.
    pub fn is_listed(&self) -> bool
        ensures { Decides result (WorkListed (work_lengths self.now)) }
    {
        self.places.len() == 512
            && self.floors.len() == 1_024
            && self.arcs.len() == 9_728
            && self.tables.len() == 2_048
            && self.marks.len() == 1_050_624
    }
}
