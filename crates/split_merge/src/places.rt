//! The partitions of a split that were read, by their places among those of its footer.

ghost use Rattle.std.specs.Prelude.{◌≡◌, Ok, MatchOption, OnOk};
ghost use Rattle.split_bundle.specs.declared.split_view.SplitView.{SplitView};
ghost use Rattle.split_bundle.specs.DocReading.{partition_in};
ghost use Rattle.split_merge.specs.Places.{ArePlaces};

use source_checkpoint::Partition;

/// A partition at a place.
#[derive(Clone, Copy)]
pub(crate) struct KnownPlace {
    pub(crate) place: u64,
    pub(crate) partition: Partition,
}

/// The partition at a place, if it is known.
pub(crate) fn known_at(known: &[KnownPlace], place: u64) -> Option<Partition>
    ensures { (v : SplitView) → ArePlaces v known.now → MatchOption result (Unit {0}) (λ p. partition_in v.footer.now v.layout.partitions place ≡ Ok p) }
{
    for other in known {
        if other.place == place {
            return Some(other.partition);
        }
    }
    None
}
