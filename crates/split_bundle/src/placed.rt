use byte_fields::List;
use doc_value::Doc;
use source_checkpoint::Partition;

/// A document, with the partition and the offset in it where its record stands.
#[derive(Drop)]
pub struct Placed {
    pub partition: Partition,
    pub offset: u64,
    pub doc: Doc,
}

/// Placed documents in their order.
pub type PlacedList = List<Placed>;

/// Where a document's record stands: the partition, and the offset in it.
#[derive(Clone, Copy)]
pub struct Address {
    pub partition: Partition,
    pub offset: u64,
}
