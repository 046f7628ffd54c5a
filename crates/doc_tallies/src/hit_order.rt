/// By what hits are sorted: the first value of a fast field, by its number, upwards or downwards. What has no value stands last in both.
#[derive(Clone, Copy)]
pub struct HitOrder {
    pub field: u32,
    pub descending: bool,
}
