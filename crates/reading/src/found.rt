// What a reader finds.

// The input's numbers: how many triangles and points it lists, the bits of the size, the stop rule.
#[derive(Clone, Copy)]
pub struct Header {
    pub triangles: usize,
    pub points: usize,
    pub size: u64,
    pub stop: u32,
}
