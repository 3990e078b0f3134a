//! How many entries each section of a file has, or may have.
#[derive(Clone, Copy)]
pub struct Sizes {
    pub first: usize,
    pub second: usize,
    pub third: usize,
}
