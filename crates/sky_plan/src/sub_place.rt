//! The location of a position in the sky: a subchunk.

/// The numbers of a chunk, and of a subchunk in it, both from 0.
#[derive(Clone, Copy, Debug, PartialEq, Eq)]
pub struct SubPlace {
    pub chunk: u32,
    pub sub: u32,
}
