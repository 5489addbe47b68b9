// What a sample run is handed.
use packing::Pin;
use plans::{Change, Sides};

/// What a sample run calls with, beside its result lists: sides in two kinds of length, and three changes.
#[derive(Clone, Copy)]
pub struct Wanted<'a, L, M> {
    pub codes: &'a [u8],
    pub sequence: &'a [usize],
    pub sides: &'a [Sides<L>],
    pub counts: &'a [Sides<M>],
    /// tried, and kept
    pub kept: Change,
    /// wanted while the other is on trial
    pub blocked: Change,
    /// tried, and undone
    pub undone: Change,
    pub pin: Pin<M>,
    /// rotated once more in a packing
    pub looked: usize,
    /// asked about: its code to `looked`, and whether it is rotated
    pub asked: usize,
}
