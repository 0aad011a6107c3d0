// Memory to lend, by its size; `transfer::room` makes it.

// For a case. A byte more than a program reads as a sheet, so that a longer one is seen.
pub type Sheet = [u8; 90273];

// A noise word more than any grid has cells, so that noise is seen to be too long.
pub type Noise = [u32; 1025];

// No run uses more words than there are cells.
pub type Words = [u32; 1024];

// For what a case comes to: a domain for each cell, and the longest result.
pub type Domains = [u64; 1024];

pub type Record = [u8; 8202];

// For what a sheet says: 64 weights, 257 offsets, no more ids than its bytes, and 4,096 forbids.
pub(crate) type Weights = [u32; 64];

pub(crate) type Offsets = [u32; 257];

pub(crate) type Ids = [u8; 90272];

pub(crate) type Forbids = [u32; 12288];

// For a run on 4,096 cells times patterns and 1,024 cells.
pub(crate) type Counts = [u8; 16384];

pub(crate) type Pending = [u32; 4096];

pub(crate) type Floats = [f32; 2048];

pub(crate) type Marks = [u8; 2080];
