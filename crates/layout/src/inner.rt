// The form of bytes, and sheets that are read and written without refusals, for the calls above.
pub mod filling;
pub mod shape;
pub mod writing;
