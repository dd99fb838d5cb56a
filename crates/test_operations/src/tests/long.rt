//! Long and hostile texts: the time grows with the length.
pub mod hostile;
pub mod long_inputs;
