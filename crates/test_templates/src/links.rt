//! Slots in URLs: what is made of several in one URL, the fault of parts, and the first fault of texts. What
//! is read of them is data: `test_links`.
mod fills;
mod several;
