//! The allocator that refuses, the weak streams and the long texts do what the tests take from them.
mod long;
mod refusing;
mod streams;
