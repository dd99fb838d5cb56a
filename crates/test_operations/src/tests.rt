//! What no contract says of the operations: that the definitions give the values that other programs
//! give, that calls succeed where memory is there, and how often memory is asked for.
mod entities;
mod examples;
mod first_places;
mod forms;
mod long;
mod masks;
mod memory;
mod parts;
mod pieces;
mod references;
mod scan;
mod sessions;
mod support;
