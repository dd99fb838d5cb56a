//! What no contract says of the places: that the grammars read what other programs read, that calls
//! succeed where memory is there, and how often memory is asked for.
mod enclosed;
mod enclosings;
mod examples;
mod hostile;
mod long_inputs;
mod markup;
mod memory;
mod planted_rows;
mod readers;
mod readings;
