//! What no contract says of the program: that its words name what they say, that runs succeed where
//! memory and streams do, and how often it asks and calls.
mod commands;
mod examples;
mod form_commands;
mod lines;
mod megabytes;
mod planted_tools;
mod runs;
mod serving;
mod tool;
mod tool_amounts;
mod whole;
mod words;
