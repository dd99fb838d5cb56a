//! What no contract says of the commands for views: which view a source is, what a run writes where memory
//! and streams succeed, the words of each line, and how often it asks and calls.
mod examples;
mod faults;
mod pages;
mod rows;
mod serving;
mod troubles;
