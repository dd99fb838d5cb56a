//! What no contract says of texts in URLs: that another program encodes them so in each form, where the
//! slots of a URL stand, and how often memory is asked for. What is read of URLs is data: `test_links`.
mod bases;
mod blocks;
mod components;
mod hostile;
mod laws;
mod memory;
mod own_paths;
mod slots;
