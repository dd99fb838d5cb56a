//! Tests of templates: memory that is refused, and hostile texts in every place and part of a URL, read
//! back by the grammars of places and the parser of URLs. The examples of the documents are here too. Which
//! templates are taken, and which refused, is data: `test_markup`.
#![tactic(auto)]

#[cfg(test)]
mod examples;
#[cfg(test)]
mod hostile;
#[cfg(test)]
mod json;
#[cfg(test)]
mod links;
#[cfg(test)]
mod markup;
#[cfg(test)]
mod memory;
#[cfg(test)]
mod named;
#[cfg(test)]
mod pages;
#[cfg(test)]
mod pairs;
#[cfg(test)]
mod sources;
#[cfg(test)]
mod styles;
#[cfg(test)]
mod tables;
#[cfg(test)]
mod templates;
#[cfg(test)]
mod writers;
