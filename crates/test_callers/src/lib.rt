//! Tests of the callers in `uses`: what each makes of hostile texts, and of pages that go to a writer.
#![tactic(auto)]

#[cfg(test)]
mod page_writers;
#[cfg(test)]
mod parts;
#[cfg(test)]
mod places;
#[cfg(test)]
mod templates;
#[cfg(test)]
mod urls;
