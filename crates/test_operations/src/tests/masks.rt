//! How often a run hands a sink the mask of the changes ahead: no contract counts calls.
ghost use Rattle.hesc_engine.specs.Sinks.{counter_seen};

use hesc_core::forms::made::Made;
use hesc_core::rules::Escape;
use hesc_core::{Class, CountOverflow, Counter, Rule, Sink, run};
use hesc_engine::AsciiTexts;
use hesc_engine::engine::run_made;
use std::process::Abort;
use std::test::Fail;

/// Counts the masks that it is handed, and takes no change of them.
#[derive(Drop)]
struct Watcher {
    counter: Counter,
    masks: usize,
}

impl Watcher {
    fn new() -> Watcher {
        Watcher {
            counter: Counter::new(),
            masks: 0,
        }
    }
}

impl Sink for Watcher {
    type Fault = CountOverflow;

    ghost seen = { λ sink. counter_seen sink.counter };

    fn put(&mut self, piece: &str) -> Result<(), CountOverflow> {
        self.counter.put(piece)
    }

    fn put_hits(&mut self, _text: &str, from: usize, _hits: u64, _texts: AsciiTexts) -> usize {
        self.masks = self.masks.saturating_add(1);
        from
    }
}

// The masks that a run from the text's start hands over.
fn masks_by_run<R: Rule>(rule: &R, text: &str) -> Result<usize, CountOverflow> {
    let mut watcher = Watcher::new();
    run(rule, text, &mut watcher)?;
    Ok(watcher.masks)
}

// Those of a run whose first change was found before.
fn masks_by_run_made<R: Rule>(rule: &R, text: &str) -> Result<usize, CountOverflow> {
    let mut watcher = Watcher::new();
    if let Some(made) = Made::of(rule, text) {
        run_made(&made, &mut watcher)?;
    }
    Ok(watcher.masks)
}

// Texts, and how many masks of them have four changes or more, with 20 bytes left after the first ones, or
// else seven.
static TEXTS: [(&str, usize); 11] = [
    ("<<<<<<abcdef", 0),
    ("<<<<<<<abcde", 1),
    ("<<<<<<<<<<<<<<<<", 1),
    ("<<<<abcdefghijklmnop", 0),
    ("<<<<abcdefghijklmnopqr", 1),
    ("<<<abcdefghijklmnopqrs", 0),
    ("<<<<<<<<<<<<<<<<<<<<<<<<<<<<<<<<", 1),
    (
        "<<<<<<<<<<<<<<<<<<<<<<<<<<<<<<<<<<<<<<<<<<<<<<<<<<<<<<<<<<<<<<<<",
        2,
    ),
    (
        "abc<abc<abc<abc<abc<abc<abc<abc<abc<abc<abc<abc<abc<abc<abc<abc<abc<abc<abc<abc<abc<abc<abc<abc<",
        3,
    ),
    (
        "<<<<<<<<<<<<<<<<<<<<<<<<<<<<<<<<abcdefghijk<abcdefghijk<abcdefghijk<",
        1,
    ),
    ("no change at all, and so none of them in a mask of it", 0),
];

#[test]
fn each_dense_mask_is_handed_over_once(rt: HostRuntime) -> Result<(), Fail> {
    for class in [Class::Text, Class::Safe, Class::ScriptQuoted] {
        for &(text, masks) in &TEXTS {
            assert!(rt; masks_by_run(&Escape(class), text)? == masks, "{text}");
            assert!(rt; masks_by_run_made(&Escape(class), text)? == masks, "{text}");
        }
    }
    Ok(())
}
