//! The tests of forms refuse what is wrong: each of the flaws, by the tests that are there for it.
use crate::tests::forms::calls::Call;
use crate::tests::forms::{answers, writers};
use crate::tests::memory::amounts::asks_little;
use crate::tests::memory::appends::asks_rarely;
use crate::tests::memory::refused_memory;
use std::process::Abort;
use std::test::Fail;
use test_support::flaws::Flaw;

// A flaw, and whether it is refused by what compares answers, refuses memory, lets writers fail, adds up
// what is asked for, and appends many small texts.
type Refused = (Flaw, [bool; 5]);

static REFUSED: [Refused; 16] = [
    (Flaw::Sound, [false, false, false, false, false]),
    (Flaw::OtherText, [true, true, true, false, false]),
    (Flaw::Copies, [true, true, false, true, false]),
    (Flaw::AsksTwice, [true, true, false, true, false]),
    (Flaw::AsksForMuch, [true, true, false, true, false]),
    (Flaw::Empties, [false, true, false, false, false]),
    (Flaw::GrowsExactly, [false, false, false, false, true]),
    (Flaw::AnswersAll, [true, true, false, false, false]),
    (Flaw::WritesTwice, [true, false, true, false, false]),
    (Flaw::Flushes, [false, false, true, false, false]),
    (Flaw::OffersNothing, [false, false, true, false, false]),
    (Flaw::HidesFaults, [false, false, true, false, false]),
    (Flaw::Repeats, [false, false, true, false, false]),
    (Flaw::GoesOn, [false, false, true, false, false]),
    (Flaw::OtherFirstFault, [false, false, true, false, false]),
    (Flaw::OtherLaterFault, [false, false, true, false, false]),
];

#[test]
fn each_flaw_of_a_form_is_refused(rt: HostRuntime) -> Result<(), Fail> {
    for &(flaw, refused) in &REFUSED {
        let of = Call::Planted(flaw);
        let found = [
            answers::first_wrong(rt.alloc(), of)?.is_some(),
            refused_memory::first_wrong(rt.alloc(), of)?.is_some(),
            writers::first_wrong(rt.alloc(), of).is_some(),
            !asks_little(rt.alloc(), of, "<a&b>a text of some letters and signs &")?
                || !asks_little(
                    rt.alloc(),
                    of,
                    "a text of letters alone, which stays as it is",
                )?,
            !asks_rarely(rt.alloc(), of, "a<b")?,
        ];
        assert!(rt; found == refused, "{flaw:?}");
    }
    Ok(())
}
