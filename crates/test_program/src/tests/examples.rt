//! The examples of commands and of the words that name them.
use hesc_commands::{Command, attributes_of, command_of, quoting_letter};
use hesc_places::Quoting;
use std::alloc::AllocError;
use std::process::Abort;

#[test]
fn words_name_commands_as_they_are_said_to(rt: HostRuntime) -> Result<(), AllocError> {
    assert!(rt; matches!(command_of(&["read-page"]), Some(Command::ReadPage)));
    assert!(rt; command_of(&[]).is_none());
    let Some(Command::Form(form)) = command_of(&["form", "", "q", "d", "tea"]) else {
        panic!(rt; "the words name a form");
    };
    let attributes = attributes_of(rt.alloc(), form)?;
    assert!(rt; attributes.len() == 1);
    assert!(rt; attributes[0].name == "q" && attributes[0].value == "tea");
    assert!(rt; attributes[0].quoting == Quoting::Double);
    assert!(rt; quoting_letter(Quoting::Single) == b's');
    Ok(())
}
