//! Callers as one program: it prints what each of them makes.
#![tactic(auto)]

mod entities;
mod greeting;
mod log;
mod pieces;

use crate::entities::decode;
use crate::greeting::greeting;
use crate::log::write_entry;
use crate::pieces::{script, script_by_session};
use html_escape::{BodyEncoder, BodyKind};
use std::io::{self, Write};

// Writes each line of the input as soon as it is decided. A session holds back 8 bytes at most.
fn write_lines(rt: HostRuntime) -> io::Result<()> {
    let mut session = BodyEncoder::new(BodyKind::Script);
    for line in rt.lines(rt.alloc()) {
        let mut part = String::new(rt.alloc());
        session.push(&line?, &mut part)?;
        session.push("\n", &mut part)?;
        print!(rt; "{part}")?;
    }
    let mut part = String::new(rt.alloc());
    session.finish(&mut part)?;
    print!(rt; "{part}")
}

fn main(rt: HostRuntime) -> io::Result<()> {
    let page = greeting(rt.alloc(), "\"Tom\" <tom@example.org>")?;
    println!(rt; "{page}")?;
    let made = decode(rt.alloc(), "I &hearts; &lt;b&gt; &rarr; &copy;")?;
    let text = made.as_str();
    println!(rt; "{text}")?;
    let mut output = rt.stdout();
    write_entry(&mut output, "started")?;
    write_entry(&mut output, "GET /<script>alert(1)</script> & more")?;
    output.flush()?;
    let pieces = ["let a = \"<!", "--\"; let b = \"</scr", "ipt>\";"];
    let line = script(rt.alloc(), &pieces)?;
    println!(rt; "{line}")?;
    let same = script_by_session(rt.alloc(), &pieces)?;
    println!(rt; "{same}")?;
    write_lines(rt)
}
