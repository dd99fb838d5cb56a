//! `hesc`: the program over what the system gives it. All that it does is in `hesc_views::serve` for the
//! commands for views, and in `hesc_tool::serve` for all others.
#![tactic(auto)]

use hesc_views::{HostFiles, are_for_views};
use std::env;
use std::process::ExitCode;

fn main(rt: HostRuntime) -> ExitCode {
    if are_for_views(env::args(&rt)) {
        return ExitCode::from(hesc_views::serve(
            rt.alloc(),
            rt.alloc(),
            env::args(&rt),
            &HostFiles(&rt),
            &mut rt.stdin(),
            &mut rt.stdout(),
            &mut rt.stderr(),
        ));
    }
    ExitCode::from(hesc_tool::serve(
        rt.alloc(),
        env::args(&rt),
        &mut rt.stdin(),
        &mut rt.stdout(),
        &mut rt.stderr(),
    ))
}
