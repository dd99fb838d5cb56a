//! The jobs that a user of this library waits for, as one program that a benchmark runs:
//! `hesc_workloads JOB SEED ROUNDS` makes its inputs from the seed, does the job in so many rounds,
//! and prints a digest of all results. With no words it does each job once.
#![tactic(auto)]

mod digest;
mod documents;
mod feeds;
mod kinds;
mod numbers;
mod pages;
mod pieces;
mod readings;
mod templates;
mod texts;
mod views;
mod words;

use crate::digest::Digest;
use crate::numbers::Numbers;
use std::alloc::{AllocError, Global};
use std::{env, io};

static JOBS: [&str; 7] = [
    "pages",
    "read-back",
    "templates",
    "feeds",
    "pieces",
    "documents",
    "views",
];

fn main(rt: HostRuntime) -> io::Result<()> {
    let mut words = Vec::new(rt.alloc());
    for word in env::args(&rt)?.skip(1) {
        words.push(word)?;
    }
    match words.as_slice() {
        [] => {
            for job in &JOBS {
                let value = do_job(rt.alloc(), *job, 1, 1)?;
                println!(rt; "{job} {value}")?;
            }
            Ok(())
        }
        [job, seed, rounds] => {
            let seed = number_of(seed.as_str());
            let value = do_job(
                rt.alloc(),
                job.as_str(),
                seed as u64,
                number_of(rounds.as_str()),
            )?;
            println!(rt; "{job} {value}")
        }
        _ => println!(rt; "usage: hesc_workloads JOB SEED ROUNDS"),
    }
}

fn number_of(word: &str) -> usize {
    match word.parse::<usize>() {
        Ok(number) => number,
        Err(_) => 0,
    }
}

fn do_job(alloc: Global, job: &str, seed: u64, rounds: usize) -> Result<u64, AllocError> {
    let mut numbers = Numbers::new(seed);
    let mut digest = Digest::new();
    match job {
        "pages" => pages::write_pages(alloc, &mut numbers, rounds, &mut digest)?,
        "read-back" => readings::read_back(alloc, &mut numbers, rounds, &mut digest)?,
        "templates" => templates::read_templates(alloc, &mut numbers, rounds, &mut digest)?,
        "feeds" => feeds::decode_feeds(alloc, &mut numbers, rounds, &mut digest)?,
        "pieces" => pieces::encode_bodies(alloc, &mut numbers, rounds, &mut digest)?,
        "documents" => documents::change_documents(alloc, &mut numbers, rounds, &mut digest)?,
        "views" => views::render_views(alloc, &mut numbers, rounds, &mut digest)?,
        _ => digest.add_number(0),
    }
    Ok(digest.value())
}
