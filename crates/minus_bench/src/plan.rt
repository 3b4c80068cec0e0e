//! The program's arguments.
use crate::act::Act;
use anyhow::{Result, bail};
use std::alloc::Global;

/// How the text comes to the session.
#[derive(Clone, Copy)]
pub(crate) enum Coming {
    /// It is pushed before the acts, which are counted.
    Shown,
    /// It is pushed in its parts, which is counted.
    Pushed,
    /// It is set, which is counted.
    Set,
    /// Its parts wait for the start, which is counted.
    Waiting,
}

/// What is done, and what of it is counted.
#[derive(Drop)]
pub(crate) struct Plan {
    /// How the text comes.
    pub(crate) coming: Coming,
    /// How many of the acts that are counted are done, one after another and from the first again.
    pub(crate) turns: usize,
    /// The acts before what is counted.
    pub(crate) before: Vec<Act>,
    /// The acts that are counted.
    pub(crate) counted: Vec<Act>,
}

fn parse_coming(word: &str) -> Option<Coming> {
    match word {
        "shown" => Some(Coming::Shown),
        "pushed" => Some(Coming::Pushed),
        "set" => Some(Coming::Set),
        "waiting" => Some(Coming::Waiting),
        _ => None,
    }
}

fn parse_acts(alloc: Global, words: &[String]) -> Result<Vec<Act>> {
    let mut acts = Vec::new(alloc);
    for word in words {
        let Some(act) = Act::parse(word.as_str()) else {
            bail!("no act has the name {word}");
        };
        acts.push(act)?;
    }
    Ok(acts)
}

// The words before `--`, and those behind it.
fn split_words(words: &[String]) -> (&[String], &[String]) {
    match words.iter().position(|word| word.as_str() == "--") {
        Some(at) => (&words[..at], &words[at + 1..]),
        None => (words, &words[words.len()..]),
    }
}

/// What the program's words say, its name among them.
pub(crate) fn parse_plan(alloc: Global, words: &[String]) -> Result<Plan> {
    let [_, coming, turns, acts @ ..] = words else {
        bail!("usage: minus_bench TEXT TURNS [ACT..] [-- ACT..]");
    };
    let Some(coming) = parse_coming(coming.as_str()) else {
        bail!("the text comes shown, pushed, set or waiting");
    };
    let turns = turns.parse::<usize>()?;
    let (before, counted) = split_words(acts);
    let before = parse_acts(alloc, before)?;
    let counted = parse_acts(alloc, counted)?;
    Ok(Plan {
        coming,
        turns,
        before,
        counted,
    })
}
