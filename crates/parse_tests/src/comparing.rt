//! Answers beside each other, and what is counted of them.

use crate::answers::Answers;
use forest::Forest;
use rekers::{ParseError, Parsed};
use std::alloc::{AllocError, Global};

/// Whether the chart gave the same, if it was asked.
pub(crate) fn are_same(answers: &Answers) -> bool {
    let Some(charted) = &answers.charted else {
        return true;
    };
    match (&answers.parsed, charted) {
        (Ok(Parsed::Forest(forest)), Some(other)) => forest == other,
        (Ok(Parsed::NoSentence { .. }), None) => true,
        _ => false,
    }
}

/// What is counted of the parser's answers.
#[derive(Drop)]
pub(crate) struct Counts {
    /// How many texts were parsed.
    texts: usize,
    /// How many of them have a forest.
    forests: usize,
    /// How many nodes these forests have together.
    nodes: usize,
    /// How many splits these forests have together.
    splits: u128,
    /// The places of all answers that a text is no sentence, added up.
    places: usize,
}

impl Counts {
    pub(crate) fn new() -> Counts {
        Counts {
            texts: 0,
            forests: 0,
            nodes: 0,
            splits: 0,
            places: 0,
        }
    }

    fn add_forest(&mut self, forest: &Forest) {
        self.forests = self.forests.wrapping_add(1);
        self.nodes = self.nodes.wrapping_add(forest.nodes.as_slice().len());
        self.splits = self.splits.wrapping_add(forest.count_splits());
    }

    /// Counts one more answer.
    pub(crate) fn add(&mut self, answers: &Answers) {
        self.texts = self.texts.wrapping_add(1);
        match &answers.parsed {
            Ok(Parsed::Forest(forest)) => self.add_forest(forest),
            Ok(Parsed::NoSentence { at }) => self.places = self.places.wrapping_add(*at as usize),
            Err(_) => {}
        }
    }

    pub(crate) fn told(&self, alloc: Global) -> Result<String, AllocError> {
        format!(in alloc;
            "{} texts, {} forests, {} nodes, {} splits, places {}",
            self.texts, self.forests, self.nodes, self.splits, self.places
        )
    }
}

fn told_forest(alloc: Global, forest: &Forest) -> Result<String, AllocError> {
    let nodes = forest.nodes.as_slice().len();
    format!(in alloc; "{nodes} nodes, {} splits", forest.count_splits())
}

/// What the parser answers.
fn told_parsed(alloc: Global, parsed: &Result<Parsed, ParseError>) -> Result<String, AllocError> {
    match parsed {
        Ok(Parsed::Forest(forest)) => told_forest(alloc, forest),
        Ok(Parsed::NoSentence { at }) => format!(in alloc; "no sentence at {at}"),
        Err(ParseError::TooLarge { count }) => format!(in alloc; "too large {count}"),
        Err(ParseError::NoMemory) => Err(AllocError),
    }
}

/// What the parser answers, and whether the chart gives the same.
pub(crate) fn told_answers(alloc: Global, answers: &Answers) -> Result<String, AllocError> {
    let mut told = told_parsed(alloc, &answers.parsed)?;
    if answers.charted.is_none() {
        return Ok(told);
    }
    told.push_str(match are_same(answers) {
        true => ", as the chart",
        false => ", DIFFERS",
    })?;
    Ok(told)
}
