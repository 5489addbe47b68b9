// What a program in another language calls, with tasks as bytes: scripts of calls, and rounds of calls to measure.
#![tactic(auto)]

mod answers;
mod bytes;
mod calls;
mod cases;
mod rounds;
mod script;
mod trial;

use answers::AnswerWords;
use cases::{CASES, Cases};
use closure_graphs::ClosureGraphs;
use planner::Plan;
use representations::Transposed;
use rounds::{Round, bare_rounds, trial_rounds};
use script::run_script;
use sequence_pairs::SequencePair;
use std::array;

/// Loads the cases of a task, each into a representation of its own, and makes a round with each of them, as often as
/// there are turns. The kind is 0 for two graphs and 1 for a sequence pair; the round is 0 for a change and a load, 1 for
/// a packing, 2 for a load. Answers what the rounds answered, added up; 0 where the task can't be read.
#[unsafe(no_mangle)]
pub extern "C" fn surymoa_rounds(kind: u8, round: u8, turns: usize, task: &[u8]) -> u64 {
    let (Some(round), Some(cases)) = (Round::of(round), Cases::read(task)) else {
        return 0;
    };
    match kind {
        0 => {
            let mut graphs: [ClosureGraphs; CASES] = array::from_fn(|_| ClosureGraphs::new());
            bare_rounds(round, &mut graphs, &cases.all, turns)
        }
        1 => {
            let mut pairs: [SequencePair; CASES] = array::from_fn(|_| SequencePair::new());
            bare_rounds(round, &mut pairs, &cases.all, turns)
        }
        _ => 0,
    }
}

/// The same with a plan for each case; the round is a change on trial, a packing and an undo.
#[unsafe(no_mangle)]
pub extern "C" fn surymoa_trials(kind: u8, turns: usize, task: &[u8]) -> u64 {
    let Some(cases) = Cases::read(task) else {
        return 0;
    };
    match kind {
        0 => {
            let mut plans: [Plan<ClosureGraphs>; CASES] = array::from_fn(|_| Plan::new(
                ClosureGraphs::new(),
            ));
            trial_rounds(&mut plans, &cases.all, turns)
        }
        1 => {
            let mut plans: [Plan<SequencePair>; CASES] = array::from_fn(|_| Plan::new(
                SequencePair::new(),
            ));
            trial_rounds(&mut plans, &cases.all, turns)
        }
        _ => 0,
    }
}

/// Makes the calls of a script at a fresh plan over two graphs, kind 0, a sequence pair, kind 1, or the layer over two
/// graphs, kind 2, and writes the answers at the start of the words. Answers how many words are written.
#[unsafe(no_mangle)]
pub extern "C" fn surymoa_answers(kind: u8, script: &[u8], words: &mut [u64]) -> usize {
    let mut answers = AnswerWords::new(words);
    match kind {
        0 => run_script(ClosureGraphs::new(), script, &mut answers),
        1 => run_script(SequencePair::new(), script, &mut answers),
        2 => run_script(Transposed(ClosureGraphs::new()), script, &mut answers),
        _ => {}
    }
    answers.count()
}
