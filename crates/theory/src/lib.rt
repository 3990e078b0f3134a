//! The theory of reachable and useful rows: a graph whose trails stand for the stacks of a machine.
//! Edges of this graph that are sound and closed decide which rows, starts and accepting states
//! are reachable and useful. The functions do nothing; their contracts are the theorems.
#![tactic(auto)]

ghost use Rattle.theory.specs.Levels.{Leveled};
ghost use Rattle.theory.specs.Theorems.{Forwards, Backwards, Growing, OneOrder, Standing};

// Trails over edges that are sound and closed decide what is reachable, and which rows are useful.
pub fn marking_theory()
    ensures forwards { Forwards }
    ensures backwards { Backwards }
    ensures growing { Growing }
    ensures standing { Standing }
    ensures order { OneOrder }
{}

// Levels find every lean trail that reads a word, and every edge on one.
pub fn level_theory()
    ensures { Leveled }
{}
