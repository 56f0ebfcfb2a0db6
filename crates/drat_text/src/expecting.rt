//! The reader of a text, word by word and line by line.

ghost use Rattle.std.specs.Prelude.{◌≡◌, ◌<◌, OnOk};
ghost use Rattle.sat_base.specs.declared.certificate.Step.TheVariants.{Add, Drop};
ghost use Rattle.drat_text.specs.Parts.{words};
ghost use Rattle.drat_text.specs.Numbers.{literal, number};
ghost use Rattle.drat_text.specs.Expecting.{begun, key, with_vars, with_count, with_literal, with_clause, with_step};
ghost use Rattle.drat_text.specs.Expecting.{formula_word, added_word, removed_word, start_word, with_word, with_words};
ghost use Rattle.drat_text.specs.Expecting.{begins_with_c, are_c_drat, divided, with_line, finished, Takes};

use crate::Certificate;
use crate::fault::Stop;
use crate::numbers::{literal, number};
use crate::parts::Parts;
use sat_base::{Clause, ClauseList, Lit, OutOfMemory, Step};
use std::alloc::Global;
use std::marker::Model;

/// What the next word of a text has to be.
#[derive(Clone, Copy, Debug, PartialEq, Eq)]
pub(crate) enum Expected {
    /// `p`.
    Problem,
    /// `cnf`.
    Format,
    /// The number of variables.
    VariableCount,
    /// The number of clauses.
    ClauseCount,
    /// A literal or the `0` of a clause of the formula, if clauses are missing; else no word, but the line
    /// `c drat`.
    Formula,
    /// `d`, or a literal or the `0` of a clause to add.
    Start,
    /// A literal or the `0` of a clause to add, of which literals were read.
    Added,
    /// A literal or the `0` of a clause to take out.
    Removed,
}

/// A text of which a part was read. Contracts see what was read, and what has to follow.
#[derive(Drop)]
pub(crate) struct Reader {
    alloc: Global,
    expected: Expected,
    vars: usize,
    missing: usize,
    clauses: ClauseList,
    steps: Vec<Step>,
    lits: Vec<Lit>,
}

impl Model for Reader {
    ghost use Rattle.drat_text.specs.Expecting.{Text};

    ghost Value = { Text };

    ghost view = { λ r. record {
      expected = r.expected;
      vars = r.vars;
      missing = r.missing;
      clauses = r.clauses;
      steps = r.steps.items;
      lits = r.lits.items;
    } };
}

/// Whether a line begins with `c`.
fn begins_with_c(line: &[u8]) -> bool
    ensures { result ≡ begins_with_c line.now }
{
    match line {
        [first, ..] => *first == b'c',
        [] => false,
    }
}

/// Whether the words of a line are `c` and `drat`.
fn is_c_drat(line: &[u8]) -> bool
    ensures { result ≡ are_c_drat (words line.now) }
{
    let mut words = Parts::words(line);
    let Some(first) = words.next_word() else {
        return false;
    };
    let Some(second) = words.next_word() else {
        return false;
    };
    words.next_word().is_none() && first == b"c".as_slice() && second == b"drat".as_slice()
}

impl Reader {
    /// Nothing read. It takes no memory.
    pub(crate) fn new(alloc: Global) -> Reader
        ensures { result ≡ begun }
    {
        Reader {
            alloc,
            expected: Expected::Problem,
            vars: 0,
            missing: 0,
            clauses: ClauseList::new(alloc),
            steps: Vec::new(alloc),
            lits: Vec::new(alloc),
        }
    }

    /// Takes a word that has to be this one.
    fn take_key(&mut self, this: &[u8], next: Expected, word: &[u8]) -> Result<(), Stop>
        ensures { Takes result self.new (key this.now next self.old word.now) }
    {
        if word != this {
            return Err(Stop::Form);
        }
        self.expected = next;
        Ok(())
    }

    /// Takes the number of variables.
    fn take_vars(&mut self, word: &[u8]) -> Result<(), Stop>
        ensures { Takes result self.new (with_vars self.old (number word.now)) }
    {
        let Some(vars) = number(word) else {
            return Err(Stop::Form);
        };
        self.vars = vars;
        self.expected = Expected::ClauseCount;
        Ok(())
    }

    /// Takes the number of clauses.
    fn take_count(&mut self, word: &[u8]) -> Result<(), Stop>
        ensures { Takes result self.new (with_count self.old (number word.now)) }
    {
        let Some(count) = number(word) else {
            return Err(Stop::Form);
        };
        self.missing = count;
        self.expected = Expected::Formula;
        Ok(())
    }

    /// Takes a literal of the clause or step that has no end yet.
    fn take_lit(&mut self, next: Expected, word: &[u8]) -> Result<(), Stop>
        ensures { Takes result self.new (with_literal next self.old (literal self.old.vars word.now)) }
    {
        let Some(lit) = literal(self.vars, word) else {
            return Err(Stop::Form);
        };
        self.lits.push(lit)?;
        self.expected = next;
        Ok(())
    }

    /// Ends the clause of the formula.
    fn end_clause(&mut self) -> Result<(), OutOfMemory>
        requires { 0 < self.old.missing }
        ensures { OnOk result (self.new ≡ with_clause self.old) }
    {
        let clause = Clause::of(self.alloc, self.lits.as_slice())?;
        self.clauses.push(clause)?;
        self.missing -= 1;
        self.lits.clear();
        Ok(())
    }

    /// Ends a step that adds a clause.
    fn end_addition(&mut self) -> Result<(), OutOfMemory>
        ensures { OnOk result (self.new ≡ with_step (Add self.old.lits) self.old) }
    {
        let clause = Clause::of(self.alloc, self.lits.as_slice())?;
        self.steps.push(Step::Add(clause))?;
        self.lits.clear();
        self.expected = Expected::Start;
        Ok(())
    }

    /// Ends a step that takes a clause out.
    fn end_removal(&mut self) -> Result<(), OutOfMemory>
        ensures { OnOk result (self.new ≡ with_step (Drop self.old.lits) self.old) }
    {
        let clause = Clause::of(self.alloc, self.lits.as_slice())?;
        self.steps.push(Step::Drop(clause))?;
        self.lits.clear();
        self.expected = Expected::Start;
        Ok(())
    }

    /// Takes a word of the formula.
    #[tactic(auto, unfolding(crate::specs::Expecting::formula_word))]
    fn take_formula(&mut self, word: &[u8]) -> Result<(), Stop>
        ensures { Takes result self.new (formula_word self.old word.now) }
    {
        if self.missing == 0 {
            return Err(Stop::Form);
        }
        if word == b"0".as_slice() {
            self.end_clause()?;
            return Ok(());
        }
        self.take_lit(Expected::Formula, word)
    }

    /// Takes a word of a clause to add.
    #[tactic(auto, unfolding(crate::specs::Expecting::added_word))]
    fn take_added(&mut self, word: &[u8]) -> Result<(), Stop>
        ensures { Takes result self.new (added_word self.old word.now) }
    {
        if word == b"0".as_slice() {
            self.end_addition()?;
            return Ok(());
        }
        self.take_lit(Expected::Added, word)
    }

    /// Takes a word of a clause to take out.
    #[tactic(auto, unfolding(crate::specs::Expecting::removed_word))]
    fn take_removed(&mut self, word: &[u8]) -> Result<(), Stop>
        ensures { Takes result self.new (removed_word self.old word.now) }
    {
        if word == b"0".as_slice() {
            self.end_removal()?;
            return Ok(());
        }
        self.take_lit(Expected::Removed, word)
    }

    /// Takes the first word of a step.
    #[tactic(auto, unfolding(crate::specs::Expecting::start_word))]
    fn take_start(&mut self, word: &[u8]) -> Result<(), Stop>
        ensures { Takes result self.new (start_word self.old word.now) }
    {
        if word == b"d".as_slice() {
            self.expected = Expected::Removed;
            return Ok(());
        }
        self.take_added(word)
    }

    /// Takes the next word.
    #[tactic(auto, unfolding(crate::specs::Expecting::with_word))]
    fn take_word(&mut self, word: &[u8]) -> Result<(), Stop>
        ensures { Takes result self.new (with_word self.old word.now) }
    {
        match self.expected {
            Expected::Problem => self.take_key(b"p", Expected::Format, word),
            Expected::Format => self.take_key(b"cnf", Expected::VariableCount, word),
            Expected::VariableCount => self.take_vars(word),
            Expected::ClauseCount => self.take_count(word),
            Expected::Formula => self.take_formula(word),
            Expected::Start => self.take_start(word),
            Expected::Added => self.take_added(word),
            Expected::Removed => self.take_removed(word),
        }
    }

    /// Takes the words of a line.
    fn take_words(&mut self, line: &[u8]) -> Result<(), Stop>
        ensures { Takes result self.new (with_words self.old (words line.now)) }
    {
        let mut words = Parts::words(line);
        while let Some(word) = words.next_word() {
            self.take_word(word)?;
        }
        Ok(())
    }

    /// Takes the line `c drat`: the formula ends, and steps follow.
    #[tactic(auto, unfolding(crate::specs::Expecting::divided))]
    fn divide(&mut self) -> Result<(), Stop>
        ensures { Takes result self.new (divided self.old) }
    {
        if self.expected != Expected::Formula || self.missing != 0 {
            return Err(Stop::Form);
        }
        self.expected = Expected::Start;
        Ok(())
    }

    /// Takes the next line.
    #[tactic(auto, unfolding(crate::specs::Expecting::with_line))]
    pub(crate) fn take_line(&mut self, line: &[u8]) -> Result<(), Stop>
        ensures { Takes result self.new (with_line self.old line.now) }
    {
        if !begins_with_c(line) {
            return self.take_words(line);
        }
        if is_c_drat(line) {
            return self.divide();
        }
        Ok(())
    }

    /// The certificate that was read, if the text may end here.
    pub(crate) fn finish(self) -> Option<Certificate>
        ensures { result ≡ finished self }
    {
        if self.expected == Expected::Start {
            Some(Certificate::of(self.vars, self.clauses, self.steps))
        } else {
            None
        }
    }
}
