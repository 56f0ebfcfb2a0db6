// What stands twice in a `switch` (C11 6.8.4.2). Choices are found by hash, so a `switch` costs as much as its text is
// long.

ghost use Rattle.std.specs.Prelude.{◌≡◌, [], not, IfOk, OnOk};
ghost use Rattle.std.specs.List.{list_any};
ghost use Rattle.sc_typed.specs.declared.stmt.TStmt.{out-TStmt};
ghost use Rattle.sc_rules.specs.Gives.{Gives};
ghost use Rattle.sc_statements.specs.Choices as spec;
ghost use Rattle.sc_statements.specs.Seen as kept;

use sc_base::{Boxed, IllTyped, Numbers, OutOfMemory, Pos};
use sc_rules::{Walk, holds_or, ill_typed_at};
use sc_typed::TStmt;
use std::alloc::Global;
use std::marker::Model;

/// What an item of a `switch` chooses.
#[derive(Clone, Copy, Debug, PartialEq, Eq)]
pub enum Choice {
    /// `case`, by the bits of its number at the width of the type of the `switch`.
    Number(u64),
    /// `default`
    Otherwise,
}

// The choices seen so far, each once: a number, or `None` for `default`.
#[derive(Drop)]
struct Choices {
    seen: Numbers<Option<u64>>,
}

impl Model for Choices {
    ghost use Rattle.std.specs.Prelude.{List, map};
    ghost use Rattle.sc_statements.specs.declared.choices.Choice.{Choice as Item};
    ghost use Rattle.sc_statements.specs.Seen.{choice_at};

    ghost Value = { List Item };

    ghost view = { λ c. map choice_at c.seen };
}

fn key_of(choice: Choice) -> Option<u64>
    ensures { result ≡ kept.key_of choice }
{
    match choice {
        Choice::Number(n) => Some(n),
        Choice::Otherwise => None,
    }
}

impl Choices {
    fn new(alloc: Global) -> Choices
        ensures { result ≡ [] }
    {
        Choices {
            seen: Numbers::new(alloc),
        }
    }

    // Notes a choice, and says whether it is a new one.
    fn add(&mut self, choice: Choice) -> Result<bool, OutOfMemory>
        ensures new { IfOk result (λ new. new ≡ not (list_any (spec.same_choice choice) self.old)) }
        ensures added { OnOk result (self.new ≡ kept.kept_with choice self.old) }
    {
        self.seen.insert(key_of(choice))
    }
}

fn choice_in(s: &TStmt) -> Option<(Choice, Pos)>
    ensures { result ≡ spec.choice_layer (out-TStmt s.now) }
{
    match s {
        TStmt::Case(n, _, at) => Some((Choice::Number(*n), *at)),
        TStmt::Default(at) => Some((Choice::Otherwise, *at)),
        _ => None,
    }
}

// What an item of a `switch` chooses, with its place; `None` where it is no `case` and no `default`.
fn choice_of(item: &Option<Boxed<TStmt>>) -> Option<(Choice, Pos)>
    ensures { result ≡ spec.choice_of item.now }
{
    match item {
        None => None,
        Some(s) => choice_in(s.get()),
    }
}

// Notes what an item chooses, and a fault where that was seen before.
fn new_choice(
    walk: &mut Walk,
    seen: &mut Choices,
    choice: Option<(Choice, Pos)>,
) -> Result<bool, OutOfMemory>
    ensures judged { Gives (spec.new_choice choice seen.old walk.old) result walk.new }
    ensures noted { OnOk result (seen.new ≡ kept.kept_if choice seen.old) }
{
    match choice {
        None => Ok(true),
        Some((choice, at)) => {
            let new = seen.add(choice)?;
            Ok(holds_or(walk, new, ill_typed_at(IllTyped::Constant, at)))
        }
    }
}

// The faults of the items, by the choices that are kept.
fn differ(
    alloc: Global,
    walk: &mut Walk,
    items: &[Option<Boxed<TStmt>>],
) -> Result<bool, OutOfMemory>
    ensures { Gives (kept.differ_from items.now [] walk.old) result walk.new }
{
    let mut seen = Choices::new(alloc);
    for item in items {
        new_choice(walk, &mut seen, choice_of(item))?;
    }
    Ok(true)
}

/// Notes the faults of the items of a `switch`, one for each `case` whose number, and each `default`, that stood
/// before it. Items with a fault are passed over.
pub fn choices_differ(
    alloc: Global,
    walk: &mut Walk,
    items: &[Option<Boxed<TStmt>>],
) -> Result<bool, OutOfMemory>
    ensures { Gives (spec.choices_differ items.now [] walk.old) result walk.new }
{
    differ(alloc, walk, items)
}
