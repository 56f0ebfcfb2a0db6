// Rows and numbers for which some run answers yes.

ghost use Rattle.std.specs.Prelude.{◌≡◌, ◌++◌, [], ◌∷◌, IfOk, OnOk};
ghost use Rattle.run_questions.specs.Seen.{query};
ghost use Rattle.fn_rows.specs.Asked as spec;

use run_questions::{Answerer, Query};
use sc_base::{List, OutOfMemory};
use std::alloc::Global;
use sum_rows::Row;

/// What rows speak of.
#[derive(Clone, Copy)]
pub(crate) enum Subject {
    /// The end of the function.
    Exit,
    /// The location with that number.
    Lock(u32),
    /// What the parameter with that number points to.
    Param(u32),
    /// The pointer that the parameter with that number points to.
    Out(u32),
}

/// Why a location or a parameter is listed.
#[derive(Clone, Copy)]
pub(crate) enum Listed {
    Touches,
    Changes,
    Sets,
    Writes,
}

// The question whether a row stands.
fn row_query(subject: Subject, row: Row) -> Query<'static>
    ensures { query result ≡ spec.row_query subject row }
{
    match subject {
        Subject::Exit => Query::Exits(row),
        Subject::Lock(at) => Query::Locks(at, row),
        Subject::Param(n) => Query::Params(n, row),
        Subject::Out(n) => Query::Outs(n, row),
    }
}

// The question whether a location or a parameter is listed.
fn number_query(listed: Listed, n: u32) -> Query<'static>
    ensures { query result ≡ spec.number_query listed n }
{
    match listed {
        Listed::Touches => Query::Touches(n),
        Listed::Changes => Query::Changes(n),
        Listed::Sets => Query::Sets(n),
        Listed::Writes => Query::Writes(n),
    }
}

// Puts a row if it stands.
fn put_row<A: Answerer>(
    asks: &mut A,
    found: &mut Vec<Row>,
    subject: Subject,
    row: Row,
) -> Result<(), OutOfMemory>
    ensures found { OnOk result (found.new.items
        ≡ found.old.items ++ spec.standing (A.answers asks.old) subject (row ∷ [])) }
    ensures answers { A.answers asks.new ≡ A.answers asks.old }
{
    if asks.some(row_query(subject, row))? {
        found.push(row)?;
    }
    Ok(())
}

/// Those of the rows that stand.
#[tactic(auto, using(crate::proofs::Filters::filter_turn))]
pub(crate) fn standing<A: Answerer>(
    alloc: Global,
    asks: &mut A,
    subject: Subject,
    candidates: &[Row],
) -> Result<List<Row>, OutOfMemory>
    ensures rows { IfOk result (λ rows. rows ≡ spec.standing (A.answers asks.old) subject candidates.now) }
    ensures answers { A.answers asks.new ≡ A.answers asks.old }
{
    let mut found = Vec::new(alloc);
    for row in candidates {
        put_row(asks, &mut found, subject, *row)?;
    }
    Ok(List::from_vec(found))
}

// Puts a number if it is listed.
fn put_number<A: Answerer>(
    asks: &mut A,
    found: &mut Vec<u32>,
    listed: Listed,
    n: u32,
) -> Result<(), OutOfMemory>
    ensures found { OnOk result (found.new.items
        ≡ found.old.items ++ spec.those (A.answers asks.old) listed (n ∷ [])) }
    ensures answers { A.answers asks.new ≡ A.answers asks.old }
{
    if asks.some(number_query(listed, n))? {
        found.push(n)?;
    }
    Ok(())
}

/// Those of the numbers that are listed.
#[tactic(auto, using(crate::proofs::Filters::filter_turn))]
pub(crate) fn those<A: Answerer>(
    alloc: Global,
    asks: &mut A,
    listed: Listed,
    numbers: &[u32],
) -> Result<Vec<u32>, OutOfMemory>
    ensures those { IfOk result (λ ns. ns.items ≡ spec.those (A.answers asks.old) listed numbers.now) }
    ensures answers { A.answers asks.new ≡ A.answers asks.old }
{
    let mut found = Vec::new(alloc);
    for n in numbers {
        put_number(asks, &mut found, listed, *n)?;
    }
    Ok(found)
}
