//! A small whole text, worked out by hand from the rules.

use name_interner::Interner;
use report_text::text;
use sc_base::{LimitKind, List, NameId, Names, OutOfMemory, Pos, RowList, Skip};
use sc_tree::ctype::{CType, Widths};
use sc_typed::{Function, Program, TBody};
use std::alloc::Global;
use std::sync::Arc;
use sum_rows::Verdict;

/// The names `a.c` and `f`.
fn two_names(alloc: Global) -> Result<Names, OutOfMemory> {
    let mut names = Interner::new(alloc);
    names.intern("a.c")?;
    names.intern("f")?;
    names.into_names()
}

/// A list of one item.
fn one<T: Drop>(alloc: Global, item: T) -> Result<List<T>, OutOfMemory> {
    let mut list = List::new(alloc);
    list.push(item)?;
    Ok(list)
}

fn f(alloc: Global) -> Function {
    let pos = Pos {
        file: 0,
        line: 2,
        col: 6,
    };
    Function {
        name: NameId { at: 1 },
        pos,
        params: List::new(alloc),
        result: CType::Void,
        locals: List::new(alloc),
        body: TBody::Skipped(Skip::Grammar { pos }),
    }
}

/// A program of a file `a.c` with a function `f`.
fn one_function(alloc: Global) -> Result<Program, OutOfMemory> {
    let names = two_names(alloc)?;
    let files = one(alloc, NameId { at: 0 })?;
    let functions = one(alloc, f(alloc))?;
    Ok(Program {
        names,
        files,
        widths: Widths::Ilp32,
        machine: None,
        structs: List::new(alloc),
        globals: List::new(alloc),
        functions,
        notes: List::new(alloc),
    })
}

/// One verdict: a function has too many nodes.
fn skipped(alloc: Global) -> Result<RowList<Verdict>, OutOfMemory> {
    let verdict = Verdict::Skipped(Skip::Limit {
        kind: LimitKind::Nodes,
        count: 4097,
    });
    let mut list = Vec::new(alloc);
    list.push(Arc::new(alloc, verdict)?)?;
    Ok(RowList { list })
}

const SKIPPED: &[u8] = b"\
function f at a.c:2:6
  skipped limit nodes 4097
total functions 1 skipped 1 rows 0 reports 0
";

/// Whether the text of a check with that verdict is `SKIPPED`.
fn is_skipped(alloc: Global) -> Result<bool, OutOfMemory> {
    let program = one_function(alloc)?;
    let verdicts = skipped(alloc)?;
    let written = text(alloc, &program, &verdicts)?;
    Ok(written.as_slice() == SKIPPED)
}

#[test]
fn a_skipped_function(rt: HostRuntime) {
    assert!(rt; is_skipped(rt.alloc()) == Ok(true));
}
