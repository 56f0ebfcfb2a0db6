// One file (C11 6.9): its declarations and functions in their order.

ghost use Rattle.std.specs.Prelude.{◌≡◌, OnOk};
ghost use Rattle.sc_declare.specs.Numbers.{keys_of};
ghost use Rattle.sc_typing.specs.Tables as tables;
ghost use Rattle.sc_files.specs.Notes as notes_of;
ghost use Rattle.sc_check.specs.Files as spec;
ghost use Rattle.sc_check.specs.Parts.{made};

use crate::functions::function;
use sc_base::{List, OutOfMemory, Skip};
use sc_declarations::declaration;
use sc_declare::GlobalNumbers;
use sc_files::{begin_file, end_declaration, so_far};
use sc_rules::Walk;
use sc_tree::decl::Decl;
use sc_tree::unit::{FileDecl, Segment};
use sc_typed::Function;
use sc_typing::Tables;
use std::alloc::Global;

/// A declaration at file scope: it stays, or leaves a note and nothing else.
///
/// `numbers` has the numbers of the globals of `walk`, before and after. Where memory is refused none of the three
/// is of further use.
pub fn file_declaration(
    alloc: Global,
    walk: &mut Walk,
    numbers: &mut GlobalNumbers,
    here: &Tables,
    d: &Decl,
    notes: &mut List<Skip>,
) -> Result<(), OutOfMemory>
    requires { numbers.old ≡ keys_of walk.old.globals }
    ensures noted { OnOk result (spec.file_declaration (tables.here_of here.now) d.now notes.old walk.old
        ≡ (notes.new, walk.new)) }
    ensures tied { OnOk result (numbers.new ≡ keys_of walk.new.globals) }
{
    let before = so_far(walk);
    declaration(alloc, walk, numbers, here, true, d)?;
    end_declaration(alloc, walk, numbers, before, notes)
}

// A segment of a file.
fn segment(
    alloc: Global,
    walk: &mut Walk,
    numbers: &mut GlobalNumbers,
    here: &Tables,
    functions: &mut List<Function>,
    notes: &mut List<Skip>,
    s: &Segment,
) -> Result<(), OutOfMemory>
    requires { numbers.old ≡ keys_of walk.old.globals }
    ensures made { OnOk result (spec.segment_in (tables.here_of here.now) (made functions.old notes.old) s.now walk.old
        ≡ (made functions.new notes.new, walk.new)) }
    ensures tied { OnOk result (numbers.new ≡ keys_of walk.new.globals) }
{
    match s {
        Segment::Skipped(skip) => notes.push(*skip),
        Segment::Function(h, b) => {
            let f = function(alloc, walk, numbers, here, h.get(), b.get())?;
            functions.push(f)
        }
        Segment::Decl(d) => match d {
            FileDecl::Empty(_) => Ok(()),
            FileDecl::Full(d) => file_declaration(alloc, walk, numbers, here, d.get(), notes),
        },
    }
}

// The segments of a file, in their order.
#[tactic(auto, using(crate::proofs::Walked::one_segment))]
fn segments(
    alloc: Global,
    walk: &mut Walk,
    numbers: &mut GlobalNumbers,
    here: &Tables,
    functions: &mut List<Function>,
    notes: &mut List<Skip>,
    ss: &[Segment],
) -> Result<(), OutOfMemory>
    requires { numbers.old ≡ keys_of walk.old.globals }
    ensures made { OnOk result (spec.segments_in (tables.here_of here.now) (made functions.old notes.old) ss.now
        walk.old ≡ (made functions.new notes.new, walk.new)) }
    ensures tied { OnOk result (numbers.new ≡ keys_of walk.new.globals) }
{
    for s in ss {
        segment(alloc, walk, numbers, here, functions, notes, s)?;
    }
    Ok(())
}

/// Begins a file.
pub fn begin(walk: &mut Walk)
    ensures begun { notes_of.begin_file walk.old ≡ (tt, walk.new) }
    ensures kept { walk.new.globals ≡ walk.old.globals }
{
    begin_file(walk);
}

/// Types a file: its functions and notes go behind those before.
///
/// `numbers` has the numbers of the globals of `walk`, before and after. Where memory is refused none of the four
/// is of further use.
pub fn file(
    alloc: Global,
    walk: &mut Walk,
    numbers: &mut GlobalNumbers,
    here: &Tables,
    functions: &mut List<Function>,
    notes: &mut List<Skip>,
    ss: &[Segment],
) -> Result<(), OutOfMemory>
    requires { numbers.old ≡ keys_of walk.old.globals }
    ensures made { OnOk result (spec.file_in (tables.here_of here.now) (made functions.old notes.old) ss.now walk.old
        ≡ (made functions.new notes.new, walk.new)) }
    ensures tied { OnOk result (numbers.new ≡ keys_of walk.new.globals) }
{
    begin(walk);
    segments(alloc, walk, numbers, here, functions, notes, ss)
}
