// The functions with bodies of all files, as far as their heads say it: which names a program defines does not rest
// on types. Which of them are local to their file is found by hash.

ghost use Rattle.std.specs.Prelude.{◌≡◌, ℕ, [], ◌++◌, IfOk, OnOk};
ghost use Rattle.sc_typing.specs.Tables as tables;
ghost use Rattle.sc_check.specs.Bodied as spec;
ghost use Rattle.sc_check.specs.Heres.{alone_here};
ghost use Rattle.sc_check.specs.Typed as typed;

use crate::functions::name_or;
use crate::walks::alone_tables;
use sc_base::{List, NameId, Numbers, OutOfMemory};
use sc_program::Bodied;
use sc_rules::Builtin;
use sc_tree::ctype::Widths;
use sc_tree::unit::{Segment, Unit};
use sc_typing::Tables;
use std::alloc::Global;
use std::marker::Model;

// The functions that are local to their file. Contracts see the files and names, each pair once.
#[derive(Drop)]
pub struct LocalFunctions {
    keys: Numbers<(u32, u32)>,
}

impl Model for LocalFunctions {
    ghost use Rattle.std.specs.Prelude.{List, ℕ};

    ghost Value = { List (ℕ × ℕ) };

    ghost view = { λ l. l.keys };
}

impl LocalFunctions {
    // Notes a function.
    fn add(&mut self, file: u32, name: NameId) -> Result<(), OutOfMemory>
        ensures { OnOk result (self.new ≡ spec.with_pair self.old (file, name.at)) }
    {
        self.keys.insert((file, name.at))?;
        Ok(())
    }

    // Those that a declaration in their file makes local to it.
    fn of(alloc: Global, locals: &[(u32, NameId)]) -> Result<LocalFunctions, OutOfMemory>
        ensures { IfOk result (λ l. (file name : ℕ)
            → spec.has_pair l file name ≡ typed.is_local_function locals.now file name) }
    {
        let mut all = LocalFunctions {
            keys: Numbers::new(alloc),
        };
        for (file, name) in locals {
            all.add(*file, *name)?;
        }
        Ok(all)
    }

    // Whether a function is local to that file.
    fn contains(&self, file: u32, name: NameId) -> bool
        ensures { result ≡ spec.has_pair self.now file name.at }
    {
        self.keys.contains(&(file, name.at))
    }
}

// Adds the function of a segment, if it is one with a body.
fn add_body(
    bodies: &mut List<Bodied>,
    here: &Tables,
    local: &LocalFunctions,
    s: &Segment,
) -> Result<(), OutOfMemory>
    ensures { OnOk result (bodies.new
        ≡ bodies.old ++ spec.body_at (spec.has_pair local.now) (tables.here_of here.now) s.now) }
{
    match s {
        Segment::Function(h, _) => {
            let (name, _) = name_or(here.declared_name(&h.get().declarator));
            bodies.push(Bodied {
                file: here.file(),
                name: name.at,
                local: local.contains(here.file(), name),
            })
        }
        Segment::Decl(_) | Segment::Skipped(_) => Ok(()),
    }
}

// Adds the functions with bodies of a file.
fn add_bodies(
    bodies: &mut List<Bodied>,
    here: &Tables,
    local: &LocalFunctions,
    ss: &[Segment],
) -> Result<(), OutOfMemory>
    ensures { OnOk result (bodies.new
        ≡ bodies.old ++ spec.bodies_at (spec.has_pair local.now) (tables.here_of here.now) ss.now) }
{
    for s in ss {
        add_body(bodies, here, local, s)?;
    }
    Ok(())
}

// The functions with bodies of all files, in their order.
fn all_bodies(
    alloc: Global,
    w: Widths,
    builtins: &[Option<Builtin>],
    local: &LocalFunctions,
    units: &[Unit],
) -> Result<List<Bodied>, OutOfMemory>
    ensures { IfOk result (λ bodies. bodies
        ≡ spec.bodies_over (spec.has_pair local.now) (alone_here w builtins.now) units.now) }
{
    let mut bodies = List::new(alloc);
    for x in units {
        let here = alone_tables(w, x.file, builtins);
        add_bodies(&mut bodies, &here, local, x.segments.as_slice())?;
    }
    Ok(bodies)
}

/// The functions with bodies of all files, in their order, where these declarations make them local to a file.
#[tactic(auto, using(crate::proofs::Found::by_pairs))]
pub fn bodies_of(
    alloc: Global,
    w: Widths,
    builtins: &[Option<Builtin>],
    locals: &[(u32, NameId)],
    units: &[Unit],
) -> Result<List<Bodied>, OutOfMemory>
    ensures { IfOk result (λ bodies. bodies
        ≡ spec.bodies_over (typed.is_local_function locals.now) (alone_here w builtins.now) units.now) }
{
    let local = LocalFunctions::of(alloc, locals)?;
    all_bodies(alloc, w, builtins, &local, units)
}
