//! Values of locations: chosen by a gate, written over one another, and blank.
ghost use Rattle.std.specs.Prelude.{◌≡◌, ℕ, ◌<◌, ◌≤◌, length, IfOk, OnOk};
ghost use Rattle.bit_net.specs.Runs.{Grown};
ghost use Rattle.bit_words.specs.Number.{top};
ghost use Rattle.gl_sets.specs.Guards.{guards_top};
ghost use Rattle.run_store.specs.Concrete.{width_kind};
ghost use Rattle.gl_store.specs.Meets.{val_top, val_kind};
ghost use Rattle.gl_store.specs.Steps.{IsChoice, IsChoiceOfKind, IsOverwritten, IsBlank, IsSame, kind_is};

use bit_net::{Gate, Net, OutOfMemory};
use bit_words::{Word, select};
use gl_sets::{Set, join};

/// What a location is for: words of a width, pointers, or no cell.
#[derive(Clone, Copy)]
enum CellKind {
    Words(u32),
    Pointers,
    NoCell,
}

/// The kind that a width of a shape stands for: 0 for no cell, 255 for a pointer.
#[tactic(auto, using(crate::proofs::ValueLemmas::width_laws))]
fn cell_kind(width: u32) -> CellKind
    ensures { kind_is result ≡ width_kind width }
{
    match width {
        0 => CellKind::NoCell,
        255 => CellKind::Pointers,
        _ => CellKind::Words(width),
    }
}

/// The value of a location, or of an expression.
#[derive(Drop)]
pub enum Val {
    Word(Word),
    Set(Set),

    /// There is no cell.
    Unit,
}

impl Val {
    /// The same value once more.
    #[tactic(auto, using(crate::proofs::CopyLemmas::same_laws))]
    pub fn try_clone(&self, net: &Net) -> Result<Val, OutOfMemory>
        ensures { IfOk result (λ r. IsSame self.now r) }
    {
        match self {
            Val::Word(word) => {
                let word = word.try_clone(net)?;
                Ok(Val::Word(word))
            }
            Val::Set(set) => {
                let set = set.try_clone(net)?;
                Ok(Val::Set(set))
            }
            Val::Unit => Ok(Val::Unit),
        }
    }
}

/// The word `a` where `c` holds, else the word `b`; none where their widths differ.
fn choose_words(net: &mut Net, c: Gate, a: &Word, b: &Word) -> Result<Option<Val>, OutOfMemory>
    requires c { c.at < length net.old }
    requires a { top a.now.bits.items ≤ length net.old }
    requires b { top b.now.bits.items ≤ length net.old }
    ensures grown { Grown net.old net.new }
    ensures ok { IfOk result (λ r. IsChoiceOfKind net.new c.at (Val.Word a.now) (Val.Word b.now) r) }
{
    if a.bits.len() != b.bits.len() {
        return Ok(None);
    }
    let word = select(net, c, a, b)?;
    Ok(Some(Val::Word(word)))
}

/// The set `a` where `c` holds, else the set `b`.
fn choose_sets(net: &mut Net, c: Gate, a: &Set, b: &Set) -> Result<Option<Val>, OutOfMemory>
    requires c { c.at < length net.old }
    requires a { guards_top a.now.pairs.items ≤ length net.old }
    requires b { guards_top b.now.pairs.items ≤ length net.old }
    ensures grown { Grown net.old net.new }
    ensures ok { IfOk result (λ r. IsChoiceOfKind net.new c.at (Val.Set a.now) (Val.Set b.now) r) }
{
    let set = join(net, c, a, b)?;
    Ok(Some(Val::Set(set)))
}

/// The value `a` where `c` holds, else the value `b`; none where they are not of one kind.
pub fn choose(net: &mut Net, c: Gate, a: &Val, b: &Val) -> Result<Option<Val>, OutOfMemory>
    requires c { c.at < length net.old }
    requires a { val_top a.now ≤ length net.old }
    requires b { val_top b.now ≤ length net.old }
    ensures grown { Grown net.old net.new }
    ensures ok { IfOk result (λ r. IsChoiceOfKind net.new c.at a.now b.now r) }
{
    match a {
        Val::Word(a) => match b {
            Val::Word(b) => choose_words(net, c, a, b),
            Val::Set(_) => Ok(None),
            Val::Unit => Ok(None),
        },
        Val::Set(a) => match b {
            Val::Word(_) => Ok(None),
            Val::Set(b) => choose_sets(net, c, a, b),
            Val::Unit => Ok(None),
        },
        Val::Unit => match b {
            Val::Word(_) => Ok(None),
            Val::Set(_) => Ok(None),
            Val::Unit => Ok(Some(Val::Unit)),
        },
    }
}

/// Writes `new` over a value where `when` holds; a value of another kind stays as it is.
pub fn overwrite(net: &mut Net, when: Gate, val: &mut Val, new: &Val) -> Result<(), OutOfMemory>
    requires when { when.at < length net.old }
    requires val { val_top val.old ≤ length net.old }
    requires new { val_top new.now ≤ length net.old }
    ensures grown { Grown net.old net.new }
    ensures ok { OnOk result (IsOverwritten net.new when.at val.old new.now val.new) }
{
    let chosen = choose(net, when, new, val)?;
    if let Some(chosen) = chosen {
        *val = chosen;
    }
    Ok(())
}

/// The number 0 of a width, null for the width of pointers, and nothing for the width 0.
pub fn blank(net: &Net, width: u32) -> Result<Val, OutOfMemory>
    ensures { IfOk result (λ r. IsBlank net.now (width_kind width) r) }
{
    let kind = cell_kind(width);
    blank_of(net, kind)
}

/// The blank value of a kind.
#[tactic(auto, using(crate::proofs::ValueLemmas::blank_laws))]
fn blank_of(net: &Net, kind: CellKind) -> Result<Val, OutOfMemory>
    ensures { IfOk result (λ r. IsBlank net.now (kind_is kind) r) }
{
    match kind {
        CellKind::Pointers => Ok(Val::Set(Set::one(net, 0))),
        CellKind::NoCell => Ok(Val::Unit),
        CellKind::Words(width) => {
            let bits = vec![in net.alloc(); net.constant(false); width as usize]?;
            Ok(Val::Word(Word { bits }))
        }
    }
}
