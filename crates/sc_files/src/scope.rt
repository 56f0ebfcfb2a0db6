// The names of a file at the end of a declaration or function: they stay, or go.

ghost use Rattle.std.specs.Prelude.{◌≡◌, OnOk};
ghost use Rattle.scopes.specs.Frames.{kept, forgotten};

use sc_base::OutOfMemory;
use scopes::Scopes;

/// What the declaration at hand has declared at file scope stays. Blocks that are open stay open.
#[tactic(auto, using(crate::proofs::Blocks::kept_behind, crate::proofs::Blocks::fewer))]
pub fn keep<T: Drop>(scopes: &mut Scopes<T>) -> Result<(), OutOfMemory>
    ensures { OnOk result (scopes.new ≡ kept scopes.old) }
{
    if scopes.is_file() {
        scopes.keep();
        return Ok(());
    }
    let block = scopes.close()?;
    keep(scopes)?;
    scopes.reopen(block)
}

/// What the declaration at hand has declared at file scope goes. Blocks that are open stay open.
#[tactic(auto, using(crate::proofs::Blocks::forgotten_behind, crate::proofs::Blocks::fewer))]
pub fn forget<T: Drop>(scopes: &mut Scopes<T>) -> Result<(), OutOfMemory>
    ensures { OnOk result (scopes.new ≡ forgotten scopes.old) }
{
    if scopes.is_file() {
        scopes.forget();
        return Ok(());
    }
    let block = scopes.close()?;
    forget(scopes)?;
    scopes.reopen(block)
}
