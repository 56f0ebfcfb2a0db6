// Scopes that open and close (C11 6.2.1, 4): a block, the parameters of a function.

ghost use Rattle.std.specs.Prelude.{◌≡◌, IfOk, OnOk, OnErr};
ghost use Rattle.scopes.specs.Frames.{closed, innermost};
ghost use Rattle.sc_rules.specs.Gives.{Gives};
ghost use Rattle.sc_rules.specs.Walks as walks;

use sc_base::OutOfMemory;
use sc_rules::{Entity, Tag, Walk};
use scopes::{Block, Scopes};

/// The names and tags of a scope that was closed, so that it can open again.
#[derive(Drop)]
pub struct Scope {
    pub names: Block<Entity>,
    pub tags: Block<Tag>,
}

/// Opens a scope with nothing in it. Where memory is refused nothing changes.
pub fn open_scope(walk: &mut Walk) -> Result<(), OutOfMemory>
    ensures ok { Gives (walks.open_scope walks.no_scope walk.old) result walk.new }
    ensures err { OnErr result (walk.new ≡ walk.old) }
{
    walk.names.open()?;
    if walk.tags.open().is_err() {
        walk.names.drop_block();
        return Err(OutOfMemory);
    }
    Ok(())
}

/// Opens a scope with the names and tags of one that was closed. Where memory is refused the walk stays as it was,
/// and the scope is dropped.
pub fn open_again(walk: &mut Walk, scope: Scope) -> Result<(), OutOfMemory>
    ensures ok { Gives (walks.open_scope (record { names = scope.names; tags = scope.tags }) walk.old) result walk.new }
    ensures err { OnErr result (walk.new ≡ walk.old) }
{
    let Scope { names, tags } = scope;
    walk.names.reopen(names)?;
    if walk.tags.reopen(tags).is_err() {
        walk.names.drop_block();
        return Err(OutOfMemory);
    }
    Ok(())
}

// Closes the innermost block and gives its names; at file scope, where no block is open, there are none.
fn close_block<T: Drop>(scopes: &mut Scopes<T>) -> Result<Block<T>, OutOfMemory>
    ensures block { IfOk result (λ block. block ≡ innermost scopes.old.blocks) }
    ensures ok { OnOk result (scopes.new ≡ closed scopes.old) }
{
    if scopes.is_file() {
        scopes.open()?;
    }
    scopes.close()
}

/// Closes the innermost scope, and gives what it had.
pub fn close_scope(walk: &mut Walk) -> Result<Scope, OutOfMemory>
    ensures { IfOk result (λ scope. walks.close_scope walk.old ≡ (record { names = scope.names; tags = scope.tags }, walk.new)) }
{
    let names = close_block(&mut walk.names)?;
    let tags = close_block(&mut walk.tags)?;
    Ok(Scope { names, tags })
}
