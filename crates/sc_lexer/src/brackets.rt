//! Which brackets match, over all tokens of a file.
#![tactic(auto)]

ghost use Rattle.std.specs.Prelude.{◌≡◌, IfOk};
ghost use Rattle.sc_tree.specs.Brackets.{unbalanced};

use crate::roles::role_of;
use sc_base::{OutOfMemory, Pos};
use sc_tree::{Bracket, Role, Token};
use std::alloc::Global;

/// The brackets that are open, the last one last, and the place of the first one.
#[derive(Debug, Drop)]
struct Open {
    brackets: Vec<Bracket>,
    since: Option<Pos>,
}

impl Open {
    ghost use Rattle.std.specs.Prelude.{◌≡◌, ◌+◌, List, IfOk, OnOk, if◌then◌else◌};
    ghost use Rattle.sc_tree.specs.Brackets.{behind_role, closed_by, is_same, nothing_open, opened, unbalanced};
    ghost use Rattle.sc_tree.specs.Roles.{role_of};
    ghost use Rattle.sc_lexer.specs.OpenBrackets.{now_open};

    fn new(alloc: Global) -> Open
        ensures { now_open result ≡ nothing_open }
    {
        Open {
            brackets: Vec::new(alloc),
            since: None,
        }
    }

    /// One bracket more.
    fn open(&mut self, bracket: Bracket, pos: Pos) -> Result<(), OutOfMemory>
        ensures { OnOk result (now_open self.new ≡ opened (now_open self.old) bracket pos) }
    {
        self.brackets.push(bracket)?;
        self.since = self.since.or(Some(pos));
        Ok(())
    }

    fn is_same(a: Bracket, b: Bracket) -> bool
        ensures { result ≡ is_same a b }
    {
        a == b
    }

    /// Takes the last bracket away, and says whether it is the one that is closed.
    fn close(&mut self, bracket: Bracket) -> bool
        ensures { closed_by (now_open self.old).brackets (now_open self.old).since bracket ≡ if result then Some (now_open self.new) else None }
    {
        let last = self.brackets.pop();
        if self.brackets.is_empty() {
            self.since = None;
        }
        match last {
            Some(last) => Open::is_same(last, bracket),
            None => false,
        }
    }

    /// Goes past a token, and says whether it closes the last bracket, if it closes one.
    fn see(&mut self, token: Token) -> Result<bool, OutOfMemory>
        ensures { IfOk result (λ fits. behind_role (now_open self.old) token.pos (role_of token.kind) ≡ if fits then Some (now_open self.new) else None) }
    {
        match role_of(token.kind) {
            Role::Opens(bracket) => {
                self.open(bracket, token.pos)?;
                Ok(true)
            }
            Role::Closes(bracket) => Ok(self.close(bracket)),
            _ => Ok(true),
        }
    }

    /// The place of the first closing bracket that does not match, or else of the first bracket
    /// that is never closed.
    #[tactic(auto, unfolding(sc_tree::specs::Brackets::unbalanced))]
    fn unbalanced(alloc: Global, tokens: &[Token]) -> Result<Option<Pos>, OutOfMemory>
        ensures { IfOk result (λ place. place ≡ unbalanced tokens.now) }
    {
        let mut now = Open::new(alloc);
        for token in tokens {
            if !now.see(*token)? {
                return Ok(Some(token.pos));
            }
        }
        Ok(now.since)
    }
}

/// The place of a bracket without its other half, if there is one.
pub(crate) fn unbalanced(alloc: Global, tokens: &[Token]) -> Result<Option<Pos>, OutOfMemory>
    ensures { IfOk result (λ place. place ≡ unbalanced tokens.now) }
{
    Open::unbalanced(alloc, tokens)
}
