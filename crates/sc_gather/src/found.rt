// What was found so far, and the steps that add to it.

ghost use Rattle.std.specs.Prelude.{◌≡◌, ◌≤◌, MatchResult, length, nat_eq};
ghost use Rattle.std.specs.List.{list_any};
ghost use Rattle.sc_world.specs.Gather as spec;
ghost use Rattle.sc_gather.specs.Made.{Makes, IsMemory};
ghost use Rattle.sc_gather.specs.Seen as seen;

use crate::{Effect, Refused};
use sc_base::{LimitKind, NameId, Pos};
use sc_tree::ctype::CType;
use sc_world::Origin;

/// No function has more nodes.
const MOST_NODES: u32 = 4096;

/// A call of the text.
#[derive(Clone, Copy)]
pub struct Site<'p> {
    /// Its first token.
    pub pos: Pos,
    /// Its opening bracket, which tells it from all other calls.
    pub bracket: Pos,
    /// In how many turns of the loops round it the call may be made.
    pub turns: u32,
    pub effect: Effect,
    /// The type of what it gives.
    pub result: &'p CType,
    /// The type of the object of a pointer that it gives; `None` for `void`.
    pub object: Option<&'p CType>,
}

/// How an expression stands.
#[derive(Clone, Copy)]
pub enum Stands<'p> {
    /// As any.
    Plain,
    /// As what is called or the operand of `sizeof`.
    Named,
    /// Directly cast, assigned, returned or given as an initialiser, as a pointer to that type; `None` where it is no
    /// pointer.
    GivenAs(Option<&'p CType>),
}

/// How often what stands somewhere is unrolled, and in how many turns of the loops round it a call may be made.
#[derive(Clone, Copy, Debug, PartialEq, Eq)]
pub struct Round {
    pub factor: u32,
    pub turns: u32,
}

/// What was found so far.
#[derive(Drop)]
pub struct Found<'p> {
    pub nodes: u32,
    /// The members that are named, each once.
    pub fields: Vec<NameId>,
    /// The globals that are named, each once.
    pub globals: Vec<u32>,
    /// Strings, and functions used as values, in the order of the text.
    pub literals: Vec<Origin>,
    /// Calls, by place; of those at one place the inner one first.
    pub sites: Vec<Site<'p>>,
}

// Counts nodes.
#[tactic(auto, unfolding(crate::specs::Seen::found))]
pub fn nodes(found: &mut Found, n: u32) -> Result<(), Refused>
    ensures { Makes (spec.nodes n (seen.found found.old)) result (seen.found found.new) }
{
    if n > MOST_NODES || found.nodes > MOST_NODES - n {
        return Err(Refused::Limit(LimitKind::Nodes));
    }
    found.nodes += n;
    Ok(())
}

// Whether a name is among some. A text names few members, so the list is short.
fn has_name(names: &[NameId], n: NameId) -> bool
    ensures { result ≡ list_any (spec.same_name n) names.now }
{
    names.iter().any(|m| n.at == m.at)
}

fn has_number(numbers: &[u32], n: u32) -> bool
    ensures { result ≡ list_any (nat_eq n) numbers.now }
{
    numbers.iter().any(|m| n == *m)
}

fn is_function(n: NameId, origin: Origin) -> bool
    ensures { result ≡ spec.is_function n origin }
{
    match origin {
        Origin::Function(m) => n.at == m.at,
        Origin::Param(_)
        | Origin::Global(_)
        | Origin::Local(_)
        | Origin::Literal(_)
        | Origin::Target(_)
        | Origin::Call(_)
        | Origin::Part(_, _) => false,
    }
}

fn has_function(origins: &[Origin], n: NameId) -> bool
    ensures { result ≡ list_any (spec.is_function n) origins.now }
{
    origins.iter().any(|origin| is_function(n, *origin))
}

// A member is named.
#[tactic(auto, unfolding(crate::specs::Seen::found))]
pub fn field_name(found: &mut Found, n: NameId) -> Result<(), Refused>
    ensures { Makes (spec.field_name n (seen.found found.old)) result (seen.found found.new) }
{
    if has_name(&found.fields, n) {
        return Ok(());
    }
    if found.fields.push(n).is_err() {
        return Err(Refused::Memory);
    }
    Ok(())
}

// A global is named.
#[tactic(auto, unfolding(crate::specs::Seen::found))]
pub fn global(found: &mut Found, n: u32) -> Result<(), Refused>
    ensures { Makes (spec.global n (seen.found found.old)) result (seen.found found.new) }
{
    if has_number(&found.globals, n) {
        return Ok(());
    }
    if found.globals.push(n).is_err() {
        return Err(Refused::Memory);
    }
    Ok(())
}

// A string.
#[tactic(auto, unfolding(crate::specs::Seen::found))]
pub fn literal(found: &mut Found, pos: Pos) -> Result<(), Refused>
    ensures { Makes (spec.literal pos (seen.found found.old)) result (seen.found found.new) }
{
    if found.literals.push(Origin::Literal(pos)).is_err() {
        return Err(Refused::Memory);
    }
    Ok(())
}

// A function is used as a value. It has one stub, however often it is named.
#[tactic(auto, unfolding(crate::specs::Seen::found))]
fn function_value(found: &mut Found, n: NameId) -> Result<(), Refused>
    ensures { Makes (spec.function_value n (seen.found found.old)) result (seen.found found.new) }
{
    if has_function(&found.literals, n) {
        return Ok(());
    }
    if found.literals.push(Origin::Function(n)).is_err() {
        return Err(Refused::Memory);
    }
    Ok(())
}

// A function is named: as a value, but where it is called or under `sizeof`.
pub fn function_name(found: &mut Found, n: NameId, stands: Stands) -> Result<(), Refused>
    ensures { Makes (spec.function_name n (seen.standing stands.entry) (seen.found found.old)) result (seen.found found.new) }
{
    match stands {
        Stands::Named => Ok(()),
        Stands::Plain | Stands::GivenAs(_) => function_value(found, n),
    }
}

fn is_later(p: Pos, q: Pos) -> bool
    ensures { result ≡ spec.is_later p q }
{
    p.line < q.line || (p.line == q.line && p.col < q.col)
}

// Where a call goes among calls that stand in order: before the first that begins later. Calls mostly come in order;
// with the limit of nodes there are at most 4,096.
fn place_of(sites: &[Site], pos: Pos) -> usize
    ensures place { result ≡ seen.calls_before pos sites.now }
    ensures bound { result ≤ length sites.now }
{
    for (k, site) in sites.iter().enumerate() {
        if is_later(pos, site.pos) {
            return k;
        }
    }
    sites.len()
}

// A call.
#[tactic(auto, unfolding(crate::specs::Seen::found), using(crate::proofs::Sites::with_site_at))]
pub fn call_site<'p>(found: &mut Found<'p>, site: Site<'p>) -> Result<(), Refused>
    ensures { Makes (spec.call_site (seen.call site.entry) (seen.found found.old)) result (seen.found found.new) }
{
    let at = place_of(&found.sites, site.pos);
    if found.sites.insert(at, site).is_err() {
        return Err(Refused::Memory);
    }
    Ok(())
}

impl Round {
    /// In the body or the step of a loop, or in the condition of a `do`.
    pub fn within(self, depth: u32) -> Result<Round, Refused>
        ensures { MatchResult result (λ r. seen.round r ≡ spec.within depth (seen.round self)) IsMemory }
    {
        match (
            self.factor.checked_mul(depth),
            self.turns.checked_mul(depth),
        ) {
            (Some(factor), Some(turns)) => Ok(Round { factor, turns }),
            (None, _) | (Some(_), None) => Err(Refused::Memory),
        }
    }

    /// In the condition of any other loop, which is tested once more.
    pub fn tested(self, depth: u32) -> Result<Round, Refused>
        ensures { MatchResult result (λ r. seen.round r ≡ spec.tested depth (seen.round self)) IsMemory }
    {
        let Some(tests) = depth.checked_add(1) else {
            return Err(Refused::Memory);
        };
        match (
            self.factor.checked_mul(depth),
            self.turns.checked_mul(tests),
        ) {
            (Some(factor), Some(turns)) => Ok(Round { factor, turns }),
            (None, _) | (Some(_), None) => Err(Refused::Memory),
        }
    }
}
