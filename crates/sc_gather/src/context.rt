// What is read of a program: one function, what it calls, and the options of the check.

ghost use Rattle.std.specs.Prelude.{◌≡◌, map, slice_get};
ghost use Rattle.std.specs.Option.{option_copied};
ghost use Rattle.fsm_spec.specs.Table.{find_in};
ghost use Rattle.sc_world.specs.Tree as tree;
ghost use Rattle.sc_world.specs.Source as spec;
ghost use Rattle.sc_world.specs.View as view;
ghost use Rattle.sc_world.specs.Programs as programs;
ghost use Rattle.sc_gather.specs.Seen as seen;

use crate::effect::{Effect, built_in, trying};
use crate::types::{is_integer, is_pointer, is_void};
use fsm_spec::MachineSpec;
use sc_base::NameId;
use sc_tree::ctype::CType;
use sc_typed::{Function, Param, Program, TBody, TExpr, TStmt, What};
use sum_rows::Verdict;

/// What is read of a program: the function at hand, what it calls, and the options.
#[derive(Clone, Copy)]
pub struct Context<'p, 'm> {
    pub program: &'p Program,
    /// The machine of states.
    pub machine: &'m MachineSpec,
    /// Functions may try to lock.
    pub tries: bool,
    /// The number of the function at hand.
    pub function: u32,
    /// Its kept callees, ascending.
    pub kept: &'p [u32],
    /// The verdict of each of them.
    pub verdicts: &'p [Verdict],
    /// How often a loop may turn.
    pub depth: u32,
    /// How far pointers are followed at entry.
    pub reach: u32,
}

// Whether an argument of the first type agrees with a parameter of the second: integers with integers, pointers with
// pointers.
fn agree(t: &CType, u: &CType) -> bool
    ensures { result ≡ spec.agree (view.type t.now) (view.type u.now) }
{
    (is_integer(t) && is_integer(u)) || (is_pointer(t) && is_pointer(u))
}

fn results_agree(t: &CType, u: &CType) -> bool
    ensures { result ≡ spec.results_agree (view.type t.now) (view.type u.now) }
{
    agree(t, u) || (is_void(t) && is_void(u))
}

// The place of a number in a list.
fn place_in(n: u32, kept: &[u32]) -> Option<usize>
    ensures { result ≡ spec.place_in 0 n kept.now }
{
    for (k, m) in kept.iter().enumerate() {
        if n == *m {
            return Some(k);
        }
    }
    None
}

impl<'p> Context<'p, '_> {
    /// How often a loop may turn.
    #[tactic(auto, unfolding(crate::specs::Seen::source_of, sc_world::specs::Programs::source_by))]
    pub fn depth(&self) -> u32
        ensures { result ≡ (seen.source_of self.now).depth }
    {
        self.depth
    }

    /// The function at hand.
    pub fn function(&self) -> Option<&'p Function>
        ensures { option_copied result ≡ slice_get self.now.program.now.functions self.now.function }
    {
        self.program
            .functions
            .as_slice()
            .get(self.function as usize)
    }

    /// Its body; `None` where it is not taken.
    #[tactic(auto, unfolding(crate::specs::Seen::source_of, sc_world::specs::Programs::source_by))]
    pub fn body(&self) -> Option<&'p TStmt>
        ensures { seen.body_of (seen.source_of self.now).structs result ≡ (seen.source_of self.now).body }
    {
        match self.function() {
            None => None,
            Some(function) => match &function.body {
                TBody::Tree(body) => Some(body),
                TBody::Skipped(_) => None,
            },
        }
    }

    /// The name of a member, by the numbers of its struct and of it; the first name of the program where it has none.
    #[tactic(auto, unfolding(crate::specs::Seen::source_of, sc_world::specs::Programs::source_by))]
    pub fn member_name(&self, number: u32, member: u32) -> NameId
        ensures { result ≡ view.member_name (seen.source_of self.now).structs number member }
    {
        let none = NameId { at: 0 };
        match self.program.structs.as_slice().get(number as usize) {
            None => none,
            Some(definition) => match &definition.fields {
                None => none,
                Some(fields) => match fields.as_slice().get(member as usize) {
                    None => none,
                    Some(field) => field.name.unwrap_or(none),
                },
            },
        }
    }

    /// The type of an expression.
    pub fn type_of<'e>(&self, e: &'e TExpr) -> &'e CType
        ensures { view.type result.now ≡ tree.type_of (view.exp (seen.source_of self.now).structs e.now) }
    {
        match &e.what {
            What::Comma(_, _) | What::Binary(_, _, _) | What::Index(_, _) => &e.ctype,
            What::Assign(_, _, _, _) | What::Cond(_, _, _) => &e.ctype,
            What::Cast(_) | What::Unary(_, _) | What::Convert(_) => &e.ctype,
            What::PreInc(_, _) | What::PostInc(_, _) => &e.ctype,
            What::SizeofExpr(_, _) | What::SizeofType(_) => &e.ctype,
            What::Call(_, _) | What::Field(_, _, _, _) => &e.ctype,
            What::Param(_) | What::Local(_) | What::Global(_) => &e.ctype,
            What::Function(_, _) | What::Str(_) => &e.ctype,
            What::Int(_) | What::Char(_) => &e.ctype,
            What::Temp(_) | What::TempPlace(_) => &e.ctype,
        }
    }

    // The text of a name; empty where there is no such name.
    #[tactic(auto, unfolding(crate::specs::Seen::source_of, sc_world::specs::Programs::source_by))]
    fn text(&self, name: NameId) -> &'p str
        ensures { result.now ≡ spec.text_of (seen.source_of self.now) name }
    {
        if (name.at as usize) < self.program.names.len() {
            self.program.names.text(name)
        } else {
            ""
        }
    }

    // The operation of the machine with that name.
    #[tactic(auto, unfolding(crate::specs::Seen::source_of, sc_world::specs::Programs::source_by))]
    fn operation(&self, name: &str) -> Option<usize>
        ensures { result ≡ find_in (seen.source_of self.now).machine name.now }
    {
        self.machine.find(name)
    }

    // What a function does that tries to lock, where functions may.
    #[tactic(auto, unfolding(crate::specs::Seen::source_of, sc_world::specs::Programs::source_by))]
    fn trying(&self, name: &str) -> Option<Effect>
        ensures { seen.meaning_if result ≡ spec.trying_if (seen.source_of self.now).tries name.now }
    {
        if self.tries {
            trying(name.as_bytes())
        } else {
            None
        }
    }

    // What a call of that name does, where the name has a meaning of its own.
    fn effect_of_name(&self, name: &str) -> Option<Effect>
        ensures { seen.meaning_if result ≡ spec.effect_of_name (seen.source_of self.now) name.now }
    {
        match self.operation(name) {
            Some(n) => Some(Effect::Operation(n)),
            None => match self.trying(name) {
                Some(effect) => Some(effect),
                None => built_in(name.as_bytes()),
            },
        }
    }

    // Whether arguments agree with parameters, each at its place.
    fn arguments_agree(&self, args: &[TExpr], params: &[Param]) -> bool
        ensures { result ≡ spec.arguments_agree (seen.arguments_of (seen.source_of self.now).structs args.now) (programs.types_of params.now) }
    {
        if args.len() != params.len() {
            return false;
        }
        for (k, e) in args.iter().enumerate() {
            if !agree(self.type_of(e), &params[k].ctype) {
                return false;
            }
        }
        true
    }

    // Whether arguments and a result fit the function with that number.
    #[tactic(auto, unfolding(crate::specs::Seen::source_of, sc_world::specs::Programs::source_by))]
    fn fits(&self, number: u32, args: &[TExpr], t: &CType) -> bool
        ensures { result ≡ spec.fits_signature (spec.signature_at (seen.source_of self.now) number)
            (seen.arguments_of (seen.source_of self.now).structs args.now) (view.type t.now) }
    {
        match self.program.functions.as_slice().get(number as usize) {
            None => self.arguments_agree(args, &[]) && is_void(t),
            Some(f) => {
                self.arguments_agree(args, f.params.as_slice()) && results_agree(t, &f.result)
            }
        }
    }

    // Whether the kept callee with that place has a summary.
    #[tactic(auto, unfolding(crate::specs::Seen::source_of, sc_world::specs::Programs::source_by))]
    fn has_summary(&self, place: usize) -> bool
        ensures { result ≡ seen.is_summary (spec.sum_at (seen.source_of self.now) place) }
    {
        match self.verdicts.get(place) {
            None => false,
            Some(verdict) => match verdict {
                Verdict::Skipped(_) => false,
                Verdict::Done(_, _) => true,
            },
        }
    }

    // The place of a number among the kept callees.
    #[tactic(auto, unfolding(crate::specs::Seen::source_of, sc_world::specs::Programs::source_by))]
    fn place_among_kept(&self, number: u32) -> Option<usize>
        ensures { result ≡ spec.place_in 0 number (seen.source_of self.now).kept }
    {
        place_in(number, self.kept)
    }

    // What a call does whose name means that body.
    fn known(&self, number: u32, args: &[TExpr], t: &CType) -> Effect
        ensures { seen.meaning result ≡ spec.known_body (seen.source_of self.now) (Some number)
            (seen.arguments_of (seen.source_of self.now).structs args.now) (view.type t.now) }
    {
        match self.place_among_kept(number) {
            None => Effect::Unknown,
            Some(place) => {
                if self.fits(number, args, t) && self.has_summary(place) {
                    Effect::Known(place)
                } else {
                    Effect::Unknown
                }
            }
        }
    }

    // What a call of a function by its name does.
    fn effect_of_function(
        &self,
        name: NameId,
        body: Option<u32>,
        args: &[TExpr],
        t: &CType,
    ) -> Effect
        ensures { seen.meaning result ≡ spec.effect_or
            (spec.effect_of_name (seen.source_of self.now) (spec.text_of (seen.source_of self.now) name))
            (spec.known_body (seen.source_of self.now) body (seen.arguments_of (seen.source_of self.now).structs args.now) (view.type t.now)) }
    {
        match self.effect_of_name(self.text(name)) {
            Some(effect) => effect,
            None => match body {
                None => Effect::Unknown,
                Some(number) => self.known(number, args, t),
            },
        }
    }

    /// What a call of `f` with these arguments and a result of that type does.
    pub fn effect(&self, f: &TExpr, args: &[TExpr], t: &CType) -> Effect
        ensures { seen.meaning result ≡ spec.effect (seen.source_of self.now) (view.exp (seen.source_of self.now).structs f.now)
            (seen.arguments_of (seen.source_of self.now).structs args.now) (view.type t.now) }
    {
        match &f.what {
            What::Function(name, body) => self.effect_of_function(*name, *body, args, t),
            What::Comma(_, _) | What::Binary(_, _, _) | What::Index(_, _) => Effect::Unknown,
            What::Assign(_, _, _, _) | What::Cond(_, _, _) => Effect::Unknown,
            What::Cast(_) | What::Unary(_, _) | What::Convert(_) => Effect::Unknown,
            What::PreInc(_, _) | What::PostInc(_, _) => Effect::Unknown,
            What::SizeofExpr(_, _) | What::SizeofType(_) => Effect::Unknown,
            What::Call(_, _) | What::Field(_, _, _, _) => Effect::Unknown,
            What::Param(_) | What::Local(_) | What::Global(_) | What::Str(_) => Effect::Unknown,
            What::Int(_) | What::Char(_) => Effect::Unknown,
            What::Temp(_) | What::TempPlace(_) => Effect::Unknown,
        }
    }
}
