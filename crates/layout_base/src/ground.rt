// What is laid out for: the function, what it calls, and what its text names.

ghost use Rattle.std.specs.Prelude.{◌≡◌, map, nat_eq};
ghost use Rattle.std.specs.Option.{option_copied};
ghost use Rattle.std.specs.List.{list_any};
ghost use Rattle.fsm_spec.specs.Table.{bits_of_states};
ghost use Rattle.sc_world.specs.Objects as spec;
ghost use Rattle.sc_world.specs.Occurrences as occur;
ghost use Rattle.sc_world.specs.Source as given;
ghost use Rattle.sc_world.specs.Programs as programs;
ghost use Rattle.sc_world.specs.View.{type};
ghost use Rattle.sc_world.specs.Tree.{int_bits};
ghost use Rattle.sc_gather.specs.Seen as gathered;
ghost use Rattle.layout_base.specs.Seen as seen;

use sc_base::NameId;
use sc_gather::{Context, Found, Site, integer_bits, is_pointer};
use sc_tree::ctype::CType;
use sc_typed::{FieldDef, Global, Param};
use sc_world::Origin;
use sum_rows::{Summary, Verdict};

/// What is laid out for: the function, and what its text names.
#[derive(Clone, Copy)]
pub struct Ground<'p, 'm, 'f> {
    pub here: &'f Context<'p, 'm>,
    pub found: &'f Found<'p>,
}

/// Which parts an object has.
#[derive(Clone, Copy)]
pub enum Parts<'p> {
    NoParts,
    /// So many elements of that type.
    Elements(u32, &'p CType),
    Members(&'p [FieldDef]),
}

// How many elements of an array have locations: 8, or fewer where it has fewer, but not none.
fn shown_elements(length: Option<u32>) -> u32
    ensures { result ≡ spec.shown_elements length }
{
    match length {
        None => 8,
        Some(n) => { if n == 0 { 8 } else { n.min(8) } }
    }
}

// How many bits a state takes, of so many states.
fn bits_of_states(states: usize) -> u32
    ensures { result ≡ bits_of_states states }
{
    if states <= 2 {
        1
    } else if states <= 4 {
        2
    } else {
        3
    }
}

impl<'p, 'f> Ground<'p, '_, 'f> {
    /// The bits that a cell of that type takes; 0 of a type without a cell.
    #[tactic(auto, unfolding(crate::specs::Seen::ground_of, sc_gather::specs::Seen::source_of, sc_world::specs::Programs::source_by))]
    pub fn cell_bits(&self, t: &CType) -> u32
        ensures { result ≡ spec.cell_bits (seen.ground_of self.now).source (type t.now) }
    {
        if is_pointer(t) {
            1
        } else {
            integer_bits(self.here.program.widths, t)
        }
    }

    /// The bits of a value of an integer type; 0 of any other type.
    #[tactic(auto, unfolding(crate::specs::Seen::ground_of, sc_gather::specs::Seen::source_of, sc_world::specs::Programs::source_by))]
    pub fn integer_bits(&self, t: &CType) -> u32
        ensures { result ≡ int_bits (seen.ground_of self.now).source.widths (type t.now) }
    {
        integer_bits(self.here.program.widths, t)
    }

    /// The bits that a state takes.
    #[tactic(auto, unfolding(crate::specs::Seen::ground_of, sc_gather::specs::Seen::source_of, sc_world::specs::Programs::source_by))]
    pub fn state_bits(&self) -> u32
        ensures { result ≡ spec.state_bits (seen.ground_of self.now).source }
    {
        bits_of_states(self.here.machine.states())
    }

    /// Whether the text names that member. It names few, so the list is short.
    #[tactic(auto, unfolding(crate::specs::Seen::ground_of, sc_gather::specs::Seen::found))]
    pub fn is_named(&self, n: NameId) -> bool
        ensures { result ≡ spec.is_named (seen.ground_of self.now).found n }
    {
        self.found.fields.iter().any(|m| n.at == m.at)
    }

    /// Whether the text names that global.
    #[tactic(auto, unfolding(crate::specs::Seen::ground_of, sc_gather::specs::Seen::found))]
    pub fn names_global(&self, k: u32) -> bool
        ensures { result ≡ list_any (nat_eq k) (seen.ground_of self.now).found.globals }
    {
        self.found.globals.iter().any(|m| k == *m)
    }

    /// Strings, and functions used as values.
    #[tactic(auto, unfolding(crate::specs::Seen::ground_of, sc_gather::specs::Seen::found))]
    pub fn literals(&self) -> &'f [Origin]
        ensures { result.now ≡ (seen.ground_of self.now).found.literals }
    {
        self.found.literals.as_slice()
    }

    /// The calls of the text, in order.
    #[tactic(auto, unfolding(crate::specs::Seen::ground_of, sc_gather::specs::Seen::found))]
    pub fn sites(&self) -> &'f [Site<'p>]
        ensures { map gathered.call result.now ≡ (seen.ground_of self.now).found.sites }
    {
        self.found.sites.as_slice()
    }

    /// How far pointers are followed at entry.
    #[tactic(auto, unfolding(crate::specs::Seen::ground_of, sc_gather::specs::Seen::source_of, sc_world::specs::Programs::source_by))]
    pub fn reach(&self) -> u32
        ensures { result ≡ (seen.ground_of self.now).source.reach }
    {
        self.here.reach
    }

    // The members of a struct; none where it is incomplete.
    #[tactic(auto, unfolding(crate::specs::Seen::ground_of, sc_gather::specs::Seen::source_of, sc_world::specs::Programs::source_by))]
    fn members(&self, number: u32) -> &'p [FieldDef]
        ensures { map programs.member result.now ≡ spec.members_of (seen.ground_of self.now).source number }
    {
        match self.here.program.structs.as_slice().get(number as usize) {
            None => &[],
            Some(definition) => match &definition.fields {
                None => &[],
                Some(fields) => fields.as_slice(),
            },
        }
    }

    /// Which parts an object of a type has.
    pub fn parts(&self, t: &'p CType) -> Parts<'p>
        ensures { seen.parts_of result ≡ spec.parts_of (seen.ground_of self.now).source (type t.now) }
    {
        match t {
            CType::Array(element, length) => Parts::Elements(
                shown_elements(*length),
                element.get(),
            ),
            CType::Struct(number) => Parts::Members(self.members(*number)),
            CType::Void
            | CType::Bool
            | CType::Int(_)
            | CType::Ptr(_)
            | CType::Union(_)
            | CType::Func(_)
            | CType::Opaque(_) => Parts::NoParts,
        }
    }

    /// The parameters.
    #[tactic(auto, unfolding(crate::specs::Seen::ground_of, sc_gather::specs::Seen::source_of, sc_world::specs::Programs::source_by))]
    pub fn params(&self) -> &'p [Param]
        ensures { programs.types_of result.now ≡ (seen.ground_of self.now).source.params }
    {
        match self.here.function() {
            None => &[],
            Some(function) => function.params.as_slice(),
        }
    }

    /// The locals.
    #[tactic(auto, unfolding(crate::specs::Seen::ground_of, sc_gather::specs::Seen::source_of, sc_world::specs::Programs::source_by))]
    pub fn locals(&self) -> &'p [Param]
        ensures { programs.types_of result.now ≡ (seen.ground_of self.now).source.locals }
    {
        match self.here.function() {
            None => &[],
            Some(function) => function.locals.as_slice(),
        }
    }

    /// The globals of the program.
    #[tactic(auto, unfolding(crate::specs::Seen::ground_of, sc_gather::specs::Seen::source_of, sc_world::specs::Programs::source_by))]
    pub fn globals(&self) -> &'p [Global]
        ensures { map (λ g. type g.ctype) result.now ≡ (seen.ground_of self.now).source.globals }
    {
        self.here.program.globals.as_slice()
    }

    /// The summary of the kept callee with that place; `None` of one that is skipped.
    #[tactic(auto, unfolding(crate::specs::Seen::ground_of, sc_gather::specs::Seen::source_of, sc_world::specs::Programs::source_by))]
    pub fn summary(&self, place: usize) -> Option<&'p Summary>
        ensures { option_copied result ≡ given.sum_at (seen.ground_of self.now).source place }
    {
        match self.here.verdicts.get(place) {
            None => None,
            Some(verdict) => match verdict {
                Verdict::Skipped(_) => None,
                Verdict::Done(summary, _) => Some(summary),
            },
        }
    }

    /// The type of a parameter of the kept callee with that place; `None` where it has no such parameter.
    #[tactic(auto, unfolding(crate::specs::Seen::ground_of, sc_gather::specs::Seen::source_of, sc_world::specs::Programs::source_by))]
    pub fn callee_param(&self, place: usize, n: u32) -> Option<&'p CType>
        ensures { spec.type_or_void (gathered.type_if result)
            ≡ occur.param_type (occur.known_callee (seen.ground_of self.now).source place) n }
    {
        let number = match self.here.kept.get(place) {
            None => 0,
            Some(number) => *number,
        };
        match self.here.program.functions.as_slice().get(number as usize) {
            None => None,
            Some(callee) => match callee.params.as_slice().get(n as usize) {
                None => None,
                Some(param) => Some(&param.ctype),
            },
        }
    }
}
