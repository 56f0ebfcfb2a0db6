//! The gates of all runs of a function.

ghost use Rattle.std.specs.Prelude.{◌≡◌, ◌<◌, ◌^◌, Some, length, IfOk, IfSome, MatchOption};
ghost use Rattle.bit_net.specs.Circuit.{input_count};
ghost use Rattle.bit_net.specs.Runs.{Grown};
ghost use Rattle.fsm_spec.specs.Table.{IsWhole};
ghost use Rattle.gl_store.specs.Steps.{IsBlank};
ghost use Rattle.sc_world.specs.World.{kind_of_type};
ghost use Rattle.flow_graph.specs.Unrolled.{flow as graph_of};
ghost use Rattle.flow_ends.specs.Encoded.{IsEncoded};
ghost use Rattle.layout_base.specs.Seen as laid;
ghost use Rattle.run_world.specs.Seen.{env};
ghost use Rattle.sc_flow.specs.Seen as seen;
ghost use Rattle.tr_flow.specs.Graph.{CanEncode};
ghost use Rattle.tr_flow.specs.Whole.{AllHaveGates};
ghost use Rattle.fn_gates.specs.Having.{HaveGates, LackGates};

use bit_net::Net;
use flow_ends::Encoded;
use flow_fits::can_encode;
use gate_entry::entered;
use gl_store::{Val, blank};
use layout_base::{Ground, Places};
use layout_lookup::Lookup;
use run_entry::integer_bits;
use run_world::Here;
use sc_base::OutOfMemory;
use sc_flow::unroll;
use sc_gather::{is_integer, is_pointer};
use std::alloc::Global;
use tr_flow::{Graph, Laid, Stepping, Steps, all_have_gates, encode};

/// The gates of all runs of a function: a net whose inputs are the bits of the choice, and what its gates tell of each run.
#[derive(Drop)]
pub struct InGates {
    pub net: Net,
    pub encoded: Encoded,
}

// The width of the cell of a pointer, as stores have it.
const POINTER: u32 = 255;

// What the function gives where it ends without a value: 0, null or nothing.
#[tactic(auto, unfolding(run_world::specs::Seen::env, layout_base::specs::Seen::ground_of, sc_gather::specs::Seen::source_of, sc_world::specs::Programs::source_by))]
fn nothing_given(here: &Here, net: &Net) -> Result<Val, bit_net::OutOfMemory>
    ensures { IfOk result (λ r. IsBlank net.now (kind_of_type (env here.now).source (Some (env here.now).source.result)) r) }
{
    let width = match here.ground.here.function() {
        None => 0,
        Some(function) if is_pointer(&function.result) => POINTER,
        Some(function) if is_integer(&function.result) => integer_bits(here, &function.result),
        Some(_) => 0,
    };
    let nothing = blank(net, width)?;
    Ok(nothing)
}

// The gates of all runs of the function at hand, whose graph has gates.
#[tactic(auto, unfolding(run_world::specs::Seen::env))]
fn encoded<'a, 'p, 'm, 'f, S: Steps>(
    here: &'a Here<'p, 'm, 'f>,
    layout: &'a Lookup<'p, 'f>,
    graph: &Graph<S>,
    net: &mut Net,
) -> Result<Encoded, bit_net::OutOfMemory>
    requires source { S.source graph.now.steps.now ≡ (env here.now).source }
    requires layout { S.layout graph.now.steps.now ≡ (env here.now).layout }
    requires same { laid.layout_of layout.now.places.now ≡ (env here.now).layout }
    requires few { length (env here.now).layout.locations < 2 ^ 32 }
    requires unrolled { seen.flow (env here.now).source.structs graph.now.flow.now ≡ graph_of (env here.now).source }
    requires inputs { input_count net.old ≡ (env here.now).layout.bits }
    requires can { CanEncode (env here.now).source (env here.now).layout }
    requires have { AllHaveGates (S.takes graph.now.steps.now) (S.makes graph.now.steps.now) graph.now.flow.now.nodes }
    ensures grown { Grown net.old net.new }
    ensures ok { IfOk result (λ r. IsEncoded (env here.now).source (env here.now).layout net.new r) }
{
    let entry = entered(here, net)?;
    let nothing = nothing_given(here, net)?;
    let laid = Laid { here, layout };
    let encoded = encode(graph, &laid, net, entry, nothing, here.places.count())?;
    Ok(encoded)
}

// The gates of all runs of the function at hand, which has few locations.
#[tactic(auto, unfolding(run_world::specs::Seen::env))]
fn of_few<'p, 'm, 'f>(
    alloc: Global,
    here: &Here<'p, 'm, 'f>,
) -> Result<Option<InGates>, OutOfMemory>
    requires whole { IsWhole (env here.now).source.machine }
    requires few { length (env here.now).layout.locations < 2 ^ 32 }
    ensures runs { IfOk result (λ r. IfSome r (λ g. IsEncoded (env here.now).source (env here.now).layout g.net g.encoded)) }
    ensures exactly { IfOk result (λ r. MatchOption r (LackGates (env here.now).source (env here.now).layout)
        (λ g. HaveGates (env here.now).source (env here.now).layout)) }
{
    let flow = unroll(alloc, here.ground.here)?;
    let lookup = Lookup::of(alloc, here.places)?;
    let can = can_encode(alloc, &here.ground, &lookup, &flow)?;
    if !can {
        return Ok(None);
    }
    let steps = Stepping::new(here, &lookup);
    let have = all_have_gates(&steps, &flow);
    if !have {
        return Ok(None);
    }
    let Ok(mut net) = Net::new(alloc, here.places.bits as usize) else {
        return Err(OutOfMemory);
    };
    let graph = Graph {
        steps: &steps,
        flow: &flow,
    };
    let made = encoded(here, &lookup, &graph, &mut net);
    let Graph {
        steps: _steps,
        flow: _flow,
    } = graph;
    match made {
        Ok(encoded) => Ok(Some(InGates { net, encoded })),
        Err(_) => Err(OutOfMemory),
    }
}

// So many locations are too many for numbers of 32 bits.
const TOO_MANY: usize = 0x1_0000_0000;

/// The gates of all runs of the function at hand, which has this layout. `None` exactly where something of it has no gates: it does not fit
/// its layout, a value of type `void` is read that is neither dropped nor what a call or a cast gives at its end, what it gives is an object,
/// a node of its graph is none of those that have gates, or it has 2^32 locations or more.
#[tactic(auto, unfolding(run_world::specs::Seen::env))]
pub fn in_gates<'p, 'm, 'f>(
    alloc: Global,
    given: Ground<'p, 'm, 'f>,
    places: &'f Places<'p>,
) -> Result<Option<InGates>, OutOfMemory>
    requires whole { IsWhole (laid.ground_of given).source.machine }
    ensures exactly { IfOk result (λ r. MatchOption r (LackGates (laid.ground_of given.entry).source (laid.layout_of places.now))
        (λ g. HaveGates (laid.ground_of given.entry).source (laid.layout_of places.now))) }
    ensures few { IfOk result (λ r. IfSome r (λ g. length places.now.locations.items < 2 ^ 32)) }
    ensures runs { IfOk result (λ r. IfSome r (λ g. IsEncoded (laid.ground_of given.entry).source (laid.layout_of places.now) g.net g.encoded)) }
{
    if places.count() >= TOO_MANY {
        return Ok(None);
    }
    let here = Here {
        ground: given,
        places,
        choice: &[],
        turn: 0,
    };
    let made = of_few(alloc, &here)?;
    Ok(made)
}
