// What the gates of steps are made of.

ghost use Rattle.std.specs.Prelude.{◌≡◌, ◌<◌, ◌^◌, length};
ghost use Rattle.fsm_spec.specs.Table.{IsWhole};
ghost use Rattle.layout_base.specs.Seen as laid;
ghost use Rattle.run_world.specs.Seen as seen;

use layout_base::Ground;
use layout_lookup::Lookup;
use run_world::Here;

/// Who makes the gates of the steps of a function.
#[derive(Clone, Copy)]
pub struct Stepping<'a, 'p, 'm, 'f> {
    // the program and the function
    pub(crate) given: Ground<'p, 'm, 'f>,

    // the layout of the function
    pub(crate) layout: &'a Lookup<'p, 'f>,
    ghost whole: { IsWhole (laid.ground_of given).source.machine },
    ghost few: { length (laid.layout_of layout.now.places.now).locations < 2 ^ 32 },
}

impl<'a, 'p, 'm, 'f> Stepping<'a, 'p, 'm, 'f> {
    ghost use Rattle.tr_flow.specs.Seen.{source_of, layout_of};

    /// Who makes the gates of the steps of the function at hand, by look-ups in its layout.
    #[tactic(auto, unfolding(run_world::specs::Seen::env))]
    pub fn new(here: &Here<'p, 'm, 'f>, layout: &'a Lookup<'p, 'f>) -> Stepping<'a, 'p, 'm, 'f>
        requires whole { IsWhole (seen.env here.now).source.machine }
        requires same { laid.layout_of layout.now.places.now ≡ (seen.env here.now).layout }
        requires few { length (seen.env here.now).layout.locations < 2 ^ 32 }
        ensures source { source_of result ≡ (seen.env here.now).source }
        ensures layout { layout_of result ≡ (seen.env here.now).layout }
    {
        Stepping {
            given: here.ground,
            layout,
        }
    }
}
