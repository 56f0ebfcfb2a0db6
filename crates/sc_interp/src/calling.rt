// What the calls of a run do.

ghost use Rattle.std.specs.Prelude.{◌<◌, ◌^◌, length};
ghost use Rattle.layout_base.specs.Seen as laid;
ghost use Rattle.run_acts.specs.Reads.{reads_of};
ghost use Rattle.run_acts.specs.Room.{fits_all_prop};
ghost use Rattle.run_paths.specs.Seen.{FitsAll};

use layout_base::{Ground, Occurrence, Places};
use run_exprs::Calls;
use run_known::act;
use run_paths::Buffer;
use run_world::{Ended, Here, Value, World};
use sc_base::Pos;
use sc_gather::Effect;
use sc_tree::ctype::CType;

/// What the calls of one run read, and the room for what a known call finds.
#[derive(Drop)]
pub struct Calling<'p, 'm, 'f> {
    pub given: Ground<'p, 'm, 'f>,
    pub places: &'f Places<'p>,
    pub choice: &'f [bool],
    pub buffer: Buffer<'p>,
    ghost few: { length places.now.locations.items < 2 ^ 32 },
    ghost fits: { FitsAll (laid.ground_of given).source buffer.most } by { fits_all_prop (laid.ground_of given).source buffer.most },
}

impl Calls for Calling<'_, '_, '_> {
    ghost reads = { λ a turn. reads_of a.given a.places a.choice.now turn };

    #[tactic(auto, unfolding(run_world::specs::Seen::env))]
    fn act(
        &mut self,
        turn: u32,
        world: &mut World,
        pos: Pos,
        t: &CType,
        occurrence: Occurrence,
        arguments: &[Value],
        effect: Effect,
    ) -> Result<Value, Ended> {
        let here = Here {
            ground: self.given,
            places: self.places,
            choice: self.choice,
            turn,
        };
        act(
            &here,
            world,
            &mut self.buffer,
            pos,
            t,
            occurrence,
            arguments,
            effect,
        )
    }
}
