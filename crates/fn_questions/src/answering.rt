//! The gates of questions are those by which questions are answered.

ghost use Rattle.location_texts.specs.Seen as spelled;
ghost use Rattle.run_world.specs.Seen.{env};
ghost use Rattle.fn_questions.specs.Asking.{IsReadyToAsk};

use crate::facts::Facts;
use bit_net::{Gate, Net, OutOfMemory};
use fn_gated::Gated;
use run_questions::Query;

impl<'p, 'm, 'f> Gated for Facts<'p, 'm, 'f> {
    ghost source = { λ f. (env f.around.here).source };

    ghost texts = { λ f. spelled.texts f.texts };

    ghost ready = { λ f ns. IsReadyToAsk ns f };

    fn gate(&mut self, net: &mut Net, asked: Query) -> Result<Gate, OutOfMemory> {
        let gate = self.question(net, asked)?;
        Ok(gate)
    }
}
