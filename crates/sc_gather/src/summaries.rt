// What the paths of the callees' summaries name is named here too.

ghost use Rattle.std.specs.Prelude.{◌≡◌, map};
ghost use Rattle.sc_world.specs.Gather as spec;
ghost use Rattle.sc_world.specs.Programs.{summary};
ghost use Rattle.sc_gather.specs.Made.{Makes};
ghost use Rattle.sc_gather.specs.Seen as seen;

use crate::found::{field_name, global};
use crate::{Context, Found, Refused};
use sum_rows::{Item, ItemRows, Path, Root, Step, Verdict, Write};

fn steps(found: &mut Found, here: &Context, steps: &[Step]) -> Result<(), Refused>
    ensures { Makes (spec.gather_steps (seen.source_of here.now) steps.now (seen.found found.old)) result (seen.found found.new) }
{
    for step in steps {
        match step {
            Step::Field(n) => field_name(found, *n)?,
            Step::Deref | Step::Elem(_) => {}
        }
    }
    Ok(())
}

fn root(found: &mut Found, here: &Context, root: Root) -> Result<(), Refused>
    ensures { Makes (spec.gather_root (seen.source_of here.now) root (seen.found found.old)) result (seen.found found.new) }
{
    match root {
        Root::Param(_) => Ok(()),
        Root::Global(n) => global(found, n),
    }
}

fn path(found: &mut Found, here: &Context, path: &Path) -> Result<(), Refused>
    ensures { Makes (spec.gather_path (seen.source_of here.now) path.now (seen.found found.old)) result (seen.found found.new) }
{
    root(found, here, path.root)?;
    steps(found, here, path.steps.as_slice())
}

fn item(found: &mut Found, here: &Context, item: &Item) -> Result<(), Refused>
    ensures { Makes (spec.gather_item (seen.source_of here.now) item.now (seen.found found.old)) result (seen.found found.new) }
{
    match item {
        Item::Lock(at) => path(found, here, at),
        Item::Exit | Item::Param(_) | Item::Out(_) => Ok(()),
    }
}

fn items(found: &mut Found, here: &Context, items: &[ItemRows]) -> Result<(), Refused>
    ensures { Makes (spec.gather_summary_items (seen.source_of here.now) items.now (seen.found found.old)) result (seen.found found.new) }
{
    for x in items {
        item(found, here, &x.item)?;
    }
    Ok(())
}

fn writes(found: &mut Found, here: &Context, writes: &[Write]) -> Result<(), Refused>
    ensures { Makes (spec.gather_writes (seen.source_of here.now) writes.now (seen.found found.old)) result (seen.found found.new) }
{
    for x in writes {
        path(found, here, &x.path)?;
    }
    Ok(())
}

fn verdict(found: &mut Found, here: &Context, verdict: &Verdict) -> Result<(), Refused>
    ensures { Makes (spec.gather_sum (seen.source_of here.now) (summary verdict.now) (seen.found found.old)) result (seen.found found.new) }
{
    match verdict {
        Verdict::Skipped(_) => Ok(()),
        Verdict::Done(summary, _) => {
            items(found, here, summary.items.as_slice())?;
            writes(found, here, summary.writes.as_slice())
        }
    }
}

/// Gathers what the summaries of the callees name.
pub fn verdicts(found: &mut Found, here: &Context, verdicts: &[Verdict]) -> Result<(), Refused>
    ensures { Makes (spec.gather_sums (seen.source_of here.now) (map summary verdicts.now) (seen.found found.old)) result (seen.found found.new) }
{
    for x in verdicts {
        verdict(found, here, x)?;
    }
    Ok(())
}
