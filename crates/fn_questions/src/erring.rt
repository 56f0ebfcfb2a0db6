//! Whether runs end by errors at locations alone.

ghost use Rattle.std.specs.Prelude.{◌≡◌};
ghost use Rattle.std.specs.Option.{option_copied};
ghost use Rattle.std.specs.List.{list_all};
ghost use Rattle.sum_rows.specs.declared.row.ItemRows.{ItemRows as Rows};
ghost use Rattle.sc_gather.specs.declared.found.Site.{Site as Found};
ghost use Rattle.sc_gather.specs.Seen.{meaning};
ghost use Rattle.run_world.specs.Seen.{env};
ghost use Rattle.error_laws.specs.Errors as spec;
ghost use Rattle.fn_questions.specs.Asking as asked;

use fn_facts::{Around, count};
use sc_gather::{Effect, Site};
use sum_rows::{Item, ItemRows, Root, Summary};

// Whether an item is of no location that is reached from a global.
fn is_of_param(item: &Item) -> bool
    ensures { result ≡ spec.is_of_param item.now }
{
    match item {
        Item::Lock(path) => match path.root {
            Root::Param(_) => true,
            Root::Global(_) => false,
        },
        Item::Exit | Item::Param(_) | Item::Out(_) => true,
    }
}

// The same of each item.
fn are_of_params(items: &[ItemRows]) -> bool
    ensures { result ≡ list_all (λ (x : Rows). spec.is_of_param x.item) items.now }
{
    items.iter().all(|x| is_of_param(&x.item))
}

// The same of each item of a summary.
fn is_of_params(summary: Option<&Summary>) -> bool
    ensures { result ≡ spec.is_of_params (option_copied summary.entry) }
{
    match summary {
        None => true,
        Some(summary) => are_of_params(summary.items.as_slice()),
    }
}

// The same of the summary by which a call acts.
#[tactic(auto, unfolding(run_world::specs::Seen::env))]
fn does_of_params(around: &Around, effect: Effect) -> bool
    ensures { result ≡ spec.does_of_params (env around.now.here).source (meaning effect) }
{
    match effect {
        Effect::Known(place) => is_of_params(around.here.ground.summary(place)),
        Effect::Operation(_)
        | Effect::Try(_, _)
        | Effect::Allocate(_)
        | Effect::Release
        | Effect::Ends
        | Effect::Expect
        | Effect::Unknown => true,
    }
}

// The same of each call.
fn each_of_params(around: &Around, sites: &[Site]) -> bool
    ensures { result ≡ list_all (λ (x : Found). spec.does_of_params (env around.now.here).source (meaning x.effect)) sites.now }
{
    sites.iter().all(|site| does_of_params(around, site.effect))
}

// The same of each call of the text.
fn all_of_params(around: &Around) -> bool
    ensures { result ≡ spec.all_of_params (env around.now.here).source (env around.now.here).layout }
{
    each_of_params(around, around.here.places.sites.as_slice())
}

/// Whether the runs end by errors at locations alone: there is a location, or no call acts by a summary with an item of a location that is
/// reached from a global.
pub fn errs_at_locations(around: &Around) -> bool
    ensures { result ≡ asked.errs_at_locations (env around.now.here).source (env around.now.here).layout }
{
    count(around) > 0 || all_of_params(around)
}
