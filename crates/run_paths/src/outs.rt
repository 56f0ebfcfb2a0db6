// Paths that lead to what a parameter with an item of its own points to.

ghost use Rattle.std.specs.Prelude.{◌≡◌};
ghost use Rattle.std.specs.List.{list_any};
ghost use Rattle.sc_world.specs.Occurrences as spec;

use sum_rows::{Item, ItemRows, Path, Root, Step};

fn is_out(n: u32, item: &Item) -> bool
    ensures { result ≡ spec.is_out n item.now }
{
    match item {
        Item::Out(m) => n == *m,
        Item::Exit | Item::Lock(_) | Item::Param(_) => false,
    }
}

fn has_out(items: &[ItemRows], n: u32) -> bool
    ensures { result ≡ list_any (λ x. spec.is_out n x.item) items.now }
{
    items.iter().any(|x| is_out(n, &x.item))
}

/// Whether a path leads to what a parameter with such an item points to.
pub fn is_out_path(items: &[ItemRows], path: &Path) -> bool
    ensures { result ≡ spec.is_out_path items.now path.now }
{
    match path.root {
        Root::Global(_) => false,
        Root::Param(n) => match path.steps.as_slice() {
            [] => false,
            [step] => match step {
                Step::Deref => has_out(items, n),
                Step::Field(_) | Step::Elem(_) => false,
            },
            [_, _, ..] => false,
        },
    }
}
