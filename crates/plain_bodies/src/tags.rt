// Tags that stand (C11 6.7.2.3).

ghost use Rattle.std.specs.Prelude.{◌≡◌, not, false};
ghost use Rattle.sc_names.specs.Tags.{clashes};
ghost use Rattle.plain_bodies.specs.Tagged as spec;

use sc_base::NameId;
use sc_rules::{Tag, TagKind};
use scopes::Scopes;

// Whether what a name means is a tag of that kind.
fn is_kind(kind: TagKind, tag: Option<Tag>) -> bool
    ensures { result ≡ spec.is_kind kind tag }
{
    match tag {
        None => false,
        Some(t) => kind == t.kind,
    }
}

// Whether what a name means in the innermost scope is no tag of another kind.
fn is_free(kind: TagKind, tag: Option<Tag>) -> bool
    ensures { result ≡ not (clashes kind false tag) }
{
    match tag {
        None => true,
        Some(t) => kind == t.kind,
    }
}

/// Whether a name is a tag of that kind in these scopes, and none of another kind in the innermost.
pub fn is_tagged(tags: &Scopes<Tag>, kind: TagKind, name: NameId) -> bool
    ensures { result ≡ spec.is_tagged tags.now kind name }
{
    is_kind(kind, tags.get(name).copied()) && is_free(kind, tags.get_here(name).copied())
}
