// Paths.

ghost use Rattle.std.specs.Prelude.{◌≡◌, [], ◌∷◌, ◌++◌, IfOk, OnOk, codes};
ghost use Rattle.std.specs.Str.Lossy.{utf8_lossy};
ghost use Rattle.json.specs.Token.{key, string};
ghost use Rattle.json.specs.Tree.{json_tokens};
ghost use Rattle.report_text.specs.Paths as texts;
ghost use Rattle.json_places.specs.Arrays.{array_by};
ghost use Rattle.json_places.specs.Paths as spec;

use crate::check::Check;
use json_text::JsonText;
use report_text::{global_text, name_text, param_text, put_path as put_path_text};
use sc_base::OutOfMemory;
use sc_typed::{Param, Program};
use sum_rows::{Path, Root, Step};

fn put_rooted(text: &mut JsonText, kind: &str, number: u32, name: &str) -> Result<(), OutOfMemory>
    ensures { OnOk result (text.new ≡ text.old ++ json_tokens (spec.rooted_value kind.now number name.now)) }
{
    text.begin_object()?;
    text.word_member("kind", kind)?;
    text.count_member("number", u64::from(number))?;
    text.word_member("name", name)?;
    text.end_object()?;
    Ok(())
}

// Where a path begins.
fn put_root(
    text: &mut JsonText,
    program: &Program,
    params: &[Param],
    root: Root,
) -> Result<(), OutOfMemory>
    ensures { OnOk result (text.new ≡ text.old ++ json_tokens (spec.root_value program.now params.now root)) }
{
    match root {
        Root::Param(n) => put_rooted(text, "parameter", n, param_text(program, params, n)),
        Root::Global(n) => put_rooted(text, "global", n, global_text(program, n)),
    }
}

#[tactic(auto, unfolding(crate::specs::Paths::field_value))]
fn put_field(text: &mut JsonText, name: &str) -> Result<(), OutOfMemory>
    ensures { OnOk result (text.new ≡ text.old ++ json_tokens (spec.field_value name.now)) }
{
    text.begin_object()?;
    text.word_member("field", name)?;
    text.end_object()
}

#[tactic(auto, unfolding(crate::specs::Paths::element_value))]
fn put_element(text: &mut JsonText, k: u32) -> Result<(), OutOfMemory>
    ensures { OnOk result (text.new ≡ text.old ++ json_tokens (spec.element_value k)) }
{
    text.begin_object()?;
    text.count_member("element", u64::from(k))?;
    text.end_object()
}

fn put_step(text: &mut JsonText, program: &Program, step: Step) -> Result<(), OutOfMemory>
    ensures { OnOk result (text.new ≡ text.old ++ json_tokens (spec.step_value program.now step)) }
{
    match step {
        Step::Deref => text.string("target"),
        Step::Field(name) => put_field(text, name_text(program, name)),
        Step::Elem(k) => put_element(text, k),
    }
}

fn put_steps(text: &mut JsonText, program: &Program, steps: &[Step]) -> Result<(), OutOfMemory>
    ensures { OnOk result (text.new ≡ text.old ++ json_tokens (array_by (spec.step_value program.now) steps.now)) }
{
    text.begin_array()?;
    for step in steps {
        put_step(text, program, *step)?;
    }
    text.end_array()?;
    Ok(())
}

// The text of a path.
fn path_text(check: &Check, params: &[Param], path: &Path) -> Result<Vec<u8>, OutOfMemory>
    ensures { IfOk result (λ t. t.items ≡ texts.path_text check.now.program.now params.now path.now) }
{
    let mut spelled = Vec::new(check.alloc);
    put_path_text(&mut spelled, check.alloc, check.program, params, path)?;
    Ok(spelled)
}

// The same as a member.
fn put_text_member(
    text: &mut JsonText,
    check: &Check,
    params: &[Param],
    path: &Path,
) -> Result<(), OutOfMemory>
    ensures { OnOk result (text.new ≡ text.old ++ key (codes "text") ∷ string (utf8_lossy
        (texts.path_text check.now.program.now params.now path.now)) ∷ []) }
{
    let spelled = path_text(check, params, path)?;
    text.bytes_member("text", spelled.as_slice())
}

/// Puts a path that begins at one of these parameters, or at a global.
pub fn put_path(
    text: &mut JsonText,
    check: &Check,
    params: &[Param],
    path: &Path,
) -> Result<(), OutOfMemory>
    ensures { OnOk result (text.new ≡ text.old ++ json_tokens (spec.path_value check.now.program.now params.now path.now)) }
{
    text.begin_object()?;
    put_text_member(text, check, params, path)?;
    text.key("root")?;
    put_root(text, check.program, params, path.root)?;
    text.key("steps")?;
    put_steps(text, check.program, path.steps.as_slice())?;
    text.end_object()?;
    Ok(())
}
