// How a run ended.

ghost use Rattle.std.specs.Prelude.{◌≡◌, ◌++◌, OnOk};
ghost use Rattle.json.specs.Tree.{json_tokens};
ghost use Rattle.report_text.specs.Replays as texts;
ghost use Rattle.run_json.specs.Outcomes as spec;

use json_text::JsonText;
use report_text::Ending;
use sc_base::OutOfMemory;
use sc_world::Reason;

fn reason_word(reason: Reason) -> &'static str
    ensures { result.now ≡ texts.reason_word reason }
{
    match reason {
        Reason::Null => "null",
        Reason::Reach => "reach",
        Reason::Freed => "freed",
        Reason::Type => "type",
        Reason::Index => "index",
        Reason::Divide => "divide",
        Reason::Shift => "shift",
        Reason::Depth => "depth",
        Reason::Alias => "alias",
        Reason::NoRow => "norow",
        Reason::NoReturn => "noreturn",
    }
}

// It is set aside for this reason.
fn put_aside(text: &mut JsonText, reason: Reason) -> Result<(), OutOfMemory>
    ensures { OnOk result (text.new ≡ text.old ++ json_tokens (spec.aside_value reason)) }
{
    text.begin_object()?;
    text.word_member("aside", reason_word(reason))?;
    text.end_object()?;
    Ok(())
}

/// Puts how a run ended.
pub(crate) fn put_outcome(text: &mut JsonText, ending: Ending) -> Result<(), OutOfMemory>
    ensures { OnOk result (text.new ≡ text.old ++ json_tokens (spec.outcome_value ending)) }
{
    match ending {
        Ending::Exit => text.string("exit"),
        Ending::Error => text.string("error"),
        Ending::Inner => text.string("inner"),
        Ending::Aside(reason) => put_aside(text, reason),
    }
}
