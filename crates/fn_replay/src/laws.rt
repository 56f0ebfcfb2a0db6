// What holds of replays. A law is the clause of a function that does nothing but cite others.

ghost use Rattle.std.specs.Prelude.{◌≡◌, ◌++◌, [], Bool, List, length};
ghost use Rattle.report_text.specs.Shown.{choice_text, trace_text};
ghost use Rattle.report_text.specs.Replays.{ending_line};
ghost use Rattle.sc_typed.specs.declared.program.Program.{Program};
ghost use Rattle.sc_world.specs.Source.{Source};
ghost use Rattle.sc_world.specs.Paths.{Texts};
ghost use Rattle.sc_world.specs.Shows.{Over};
ghost use Rattle.sc_world.specs.Verdict.{run_over, shown_over};
ghost use Rattle.choice_texts.specs.Choices.{choice_spelled};
ghost use Rattle.sc_typed.specs.declared.program.Function.{Function};
ghost use Rattle.fn_replay.specs.Replays.{ending_of, on_choice, shown_text, told_run, Form, Told};

use choice_texts::no_two_are_spelled_alike;

/// What a report prints of a run is replayed as that run, in each form: its choice is read as it was (`printed`). In text the
/// events are those that the report shows, each on a line without spaces before it; behind them stands how the run ended (`path`).
pub fn printed_runs_are_replayed()
    ensures printed { (form : Form) (p : Program) (f : Function) (s : Source) (x : Texts) (choice : List Bool) → length choice ≡ x.layout.bits
        → on_choice form p f s x (choice_spelled x.layout.bits (choice_text choice)) ≡ Told (told_run form p f s x (run_over s x.layout choice)) }
    ensures path { (p : Program) (x : Texts) (o : Over)
        → shown_text p (shown_over x o) (ending_of o.ended)
        ≡ trace_text p [] (shown_over x o).text (shown_over x o).trace ++ ending_line (ending_of o.ended) (shown_over x o).text }
{
    no_two_are_spelled_alike();
}
