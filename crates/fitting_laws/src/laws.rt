// Typed expressions and layouts.

ghost use Rattle.std.specs.Prelude.{◌≡◌, Ok, true};
ghost use Rattle.sc_world.specs.Source.{Source};
ghost use Rattle.sc_world.specs.Gather.{Found, gather_function, nothing_found};
ghost use Rattle.sc_world.specs.Layout.{Layout};
ghost use Rattle.sc_world.specs.Tree.{Exp};
ghost use Rattle.sc_world.specs.Eval as eval;
ghost use Rattle.layout_laws.specs.Origins.{IsLaidFor};
ghost use Rattle.run_laws.specs.Fits.{Fits};
ghost use Rattle.fitting_laws.specs.Found.{IsFound, StatementFound};
ghost use Rattle.sc_world.specs.Places.{places};
ghost use Rattle.run_laws.specs.Example as example;
ghost use Rattle.run_laws.specs.Functions.{FunctionFits};
ghost use Rattle.fitting_laws.specs.Statements.{FunctionTyped};
ghost use Rattle.fitting_laws.specs.Typed.{BracketsTell, IsTyped};

use layout_laws::locations_are_right;

/// What the body of a function names is among what is found of its text: its members, its globals, its strings, the
/// functions that stand as values, and its calls, each with what it does.
#[tactic(auto, using(crate::proofs::Reading::body_found))]
pub fn texts_are_found()
    ensures { (s : Source) (f : Found) → gather_function s nothing_found ≡ Ok (Prim.tt, f) → StatementFound s f s.body }
{}

/// An expression that is typed, and whose names were found, fits the layout that was laid for them, if no two calls of
/// the text have one bracket.
#[tactic(auto, using(crate::proofs::Fitting::fits))]
pub fn expressions_fit()
    ensures { (s : Source) (f : Found) (p : Layout) (want : eval.Want) (e : Exp) → IsLaidFor s f p.locations
        → p.sites ≡ f.sites → BracketsTell f.sites → IsTyped s want e → IsFound s f e true → Fits p want e }
{}

/// A function that is typed fits the layout that it has, if no two calls of its text have one bracket: so its runs never
/// meet a value of another type than that of its expression.
pub fn functions_fit()
    ensures { (s : Source) (p : Layout) → places s ≡ Ok p → BracketsTell p.sites → FunctionTyped s → FunctionFits s p }
{
    locations_are_right();
}

/// What this law asks can be met: the function of the example is typed, and no two calls of its layout have one bracket.
pub fn a_function_is_typed()
    ensures typed { FunctionTyped example.given }
    ensures brackets { BracketsTell example.laid.sites }
{}
