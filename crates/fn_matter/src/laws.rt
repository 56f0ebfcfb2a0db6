// What equal matters have in common.

ghost use Rattle.std.specs.Prelude.{◌≡◌, ◌↔◌, ◌++◌, ℕ, List};
ghost use Rattle.sc_typed.specs.declared.program.Program.{Program};
ghost use Rattle.fn_matter.specs.Words.{Tree, spell, words};
ghost use Rattle.fn_matter.specs.Matter.{Parts, matter, parts_of, parts_tree, tables};

/// A list that spells parts is read in one way: two matters are equal exactly where all parts are. The same holds of the
/// structs and the globals of a program. What is written of a tree behind numbers that stand already are its words.
pub fn matters_tell_parts()
    ensures parts { (x y : Parts) → words (parts_tree x) ≡ words (parts_tree y) → x ≡ y }
    ensures written { (t : Tree) (ws : List ℕ) → spell t ws ≡ ws ++ words t }
    ensures tables { (p q : Program) → tables p ≡ tables q → (p.structs ≡ q.structs) × (p.globals ≡ q.globals) }
    ensures matters { (p q : Program) (f g : ℕ) → (matter p f ≡ matter q g) ↔ (parts_of p f ≡ parts_of q g) }
{}
