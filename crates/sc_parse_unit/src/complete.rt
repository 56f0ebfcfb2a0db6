//! Laws of the reading: what the grammar spells is read, no tokens spell two trees, and each segment of a
//! file fits one tree alone.
#![tactic(auto)]

ghost use Rattle.std.specs.Prelude.{◌≡◌, ℕ, Bool, List};
ghost use Rattle.sc_base.specs.declared.pos.NameId.{NameId};
ghost use Rattle.sc_tree.specs.declared.token.Token.{Token};
ghost use Rattle.sc_tree.specs.declared.decl.Decl.{Decl};
ghost use Rattle.sc_tree.specs.declared.decl.Init.{Init};
ghost use Rattle.sc_tree.specs.declared.stmt.Stmt.{Stmt};
ghost use Rattle.sc_tree.specs.declared.unit.Segment.{Segment};
ghost use Rattle.sc_tree.specs.Statements.{Initialises, ADeclaration, States};
ghost use Rattle.sc_tree.specs.Units.{Fits, AllFit};
ghost use Rattle.sc_parse_unit.specs.Laws.{IsComplete, IsOutline, IsSegment, AreSegments};

/// Each initialiser, declaration and statement that is spelled with a tree of at most the limit is read,
/// whatever follows that does not go on with it. An `else` behind a statement that could take it does.
#[tactic(auto, using(crate::proofs::Completeness::complete))]
pub fn reading_is_complete()
    ensures { (types : List NameId) (limit : ℕ) → IsComplete types limit }
{}

/// Tokens spell at most one initialiser, and at one height.
#[tactic(auto, using(crate::proofs::Completeness::one_initialiser))]
pub fn one_initialiser()
    ensures { (types : List NameId) (h m : ℕ) (x y : Init) (s : List Token) → Initialises types h x s → Initialises types m y s → (x ≡ y) × (h ≡ m) }
{}

/// Tokens spell at most one declaration of a body, and at one height.
#[tactic(auto, using(crate::proofs::Completeness::one_declaration))]
pub fn one_declaration()
    ensures { (types : List NameId) (h m : ℕ) (x y : Decl) (s : List Token) → ADeclaration types h x s → ADeclaration types m y s → (x ≡ y) × (h ≡ m) }
{}

/// Tokens spell at most one statement, and at one height: an `else` belongs to one `if` alone.
#[tactic(auto, using(crate::proofs::Completeness::one_statement))]
pub fn one_statement()
    ensures { (types : List NameId) (b c : Bool) (h m : ℕ) (x y : Stmt) (s : List Token) → States types b h x s → States types c m y s → (x ≡ y) × (h ≡ m) }
{}

/// A segment is read as a declaration or as the head of a function exactly where it is one.
#[tactic(auto, using(crate::proofs::Completeness::outline))]
pub fn outline_is_read()
    ensures { (types : List NameId) (ts : List Token) → IsOutline types ts }
{}

/// A segment fits what it is read as, and nothing else: the body of a function is a tree exactly where its
/// tokens spell a block, and a segment is skipped exactly where it is neither a declaration nor a function.
pub fn segment_is_read()
    ensures { (types : List NameId) (ts : List Token) → IsSegment types ts }
{}

/// All segments of a file fit what they are read as, and nothing else.
pub fn segments_are_read()
    ensures { (types : List NameId) (ts : List Token) (from : ℕ) (ends : List ℕ) → AreSegments types ts from ends }
{}

/// A segment fits one tree, and leaves the typedef names behind it in one way.
#[tactic(auto, using(crate::proofs::Fitting::one_fit))]
pub fn one_segment()
    ensures { (types us vs : List NameId) (ts : List Token) (x y : Segment) → Fits types us ts x → Fits types vs ts y → (x ≡ y) × (us ≡ vs) }
{}

/// A file, cut at any ends, has segments that fit, and only one list of them.
#[tactic(auto, using(crate::proofs::Fitting::some_list, crate::proofs::Fitting::one_list))]
pub fn one_list_of_segments()
    ensures some { (types : List NameId) (ts : List Token) (from : ℕ) (ends : List ℕ) → (xs : List Segment) × AllFit types ts from ends xs }
    ensures one { (types : List NameId) (ts : List Token) (from : ℕ) (ends : List ℕ) (xs ys : List Segment) → AllFit types ts from ends xs
        → AllFit types ts from ends ys → xs ≡ ys }
{}
