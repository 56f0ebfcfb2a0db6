// What a call does, as far as its name tells: the built-in functions.

ghost use Rattle.std.specs.Prelude.{◌≡◌, ◌∷◌, [], bytes_eq, codes};
ghost use Rattle.sc_world.specs.Source as spec;
ghost use Rattle.sc_gather.specs.Seen.{meaning_if};

/// What a call does.
#[derive(Clone, Copy, Debug, PartialEq, Eq)]
pub enum Effect {
    /// The operation of the machine with that number.
    Operation(usize),
    /// It tries to lock; it gives the first number where it succeeds, and else the second.
    Try(u32, u32),
    /// It gives an object or null; with the flag the object is zeroed.
    Allocate(bool),
    /// It frees an object.
    Release,
    /// The program ends.
    Ends,
    /// It gives its first argument.
    Expect,
    /// The kept callee with that place acts by its summary.
    Known(usize),
    /// Nothing is known of it.
    Unknown,
}

// Whether a name is that word.
fn is(name: &[u8], word: &[u8]) -> bool
    ensures { result ≡ bytes_eq word.now name.now }
{
    word == name
}

fn allocates(name: &[u8]) -> bool
    ensures { result ≡ spec.is_one_of (codes "malloc" ∷ codes "kmalloc" ∷ []) name.now }
{
    is(name, b"malloc") || is(name, b"kmalloc")
}

fn allocates_zeroed(name: &[u8]) -> bool
    ensures { result ≡ spec.is_one_of (codes "calloc" ∷ codes "kzalloc" ∷ []) name.now }
{
    is(name, b"calloc") || is(name, b"kzalloc")
}

fn releases(name: &[u8]) -> bool
    ensures { result ≡ spec.is_one_of (codes "free" ∷ codes "kfree" ∷ []) name.now }
{
    is(name, b"free") || is(name, b"kfree")
}

fn ends(name: &[u8]) -> bool
    ensures { result ≡ spec.is_one_of spec.ends_names name.now }
{
    is(name, b"exit")
        || is(name, b"_exit")
        || is(name, b"abort")
        || is(name, b"panic")
        || is(name, b"__assert_fail")
}

/// What a built-in function does, other than an operation of the machine; `None` where the name is no such function.
pub fn built_in(name: &[u8]) -> Option<Effect>
    ensures { meaning_if result ≡ spec.built_in name.now }
{
    if allocates(name) {
        Some(Effect::Allocate(false))
    } else if allocates_zeroed(name) {
        Some(Effect::Allocate(true))
    } else if releases(name) {
        Some(Effect::Release)
    } else if ends(name) {
        Some(Effect::Ends)
    } else if is(name, b"__builtin_expect") {
        Some(Effect::Expect)
    } else {
        None
    }
}

fn tries_to_lock(name: &[u8]) -> bool
    ensures { result ≡ spec.is_one_of (codes "spin_trylock" ∷ codes "mutex_trylock" ∷ []) name.now }
{
    is(name, b"spin_trylock") || is(name, b"mutex_trylock")
}

/// What a function that tries to lock does; `None` where the name is no such function.
pub fn trying(name: &[u8]) -> Option<Effect>
    ensures { meaning_if result ≡ spec.trying name.now }
{
    if tries_to_lock(name) {
        Some(Effect::Try(1, 0))
    } else if is(name, b"pthread_mutex_trylock") {
        Some(Effect::Try(0, 16))
    } else {
        None
    }
}
