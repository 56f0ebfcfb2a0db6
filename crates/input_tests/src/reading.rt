//! What is read of files: names, trees, numbers of files and of bytes, and the machine.

use crate::given::{all_texts, files_of, owned, texts_of};
use fsm_spec::MachineSpec;
use saturn_words::{CheckWords, check_words};
use sc_base::{List, MemFiles, OutOfMemory};
use sc_input::{Input, Refusal, read_input};
use sc_tree::ctype::Widths;
use sc_tree::unit::{Segment, Unit};
use std::alloc::Global;

/// The machine of interrupts, as it stands among the examples.
const INTERRUPTS: &str = "\
machine irq
states on off
op local_irq_disable void on>off off>!
op local_irq_enable void on>! off>on
";

/// Two files with words of C alone and names that both have.
const TWO: [(&str, &str); 2] = [
    ("a.c", "int f(int x){return x;}"),
    ("b.c", "int g;\nint f(int y);"),
];

/// The number of the file, and how many functions and other segments it has.
fn counts(unit: &Unit) -> (u32, u32, u32) {
    let mut functions: u32 = 0;
    let mut others: u32 = 0;
    for segment in unit.segments.as_slice() {
        match segment {
            Segment::Function(_, _) => functions = functions.saturating_add(1),
            _ => others = others.saturating_add(1),
        }
    }
    (unit.file, functions, others)
}

/// What is told of an input.
#[derive(Drop)]
struct Account {
    /// The texts of all names.
    names: Vec<u8>,
    /// The names of the files.
    files: Vec<u8>,
    /// What each tree counts.
    counts: List<(u32, u32, u32)>,
    has_machine: bool,
    used: usize,
}

fn told_of(alloc: Global, input: &Input) -> Result<Account, OutOfMemory> {
    let mut all = List::new(alloc);
    for unit in input.units.as_slice() {
        all.push(counts(unit))?;
    }
    Ok(Account {
        names: all_texts(alloc, &input.names)?,
        files: texts_of(alloc, &input.names, input.files.as_slice())?,
        counts: all,
        has_machine: input.machine.is_some(),
        used: input.used,
    })
}

/// The input that is read of files in memory; none where it is refused.
fn input_of(
    alloc: Global,
    files: &mut MemFiles,
    machine: Option<&str>,
    named: &[&str],
) -> Option<Input> {
    read_input(alloc, files, machine, named).ok()
}

/// What is told of the input that is read of these files.
fn told(alloc: Global, held: &[(&str, &str)], failing: &[u64], named: &[&str]) -> Option<Account> {
    let mut files = files_of(alloc, held, failing).ok()?;
    let input = input_of(alloc, &mut files, None, named)?;
    told_of(alloc, &input).ok()
}

/// Whether all that is told of an input without a machine is this.
fn is_told(
    told: &Account,
    names: &str,
    files: &str,
    counts: &[(u32, u32, u32)],
    used: usize,
) -> bool {
    told.names.as_slice() == names.as_bytes()
        && told.files.as_slice() == files.as_bytes()
        && told.counts.as_slice() == counts
        && !told.has_machine
        && told.used == used
}

/// Files, of which the calls of these numbers fail, the names of the files that are read, and what is told of the
/// input: the texts of all names, the names of the files, what each tree counts, and how many bytes are used.
type Row = (
    &'static [(&'static str, &'static str)],
    &'static [u64],
    &'static [&'static str],
    &'static str,
    &'static str,
    &'static [(u32, u32, u32)],
    usize,
);

const ROWS: &[Row] = &[
    // Trees and names stand in order.
    (
        &TWO,
        &[],
        &["a.c", "b.c"],
        "a.c f x b.c g y ",
        "a.c b.c ",
        &[(0, 1, 0), (1, 0, 2)],
        43,
    ),
    // The order is that of the words.
    (
        &TWO,
        &[],
        &["b.c", "a.c", "b.c"],
        "b.c g f y a.c x ",
        "b.c a.c b.c ",
        &[(0, 0, 2), (1, 1, 0), (2, 0, 2)],
        63,
    ),
    // A file may have the name of a word.
    (
        &[("f", "int f;"), ("int", "")],
        &[],
        &["f", "int"],
        "f int ",
        "f int ",
        &[(0, 0, 1), (1, 0, 0)],
        6,
    ),
    // No file has no tree.
    (&[], &[1], &[], "", "", &[], 0),
];

#[test]
fn trees_and_names_stand_in_order(rt: HostRuntime) {
    for &(held, failing, named, names, files, counts, used) in ROWS {
        let told = told(rt.alloc(), held, failing, named);
        let holds = matches!(&told, Some(told) if is_told(told, names, files, counts, used));
        assert!(rt; holds, "{named:?}");
    }
}

fn is_of_interrupts(machine: &MachineSpec) -> bool {
    machine.name() == "irq"
        && machine.states() == 2
        && machine.operations() == 2
        && machine.find("local_irq_enable") == Some(1)
}

fn machine_is_read(alloc: Global) -> Option<bool> {
    let held = [("a.c", "int x;"), ("irq", INTERRUPTS)];
    let mut files = files_of(alloc, &held, &[]).ok()?;
    let input = input_of(alloc, &mut files, Some("irq"), &["a.c"])?;
    let told = told_of(alloc, &input).ok()?;
    let is_read = matches!(&input.machine, Some(machine) if is_of_interrupts(machine));
    let is_first = told.names.as_slice() == b"a.c x ".as_slice();
    Some(is_read && is_first && told.counts.len() == 1 && told.used == 108)
}

#[test]
fn the_machine_is_read_first(rt: HostRuntime) {
    assert!(rt; machine_is_read(rt.alloc()) == Some(true));
}

/// How many trees there are of so many files, or how many files are refused.
fn trees_of(alloc: Global, count: usize) -> Result<(usize, u64), OutOfMemory> {
    let mut files = files_of(alloc, &[("a.c", "int x;")], &[])?;
    let mut named = Vec::new(alloc);
    for _ in 0..count {
        named.push("a.c")?;
    }
    match read_input(alloc, &mut files, None, named.as_slice()) {
        Ok(input) => Ok((input.units.len(), 0)),
        Err(Refusal::Files(refused)) => Ok((0, refused)),
        Err(_) => Err(OutOfMemory),
    }
}

#[test]
fn sixty_four_files_are_taken(rt: HostRuntime) {
    assert!(rt; trees_of(rt.alloc(), 64) == Ok((64, 0)));
    assert!(rt; trees_of(rt.alloc(), 65) == Ok((0, 65)));
    assert!(rt; trees_of(rt.alloc(), 1000) == Ok((0, 1000)));
}

/// So many spaces.
fn spaces(alloc: Global, count: usize) -> Result<Vec<u8>, OutOfMemory> {
    let room = [b' '; 4096];
    let mut bytes = Vec::new(alloc);
    for _ in 0..count / 4096 {
        bytes.extend_from_slice(&room)?;
    }
    for _ in 0..count % 4096 {
        bytes.push(b' ')?;
    }
    Ok(bytes)
}

/// Files `long.c`, of so many spaces, and `irq`, a machine.
fn long_files(alloc: Global, count: usize) -> Result<MemFiles, OutOfMemory> {
    let mut held = Vec::new(alloc);
    held.push((String::from_str(alloc, "long.c")?, spaces(alloc, count)?))?;
    let machine = INTERRUPTS.as_bytes().to_vec(alloc)?;
    held.push((String::from_str(alloc, "irq")?, machine))?;
    Ok(MemFiles::new(held, Vec::new(alloc)))
}

/// How many bytes are read of the machine and of a file of so many spaces; none where they are too many.
fn bytes_read(
    alloc: Global,
    machine: Option<&str>,
    count: usize,
) -> Result<Option<usize>, OutOfMemory> {
    let mut files = long_files(alloc, count)?;
    match read_input(alloc, &mut files, machine, &["long.c"]) {
        Ok(input) => Ok(Some(input.used)),
        Err(Refusal::Bytes) => Ok(None),
        Err(_) => Err(OutOfMemory),
    }
}

#[test]
fn as_many_bytes_as_the_limit_are_taken(rt: HostRuntime) {
    assert!(rt; bytes_read(rt.alloc(), None, 8388608) == Ok(Some(8388608)));
    assert!(rt; bytes_read(rt.alloc(), None, 8388609) == Ok(None));
}

#[test]
fn the_bytes_of_the_machine_count(rt: HostRuntime) {
    assert!(rt; bytes_read(rt.alloc(), Some("irq"), 8388506) == Ok(Some(8388608)));
    assert!(rt; bytes_read(rt.alloc(), Some("irq"), 8388507) == Ok(None));
    assert!(rt; bytes_read(rt.alloc(), Some("long.c"), 8388609) == Ok(None));
}

const WORDS: &[&str] = &[
    "saturn_check",
    "--machine",
    "irq",
    "b.c",
    "--model",
    "lp64",
    "a.c",
];

/// What is told of the input that such words ask for.
fn told_by(alloc: Global, asked: &CheckWords) -> Option<Account> {
    let held = [TWO[0], TWO[1], ("irq", INTERRUPTS)];
    let mut files = files_of(alloc, &held, &[]).ok()?;
    let options = &asked.options;
    let input = input_of(alloc, &mut files, options.machine, options.files.as_slice())?;
    told_of(alloc, &input).ok()
}

fn words_lead(alloc: Global) -> Option<bool> {
    let words = owned(alloc, WORDS).ok()?;
    let asked = check_words(alloc, words.as_slice()).ok()?;
    let told = told_by(alloc, &asked)?;
    let is_in_order = told.files.as_slice() == b"b.c a.c ".as_slice();
    Some(asked.options.widths == Widths::Lp64 && is_in_order && told.has_machine)
}

#[test]
fn words_lead_to_the_input(rt: HostRuntime) {
    assert!(rt; words_lead(rt.alloc()) == Some(true));
}
