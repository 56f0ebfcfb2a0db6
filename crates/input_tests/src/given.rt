// Files in memory and words, and what is seen of names.

use sc_base::{MemFiles, NameId, Names, OutOfMemory};
use std::alloc::Global;

/// More names than the files of any test have.
const MANY: usize = 1000;

/// Files in memory with these names and texts, of which the calls of these numbers fail.
pub fn files_of(
    alloc: Global,
    held: &[(&str, &str)],
    failing: &[u64],
) -> Result<MemFiles, OutOfMemory> {
    let mut files = Vec::new(alloc);
    for (name, text) in held {
        let name = String::from_str(alloc, name)?;
        files.push((name, text.as_bytes().to_vec(alloc)?))?;
    }
    Ok(MemFiles::new(files, failing.to_vec(alloc)?))
}

/// The words, each as a text of its own.
pub fn owned(alloc: Global, words: &[&str]) -> Result<Vec<String>, OutOfMemory> {
    let mut all = Vec::new(alloc);
    for word in words {
        all.push(String::from_str(alloc, word)?)?;
    }
    Ok(all)
}

// The text of a name, with a space behind it; nothing of a number that no name has.
fn put_name(out: &mut Vec<u8>, names: &Names, id: NameId) -> Result<(), OutOfMemory> {
    if (id.at as usize) < names.len() {
        out.extend_from_slice(names.text(id).as_bytes())?;
        out.push(b' ')?;
    }
    Ok(())
}

/// The texts of these names, each with a space behind it.
pub fn texts_of(alloc: Global, names: &Names, ids: &[NameId]) -> Result<Vec<u8>, OutOfMemory> {
    let mut out = Vec::new(alloc);
    for id in ids {
        put_name(&mut out, names, *id)?;
    }
    Ok(out)
}

/// The texts of all names in their order, each with a space behind it.
pub fn all_texts(alloc: Global, names: &Names) -> Result<Vec<u8>, OutOfMemory> {
    let mut out = Vec::new(alloc);
    for at in 0..names.len() {
        if at < MANY {
            put_name(&mut out, names, NameId { at: at as u32 })?;
        }
    }
    Ok(out)
}
