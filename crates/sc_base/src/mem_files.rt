// Files in memory, of which some calls fail as they are told to: what tests read from.

ghost use Rattle.std.specs.Prelude.{◌≡◌, ◌<◌, ◌==◌, ◌&&◌, ◌||◌, [], None, Some, true, false, length, min, take, drop, is_err, is_none, is_some, option_map, unwrap_or, MatchResult, MatchOption, IfOk, IsOk, IsTrue, OnOk, OnErr, slice_get, IsSomeAnd};
ghost use Rattle.std.specs.Io.{ReadsAtMost};
ghost use Rattle.sc_base.specs.Causes.{HasCause};
ghost use Rattle.sc_base.specs.Held.{bytes_of, is_named, IsWhole, Gives};
ghost use Rattle.sc_base.specs.Memory.{is_to_fail, firm_names, after_fault, after_call, named_bytes, content_at};

use crate::{Failed, Files};
use std::marker::Model;

// Where reading stands: the place of the started file, and how many of its bytes were read.
#[derive(Clone, Copy, Debug)]
struct Place {
    file: usize,
    at: usize,
}

/// Files in memory. Contracts see the files, the numbers of the calls that are to fail, how many
/// calls there were, how often one failed, and what is left of the started file.
///
/// The first call of `start` or `read` has number 1. Of two files of one name the first counts.
#[derive(Debug, Drop)]
pub struct MemFiles {
    files: Vec<(String, Vec<u8>)>,
    failing: Vec<u64>,
    calls: u64,
    faults: u64,
    place: Option<Place>,
}

impl Model for MemFiles {
    ghost use Rattle.std.specs.Prelude.{◌≤◌, drop, length, option_map};
    ghost use Rattle.std.specs.Option.{ForSome};
    ghost use Rattle.sc_base.specs.Memory.{FilesInMemory, named_bytes, content_at};

    ghost Value = { FilesInMemory };

    ghost view = { λ f. record {
      held = named_bytes f.files.items;
      failing = f.failing.items;
      calls = f.calls;
      faults = f.faults;
      left = option_map (λ p. drop p.at (content_at f.files.items p.file)) f.place;
    } };

    ghost invariant = { λ f. ForSome f.place (λ p. p.at ≤ length (content_at f.files.items p.file)) };
}

impl MemFiles {
    /// These files, and the numbers of the calls that are to fail. It takes no memory.
    pub fn new(files: Vec<(String, Vec<u8>)>, failing: Vec<u64>) -> MemFiles
        ensures { result ≡ record {
          held = named_bytes files.items;
          failing = failing.items;
          calls = 0;
          faults = 0;
          left = None;
        } }
    {
        MemFiles {
            files,
            failing,
            calls: 0,
            faults: 0,
            place: None,
        }
    }
}

// The place of the first file of that name.
fn place_of(files: &[(String, Vec<u8>)], name: &str) -> Option<usize>
    ensures { bytes_of name.now (named_bytes files.now) ≡ option_map (content_at files.now) result }
{
    for (place, file) in files.iter().enumerate() {
        if name == file.0.as_str() {
            return Some(place);
        }
    }
    None
}

// The bytes of the file at that place.
fn content(files: &[(String, Vec<u8>)], place: usize) -> &[u8]
    ensures { result.now ≡ content_at files.now place }
{
    match files.get(place) {
        Some(file) => file.1.as_slice(),
        None => &[],
    }
}

// Copies as many bytes as there are, or as fit, and answers how many.
fn copy_front(from: &[u8], buf: &mut [u8]) -> usize
    ensures count { result ≡ min (length from.now) (length buf.old) }
    ensures bytes { take result buf.new ≡ take result from.now }
{
    let count = from.len().min(buf.len());
    buf[..count].copy_from_slice(&from[..count]);
    count
}

impl Files for MemFiles {
    ghost held = { λ f. Some f.held };

    ghost left = { λ f. f.left };

    ghost started = { λ f. is_some f.left };

    ghost firmly = { λ f. is_some f.left && (length f.failing == 0) };

    ghost firm = { firm_names };

    ghost faults = { λ f. f.faults };

    /// Fails exactly where the call is to fail, or no file has that name.
    fn start(&mut self, name: &str) -> Result<(), Failed>
        ensures held { Some self.new.held ≡ Some self.old.held }
        ensures firm { firm_names self.new ≡ firm_names self.old }
        ensures started { OnOk result (is_some self.new.left ≡ true) }
        ensures firmly { OnOk result ((is_some self.new.left && (length self.new.failing == 0)) ≡ is_named name.now (firm_names self.old)) }
        ensures whole { OnOk result (IsWhole (Some self.old.held) name.now self.new.left) }
        ensures ended { OnErr result (is_some self.new.left ≡ false) }
        ensures sure { IsTrue (is_named name.now (firm_names self.old)) → IsOk result }
        ensures cause { HasCause self.old.faults self.new.faults result }

        ensures fails { is_err result ≡ (is_to_fail self.old || is_none (bytes_of name.now self.old.held)) }
        ensures after { MatchResult result (λ _. self.new ≡ after_call self.old (bytes_of name.now self.old.held)) (λ _. self.new ≡ after_fault self.old) }
    {
        self.calls = self.calls.saturating_add(1);
        self.place = None;
        if !self.failing.contains(&self.calls) {
            if let Some(file) = place_of(&self.files, name) {
                self.place = Some(Place { file, at: 0 });
                return Ok(());
            }
        }
        self.faults = self.faults.saturating_add(1);
        Err(Failed)
    }

    /// Fails exactly where the call is to fail, and else gives as much as there is or as fits.
    fn read(&mut self, buf: &mut [u8]) -> Result<usize, Failed>
        requires room { 0 < length buf.old }
        requires started { IsTrue (is_some self.old.left) }
        ensures held { Some self.new.held ≡ Some self.old.held }
        ensures firm { firm_names self.new ≡ firm_names self.old }
        ensures bound { ReadsAtMost result buf.new }
        ensures bytes { Gives self.old.left self.new.left result buf.new }
        ensures started { OnOk result (is_some self.new.left ≡ true) }
        ensures firmly { OnOk result ((is_some self.new.left && (length self.new.failing == 0)) ≡ (is_some self.old.left && (length self.old.failing == 0))) }
        ensures ended { OnErr result (is_some self.new.left ≡ false) }
        ensures sure { IsTrue (is_some self.old.left && (length self.old.failing == 0)) → IsOk result }
        ensures cause { HasCause self.old.faults self.new.faults result }

        ensures fails { is_err result ≡ is_to_fail self.old }
        ensures after { MatchResult result (λ n. self.new ≡ after_call self.old (option_map (drop n) self.old.left)) (λ _. self.new ≡ after_fault self.old) }
        ensures fits { IfOk result (λ n. n ≡ min (length (unwrap_or self.old.left [])) (length buf.old)) }
    {
        self.calls = self.calls.saturating_add(1);
        if let Some(place) = self.place {
            if !self.failing.contains(&self.calls) {
                let rest = &content(&self.files, place.file)[place.at..];
                let count = copy_front(rest, buf);
                self.place = Some(Place {
                    file: place.file,
                    at: place.at + count,
                });
                return Ok(count);
            }
        }
        self.place = None;
        self.faults = self.faults.saturating_add(1);
        Err(Failed)
    }
}
