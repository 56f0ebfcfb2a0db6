// Functions that a generator makes: a grammar is followed by numbers in a fixed order without a pattern.

use sc_base::OutOfMemory;
use std::alloc::Global;

/// Numbers in a fixed order without a pattern.
#[derive(Debug, Drop)]
pub struct Numbers {
    pub state: u64,
}

impl Numbers {
    /// The next number below a bound, or 0 where that is 0.
    pub fn below(&mut self, bound: usize) -> usize {
        self.state = self
            .state
            .wrapping_mul(6364136223846793005)
            .wrapping_add(1442695040888963407);
        let number = (self.state >> 33) as usize;
        if bound == 0 { 0 } else { number % bound }
    }

    // One of some forms.
    fn form(&mut self, forms: &[&'static str]) -> &'static str {
        let at = self.below(forms.len());
        match forms.get(at) {
            None => "0",
            Some(form) => form,
        }
    }
}

/// The forms of a part: those without parts, and those in which letters stand for parts.
#[derive(Clone, Copy)]
pub struct Forms {
    pub leaves: &'static [&'static str],
    pub inner: &'static [&'static str],
}

/// What is made of each letter.
#[derive(Clone, Copy)]
pub struct Grammar {
    /// All that stands before the first expression.
    pub head: &'static str,
    /// `I`: numbers.
    pub integers: Forms,
    /// `L`: lvalues of numbers.
    pub numbers: Forms,
    /// `P`: pointers to `_Bool`.
    pub pointers: Forms,
    /// `V`: variables that hold such pointers.
    pub variables: Forms,
    /// `O`: lvalues of a struct.
    pub objects: Forms,
}

impl Grammar {
    fn forms(&self, letter: char) -> Option<Forms> {
        match letter {
            'I' => Some(self.integers),
            'L' => Some(self.numbers),
            'P' => Some(self.pointers),
            'V' => Some(self.variables),
            'O' => Some(self.objects),
            _ => None,
        }
    }
}

// Writes one of the forms; its parts are at most so deep.
fn write(
    out: &mut String,
    grammar: &Grammar,
    numbers: &mut Numbers,
    forms: Forms,
    depth: u32,
) -> Result<(), OutOfMemory> {
    let Some(below) = depth.checked_sub(1) else {
        out.push_str(numbers.form(forms.leaves))?;
        return Ok(());
    };
    if forms.inner.is_empty() {
        out.push_str(numbers.form(forms.leaves))?;
        return Ok(());
    }
    for letter in numbers.form(forms.inner).chars() {
        match grammar.forms(letter) {
            None => out.push(letter)?,
            Some(forms) => write(out, grammar, numbers, forms, below)?,
        }
    }
    Ok(())
}

/// The text of a function whose body is some expressions; their parts are at most so deep.
pub fn function(
    alloc: Global,
    grammar: &Grammar,
    numbers: &mut Numbers,
    depth: u32,
) -> Result<String, OutOfMemory> {
    let mut text = String::new(alloc);
    text.push_str(grammar.head)?;
    for _statement in 0..numbers.below(3) {
        write(&mut text, grammar, numbers, grammar.integers, depth)?;
        text.push_str(";")?;
    }
    text.push_str("return ")?;
    write(&mut text, grammar, numbers, grammar.integers, depth)?;
    text.push_str(";}")?;
    Ok(text)
}
