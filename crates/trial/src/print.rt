// How words and answers are printed.
use std::fmt;

// A word in hexadecimal; 0 as it is.
#[derive(Clone, Copy)]
pub struct Word(pub u64);

impl fmt::Display for Word {
    fn fmt<W: fmt::Write>(&self, f: &mut fmt::Formatter<W>) -> fmt::Result {
        match self.0 {
            0 => write!(f, "0"),
            w => write!(f, "{w:016x}"),
        }
    }
}

// A list of words, each behind a space.
#[derive(Clone, Copy)]
pub struct Words<'a>(pub &'a [u64]);

impl fmt::Display for Words<'_> {
    fn fmt<W: fmt::Write>(&self, f: &mut fmt::Formatter<W>) -> fmt::Result {
        for w in self.0 {
            write!(f, " {}", Word(*w))?;
        }
        Ok(())
    }
}

// A list of words as numbers, each behind a space. One type with `Words` would have to carry how to
// print an item.
#[derive(Clone, Copy)]
pub struct Numbers<'a>(pub &'a [u64]);

impl fmt::Display for Numbers<'_> {
    fn fmt<W: fmt::Write>(&self, f: &mut fmt::Formatter<W>) -> fmt::Result {
        for n in self.0 {
            write!(f, " {n}")?;
        }
        Ok(())
    }
}

// What a call told, behind the name of it.
#[derive(Clone, Copy)]
pub struct Told<T>(pub &'static str, pub T);

impl<T: fmt::Display> fmt::Display for Told<T> {
    fn fmt<W: fmt::Write>(&self, f: &mut fmt::Formatter<W>) -> fmt::Result {
        let Told(name, told) = self;
        write!(f, "{name} {told}")
    }
}

// The number of a refusal.
#[derive(Clone, Copy)]
pub struct Refused(pub u64);

impl fmt::Display for Refused {
    fn fmt<W: fmt::Write>(&self, f: &mut fmt::Formatter<W>) -> fmt::Result {
        write!(f, "refused {}", self.0)
    }
}

// What a call answered: what it told, or its refusal.
#[derive(Clone, Copy)]
pub struct Outcome<T>(pub Result<T, Refused>);

impl<T: Drop> Outcome<T> {
    // A call returns 0 where it answers, and otherwise the number of the refusal.
    pub fn of(returned: u64, told: T) -> Self {
        match returned {
            0 => Outcome(Ok(told)),
            n => Outcome(Err(Refused(n))),
        }
    }
}

impl<T: fmt::Display> fmt::Display for Outcome<T> {
    fn fmt<W: fmt::Write>(&self, f: &mut fmt::Formatter<W>) -> fmt::Result {
        match &self.0 {
            Ok(told) => write!(f, "{told}"),
            Err(refused) => write!(f, "{refused}"),
        }
    }
}

// How many words at the start are 0.
pub fn zeros(words: &[u64]) -> usize {
    words.iter().take_while(|w| **w == 0).count()
}
