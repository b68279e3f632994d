// What an entry point answered, on one line: a label, the entry point, and the reply in document 01's words. A refusal is its number and
// its values; an order is written as its pairs, and a flow with all the entries that were lent.
use specification::{Counts, Placed, Refusal};
use std::{fmt, io};

// The count of pairs of an order that passes.
#[derive(Clone, Copy)]
struct Passes(usize);

impl fmt::Display for Passes {
    fn fmt<W: fmt::Write>(&self, f: &mut fmt::Formatter<W>) -> fmt::Result {
        write!(f, "passes {}", self.0)
    }
}

// An order file: its length, and its pairs, each as lot and call with nothing between them.
#[derive(Clone, Copy)]
struct Written<'a>(&'a [u8]);

impl fmt::Display for Written<'_> {
    fn fmt<W: fmt::Write>(&self, f: &mut fmt::Formatter<W>) -> fmt::Result {
        write!(f, "{}, order", self.0.len())?;
        let (pairs, _) = self.0.get(7..).unwrap_or(&[]).as_chunks::<2>();
        for [lot, call] in pairs {
            write!(f, " {lot}{call}")?;
        }
        Ok(())
    }
}

// The entries of a flow.
#[derive(Clone, Copy)]
struct Flow<'a>(&'a [u32]);

impl fmt::Display for Flow<'_> {
    fn fmt<W: fmt::Write>(&self, f: &mut fmt::Formatter<W>) -> fmt::Result {
        for units in self.0 {
            write!(f, " {units}")?;
        }
        Ok(())
    }
}

// n and m.
#[derive(Clone, Copy)]
struct Read(Counts);

impl fmt::Display for Read {
    fn fmt<W: fmt::Write>(&self, f: &mut fmt::Formatter<W>) -> fmt::Result {
        write!(f, "{} {}", self.0.lots, self.0.calls)
    }
}

// Whether anything is left in the lots or lacks in the calls, with the units and the cost.
#[derive(Clone, Copy)]
struct Verdict(Placed);

impl fmt::Display for Verdict {
    fn fmt<W: fmt::Write>(&self, f: &mut fmt::Formatter<W>) -> fmt::Result {
        match self.0 {
            Placed::Full(units, cost) => write!(f, "Full {units} {cost}"),
            Placed::Covered(units, cost) => write!(f, "Covered {units} {cost}"),
            Placed::Short(units, cost) => write!(f, "Short {units} {cost}"),
        }
    }
}

// What was answered where nothing was refused, and else the refusal.
#[derive(Clone, Copy)]
struct Answer<T>(Result<T, Refusal>);

impl<T: fmt::Display> fmt::Display for Answer<T> {
    fn fmt<W: fmt::Write>(&self, f: &mut fmt::Formatter<W>) -> fmt::Result {
        match &self.0 {
            Ok(told) => write!(f, "{told}"),
            Err(refusal) => write!(f, "refused {refusal}"),
        }
    }
}

pub fn counts(
    rt: &impl Print,
    label: &str,
    entry_point: &str,
    answer: Result<Counts, Refusal>,
) -> io::Result<()> {
    println!(rt; "{label} {entry_point}: {}", Answer(answer.map(Read)))
}

pub fn checked(rt: &impl Print, label: &str, answer: Result<usize, Refusal>) -> io::Result<()> {
    println!(rt; "{label} check_order: {}", Answer(answer.map(Passes)))
}

pub fn found(
    rt: &impl Print,
    label: &str,
    answer: Result<usize, Refusal>,
    order: &[u8],
) -> io::Result<()> {
    let answer = answer.map(|length| Written(order.get(..length).unwrap_or(order)));
    println!(rt; "{label} find_order: {}", Answer(answer))
}

pub fn placed(
    rt: &impl Print,
    label: &str,
    entry_point: &str,
    answer: Result<Placed, Refusal>,
    flow: &[u32],
) -> io::Result<()> {
    println!(rt;
        "{label} {entry_point}: {}, flow{}",
        Answer(answer.map(Verdict)),
        Flow(flow)
    )
}
