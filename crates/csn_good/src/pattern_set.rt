//! Patterns by their numbers, and sets of them.

ghost use Rattle.std.specs.Prelude.{◌≡◌, ◌<◌, ◌≤◌, ◌+◌, ◌++◌, ◌^◌, ◌⊎◌, ◌↔◌, ◌∷◌, ℕ, suc, [], List, true, length, map};
ghost use Rattle.std.specs.Prelude.{slice_get, IsTrue, Contains, Some, OnOk, OnErr, IfOk};
ghost use Rattle.csn_cert.specs.PatternV.{PatternV};
ghost use Rattle.csn_cert.specs.CertificateV.{IsPattern};
ghost use Rattle.csn_cert.specs.declared.pattern.TheConstants.{MOST_MARKS};
ghost use Rattle.csn_good.specs.Patterns.{shortened};
ghost use Rattle.csn_good.specs.Numbers.{digit_of, mark_for, pattern_number, marks_of, pattern_of};
ghost use Rattle.csn_good.specs.Numbers.{IsNumber, AreNumbers, marked};
ghost use Rattle.csn_good.specs.Behind.{cut_to, CutsSome};

use csn_bits::NoMemory;
use csn_cert::{MOST_MARKS, Mark, Pattern};
use indexmap::IndexSet;
use std::alloc::Global;
use std::marker::Model;

/// So many numbers are kept in a table; of more each has a mark at its place.
const FEW: usize = 10_000;

/// The number of a mark.
fn digit_of(mark: Mark) -> u32
    ensures { result ≡ digit_of mark }
{
    match mark {
        Mark::Zero => 1,
        Mark::One => 2,
        Mark::Any => 3,
    }
}

/// A number that no other pattern has.
pub(crate) fn number_of(pattern: Pattern) -> u32
    ensures number { result ≡ pattern_number pattern }
    ensures few { IsPattern pattern }
{
    let mut number = 0;
    for at in (0..pattern.len()).rev() {
        number = 3 * number + digit_of(pattern.get(at));
    }
    if pattern.whole() {
        2 * number + 1
    } else {
        2 * number
    }
}

/// The mark of a digit.
fn mark_for(digit: u32) -> Mark
    ensures { result ≡ mark_for digit }
{
    if digit == 1 {
        Mark::Zero
    } else if digit == 2 {
        Mark::One
    } else {
        Mark::Any
    }
}

/// Adds the next mark of a number, where there is one, and answers the number of the later ones.
fn push_next(pattern: &mut Pattern, rest: u32) -> u32
    requires { length pattern.old.marks < MOST_MARKS }
    ensures marks { (count : ℕ) → pattern.new.marks ++ marks_of count result ≡ pattern.old.marks ++ marks_of (suc count) rest }
    ensures whole { pattern.new.whole ≡ pattern.old.whole }
    ensures room { length pattern.new.marks ≤ length pattern.old.marks + 1 }
{
    if rest == 0 {
        return 0;
    }
    pattern.push(mark_for((rest - 1) % 3 + 1));
    (rest - 1) / 3
}

/// The pattern that has a number.
pub(crate) fn pattern_of(number: u32) -> Pattern
    ensures { result ≡ pattern_of number }
{
    let mut pattern = Pattern::new(number % 2 == 1);
    let mut rest = number / 2;
    for at in 0..MOST_MARKS {
        rest = push_next(&mut pattern, rest);
    }
    pattern
}

/// How many lists of so many marks there are.
fn power_of(size: u8) -> u32
    requires { size ≤ MOST_MARKS }
    ensures power { result ≡ 3 ^ size }
    ensures some { 0 < result }
    ensures few { result ≤ 531441 }
{
    match size {
        0 => 1,
        1 => 3,
        2 => 9,
        3 => 27,
        4 => 81,
        5 => 243,
        6 => 729,
        7 => 2187,
        8 => 6561,
        9 => 19683,
        10 => 59049,
        11 => 177147,
        _ => 531441,
    }
}

/// The number of the first marks of a pattern, as many as there is room for; cut where there are more.
fn cut_number(number: u32, room: u8) -> u32
    requires number { IsNumber number }
    requires room { room ≤ MOST_MARKS }
    ensures pattern { pattern_of result ≡ cut_to room (pattern_of number) }
    ensures number { IsNumber result }
{
    let power = power_of(room);
    let least = (power - 1) / 2;
    let marks = number / 2;
    if marks <= 3 * least {
        return number;
    }
    2 * (least + (marks - least) % power)
}

/// The number of two patterns one after the other, of which no more marks are kept than a pattern has. The first one is
/// given with its number, and the other by it.
pub(crate) fn joined(first: Pattern, own: u32, rest: u32) -> u32
    requires own { own ≡ pattern_number first }
    requires rest { IsNumber rest }
    ensures pattern { pattern_of result ≡ shortened (first.marks ++ (pattern_of rest).marks) (pattern_of rest).whole }
    ensures number { IsNumber result }
{
    let size = first.len();
    let power = power_of(size);
    let cut = cut_number(rest, MOST_MARKS as u8 - size);
    2 * (own / 2 + power * (cut / 2)) + cut % 2
}

/// Makes room for a mark at each place before the size.
fn grow(marks: &mut Vec<bool>, size: usize) -> Result<(), NoMemory>
    ensures room { OnOk result (size ≤ length marks.new.items) }
    ensures same { marked 0 marks.new.items ≡ marked 0 marks.old.items }
{
    if marks.len() >= size {
        return Ok(());
    }
    marks.resize(size, false)?;
    Ok(())
}

/// Marks a number.
fn mark(marks: &mut Vec<bool>, number: u32) -> Result<(), NoMemory>
    ensures ok { OnOk result ((n : ℕ) → Contains (marked 0 marks.new.items) n ↔ (Contains (marked 0 marks.old.items) n ⊎ (n ≡ number))) }
    ensures err { OnErr result (marked 0 marks.new.items ≡ marked 0 marks.old.items) }
{
    let place = number as usize;
    grow(marks, place + 1)?;
    marks[place] = true;
    Ok(())
}

/// Whether a place is marked.
fn is_marked(marks: &[bool], place: usize) -> bool
    ensures { IsTrue result → slice_get marks.now place ≡ Some true }
{
    place < marks.len() && marks[place]
}

/// Adds a place where it is marked.
fn push_if(numbers: &mut Vec<u32>, place: usize, mark: bool) -> Result<(), NoMemory>
    requires { mark ≡ true → place ≤ 1594321 }
    ensures { OnOk result (numbers.new.items ≡ numbers.old.items ++ marked place (mark ∷ [])) }
{
    if !mark {
        return Ok(());
    }
    numbers.push(place as u32)?;
    Ok(())
}

/// Adds the marked numbers, the least one first.
fn push_marked(numbers: &mut Vec<u32>, marks: &[bool]) -> Result<(), NoMemory>
    requires { AreNumbers (marked 0 marks.now) }
    ensures { OnOk result (numbers.new.items ≡ numbers.old.items ++ marked 0 marks.now) }
{
    for place in 0..marks.len() {
        push_if(numbers, place, marks[place])?;
    }
    Ok(())
}

/// Patterns, kept by their numbers. A contract sees a list of them.
#[derive(Drop)]
pub(crate) struct PatternSet {
    few: IndexSet<u32>,
    marks: Vec<bool>,
}

impl Model for PatternSet {
    ghost use Rattle.std.specs.Prelude.{List, map, ◌++◌};
    ghost use Rattle.csn_cert.specs.PatternV.{PatternV};
    ghost use Rattle.csn_good.specs.Numbers.{pattern_of, marked, AreNumbers};

    ghost Value = { List PatternV };

    ghost view = { λ s. map pattern_of (s.few.keys ++ marked 0 s.marks.items) };

    ghost invariant = { λ s. AreNumbers (s.few.keys ++ marked 0 s.marks.items) };
}

impl PatternSet {
    /// No patterns.
    pub fn new(alloc: Global) -> PatternSet
        ensures { result ≡ [] }
    {
        PatternSet {
            few: IndexSet::new(alloc),
            marks: Vec::new(alloc),
        }
    }

    /// The empty pattern, whole.
    pub fn nothing(alloc: Global) -> Result<PatternSet, NoMemory>
        ensures { IfOk result (λ patterns. (p : PatternV) → Contains patterns p ↔ (p ≡ record { marks = []; whole = true })) }
    {
        let mut patterns = PatternSet::new(alloc);
        let empty = Pattern::new(true);
        patterns.add(empty)?;
        Ok(patterns)
    }

    /// The numbers of the patterns.
    pub fn numbers(&self, alloc: Global) -> Result<Vec<u32>, NoMemory>
        ensures patterns { IfOk result (λ numbers. map pattern_of numbers.items ≡ self.now) }
        ensures numbers { IfOk result (λ numbers. AreNumbers numbers.items) }
    {
        let mut numbers = Vec::new(alloc);
        numbers.extend_from_slice(self.few.as_slice())?;
        push_marked(&mut numbers, self.marks.as_slice())?;
        Ok(numbers)
    }

    /// Whether the pattern with a number is kept.
    fn is_kept(&self, number: u32) -> bool
        ensures { IsTrue result → Contains self.now (pattern_of number) }
    {
        is_marked(self.marks.as_slice(), number as usize) || self.few.contains(&number)
    }

    /// The pattern with a number more.
    pub fn add_number(&mut self, number: u32) -> Result<(), NoMemory>
        requires { IsNumber number }
        ensures { OnOk result ((p : PatternV) → Contains self.new p ↔ (Contains self.old p ⊎ (p ≡ pattern_of number))) }
    {
        if self.few.len() < FEW {
            self.few.insert(number)?;
            return Ok(());
        }
        mark(&mut self.marks, number)
    }

    /// One pattern more.
    pub fn add(&mut self, pattern: Pattern) -> Result<(), NoMemory>
        ensures { OnOk result ((p : PatternV) → Contains self.new p ↔ (Contains self.old p ⊎ (p ≡ pattern))) }
    {
        self.add_number(number_of(pattern))
    }

    /// The patterns, with no more marks than there is room for.
    pub fn cut_to(&self, alloc: Global, room: u8) -> Result<PatternSet, NoMemory>
        requires { room ≤ MOST_MARKS }
        ensures { IfOk result (λ cut. (p : PatternV) → Contains cut p ↔ CutsSome room self.now p) }
    {
        let numbers = self.numbers(alloc)?;
        let mut cut = PatternSet::new(alloc);
        for number in numbers.as_slice() {
            cut.add_number(cut_number(*number, room))?;
        }
        Ok(cut)
    }

    /// Whether each of the patterns is in the other set; else it may be that the answer is no though they are.
    pub fn is_within(&self, alloc: Global, other: &PatternSet) -> Result<bool, NoMemory>
        ensures { IfOk result (λ within. IsTrue within → (p : PatternV) → Contains self.now p → Contains other.now p) }
    {
        let numbers = self.numbers(alloc)?;
        for number in numbers.as_slice() {
            if !other.is_kept(*number) {
                return Ok(false);
            }
        }
        Ok(true)
    }
}
