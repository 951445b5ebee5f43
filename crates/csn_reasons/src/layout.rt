//! Where a bracket is missing, as the lines of a rule are laid out.

ghost use Rattle.std.specs.Prelude.{◌≤◌, length};
ghost use Rattle.csn_plan.specs.declared.compiling.TheConstants.{MOST_DESCRIPTION};

use crate::spot::spot_of;
use csn_bits::NoMemory;
use csn_lexer::{Token, TokenKind};
use std::alloc::Global;

/// The most tokens of a rule that is looked at: the time grows with the square of their number.
const MOST_LOOKED_AT: usize = 3_000;

/// What is known of a token: its kind, its line and column in the rule, and whether it is the first of its line.
#[derive(Clone, Copy)]
struct Seen {
    kind: TokenKind,
    line: u32,
    column: u32,
    first: bool,
}

/// An open bracket: which it is, and its line with the column where that begins.
#[derive(Clone, Copy)]
struct Open {
    kind: TokenKind,
    line: u32,
    indent: u32,
}

/// A line and the column where it begins.
#[derive(Clone, Copy)]
struct Begun {
    line: u32,
    indent: u32,
}

/// A bracket that is missing, before the first or the last of some tokens, by their numbers.
#[derive(Clone, Copy)]
pub(crate) struct Missing {
    pub kind: TokenKind,
    pub first: usize,
    pub last: usize,
}

fn is_opening(kind: TokenKind) -> bool {
    matches!(kind, TokenKind::BraceLeft | TokenKind::Less)
}

fn is_closing(kind: TokenKind) -> bool {
    matches!(kind, TokenKind::BraceRight | TokenKind::Greater)
}

/// Whether a token may begin a line right under the brace round it.
fn is_separator(kind: TokenKind) -> bool {
    matches!(
        kind,
        TokenKind::Bar | TokenKind::Bang | TokenKind::BraceRight
    )
}

/// Whether one bracket opens what the other closes.
fn are_pair(open: TokenKind, close: TokenKind) -> bool {
    match open {
        TokenKind::BraceLeft => close == TokenKind::BraceRight,
        _ => close == TokenKind::Greater,
    }
}

/// What is open, which lines a line stands under, and how much speaks against it so far.
#[derive(Drop)]
struct Weighed {
    open: Vec<Open>,
    above: Vec<Begun>,
    line: u32,
    indent: u32,
    against: u32,
}

impl Weighed {
    fn new(alloc: Global) -> Weighed {
        Weighed {
            open: Vec::new(alloc),
            above: Vec::new(alloc),
            line: 0,
            indent: 0,
            against: 0,
        }
    }

    fn speak_against(&mut self, weight: u32) {
        self.against = self.against.saturating_add(weight);
    }

    fn top(&self) -> Option<Open> {
        self.open.as_slice().last().copied()
    }

    /// Takes a bracket: one that closes another is against it.
    fn bracket(&mut self, kind: TokenKind) -> Result<(), NoMemory> {
        if is_opening(kind) {
            let open = Open {
                kind,
                line: self.line,
                indent: self.indent,
            };
            self.open.push(open)?;
        }
        if is_closing(kind) {
            match self.open.pop() {
                Some(open) if are_pair(open.kind, kind) => (),
                _ => self.speak_against(3),
            }
        }
        Ok(())
    }

    /// The line above that begins before this column, and that this line stands under.
    fn line_under(&mut self, column: u32) -> u32 {
        for _ in 0..self.above.len() {
            match self.above.as_slice().last().copied() {
                Some(begun) if begun.indent < column => return begun.line,
                _ => {
                    self.above.pop();
                }
            }
        }
        0
    }

    /// Takes the first token of a line: it is to stand under the line of the innermost open bracket.
    fn begin_line(&mut self, one: Seen) -> Result<(), NoMemory> {
        self.line = one.line;
        self.indent = one.column;
        let under = self.line_under(one.column);
        self.above.push(Begun {
            line: one.line,
            indent: one.column,
        })?;
        let weight = misplaced(one, under, self.top());
        self.speak_against(weight);
        Ok(())
    }

    /// Takes a token.
    fn token(&mut self, one: Seen) -> Result<(), NoMemory> {
        if one.kind == TokenKind::Semicolon && !self.open.is_empty() {
            self.speak_against(3);
        }
        self.bracket(one.kind)
    }
}

/// What speaks against a line that stands under another one, with this bracket open.
fn misplaced(one: Seen, under: u32, top: Option<Open>) -> u32 {
    match top {
        None => {
            if is_separator(one.kind) || under <= 1 {
                0
            } else {
                1
            }
        }
        Some(open) => {
            if open.line == under {
                return 0;
            }
            let brace = open.kind == TokenKind::BraceLeft;
            if is_separator(one.kind) && brace && open.indent == one.column {
                return 0;
            }
            if brace { 1 } else { 2 }
        }
    }
}

/// How much speaks against a rule with a bracket more before a token.
fn weigh(alloc: Global, seen: &[Seen], kind: TokenKind, before: usize) -> Result<u32, NoMemory> {
    let mut weighed = Weighed::new(alloc);
    for at in 0..seen.len() {
        let one = seen[at];
        if at == before && is_closing(kind) {
            weighed.bracket(kind)?;
        }
        if one.first {
            weighed.begin_line(one)?;
        }
        if at == before && is_opening(kind) {
            weighed.bracket(kind)?;
        }
        weighed.token(one)?;
    }
    Ok(weighed.against)
}

/// What is known of the tokens of a rule.
fn seen_in(alloc: Global, rule: &[u8], tokens: &[Token], start: u32) -> Result<Vec<Seen>, NoMemory>
    requires { length rule.now ≤ MOST_DESCRIPTION }
{
    let mut seen = Vec::new(alloc);
    let mut line = 0;
    for token in tokens {
        let spot = spot_of(rule, token.start.saturating_sub(start));
        seen.push(Seen {
            kind: token.kind,
            line: spot.line,
            column: spot.column,
            first: spot.line != line,
        })?;
        line = spot.line;
    }
    Ok(seen)
}

/// How many tokens are of a kind.
fn count_of(tokens: &[Token], kind: TokenKind) -> usize {
    let mut count = 0usize;
    for token in tokens {
        if token.kind == kind {
            count = count.saturating_add(1);
        }
    }
    count
}

/// The bracket of which there is one too few, and no other.
fn lacking(tokens: &[Token]) -> Option<TokenKind> {
    let left = count_of(tokens, TokenKind::BraceLeft);
    let right = count_of(tokens, TokenKind::BraceRight);
    let less = count_of(tokens, TokenKind::Less);
    let greater = count_of(tokens, TokenKind::Greater);
    if less == greater {
        return lesser(left, right, TokenKind::BraceLeft, TokenKind::BraceRight);
    }
    if left == right {
        return lesser(less, greater, TokenKind::Less, TokenKind::Greater);
    }
    None
}

/// The one of two kinds of which there is one fewer.
fn lesser(
    one: usize,
    other: usize,
    one_kind: TokenKind,
    other_kind: TokenKind,
) -> Option<TokenKind> {
    if other.checked_sub(one) == Some(1) {
        return Some(one_kind);
    }
    if one.checked_sub(other) == Some(1) {
        return Some(other_kind);
    }
    None
}

/// The bracket that is missing in a rule that begins at `start`, if it is one, and where it is missing by the way
/// the lines are laid out: the first and the last place that least speaks against.
pub(crate) fn missing_bracket(
    alloc: Global,
    rule: &[u8],
    tokens: &[Token],
    start: u32,
) -> Result<Option<Missing>, NoMemory>
    requires { length rule.now ≤ MOST_DESCRIPTION }
{
    if tokens.len() > MOST_LOOKED_AT {
        return Ok(None);
    }
    let Some(kind) = lacking(tokens) else {
        return Ok(None);
    };
    let seen = seen_in(alloc, rule, tokens, start)?;
    let mut first = 0;
    let mut last = 0;
    let mut least = u32::MAX;
    for at in 1..seen.len() {
        let weight = weigh(alloc, &seen, kind, at)?;
        if weight < least {
            first = at;
        }
        if weight <= least {
            least = weight;
            last = at;
        }
    }
    Ok(Some(Missing { kind, first, last }))
}
