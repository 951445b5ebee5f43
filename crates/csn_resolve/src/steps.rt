ghost use Rattle.std.specs.Prelude.{◌≡◌, ◌<◌, ◌+◌, ◌++◌, ◌==◌, [], ◌∷◌, IfOk, OnOk, MatchResult};
ghost use Rattle.csn_desc.specs.declared.reading.Reading.{Reading as ReadingV};
ghost use Rattle.csn_resolve.specs.declared.why.Why.TheVariants.{TooDeep};
ghost use Rattle.csn_resolve.specs.Steps.{refused_if, begins};
ghost use Rattle.csn_resolve.specs.Walk.{inside, in_turn, turn_begun};
ghost use Rattle.csn_resolve.specs.Going.{Goes, Checks, Stops, way, gone};
ghost use Rattle.csn_resolve.specs.Views.{around_view, end_view, entered_view, seen_view};

use crate::around::Seen;
use crate::begun::{Around, Begun, Turn};
use crate::fault::ResolveFault;
use crate::tail::End;
use crate::why::Why;
use csn_desc::MOST_NODES;

/// The most nodes, names and braces inside one another.
const MOST_DEPTH: u8 = 64;

/// A refusal at a byte of the text.
pub(crate) fn refusal(why: Why, place: u32) -> ResolveFault
    ensures { result ≡ ResolveFault.Refused why place }
{
    ResolveFault::Refused { why, place }
}

/// A node, a name or a pair of braces is entered, not inside 64 others.
pub(crate) fn enter(around: Around<'_>, place: u32) -> Result<(), ResolveFault>
    ensures steps { Checks (refused_if (around.entry.depth == 64) TooDeep place) result }
    ensures shallow { OnOk result (around.entry.depth < 64) }
{
    if around.depth == MOST_DEPTH {
        return Err(refusal(Why::TooDeep, place));
    }
    Ok(())
}

/// A node is entered, and begun.
pub(crate) fn begin(around: Around<'_>, place: u32, begun: Begun) -> Result<Begun, ResolveFault>
    ensures steps { Goes begun.nodes (refused_if (around.entry.depth == 64) TooDeep place ++ begins place ∷ []) result }
    ensures shallow { OnOk result (around.entry.depth < 64) }
{
    enter(around, place)?;
    if begun.nodes == MOST_NODES {
        return Err(refusal(Why::TooManyNodes, place));
    }
    Ok(Begun {
        nodes: begun.nodes + 1,
    })
}

/// Inside one node, name or pair of braces more.
pub(crate) fn inside<'a>(around: Around<'a>) -> Around<'a>
    requires { around.depth < 64 }
    ensures depth { result.depth ≡ around.entry.depth + 1 }
    ensures around { (r : ReadingV) → around_view r result ≡ inside (around_view r around.entry) }
{
    Around {
        depth: around.depth + 1,
        names: around.names,
        seen: around.seen,
    }
}

/// Behind items of a sequence or truncation, which are seen.
pub(crate) fn behind<'a>(around: Around<'a>, seen: &'a Seen<'a>) -> Around<'a>
    ensures depth { result.depth ≡ around.entry.depth }
    ensures around { (r : ReadingV) → around_view r result ≡ record {
      depth = around.entry.depth;
      names =
          entered_view around.entry.names.now;
      seen = seen_view r seen.now;
    } }
{
    Around {
        depth: around.depth,
        names: around.names,
        seen,
    }
}

/// The repetition of a rule in tail form and its braces are entered, then the sequence in them and its
/// word: what stands round its items, and how many nodes are begun.
pub(crate) fn begin_turn<'a>(
    around: Around<'a>,
    end: End<'_>,
    begun: Begun,
) -> Result<Turn<'a>, ResolveFault>
    ensures steps { (r : ReadingV) → MatchResult result
        (λ turn. way begun.nodes (turn_begun (around_view r around.entry) (end_view end.entry)) ≡ gone turn.begun.nodes)
        (λ fault. Stops (way begun.nodes (turn_begun (around_view r around.entry) (end_view end.entry))) fault) }
    ensures depth { IfOk result (λ turn. turn.around.depth ≡ around.entry.depth + 3) }
    ensures around { (r : ReadingV) → IfOk result (λ turn. around_view r turn.around ≡ in_turn (around_view r around.entry)) }
{
    let begun = begin(around, end.braces, begun)?;
    let braces = inside(around);
    enter(braces, end.braces)?;
    let sequence = inside(braces);
    let begun = begin(sequence, end.again.at, begun)?;
    let around = inside(sequence);
    let begun = begin(around, end.again.at, begun)?;
    Ok(Turn { around, begun })
}
