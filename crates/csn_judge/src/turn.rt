use crate::source::Source;

/// What comes of one turn of the machine.
#[derive(Clone, Copy)]
pub(crate) enum Turn {
    /// It has gone on.
    Moved,
    /// It cannot go on without a further bit.
    Waits,
    /// The bits before this place can be followed, and no further one.
    Refused { place: u32 },
}

/// What comes of a part that is read at once, where another frame may stand behind it.
#[derive(Clone, Copy)]
pub(crate) enum PartTurn {
    /// It has ended, and what stands behind it goes on.
    Ended,
    /// It has not.
    Turn(Turn),
}

/// What comes of one turn in which a node may begin.
#[derive(Clone, Copy)]
pub(crate) enum Next {
    /// This node begins next.
    Begin { node: u16 },
    /// None does.
    Turn(Turn),
}

impl Turn {
    ghost use Rattle.csn_judge.specs.Turns.{IsStopped};

    /// Nothing takes a bit: one that is there is refused.
    pub fn stopped(source: &Source<'_>) -> Turn
        ensures { IsStopped source.now result }
    {
        let place = source.place();
        if source.is_empty() {
            Turn::Waits
        } else {
            Turn::Refused { place }
        }
    }
}
