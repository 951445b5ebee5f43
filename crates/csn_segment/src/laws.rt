//! What holds of the definition, for proofs that stand above this crate. The functions do nothing.
ghost use Rattle.csn_segment.specs.Laws.{MessagesAreShort, OwnTransactionDecides, SecondComesOnce};

/// The answer to a segment is decided by the segments of its own transaction.
pub fn own_transaction_decides()
    ensures { OwnTransactionDecides }
{}

/// A second segment that comes again is refused.
pub fn second_comes_once()
    ensures { SecondComesOnce }
{}

/// A message has at most 42 octets.
pub fn messages_are_short()
    ensures { MessagesAreShort }
{}
