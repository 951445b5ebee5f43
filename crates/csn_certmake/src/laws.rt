//! Laws over the definitions, each the contract of a function that does nothing.

ghost use Rattle.csn_certmake.specs.Laws.{CertificatesHaveOneText, LookAheadIsClaimedOnce, LookAheadIsGood};

/// A certificate that claims what look-ahead knows of a certified description is good for it.
pub fn look_ahead_is_good()
    ensures { LookAheadIsGood }
{
    csn_look::laws::bits_end();
    csn_look::laws::parts_are_reached();
}

/// What look-ahead knows of a description is claimed by one certificate, which has one text.
pub fn certificates_are_one()
    ensures certificate { LookAheadIsClaimedOnce }
    ensures text { CertificatesHaveOneText }
{}
