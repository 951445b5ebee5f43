ghost use Rattle.std.specs.Prelude.{◌≡◌, IfOk, IfErr};
ghost use Rattle.csn_certify.specs.Conflicts.{Certified};
ghost use Rattle.csn_certify.specs.Certifying.{IsToldOf, IsFaultOf};
ghost use Rattle.csn_certify.specs.PickTables.{ArePickTables};
ghost use Rattle.csn_certify.specs.Layouts.{AreLayouts};
ghost use Rattle.csn_certify.specs.Plans.{HasOneTree};

use crate::conflict::Conflict;
use crate::layouts::{Layout, layouts};
use crate::pick_tables::PickTables;
use crate::plan::Plan;
use crate::search::first_conflict;
use csn_bits::NoMemory;
use csn_desc::Desc;
use csn_look::{Look, Reach};
use std::alloc::Global;
use thiserror::Error;

/// Why a description has no plan.
#[derive(Debug, Drop, PartialEq, Eq, Error)]
pub enum CertifyFault {
    /// It is not certified, and this is the first of its conflicts.
    #[error("not certified")]
    Conflict(Conflict),
    #[error("out of memory")]
    NoMemory,
}

impl From<NoMemory> for CertifyFault {
    fn from(_e: NoMemory) -> CertifyFault {
        CertifyFault::NoMemory
    }

    ghost use Rattle.csn_certify.specs.declared.certifying.CertifyFault.TheVariants.{NoMemory as no_memory};

    ghost from_gives = { λ _ e. e ≡ no_memory };
}

/// The plan of a description that is certified, of which any bits have at most one tree; and else the first of
/// its conflicts.
pub fn certify(alloc: Global, desc: Desc) -> Result<Plan, CertifyFault>
    ensures certified { IfOk result (λ plan. (plan ≡ desc) × Certified desc 12) }
    ensures one_tree { IfOk result (λ plan. HasOneTree plan) }
    ensures conflict { IfErr result (IsFaultOf desc) }
{
    let (look, reach) = survey(alloc, &desc)?;
    let (picks, layouts) = tables(alloc, &desc, &look, &reach)?;
    Ok(Plan::new(desc, look, reach, picks, layouts))
}

/// What look-ahead tells of a description, where it has no conflict.
fn survey(alloc: Global, desc: &Desc) -> Result<(Look, Reach), CertifyFault>
    ensures certified { IfOk result (λ told. Certified desc.now 12) }
    ensures told { IfOk result (λ told. IsToldOf desc.now told.0 told.1) }
    ensures conflict { IfErr result (IsFaultOf desc.now) }
{
    let look = Look::new(alloc, desc)?;
    let reach = Reach::new(alloc, desc, &look)?;
    refuse_conflict(alloc, desc, &look, &reach)?;
    Ok((look, reach))
}

/// Refuses a description that has a conflict, and tells the first one.
fn refuse_conflict(
    alloc: Global,
    desc: &Desc,
    look: &Look,
    reach: &Reach,
) -> Result<(), CertifyFault>
    requires told { IsToldOf desc.now look.now reach.now }
    ensures certified { IfOk result (λ done. Certified desc.now 12) }
    ensures conflict { IfErr result (IsFaultOf desc.now) }
{
    match first_conflict(alloc, desc, look, reach)? {
        Some(conflict) => Err(CertifyFault::Conflict(conflict)),
        None => Ok(()),
    }
}

/// The tables of the choices of a description that is certified, and the layouts of its nodes.
fn tables(
    alloc: Global,
    desc: &Desc,
    look: &Look,
    reach: &Reach,
) -> Result<(PickTables, Vec<Option<Layout>>), NoMemory>
    requires certified { Certified desc.now 12 }
    requires told { IsToldOf desc.now look.now reach.now }
    ensures picks { IfOk result (λ made. ArePickTables desc.now made.0) }
    ensures layouts { IfOk result (λ made. AreLayouts desc.now made.1.items) }
{
    let picks = PickTables::new(alloc, desc, look, reach)?;
    let layouts = layouts(alloc, desc)?;
    Ok((picks, layouts))
}
