use crate::texts::desc_of;
use csn_compat::compat;
use csn_desc::Reading;
use std::test::Fail;

#[test]
fn a_later_message_takes_the_blocks_of_an_earlier_one(rt: HostRuntime) -> Result<(), Fail> {
    let was = "<M> ::= 0 <A : bit (3)> <B : bit (4)> ;";
    let now = "<M> ::= { 0 <A : bit (3)> <Later : bit (**)> | 1 } ;";
    let was = desc_of(rt.alloc(), was, Reading::Received)?;
    let now = desc_of(rt.alloc(), now, Reading::Received)?;
    if was.reading() != now.reading() {
        return Err("two readings".into());
    }
    assert_eq!(rt; (compat(&was, &now), compat(&now, &was)), (true, false));
    Ok(())
}
