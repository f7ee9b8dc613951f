//! What names stand for.

use pr_lang::{Fixed, FixedOp, Name};
use pr_scope_names::{Instances, Offence, Rule, Static, Statics, Streams, constant, read_name};
use std::alloc::{AllocError, Global};
use std::test::Fail;

fn name(alloc: Global, text: &str) -> Result<Name, AllocError> {
    Ok(Name::new(Vec::from_slice(alloc, text.as_bytes())?))
}

#[test]
fn a_constant_that_is_read(rt: HostRuntime) -> Result<(), Fail> {
    let alloc = rt.alloc();
    let mut statics = Statics::new(alloc)?;
    let k = name(alloc, "k")?;
    assert!(rt; statics.get(&k).is_none());
    statics.set(alloc, &k, 0, Static::Constant(5))?;
    assert_eq!(rt; read_name(&statics, &k, None), Ok(5));
    statics.set_index(alloc, &k, 9)?;
    assert_eq!(rt; read_name(&statics, &k, None), Ok(9));
    let frame = statics.enter(alloc, 0);
    assert_eq!(rt;
        read_name(&statics, &k, None),
        Err(Offence::Breaks(Rule::Kinds))
    );
    statics.leave(frame);
    statics.unset_index(&k);
    let left = Box::new(alloc, Fixed::Refer(k, None))?;
    let right = Box::new(alloc, Fixed::Number(7))?;
    let less = Fixed::Binary(FixedOp::Sub, left, right);
    assert_eq!(rt;
        constant(&statics, &less),
        Err(Offence::Breaks(Rule::Steps))
    );
    Ok(())
}

#[test]
fn instances_of_a_stream(rt: HostRuntime) -> Result<(), Fail> {
    let alloc = rt.alloc();
    let mut streams = Streams::new(alloc);
    let t = name(alloc, "t")?;
    assert!(rt; !streams.has_name(&t));
    streams.add(alloc, &t, Some(3))?;
    assert!(rt; streams.has_name(&t));
    assert!(rt; streams.has(&t, Some(3)));
    assert!(rt; !streams.has(&t, None));
    Ok(())
}

#[test]
fn what_instances_stand_for(rt: HostRuntime) -> Result<(), Fail> {
    let alloc = rt.alloc();
    let mut instances = Instances::new(alloc);
    let t = name(alloc, "t")?;
    instances.set(alloc, &t, None, 4)?;
    instances.set(alloc, &t, Some(3), 5)?;
    instances.set(alloc, &t, Some(3), 6)?;
    assert_eq!(rt; instances.get(&t, None).copied(), Some(4u64));
    assert_eq!(rt; instances.get(&t, Some(3)).copied(), Some(6));
    assert!(rt; instances.get(&t, Some(4)).is_none());
    Ok(())
}
