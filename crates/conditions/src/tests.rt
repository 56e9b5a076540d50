// Worked texts over the variables x and y, with values worked out by hand.
use crate::conditions::Conditions;
use crate::variables::Variables;
use cpog::refusal::Refusal;
use std::alloc::{AllocError, Global};
use std::test::Fail;

fn x_and_y(heap: Global) -> Result<Variables, AllocError> {
    let mut variables = Variables::new(heap)?;
    let _ = variables.declare(b'x') && variables.declare(b'y');
    Ok(variables)
}

// What the text comes to at an opcode, or the number that it is refused with.
fn read(heap: Global, text: &str, opcode: u16) -> Result<Result<bool, u8>, AllocError> {
    let mut all = Conditions::new(heap)?;
    let variables = x_and_y(heap)?;
    match all.store(&variables, text.as_bytes()) {
        Ok(root) => Ok(Ok(all.value(root, opcode))),
        Err(refusal) => Ok(Err(refusal.number())),
    }
}

#[test]
fn and_binds_tighter_than_or(rt: HostRuntime) -> Result<(), Fail> {
    let heap = rt.alloc();
    assert!(rt; read(heap, "!x&y", 2)? == Ok(true));
    assert!(rt; read(heap, "!x&y", 3)? == Ok(false));
    assert!(rt; read(heap, "x|y&0", 1)? == Ok(true));
    assert!(rt; read(heap, "x|y&0", 2)? == Ok(false));
    Ok(())
}

#[test]
fn twelve_deep_and_no_deeper(rt: HostRuntime) -> Result<(), Fail> {
    let heap = rt.alloc();
    assert!(rt; read(heap, "!!!!!!!!!!!!x", 1)? == Ok(true));
    assert!(rt; read(heap, "!!!!!!!!!!!!!x", 1)? == Err(6));
    Ok(())
}

#[test]
fn what_is_no_condition(rt: HostRuntime) -> Result<(), Fail> {
    let heap = rt.alloc();
    let long = "x&x&x&x&x&x&x&x&x&x&x&x&x&x&x&x&x&x&x&x&x&x&x&x&x&x&x&x&x&x&x&x&x";
    assert!(rt; long.len() == 65);
    for text in ["", long, "x|", "(x", "X", "z"] {
        assert!(rt; read(heap, text, 0)? == Err(5), "{text}");
    }
    Ok(())
}

#[test]
fn the_nodes_run_out(rt: HostRuntime) -> Result<(), Fail> {
    let mut all = Conditions::new(rt.alloc())?;
    let variables = x_and_y(rt.alloc())?;
    // 32 letters and 31 signs, 63 nodes: 32 such texts fit, and a 33rd does not.
    let text = b"x&x&x&x&x&x&x&x&x&x&x&x&x&x&x&x&x&x&x&x&x&x&x&x&x&x&x&x&x&x&x&x";
    for _ in 0..32 {
        assert!(rt; all.store(&variables, text).is_ok());
    }
    assert!(rt; matches!(all.store(&variables, text), Err(Refusal::TooManyNodes)));
    assert!(rt; all.store(&variables, b"y").is_ok());
    Ok(())
}
