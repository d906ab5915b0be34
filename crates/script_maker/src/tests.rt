use crate::make_script;
use std::process::Abort;
use std::test::Fail;

// How many bytes and lines a script has.
fn size(text: &[u8]) -> (usize, usize) {
    (
        text.len(),
        text.iter().filter(|byte| **byte == b'\n').count(),
    )
}

#[test]
fn scripts_are_made(rt: HostRuntime) -> Result<(), Fail> {
    let script = make_script(rt.alloc(), 12, 7)?;
    assert!(rt; script.as_slice().starts_with(b"given X1 764 std 6\n"));
    let script = make_script(rt.alloc(), 4096, 0)?;
    assert_eq!(rt; size(script.as_slice()), (117_537, 4162));
    Ok(())
}
