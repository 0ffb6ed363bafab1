use super::Reserved;
use std::test::Fail;

#[test]
fn full_and_let_go(rt: HostRuntime) -> Result<(), Fail> {
    let mut list: Reserved<u8, 3> = Reserved::new(rt.alloc())?;
    assert!(rt; list.len() == 0 && list.as_slice() == b"".as_slice());
    list.push(b'a');
    list.push(b'b');
    list.push(b'c');
    assert!(rt; list.len() == 3 && list.as_slice() == b"abc".as_slice());
    list.clear();
    assert!(rt; list.len() == 0);
    list.push(b'd');
    list.extend_from_slice(b"f");
    list.insert(1, b'e');
    assert!(rt; list.as_slice() == b"def".as_slice());
    assert!(rt; list.pop() == Some(b'f') && list.as_slice() == b"de".as_slice());
    list.truncate(3);
    assert!(rt; list.len() == 2);
    list.truncate(1);
    assert!(rt; list.as_slice() == b"d".as_slice());
    list.clear();
    assert!(rt; list.pop().is_none());
    Ok(())
}
