// The lists of bytes.

use blob_base::Bytes;
use std::test::Fail;

#[test]
fn bytes_grow_at_their_end(rt: HostRuntime) -> Result<(), Fail> {
    let mut bytes = Bytes::of(rt.alloc(), b"ab")?;
    bytes.append(rt.alloc(), b"cd")?;
    bytes.push(rt.alloc(), b'e')?;
    assert!(rt; bytes.as_slice() == b"abcde".as_slice());
    assert_eq!(rt; bytes.len(), 5);
    assert_eq!(rt; *bytes.get(4), b'e');
    bytes.clear();
    assert!(rt; bytes.is_empty());
    Ok(())
}

#[test]
fn bytes_of_a_vector(rt: HostRuntime) -> Result<(), Fail> {
    let bytes = Bytes::from_vec(b"xyz".to_vec(rt.alloc())?);
    assert!(rt; bytes.as_slice() == b"xyz".as_slice());
    assert!(rt; bytes.into_vec().as_slice() == b"xyz".as_slice());
    Ok(())
}
