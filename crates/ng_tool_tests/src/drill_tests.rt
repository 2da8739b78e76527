// Scripts, done and refused. The answers are those of the heap's rules, worked by hand.
use crate::calls::replayed;
use ng_words::Status;
use std::test::Fail;

const SCRIPT: &[u8] = b"m a 0x14\nm b 0x14\nf a\nf a\nf b+8\nf b+16\nf 0x10\nu b\nf b\nf b\n";

const TRANSCRIPT: &[u8] =
    b"m 0x2040\nm 0x2060\nf ok\nf BadIndex\nf Misaligned\nf NotGroup\nf Outside\nu 0x14\nf ok\nf NotGroup\n";

const UNKNOWN_NAME: &[u8] = b"m a 0x14\nf b\n";

#[test]
fn a_script_is_done(rt: HostRuntime) -> Result<(), Fail> {
    let (status, sink) = replayed(rt.alloc(), &["drill", "--pages", "16"], SCRIPT, &[], &[])?;
    assert_eq!(rt; status, Status::Done);
    assert_eq!(rt; sink.bytes(), TRANSCRIPT);
    let (status, sink) = replayed(rt.alloc(), &["drill"], b"", &[], &[])?;
    assert_eq!(rt; status, Status::Done);
    assert_eq!(rt; sink.bytes().len(), 0);
    Ok(())
}

#[test]
fn faults_of_a_script(rt: HostRuntime) -> Result<(), Fail> {
    // A read that fails behind the faulty line hides it not; one before it does.
    let cases: &[(&[&str], &[u64], Status)] = &[
        (&["drill"], &[], Status::BadLine(2)),
        (&["drill"], &[5], Status::BadLine(2)),
        (&["drill"], &[2], Status::ReadFault),
        (&["drill", "--calls"], &[], Status::Usage),
    ];
    for &(words, reads, wanted) in cases {
        let (status, sink) = replayed(rt.alloc(), words, UNKNOWN_NAME, reads, &[])?;
        assert_eq!(rt; status, wanted);
        assert_eq!(rt; sink.bytes().len(), 0);
    }
    let (status, sink) = replayed(rt.alloc(), &["drill"], SCRIPT, &[], &[1])?;
    assert_eq!(rt; status, Status::WriteFault);
    assert_eq!(rt; sink.bytes().len(), 0);
    Ok(())
}
