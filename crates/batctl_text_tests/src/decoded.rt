use batctl_text::decode_text;
use mesh_base::NoMemory;

#[test]
fn bytes_that_begin_no_packet_have_one_line(rt: HostRuntime) -> Result<(), NoMemory> {
    let mut out = Vec::new(rt.alloc());
    decode_text(&mut out, &[])?;
    decode_text(&mut out, &[5, 15])?;
    let text = b"bad short have=0 need=2\nbad kind 5\n";
    assert_eq!(rt; out.as_slice(), text.as_slice());
    Ok(())
}
