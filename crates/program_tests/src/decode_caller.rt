//! The caller that decode's README shows.
use decode::decode_text;
use std::alloc::AllocError;

#[test]
fn a_word_and_its_command(rt: HostRuntime) -> Result<(), AllocError> {
    let (text, is_legal) = decode_text(rt.alloc(), "03000000050000000100000000000000")?;
    assert_eq!(rt; (text.as_str(), is_legal), ("CFGI_STE sid=5 leaf=1", true));
    let (text, is_legal) = decode_text(rt.alloc(), "ff000000000000000000000000000000")?;
    assert_eq!(rt; (text.as_str(), is_legal), ("illegal ILL1", false));
    Ok(())
}
